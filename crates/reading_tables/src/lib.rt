// Key files, and readings, openings and marked readings at small keys, computed from the definitions of `key`, `decoder` and `marks`, in proofs/.

#![tactic(auto)]
