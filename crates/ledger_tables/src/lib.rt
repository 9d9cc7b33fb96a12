// Document 01's rows and other calls with their answers, computed from the definitions of `ledger`, in proofs/.

#![tactic(auto)]
