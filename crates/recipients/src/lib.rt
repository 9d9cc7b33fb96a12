// Two recipients on one station: the definitions, in specs/, and laws about them, in proofs/.

#![tactic(auto)]
