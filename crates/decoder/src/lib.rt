// Reading and opening. So far their definitions, in specs/, and laws about them, in proofs/.

#![tactic(auto)]
