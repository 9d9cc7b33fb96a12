// The code, its public key and locking. So far their definitions, in specs/, and laws about them, in proofs/.

#![tactic(auto)]
