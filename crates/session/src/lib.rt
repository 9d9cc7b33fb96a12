// The session key (request L4): its definitions, in specs/, and laws about them, in proofs/.

#![tactic(auto)]
