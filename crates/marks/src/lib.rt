// Marked reading (request L8): its definitions, in specs/, and laws about them, in proofs/.

#![tactic(auto)]
