// The public key by the inverse of H's left part (request L9): definitions, in specs/, and laws about them, in proofs/.

#![tactic(auto)]
