// 'g has a proper factor' (request L5): its definition, in specs/, and laws about it, in proofs/.

#![tactic(auto)]
