// The import report (request L1): its definitions, in specs/, and laws about them, in proofs/.

#![tactic(auto)]
