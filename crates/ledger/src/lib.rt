// A slot and the ledger: their definitions, in specs/, and laws about them, in proofs/.

#![tactic(auto)]
