// Laws only: proofs/ has the algebra of series, polynomials, registers and Goppa codes over a field of characteristic 2.

#![tactic(auto)]
