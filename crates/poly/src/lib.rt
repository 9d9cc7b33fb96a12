// Polynomials over GF(2^m).
#![tactic(auto)]

mod horner;

pub use horner::{value, value_each};
