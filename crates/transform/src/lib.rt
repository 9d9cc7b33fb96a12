// Values of a polynomial by an additive Fourier transform over GF(2^m).
#![tactic(auto)]

mod everywhere;
mod gathering;
mod halves;
mod joining;

pub use gathering::values;
