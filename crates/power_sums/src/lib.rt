// Sums of powers over all elements of GF(2^m), weighted, by the transpose of an additive Fourier transform.
#![tactic(auto)]

mod folding;
mod merging;
mod totals;

pub use totals::power_sums;
