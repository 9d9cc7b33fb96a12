// Decoding on a kept key (document 01, 'Reading and opening', the usual way).
#![tactic(auto)]

mod decoding;
mod places;
mod points;
mod sums;

pub use decoding::{Found, candidate, decode, in_limits, nothing, settled, word_points};
pub use points::Points;
pub use sums::Sums;
