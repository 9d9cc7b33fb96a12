// The field's public calls, under a name of their own for the crates that take these alone.
#![tactic(auto)]

pub use field::{add, invert, multiply};
