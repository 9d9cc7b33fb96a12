// What the programs share.
#![tactic(auto)]

pub mod input;
pub mod line;
pub mod tally;
pub mod values;
