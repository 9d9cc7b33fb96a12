// Reading a word with marked places on a kept key (request L8).
#![tactic(auto)]

mod calls;
mod rows;
mod tries;

pub use calls::read_marked;
