// The levels of the additive transform over GF(2^m): their bases, and what each multiplies by.
#![tactic(auto)]

mod adding;
mod bases;
mod levels;
mod twisting;

pub use adding::{add_each, copy_each};
pub use bases::two;
pub use levels::Levels;
pub use twisting::{powers, twist};
