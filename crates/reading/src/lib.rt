// Reading and opening on a kept key (document 01, 'Reading and opening').
#![tactic(auto)]

mod calls;

pub use calls::{
    Answer, capsule_bits, capsule_bytes, check_published, check_row, check_word, given, open,
    open_checked, read,
};
