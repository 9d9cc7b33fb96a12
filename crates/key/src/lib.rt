// Shapes and kept keys (document 01, 'Keys').
#![tactic(auto)]

pub mod checks;
pub mod kept;
pub mod shape;
