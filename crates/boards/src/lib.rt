//! Boards: which carrier holds which place. The kinds of board are crates of their own; each is proved against the trait here.
#![tactic(auto)]

pub mod board;
pub mod empty;
pub mod faults;
pub mod laws;
pub mod moving;
