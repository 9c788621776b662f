//! What the program answers to a file.
#![tactic(auto)]

pub mod answer;
pub mod ask;
pub mod show;
