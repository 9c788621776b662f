//! The rules that a plan is to keep, each as a search for the breach that is named.
#![tactic(auto)]

pub mod paths;
pub mod search;
