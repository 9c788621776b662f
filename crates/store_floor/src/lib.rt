//! The floor of a store: the one type that a plan's file yields, a rail floor or a hall floor.
#![tactic(auto)]

pub mod questions;
pub mod store;
