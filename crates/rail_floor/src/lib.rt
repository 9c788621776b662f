//! Rail floors: up to 4,096 legs, each listed on its own.
#![tactic(auto)]

pub mod build;
pub mod laws;
pub mod legs;
pub mod questions;
pub mod rail;
