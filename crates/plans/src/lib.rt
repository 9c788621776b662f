//! Plans: a floor, and carriers with start, goal and path, in the tables that the caller passes in.
#![tactic(auto)]

pub mod carriers;
pub mod fit;
pub mod form;
mod layout;
pub mod plans;
pub mod questions;
pub mod rows;
pub mod short;
pub mod tables;
