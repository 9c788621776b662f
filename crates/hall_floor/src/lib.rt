//! Hall floors: cells in rows and columns, some of them blocked; open cells that share a side are joined both ways.
#![tactic(auto)]

pub mod build;
pub mod hall;
pub mod laws;
pub mod questions;
pub mod sides;
