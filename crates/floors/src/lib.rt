//! Floors: places, the legs that lead from one to another, and, of a measured floor, how long a leg is.
//! Rail floors and hall floors are crates of their own; each is proved against the traits here.
#![tactic(auto)]

pub mod faults;
pub mod floor;
pub mod legs;
