//! Plan files: reading one into a plan, and what a file means.
#![tactic(auto)]

mod carriers;
mod cursor;
mod decode;
pub mod draft;
pub mod faults;
mod hall;
pub mod laws;
mod marks;
mod rail;
pub mod read;
pub mod refused;
