//! What a search for a circular wait may leave out.
#![tactic(auto)]

pub mod aim;
pub mod dropped;
pub mod legs;
