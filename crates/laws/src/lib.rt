//! What check, judge and run are about: the rules, chains of legs, pictures, runs and strings of calls, and what holds of every
//! order of turns. The definitions and statements are in specs/; each function of the `.._laws` modules names a theorem.
#![tactic(auto)]

pub mod calls;
pub mod chain_laws;
pub mod example_laws;
pub mod faults;
pub mod motions;
pub mod pairs;
pub mod picture_laws;
pub mod release_laws;
pub mod rule_laws;
pub mod run_laws;
