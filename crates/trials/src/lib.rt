//! Tests of calls that the program's cases do not reach: what becomes of the tables that are passed in, and what breaks the rules.
#![tactic(auto)]

#[cfg(test)]
mod rules_tests;
#[cfg(test)]
mod tests;
