//! What all refusals share: each has a number and values, and is printed as these, in decimal, with single spaces.
//! The definitions are in specs/Refusal.antt; there is no code here.
#![tactic(auto)]
