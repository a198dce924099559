// A state set: test, insert, join, write, copy, compare, count. No other crate of code knows a set's bits.
#![tactic(auto)]

pub mod state;
pub mod whole;
