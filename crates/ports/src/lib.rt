// A rule word's exit and entries, and the entry for one constant.
#![tactic(auto)]

pub mod port;
pub mod states;
