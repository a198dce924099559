// The refusals of the operations on a marked chapter (document 01's "Refused calls"): for Run, List and Exchange the first that
// applies.
#![tactic(auto)]

pub mod exchange;
pub mod list;
pub mod run;
mod shared;
