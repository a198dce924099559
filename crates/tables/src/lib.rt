// The table layer: how many words of a slice are its table, whether words are a table, and what its head says.
#![tactic(auto)]

pub mod check;
pub mod head;
pub mod length;
