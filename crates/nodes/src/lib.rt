// Nodes of a tree in order, below Run and Exchange: the stack of roots, and nodes that are marked one after the other by a memo.
#![tactic(auto)]

pub mod marking;
pub mod stack;
