// Which words make a rule or a chapter (document 01's terms), where the subtrees begin, and how high they are. Every answer equals
// what a definition of `words` gives.
#![tactic(auto)]

pub mod chapter;
pub mod expression;
pub mod height;
pub mod postfix;
