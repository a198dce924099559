// What one pass over a chapter's words tells: whether they make a tree and hold a hole, which equals what a definition of `words` gives,
// and a bound of the height, which the contract leaves open.
#![tactic(auto)]

mod pairs;
mod runs;
pub mod shape;
