// Words of 32 bits: the kind that a word is of, which bits it names, the limits, and refusals by name. Every answer equals what a
// definition of `specs/` gives.
#![tactic(auto)]

pub mod limits;
pub mod refusal;
pub mod word;
