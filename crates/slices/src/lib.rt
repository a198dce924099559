// Words of a slice: moved, copied and made zero.
#![tactic(auto)]

pub mod moves;
