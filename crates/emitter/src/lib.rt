// Words of a table written into a lent slice: the constants' transitions, and the own transitions of one word of a rule.
#![tactic(auto)]

mod anything;
pub mod constants;
mod entries;
pub mod own;
pub mod rule_word;
pub mod writer;
