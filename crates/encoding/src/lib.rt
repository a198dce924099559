// Bytes: texts and decimal numbers are written, words are read, low byte first.
#![tactic(auto)]

pub mod byte_writer;
pub mod word_bytes;
