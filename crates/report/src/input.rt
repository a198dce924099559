// How the words of the input are read: part after part, and no more of them than are kept.
ghost use Rattle.std.specs.Prelude.{◌≡◌, ◌*◌, min};
ghost use Rattle.encoding.specs.Words.{word_bytes};
ghost use Rattle.report.specs.Stages.{buffer_words};

use super::CHAPTER_MOST;
use encoding::word_bytes::WORD_BYTES;
use words::limits::{ALPHABET_MOST, EXPRESSION_MOST};

// How many words are kept of each slice: one more than the most that is accepted. What follows makes no difference.
pub const ALPHABET_KEPT: usize = ALPHABET_MOST + 1;

pub const RULE_KEPT: usize = EXPRESSION_MOST + 1;

pub const CHAPTER_KEPT: usize = CHAPTER_MOST + 1;

// The bytes of a buffer, and the words that it holds.
const BUFFER_LENGTH: usize = 4096;

const BUFFER_WORDS: usize = BUFFER_LENGTH / WORD_BYTES;

// How many bytes to read next, where `left` words are still to come: whole words, as many as a buffer holds.
pub fn part_bytes(left: usize) -> usize
    ensures { result ≡ word_bytes * min left buffer_words }
{
    WORD_BYTES * left.min(BUFFER_WORDS)
}

// How many words are kept of `count` in a slice of this length.
pub fn kept_words(count: u32, slice_length: usize) -> usize
    ensures { result ≡ min count slice_length }
{
    (count as usize).min(slice_length)
}
