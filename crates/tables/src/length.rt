// The table in a slice (document 02, U1): how many words its length word says.
ghost use Rattle.std.specs.Prelude.{◌≡◌, ◌&&◌, leb};
ghost use Rattle.words.specs.Limits.{table_most};
ghost use Rattle.automaton.specs.Table.{is_length, table_word_count};

use words::limits::TABLE_MOST;
use words::word::{Kind, LENGTH_RANGE, kind_of, spare_bits_clear};

// Whether a table of so many words is one that a slice of this length holds.
fn is_count(slice_length: usize, count: usize) -> bool
    ensures { result ≡ leb 2 count && leb count table_most && leb count slice_length }
{
    2 <= count && count <= TABLE_MOST && count <= slice_length
}

// Whether the word is a length word with a count of 2 to 2,048 that a slice of this length holds.
#[tactic(auto, using(crate::proofs::CheckLaws::length_counted, crate::proofs::CheckLaws::length_unclear))]
fn is_length(slice_length: usize, w: u32) -> bool
    ensures { result ≡ is_length slice_length w }
{
    let count = (w % LENGTH_RANGE) as usize;
    let kind = kind_of(w);
    match kind {
        Kind::Length => spare_bits_clear(w) && is_count(slice_length, count),
        _ => false,
    }
}

// How many words of the slice are its table, or 0 where the length word is missing or wrong. Only the second word is read. The
// documents call such a table empty (02, U1), so that 0 is the count and no Option stands for it.
pub fn table_word_count(slice: &[u32]) -> usize
    ensures { result ≡ table_word_count slice.now }
{
    let Some(&second) = slice.get(1) else {
        return 0;
    };
    if is_length(slice.len(), second) {
        return (second % LENGTH_RANGE) as usize;
    }
    0
}
