// Whole state sets: two are joined, one is written or copied, two are compared, and the ones of all are counted.
ghost use Rattle.std.specs.Prelude.{◌≡◌, ◌+◌, ◌≤◌, length, take, drop};
ghost use Rattle.std.specs.Int.Count.{ones};
ghost use Rattle.std.proofs.Math.Seq.{paste};
ghost use Rattle.words.specs.Lists.{written_over};
ghost use Rattle.operations.specs.Marks.{same_words};
ghost use Rattle.operations.specs.Run.{cells_in};
ghost use Rattle.sets.specs.Copyable.{Copyable};
ghost use Rattle.sets.specs.Joined.{joined};
ghost use Rattle.sets.specs.Size.{marks_most};

use super::state::SET_MOST;
use slices::moves::copy_words;
use words::word::WORD_RANGE;

// Puts the states of another set into a set.
#[tactic(auto, unfolding(crate::specs::Joined::joined_to))]
pub fn join(set: &mut [u32], other: &[u32])
    requires { length other.now ≤ length set.old }
    ensures { set.new ≡ joined set.old other.now }
{
    for (k, word) in other.iter().enumerate() {
        set[k] |= *word;
    }
}

// Writes the words of one set to the front of the part that is lent.
pub fn write_set(part: &mut [u32], set: &[u32])
    requires { length set.now ≤ length part.old }
    ensures { part.new ≡ written_over set.now part.old }
{
    copy_words(part, 0, set);
}

// Writes the words of one set from index `at` on, through the part that begins there.
pub fn write_set_at(marks: &mut [u32], at: usize, set: &[u32])
    requires { at + length set.now ≤ length marks.old }
    ensures { marks.new ≡ paste marks.old at set.now (length set.now) }
{
    write_set(&mut marks[at..], set);
}

// Copies the words of the set at index `from` to the places from index `to` on, through a set of its own, since the marks are
// not read while a part of them is lent to be written.
pub fn copy_set(marks: &mut [u32], from: usize, to: usize, size: usize)
    requires { Copyable marks.old from to size }
    ensures { marks.new ≡ paste marks.old to (take size (drop from marks.old)) size }
{
    let mut set = [0u32; SET_MOST];
    write_set(&mut set, &marks[from..from + size]);
    write_set_at(marks, to, &set[..size]);
}

// Whether two sets have the same words.
#[tactic(auto, using(crate::proofs::CompareLaws::pointwise_same))]
pub fn same_words(left: &[u32], right: &[u32]) -> bool
    ensures { result ≡ same_words left.now right.now }
{
    left == right
}

// The ones of two words.
#[tactic(auto, using(crate::proofs::CellCountLaws::pair_laws))]
fn count_pair(low: u32, high: u32) -> usize
    ensures { result ≡ ones low + ones high }
{
    (u64::from(high) * WORD_RANGE + u64::from(low)).count_ones() as usize
}

// The number of ones in the words of all sets. Two words are counted at once, which takes half
// the time.
pub fn count_cells(words: &[u32]) -> usize
    requires { length words.now ≤ marks_most }
    ensures { result ≡ cells_in words.now }
{
    let (pairs, last) = words.as_chunks::<2>();
    let mut cells: usize = 0;
    for pair in pairs {
        cells += count_pair(pair[0], pair[1]);
    }
    cells + last.first().map_or(0, |word| word.count_ones() as usize)
}
