// What one pass over the words of a chapter tells: whether they make a tree, how high it can be at most, and whether it has a hole.
ghost use Rattle.std.specs.Prelude.{◌≤◌, length};
ghost use Rattle.words.specs.Limits.{nodes_most};
ghost use Rattle.bounds.specs.TreeShape.{ShapeOf};

use super::runs::tree_bound;
use alphabet::{SYMBOLS, write_ranks};
use syntax::chapter::{holes_in, tree_fault};
use words::limits::{HEIGHT_MOST, NODES_MOST};
use words::refusal::Refusal;

// A rank that no number of trees reaches: that of a hole, and of a symbol which the alphabet lacks.
const NO_RANK: u32 = NODES_MOST as u32 + 1;

// A height that the tree does not exceed, or document 01's 10 or 11, the first that applies; and whether there is a hole.
#[derive(Drop)]
pub struct Shape {
    pub bound: Result<usize, Refusal>,
    pub holes: bool,
}

// The shape by the check alone: a tree is not higher than it has words. The words are looked at once more for holes.
fn counted_shape(alphabet: &[u32], words: &[u32]) -> Shape
    ensures { ShapeOf alphabet.now words.now result }
{
    let fault = tree_fault(alphabet, words);
    let holes = holes_in(alphabet, words);
    Shape {
        bound: fault.and(Ok(words.len())),
        holes,
    }
}

// The shape of the words. Few words need no better bound than their number; where many make no tree without a hole, the check tells
// the refusal.
pub fn tree_shape(alphabet: &[u32], words: &[u32]) -> Shape
    requires { length words.now ≤ nodes_most }
    ensures { ShapeOf alphabet.now words.now result }
{
    if words.len() <= HEIGHT_MOST {
        return counted_shape(alphabet, words);
    }
    let mut ranks = [NO_RANK; SYMBOLS];
    write_ranks(alphabet, &mut ranks);
    match tree_bound(&ranks, words) {
        Some(bound) => Shape {
            bound: Ok(words.len().min(bound as usize)),
            holes: false,
        },
        None => counted_shape(alphabet, words),
    }
}
