// An upper bound of the height of the tree that a chapter's words make, found run by run while the words are checked. A stack of
// heights would be exact, and cost more than the check.
ghost use Rattle.std.specs.Prelude.{◌≡◌, ◌≤◌, length, IfSome};
ghost use Rattle.words.specs.Lists.{count};
ghost use Rattle.words.specs.Limits.{nodes_most};
ghost use Rattle.words.specs.Word.{node_kind, is_of};
ghost use Rattle.bounds.specs.Runs.{RunReadable, RunOf, TreeReadable, BoundOf};

use super::pairs::Pairs;
use std::num::wrapping_add_u32;
use syntax::chapter::is_element;
use words::word::SYMBOL_RANGE;

// The most words of a run.
pub(crate) const RUN_MOST: usize = 64;

// What reading a run tells where each word is a node, no hole, that has its children: the trees made then; the fewest at any time; and
// how many words brought the trees to no more than the fewest before.
#[derive(Drop)]
pub struct RunFigures {
    pub made: u32,
    pub fewest: u32,
    pub joined: u32,
}

// How many of the words are elements. They are counted apart from the trees, and in a plain loop, since the compiler
// then takes several words at once.
fn count_elements(words: &[u32]) -> u32
    requires { length words.now ≤ nodes_most }
    ensures { result ≡ count (is_of node_kind) words.now }
{
    let mut elements: u32 = 0;
    for word in words {
        elements += u32::from(is_element(*word));
    }
    elements
}

// Reads a run of words after `before` trees; nothing is told where a word fails. A hole, and a symbol that the alphabet lacks, has a rank
// that no number of trees reaches, so that one test finds both and a word that lacks children. The sum is written as one that may wrap,
// which it never does: of a sum that may not, the compiler makes a loop of three cycles a word instead of two; so it does where `joined`
// is counted before `low` is found.
fn read_run(ranks: &[u32], words: &[u32], before: u32) -> Option<RunFigures>
    requires { RunReadable ranks.now words.now before }
    ensures { IfSome result (RunOf ranks.now words.now before) }
{
    if (count_elements(words) as usize) < words.len() {
        return None;
    }
    let mut made = before;
    let mut fewest = before;
    let mut joined: u32 = 0;
    for word in words {
        let children = ranks[(*word % SYMBOL_RANGE) as usize];
        if made < children {
            return None;
        }
        made = wrapping_add_u32(made - children, 1);
        let low = made.min(fewest);
        joined += u32::from(made <= fewest);
        fewest = low;
    }
    Some(RunFigures {
        made,
        fewest,
        joined,
    })
}

// A height that the words' tree does not exceed; nothing if the words make no tree, or one with a hole. There are words, so that they
// make no fewer than one.
pub(crate) fn tree_bound(ranks: &[u32], words: &[u32]) -> Option<u32>
    requires { TreeReadable ranks.now words.now }
    ensures { IfSome result (BoundOf ranks.now words.now) }
{
    let mut pairs = Pairs::new();
    let mut made: u32 = 0;
    for run in words.chunks(RUN_MOST) {
        let figures = read_run(ranks, run, made)?;
        pairs.put_run(figures.fewest, figures.joined);
        made = figures.made;
    }
    if made > 1 {
        return None;
    }
    Some(pairs.bound_at(1))
}
