// The replacement's root and then its ancestors, nearest first: each is recomputed, until one keeps its words.
#![tactic(auto)]

ghost use Rattle.std.specs.Prelude.{◌≡◌, ◌+◌, ◌-◌, length};
ghost use Rattle.nodes.specs.Marking.{Maintained, NodeMarkable};
ghost use Rattle.propagation.specs.Propagation.{recompute_at, propagate_step, propagate_from, initial, Propagable, PropagationStartable};

use alphabet::node_arity;
use nodes::marking::{Marking, Tree, mark_node};
use sets::state::SET_MOST;
use sets::whole::{same_words, write_set};
use std::ops::ControlFlow;
use tables::head::set_size;

// How far the loop is: how many roots on the stack, counted from the top, reach down to the one whose tree holds the
// replacement (0 before the replacement's root is put there), and how many nodes were recomputed.
#[derive(Drop)]
pub struct Progress {
    pub reach: usize,
    pub recomputed: usize,
}

// Recomputes node i from the marks as they stand. The node's own words there are still those stored before the call: they are
// kept beside until the new ones are compared with them. Answers whether they differ.
fn recompute(tree: Tree, i: usize, marks: &mut [u32], marking: &mut Marking) -> bool
    requires { NodeMarkable tree.alphabet.now tree.indexed.table.now tree.indexed.index.now tree.nodes.now i marks.old marking.old }
    ensures marks { (marks.new, result)
        ≡ recompute_at tree.entry.alphabet.now tree.entry.indexed.table.now tree.entry.nodes.now i marks.old }
    ensures maintained { Maintained tree.entry.alphabet.now tree.entry.indexed.table.now tree.entry.nodes.now (i + 1)
        marks.new marking.new }
{
    let size = set_size(tree.indexed.table);
    let at = i * size;
    let mut before = [0u32; SET_MOST];
    write_set(&mut before, &marks[at..at + size]);
    mark_node(tree, i, marks, marking);
    !same_words(&marks[at..at + size], &before[..size])
}

// Passes node i. A node that takes only roots above the one whose tree holds the replacement is no ancestor of it: its
// words stay. The replacement's root and its ancestors are recomputed; one that keeps its words ends the loop, with how many nodes
// were recomputed.
fn propagate_node(
    tree: Tree,
    i: usize,
    marks: &mut [u32],
    marking: &mut Marking,
    progress: Progress,
) -> ControlFlow<usize, Progress>
    requires { Propagable tree.alphabet.now tree.indexed.table.now tree.indexed.index.now tree.nodes.now i marks.old
        marking.old progress }
    ensures marks { (marks.new, result)
        ≡ propagate_step tree.entry.alphabet.now tree.entry.indexed.table.now tree.entry.nodes.now i marks.old progress }
    ensures maintained { Maintained tree.entry.alphabet.now tree.entry.indexed.table.now tree.entry.nodes.now (i + 1)
        marks.new marking.new }
{
    let children = node_arity(tree.alphabet, tree.nodes[i]);
    if children < progress.reach {
        marking.roots.push(children, i);
        return ControlFlow::Continue(Progress {
            reach: progress.reach - children + 1,
            recomputed: progress.recomputed,
        });
    }
    let changed = recompute(tree, i, marks, marking);
    let recomputed = progress.recomputed + 1;
    if !changed {
        return ControlFlow::Break(recomputed);
    }
    ControlFlow::Continue(Progress {
        reach: 1,
        recomputed,
    })
}

// Passes the nodes from `root` on, the replacement's root, until one that is recomputed keeps its words or the nodes end.
// Answers how many nodes were recomputed; `count` of them before.
pub fn propagate(
    tree: Tree,
    root: usize,
    marks: &mut [u32],
    marking: &mut Marking,
    count: usize,
) -> usize
    requires { PropagationStartable tree.alphabet.now tree.indexed.table.now tree.indexed.index.now tree.nodes.now root marks.old
        marking.old count }
    ensures { (marks.new, result)
        ≡ propagate_from tree.entry.alphabet.now tree.entry.indexed.table.now tree.entry.nodes.now root
        (length tree.entry.nodes.now - root) marks.old (initial count) }
{
    let mut progress = Progress {
        reach: 0,
        recomputed: count,
    };
    for i in root..tree.nodes.len() {
        match propagate_node(tree, i, marks, marking, progress) {
            ControlFlow::Continue(next) => progress = next,
            ControlFlow::Break(recomputed) => return recomputed,
        }
    }
    progress.recomputed
}
