// Nodes are marked by a memo: a step that is known by its key is not worked out again.
ghost use Rattle.std.specs.Prelude.{◌≡◌, ◌-◌, ◌*◌, length, take, drop};
ghost use Rattle.std.proofs.Math.Seq.{paste};
ghost use Rattle.words.specs.Limits.{rank_most};
ghost use Rattle.sets.specs.Copyable.{Copyable};
ghost use Rattle.closures.specs.Closure.{Closures};
ghost use Rattle.memo.specs.Memo.{NewMarkable, MarkedNew, NextMarkable, MarkedNext};

use super::Memo;
use super::key::{slot_of, step_key};
use super::representative::representative;
use index::Indexed;
use sets::whole::{copy_set, write_set_at};
use step::node_set;
use tables::head::set_size;
use words::limits::RANK_MOST;

// Works out node i's state set and writes it; answers the node's representative.
fn mark_new(
    indexed: Indexed,
    symbol: u32,
    marks: &mut [u32],
    children: &[u32],
    i: usize,
    memo: &mut Memo,
) -> usize
    requires { NewMarkable indexed.table.now indexed.index.now symbol marks.old children.now i memo.old }
    ensures answer { MarkedNew indexed.entry.table.now symbol marks.old children.now i marks.new result }
    ensures closures { Closures indexed.entry.table.now memo.new.closures }
    ensures keys { memo.new.keys ≡ memo.old.keys }
    ensures known { memo.new.known ≡ memo.old.known }
    ensures places { length memo.new.places ≡ length memo.old.places }
    ensures pending { length memo.new.pending ≡ length memo.old.pending }
{
    let size = set_size(indexed.table);
    let set = node_set(
        indexed,
        symbol,
        marks,
        children,
        &mut memo.closures,
        &mut memo.pending,
    );
    let words = &set[..size];
    let node = representative(marks, words, i, &mut memo.places);
    write_set_at(marks, i * size, words);
    node
}

// Copies the words of an earlier node to node i's place. With a size that is known to be 1 the compiler makes a load and a store
// of the copy.
fn copy_node(marks: &mut [u32], node: usize, i: usize, size: usize)
    requires { Copyable marks.old (node * size) (i * size) size }
    ensures { marks.new ≡ paste marks.old (i * size) (take size (drop (node * size) marks.old)) size }
{
    if size == 1 {
        copy_set(marks, node, i, 1);
        return;
    }
    copy_set(marks, node * size, i * size, size);
}

// Writes the state set of node i, which has this symbol and children that the last `rank` of the four nodes represent; answers
// its representative. The four are the topmost words of the caller's stack as they stand, since a key is packed of all four.
pub fn mark_next(
    indexed: Indexed,
    symbol: u32,
    marks: &mut [u32],
    four: &[u32],
    rank: usize,
    i: usize,
    memo: &mut Memo,
) -> usize
    requires { NextMarkable indexed.table.now indexed.index.now symbol marks.old four.now rank i memo.old }
    ensures { MarkedNext indexed.entry.table.now symbol marks.old (drop (rank_most - rank) four.now) i marks.new result
        memo.new }
{
    let key = step_key(symbol, four, rank);
    let slot = slot_of(key);
    if let Some(found) = memo.node_of(slot, key) {
        copy_node(marks, found, i, set_size(indexed.table));
        return found;
    }
    let children = &four[RANK_MOST - rank..RANK_MOST];
    let node = mark_new(indexed, symbol, marks, children, i, memo);
    memo.remember(slot, key, node);
    node
}
