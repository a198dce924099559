// Nodes marked one after the other by a memo. The stack holds for each root a node with the same state set, its representative: a
// known step then needs no more than the stack and the memo.
ghost use Rattle.std.specs.Prelude.{◌≡◌, ◌+◌, ◌-◌};
ghost use Rattle.nodes.specs.Nodes.{marked_at, marked_from};
ghost use Rattle.nodes.specs.Marking.{Maintained, NodeMarkable, NodesMarkable};

use super::stack::Roots;
use alphabet::node_arity;
use index::Indexed;
use memo::Memo;
use memo::lookup::mark_next;
use words::word::SYMBOL_RANGE;

// A tree over an alphabet, with the table by which it is marked and its index.
#[derive(Clone, Copy)]
pub struct Tree<'a> {
    pub alphabet: &'a [u32],
    pub indexed: Indexed<'a>,
    pub nodes: &'a [u32],
}

// What is kept from node to node: the stack of representatives, and the memo of node steps.
#[derive(Drop)]
pub struct Marking {
    pub roots: Roots,
    pub memo: Memo,
}

// Marks node i, and puts its representative on the stack in the place of its children's.
pub fn mark_node(tree: Tree, i: usize, marks: &mut [u32], marking: &mut Marking)
    requires { NodeMarkable tree.alphabet.now tree.indexed.table.now tree.indexed.index.now tree.nodes.now i marks.old marking.old }
    ensures marks { marks.new
        ≡ marked_at tree.entry.alphabet.now tree.entry.indexed.table.now tree.entry.nodes.now i marks.old }
    ensures maintained { Maintained tree.entry.alphabet.now tree.entry.indexed.table.now tree.entry.nodes.now (i + 1)
        marks.new marking.new }
{
    let w = tree.nodes[i];
    let symbol = w % SYMBOL_RANGE;
    let children = node_arity(tree.alphabet, w);
    let node = mark_next(
        tree.indexed,
        symbol,
        marks,
        marking.roots.top(),
        children,
        i,
        &mut marking.memo,
    );
    marking.roots.push(children, node);
}

// Marks the nodes from `from` up to `to`, one after the other.
pub fn mark_nodes(tree: Tree, from: usize, to: usize, marks: &mut [u32], marking: &mut Marking)
    requires { NodesMarkable tree.alphabet.now tree.indexed.table.now tree.indexed.index.now tree.nodes.now from to
        marks.old marking.old }
    ensures marks { marks.new
        ≡ marked_from tree.entry.alphabet.now tree.entry.indexed.table.now tree.entry.nodes.now from (to - from) marks.old }
    ensures maintained { Maintained tree.entry.alphabet.now tree.entry.indexed.table.now tree.entry.nodes.now to
        marks.new marking.new }
{
    for i in from..to {
        mark_node(tree, i, marks, marking);
    }
}
