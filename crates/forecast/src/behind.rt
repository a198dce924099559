// The nodes behind the place of an exchange: its ancestors are worked out until one keeps its words, and their totals are added.
ghost use Rattle.std.specs.Prelude.{◌≡◌, not, ◌∷◌, leb};
ghost use Rattle.words.specs.Postfix.{arity};
ghost use Rattle.operations.specs.Marks.{size_of, stored_set, same_words};
ghost use Rattle.totals.specs.TotalsIn.{totals_in};
ghost use Rattle.forecast.specs.Pile.{stack_of};
ghost use Rattle.forecast.specs.Behind.{place_totals, stored_before, KeptAt, Stackable, Passable, Passed, NodesPassable, BehindCountable};

use super::pile::{Pile, Work};
use super::sum::add_set;
use alphabet::node_arity;
use index::Indexed;
use sets::whole::same_words;
use tables::head::set_size;
use totals::Totals;

// A node of a chapter with these marks, and what its ancestors are worked out by.
#[derive(Clone, Copy)]
pub(crate) struct Place<'a> {
    pub alphabet: &'a [u32],
    pub indexed: Indexed<'a>,
    pub nodes: &'a [u32],
    pub marks: &'a [u32],
    pub element: usize,
}

// How far the nodes are passed: how many sets, counted from the top, reach down to the one of the tree that holds the place, whether
// work continues, and the totals. Reach and totals are used whether work continues or not, so that this is a flag.
#[derive(Drop)]
pub struct Passing {
    pub reach: usize,
    pub active: bool,
    pub totals: Totals,
}

// Makes the pile that of the stored sets of the roots of the trees that the first `count` nodes make.
fn stack_sets(place: Place, count: usize, pile: &mut Pile)
    requires { Stackable place count }
    ensures { stack_of (size_of place.entry.indexed.table.now) pile.new ≡ stored_before place.entry count }
{
    let size = set_size(place.indexed.table);
    pile.height = 0;
    for i in 0..count {
        let children = node_arity(place.alphabet, place.nodes[i]);
        let at = i * size;
        pile.put(children, &place.marks[at..at + size]);
    }
}

// Passes a node with word w and this stored set. A node that takes only sets above the one of the tree that holds the place is no
// ancestor: it keeps its set. An ancestor is worked out if work continues, which then ends if its words are the stored ones; it is
// counted.
fn pass_node(
    place: Place,
    w: u32,
    stored: &[u32],
    pile: &mut Pile,
    passing: Passing,
    work: &mut Work,
) -> Passing
    requires { Passable place w stored.now pile.old passing work.old }
    ensures passed { Passed place.entry.alphabet.now place.entry.indexed.table.now w stored.now pile.old passing
        (leb passing.reach (arity place.entry.alphabet.now w)) pile.new result }
    ensures kept { KeptAt place.entry work.new }
{
    let table = place.indexed.table;
    let size = set_size(table);
    let children = node_arity(place.alphabet, w);
    let reach = passing.reach;
    let totals = passing.totals;
    if children < reach {
        pile.put(children, stored);
        return Passing {
            reach: reach - children + 1,
            active: passing.active,
            totals,
        };
    }
    if !passing.active {
        pile.put(children, stored);
        return Passing {
            reach: 1,
            active: false,
            totals: add_set(table, totals, stored),
        };
    }
    let set = pile.step(place.alphabet, place.indexed, w, work);
    let same = same_words(&set[..size], stored);
    Passing {
        reach: 1,
        active: !same,
        totals: add_set(table, totals, &set[..size]),
    }
}

// Passes the nodes behind the place, and answers the totals with those of its ancestors.
fn pass_nodes(place: Place, pile: &mut Pile, passing: Passing, work: &mut Work) -> Totals
    requires { NodesPassable place pile.old passing work.old }
    ensures { totals_in result
        ≡ place_totals place.entry (stack_of (size_of place.entry.indexed.table.now) pile.old) passing.active
        (totals_in passing.totals) }
{
    let size = set_size(place.indexed.table);
    let mut state = passing;
    for i in place.element + 1..place.nodes.len() {
        let at = i * size;
        let stored = &place.marks[at..at + size];
        state = pass_node(place, place.nodes[i], stored, pile, state, work);
    }
    state.totals
}

// The totals with those of the ancestors of the place, where instead of its subtree, which begins at `start`, a tree is put whose root has
// the set `root`.
pub(crate) fn behind_totals(
    place: Place,
    start: usize,
    root: &[u32],
    totals: Totals,
    pile: &mut Pile,
    work: &mut Work,
) -> Totals
    requires { BehindCountable place start root.now totals pile.old work.old }
    ensures { totals_in result
        ≡ place_totals place.entry (root.now ∷ stored_before place.entry start)
        (not (same_words root.now (stored_set (size_of place.entry.indexed.table.now) place.entry.marks.now place.entry.element)))
        (totals_in totals) }
{
    let size = set_size(place.indexed.table);
    stack_sets(place, start, pile);
    pile.put(0, root);
    let at = place.element * size;
    let same = same_words(root, &place.marks[at..at + size]);
    let passing = Passing {
        reach: 1,
        active: !same,
        totals,
    };
    pass_nodes(place, pile, passing, work)
}
