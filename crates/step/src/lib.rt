// A node's state set from its symbol and its children's state sets.
#![tactic(auto)]

ghost use Rattle.std.specs.Prelude.{◌≡◌, ◌++◌, ◌-◌, drop, get_or, replicate};
ghost use Rattle.automaton.specs.Transition.{automaton_of, sources_at};
ghost use Rattle.automaton.specs.StateSet.{all_contained, state_set};
ghost use Rattle.operations.specs.Marks.{size_of};
ghost use Rattle.sets.specs.Size.{set_most};
ghost use Rattle.index.specs.Index.{key_of};
ghost use Rattle.closures.specs.Closure.{Closures};
ghost use Rattle.step.specs.NodeSteppable.{child_sets};
ghost use Rattle.step.specs.Node.{SourcesReadable, Steppable, SymbolFollowable, SymbolFollowed};
ghost use Rattle.step.specs.Node.{TransitionFollowable, TransitionFollowed};

use closures::{KeptClosures, join_closure};
use index::Indexed;
use sets::state::{SET_MOST, contains};
use tables::head::set_size;
use words::word::STATE_RANGE;

// The children of a node: their numbers, and the marks with their state sets of `size` words.
#[derive(Clone, Copy)]
struct Children<'a> {
    marks: &'a [u32],
    nodes: &'a [u32],
    size: usize,
}

impl Children<'_> {
    // Whether the part states from word `at` on are all in the children's sets.
    fn sources_contained(self, table: &[u32], at: usize) -> bool
        requires { SourcesReadable table.now at self.size self.marks.now self.nodes.now }
        ensures { result
            ≡ all_contained (sources_at (drop at table.now))
            (child_sets self.entry.size self.entry.marks.now self.entry.nodes.now) }
    {
        let size = self.size;
        for (k, child) in self.nodes.iter().enumerate() {
            let first = *child as usize * size;
            let state = (table[at + k] % STATE_RANGE) as usize;
            if !contains(&self.marks[first..first + size], state) {
                return false;
            }
        }
        true
    }
}

// Follows the symbol transition at word i: if its part states are in the children's sets, the closure of its target joins the
// set. The set is closed, so that with the target it has the closure already.
fn follow_transition(
    indexed: Indexed,
    i: usize,
    children: Children,
    closures: &mut KeptClosures,
    pending: &mut [u32],
    set: &mut [u32],
)
    requires { TransitionFollowable indexed.table.now indexed.index.now
        children.size children.marks.now children.nodes.now
        closures.old pending.old set.old i }
    ensures { TransitionFollowed indexed.entry.table.now (key_of (get_or indexed.entry.table.now i 0))
        (child_sets children.entry.size children.entry.marks.now children.entry.nodes.now) i set.old set.new
        closures.new }
{
    let target = indexed.target(i);
    if contains(set, target) {
        return;
    }
    if !children.sources_contained(indexed.table, i + 1) {
        return;
    }
    join_closure(indexed, target, closures, pending, set);
}

// Follows the transitions on the symbol, one after the other.
fn follow_symbol(
    indexed: Indexed,
    symbol: u32,
    children: Children,
    closures: &mut KeptClosures,
    pending: &mut [u32],
    set: &mut [u32],
)
    requires { SymbolFollowable indexed.table.now indexed.index.now symbol
        children.size children.marks.now children.nodes.now
        closures.old pending.old set.old }
    ensures { SymbolFollowed indexed.entry.table.now symbol
        (child_sets children.entry.size children.entry.marks.now children.entry.nodes.now) set.new
        closures.new }
{
    let mut word = indexed.first(symbol as usize);
    while let Some(i) = word {
        follow_transition(indexed, i, children, closures, pending, set);
        word = indexed.next(i);
    }
}

// The state set of a node with this symbol over the children with these node numbers, and zeros behind it. The closures that
// are kept and the stack of states are lent; the stack may hold anything.
pub fn node_set(
    indexed: Indexed,
    symbol: u32,
    marks: &[u32],
    children: &[u32],
    closures: &mut KeptClosures,
    pending: &mut [u32],
) -> [u32; SET_MOST]
    requires { Steppable indexed.table.now indexed.index.now symbol marks.now children.now closures.old pending.old }
    ensures answer { result
        ≡ state_set (automaton_of indexed.entry.table.now) symbol
        (child_sets (size_of indexed.entry.table.now) marks.now children.now)
        ++ replicate (set_most - size_of indexed.entry.table.now) 0 }
    ensures closures { Closures indexed.entry.table.now closures.new }
{
    let size = set_size(indexed.table);
    let children = Children {
        marks,
        nodes: children,
        size,
    };
    let mut set = [0u32; SET_MOST];
    follow_symbol(indexed, symbol, children, closures, pending, &mut set);
    set
}
