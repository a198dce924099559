// A memo of node steps. Nodes with the same symbol, over children with the same state sets, have the same state set. Of the nodes
// with one state set an earlier one stands for the others, so that a node's symbol and the representatives of its children
// are a key under which its own representative is found.
#![tactic(auto)]

ghost use Rattle.std.specs.Prelude.{◌≡◌, ◌≢◌, ◌<◌, MatchOption, slice_index, slice_set};
ghost use Rattle.words.specs.Limits.{nodes_most};
ghost use Rattle.memo.specs.Memo.{slots_most};

use closures::KeptClosures;
use words::limits::STATES_MOST;

mod key;
pub mod lookup;
mod representative;

// How many steps are remembered at most.
pub const SLOTS_MOST: usize = 1024;

// How many places there are for the nodes that represent others.
pub const PLACES_MOST: usize = 1021;

// What is kept from node to node. Slot s remembers the step with the key keys[s] and the representative known[s], or none where
// the key is 0; places[k] is the last node that took the place k; the closures of states that were worked out; and a stack of
// states, which may hold anything. An array of pairs of a key and a node would take 4 bytes more a slot, and one of options more
// still, on a small stack.
#[derive(Drop)]
pub struct Memo {
    pub keys: [u64; SLOTS_MOST],
    pub known: [u32; SLOTS_MOST],
    pub places: [u32; PLACES_MOST],
    pub closures: KeptClosures,
    pub pending: [u32; STATES_MOST],
}

impl Memo {
    // The node that this slot remembers, if it is for this key.
    fn node_of(&self, slot: usize, key: u64) -> Option<usize>
        requires { slot < slots_most }
        ensures { MatchOption result (slice_index self.now.keys slot ≢ key) (λ node. (slice_index self.now.keys slot ≡ key)
            × (node ≡ slice_index self.now.known slot)) }
    {
        if self.keys[slot] == key {
            return Some(self.known[slot] as usize);
        }
        None
    }

    // Remembers a step in this slot, in the place of the one before.
    fn remember(&mut self, slot: usize, key: u64, node: usize)
        requires slot { slot < slots_most }
        requires node { node < nodes_most }
        ensures { self.new ≡ record self.old { keys = slice_set self.old.keys slot key; known = slice_set self.old.known slot node } }
    {
        self.keys[slot] = key;
        self.known[slot] = node as u32;
    }
}
