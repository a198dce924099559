// State sets one above the other in an array: a set is put in the place of those of a node's children, or is worked out from them.
ghost use Rattle.std.specs.Prelude.{◌≡◌, length};
ghost use Rattle.words.specs.Limits.{states_most};
ghost use Rattle.forecast.specs.Room.{pile_length};

use alphabet::node_arity;
use closures::KeptClosures;
use index::Indexed;
use sets::state::SET_MOST;
use sets::whole::write_set_at;
use step::node_set;
use tables::head::set_size;
use words::limits::{HEIGHT_MOST, RANK_MOST, STATES_MOST};
use words::word::SYMBOL_RANGE;

// The most sets: so many roots are pending at most while the nodes of a tree of the greatest height and rank are read.
const SETS_MOST: usize = (RANK_MOST - 1) * (HEIGHT_MOST - 1) + 1;

// The words of the array.
pub(crate) const PILE_LENGTH: usize = SETS_MOST * SET_MOST;

// The sets: the first `height` of the array. How many words a set has is known at the call alone, so that no stack of values serves.
#[derive(Drop)]
pub(crate) struct Pile {
    pub sets: [u32; PILE_LENGTH],
    pub height: usize,
    pub ghost long: { length sets ≡ pile_length },
}

// What is kept from node to node: closures of states, and a stack of states, which may hold anything. These are two of the five parts
// of a `Memo`, whose others a forecast does not need and has no room for.
#[derive(Drop)]
pub(crate) struct Work {
    pub closures: KeptClosures,
    pub pending: [u32; STATES_MOST],
    pub ghost long: { length pending ≡ states_most },
}

impl Pile {
    ghost use Rattle.std.specs.Prelude.{◌∷◌, ◌++◌, ◌+◌, ◌-◌, drop, replicate};
    ghost use Rattle.words.specs.Postfix.{arity, value_on};
    ghost use Rattle.operations.specs.Marks.{size_of, node_set};
    ghost use Rattle.sets.specs.Size.{set_most};
    ghost use Rattle.forecast.specs.Pile.{stack_of, Puttable, Kept, Steppable};

    // Puts a set in the place of the topmost `children` ones.
    pub(crate) fn put(&mut self, children: usize, set: &[u32])
        requires { Puttable self.old children (length set.now) }
        ensures height { self.new.height ≡ self.old.height - children + 1 }
        ensures sets { stack_of (length set.now) self.new ≡ set.now ∷ drop children (stack_of (length set.now) self.old) }
    {
        let below = self.height - children;
        write_set_at(&mut self.sets, below * set.len(), set);
        self.height = below + 1;
    }

    // Works out the set of the node with word w from those of its children, which are topmost, and puts it in their place.
    pub(crate) fn step(
        &mut self,
        alphabet: &[u32],
        indexed: Indexed,
        w: u32,
        work: &mut Work,
    ) -> [u32; SET_MOST]
        requires { Steppable alphabet.now indexed.table.now indexed.index.now w self.old work.old }
        ensures answer { result
            ≡ value_on alphabet.now (node_set indexed.entry.table.now) w
            (stack_of (size_of indexed.entry.table.now) self.old)
            ++ replicate (set_most - size_of indexed.entry.table.now) 0 }
        ensures height { self.new.height ≡ self.old.height - arity alphabet.now w + 1 }
        ensures sets { stack_of (size_of indexed.entry.table.now) self.new
            ≡ value_on alphabet.now (node_set indexed.entry.table.now) w
            (stack_of (size_of indexed.entry.table.now) self.old)
            ∷ drop (arity alphabet.now w) (stack_of (size_of indexed.entry.table.now) self.old) }
        ensures kept { Kept alphabet.now indexed.entry.table.now indexed.entry.index.now work.new }
    {
        let size = set_size(indexed.table);
        let children = node_arity(alphabet, w);
        let at = (self.height - children) * size;
        let first = [0u32, 1u32, 2u32, 3u32];
        let set = node_set(
            indexed,
            w % SYMBOL_RANGE,
            &self.sets[at..],
            &first[..children],
            &mut work.closures,
            &mut work.pending,
        );
        self.put(children, &set[..size]);
        set
    }
}
