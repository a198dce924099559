// One state of a set: state s is bit s mod 32 of word s / 32.
ghost use Rattle.std.specs.Prelude.{◌≡◌, ◌^◌, ◌<◌};
ghost use Rattle.words.specs.Word.{count_range};
ghost use Rattle.automaton.specs.StateSet.{size_for, contains as StateSet·contains, insert as StateSet·insert};

use words::limits::STATES_MOST;

// The states of one word of a set.
const WORD_BITS: usize = 32;

// The most words of a set.
pub const SET_MOST: usize = STATES_MOST / WORD_BITS;

// The word with bit b alone, worked out by a shift: a table of masks would take room in the boards' image (document 02, U4).
fn mask(b: usize) -> u32
    requires { b < 32 }
    ensures { result ≡ 2 ^ b }
{
    1 << b as u32
}

// Document 01's S: the words of a set of this many states.
#[tactic(auto, unfolding(automaton::specs::StateSet::size_for))]
pub fn size_for(states: usize) -> usize
    requires { states < count_range }
    ensures { result ≡ size_for states }
{
    states.div_ceil(WORD_BITS)
}

// Whether the set has state s; a state beyond the set's words is not in it. The bit is shifted to the lowest place, which needs
// no mask.
pub fn contains(set: &[u32], s: usize) -> bool
    ensures { result ≡ StateSet·contains set.now s }
{
    set.get(s / WORD_BITS)
        .is_some_and(|&word| (word >> (s % WORD_BITS) as u32) % 2 == 1)
}

// Puts state s into the set; a state beyond the set's words changes nothing. The word is stored by its index: the proof of a store
// through `get_mut` was tried and did not close.
#[tactic(auto, unfolding(automaton::specs::StateSet::insert))]
pub fn insert(set: &mut [u32], s: usize)
    ensures { set.new ≡ StateSet·insert set.old s }
{
    let at = s / WORD_BITS;
    if at < set.len() {
        set[at] |= mask(s % WORD_BITS);
    }
}
