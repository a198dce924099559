// A node's representative: an earlier node with the same state set, where one is at hand.
ghost use Rattle.std.specs.Prelude.{◌<◌, ◌≤◌, length};
ghost use Rattle.sets.specs.Size.{set_most};
ghost use Rattle.memo.specs.Memo.{places_most, Placeable, Represents};

use super::PLACES_MOST;
use sets::whole::same_words;

// The places of the nodes that represent others, by their words.
const PLACES: u64 = PLACES_MOST as u64;

// Each word has a factor of its own.
const FACTOR: u64 = 40503;

// The place of a state set. Any place is right; one that depends on all words keeps different sets apart.
fn place_of(set: &[u32]) -> usize
    requires { length set.now ≤ set_most }
    ensures { result < places_most }
{
    let mut mixed: u64 = 0;
    for (k, word) in set.iter().enumerate() {
        mixed += u64::from(*word) * (k as u64 * FACTOR + 1);
    }
    (mixed % PLACES) as usize
}

// The representative of node i, which is to get this state set: the node at the set's place if it is earlier and its words are
// the same; otherwise node i itself, which takes that place.
pub(crate) fn representative(marks: &[u32], set: &[u32], i: usize, places: &mut [u32]) -> usize
    requires { Placeable marks.now set.now i places.old }
    ensures { Represents marks.now set.now i result }
{
    let place = place_of(set);
    let node = places[place] as usize;
    if node < i {
        let at = node * set.len();
        if same_words(&marks[at..at + set.len()], set) {
            return node;
        }
    }
    places[place] = i as u32;
    i
}
