// Bounds of heights by a list of pairs, a place and a bound: a tree is at most as high as the bound of the last pair whose place is
// at most the tree's. Behind each run of words two pairs take the place of those that the run makes void.
ghost use Rattle.std.specs.Prelude.{◌≡◌, ◌<◌, ◌≤◌, max, length};
ghost use Rattle.words.specs.Lists.{highest};

use super::runs::RUN_MOST;
use syntax::height::higher;

// Room for the pairs: the first, and two for each run of 4,096 words, are 129.
const PAIRS_ROOM: usize = 130;

// Trees from this place on are at most so high.
#[derive(Clone, Copy)]
struct Pair {
    place: u32,
    bound: u32,
}

// The pairs up to the one at `top`.
#[derive(Drop)]
pub(crate) struct Pairs {
    pairs: [Pair; PAIRS_ROOM],
    top: usize,
    ghost in_room: { top < length pairs },
}

impl Pairs {
    ghost use Rattle.bounds.specs.Runs.{run_most};
    ghost use Rattle.bounds.specs.Pairs.{places_of, bounds_in, LastPair, bound_at, FirstPair, RunPuttable, RunPut};

    // The first pair alone, of bound 0: there is no tree yet.
    pub(crate) fn new() -> Pairs
        ensures { FirstPair result }
    {
        Pairs {
            pairs: [Pair { place: 0, bound: 0 }; PAIRS_ROOM],
            top: 0,
        }
    }

    // The last pair whose place is at most the given one; the first pair if no other one is.
    fn last_at(&self, place: u32) -> usize
        ensures { LastPair (places_of self.now.pairs) place self.now.top result }
    {
        let top = self.top;
        for k in (1..top + 1).rev() {
            if self.pairs[k].place <= place {
                return k;
            }
        }
        0
    }

    // The bound that the pairs give a place.
    pub(crate) fn bound_at(&self, place: u32) -> u32
        ensures { result ≡ bound_at self.now place }
    {
        let last = self.last_at(place);
        self.pairs[last].bound
    }

    // The highest bound from a pair on, and of a run's words alone.
    fn high_from(&self, first: usize) -> u32
        requires { first ≤ self.now.top }
        ensures { result ≡ max run_most (highest (bounds_in self.now.pairs first self.now.top)) }
    {
        let end = self.top + 1;
        let rest = &self.pairs[first..end];
        let mut high = RUN_MOST as u32;
        for pair in rest {
            high = higher(high, pair.bound);
        }
        high
    }

    // Puts a run's two pairs behind those whose places are at most `fewest`: one for place `fewest`, where the run's words stand over
    // any tree that was there from this place on, and one for the trees of its words alone.
    pub(crate) fn put_run(&mut self, fewest: u32, joined: u32)
        requires { RunPuttable self.old fewest joined }
        ensures { RunPut self.old fewest joined self.new }
    {
        let last = self.last_at(fewest);
        let high = self.high_from(last);
        self.pairs[last + 1] = Pair {
            place: fewest,
            bound: high + joined,
        };
        self.pairs[last + 2] = Pair {
            place: fewest + 1,
            bound: RUN_MOST as u32,
        };
        self.top = last + 2;
    }
}
