// The epsilon closure of a state, worked out along the index; closures that were worked out are kept for other nodes.
#![tactic(auto)]

ghost use Rattle.std.specs.Prelude.{◌≡◌, ◌+◌, ◌≤◌, length, slice_index, MatchOption};
ghost use Rattle.index.specs.Index.{state_key};
ghost use Rattle.closures.specs.Closure.{Puttable, Put, Followable, FollowableAt, Followed, Closable, ClosureOf};
ghost use Rattle.closures.specs.Closure.{Addable, Added, Keepable, Kept, Joinable, JoinedClosure};

use index::{Indexed, STATE_KEYS};
use sets::state::{SET_MOST, contains, insert};
use sets::whole::{join, write_set_at};

// How many closures are kept at most, one in a row of SET_MOST words.
pub const ROWS_MOST: usize = 64;

// The words of all rows.
pub const ROWS_LENGTH: usize = ROWS_MOST * SET_MOST;

// The closures that are kept: a row holds that of state s where its owner is s + 1, and none where its owner is 0. Owners as
// options would take twice the words, on a small stack.
#[derive(Drop)]
pub struct KeptClosures {
    pub owners: [u32; ROWS_MOST],
    // One flat array, since a row is read and written as any stored state set is, in the words from row * SET_MOST on.
    pub rows: [u32; ROWS_LENGTH],
}

// A stack of states whose epsilon transitions are still to be followed: the first `height` words of an array that is lent.
#[derive(Drop)]
struct Pending<'a> {
    states: &'a mut [u32],
    height: usize,
}

impl Pending<'_> {
    // Takes the last state from the stack.
    fn pop(&mut self) -> Option<usize>
        requires { self.old.height ≤ length self.old.states.now }
        ensures same { self.new.states.ghost_name ≡ self.old.states.ghost_name }
        ensures states { self.new.states.now ≡ self.old.states.now }
        ensures top { MatchOption result ((self.old.height ≡ 0) × (self.new.height ≡ 0)) (λ p. (self.new.height + 1 ≡ self.old.height)
            × (p ≡ slice_index self.old.states.now self.new.height)) }
    {
        if self.height == 0 {
            return None;
        }
        self.height -= 1;
        Some(self.states[self.height] as usize)
    }
}

// Puts state s into the set and on the stack, if it is not in the set.
fn put_state(set: &mut [u32], pending: &mut Pending, s: usize)
    requires { Puttable set.old pending.old.states.now pending.old.height s }
    ensures same { pending.new.states.ghost_name ≡ pending.old.states.ghost_name }
    ensures put { Put set.old pending.old.states.now pending.old.height s set.new
        pending.new.states.now pending.new.height }
{
    if contains(set, s) {
        return;
    }
    insert(set, s);
    pending.states[pending.height] = s as u32;
    pending.height += 1;
}

// Follows the epsilon transitions from state p.
fn follow_epsilons(indexed: Indexed, p: usize, set: &mut [u32], pending: &mut Pending)
    requires { FollowableAt indexed.table.now indexed.index.now p set.old pending.old.states.now pending.old.height }
    ensures same { pending.new.states.ghost_name ≡ pending.old.states.ghost_name }
    ensures followed { Followed indexed.entry.table.now (state_key p) 0 set.old
        pending.old.states.now pending.old.height set.new pending.new.states.now pending.new.height }
{
    let mut word = indexed.first(STATE_KEYS + p);
    while let Some(i) = word {
        put_state(set, pending, indexed.target(i));
        word = indexed.next(i);
    }
}

// Follows the epsilon transitions from the states on the stack, until none is left.
fn follow_pending(indexed: Indexed, set: &mut [u32], pending: &mut Pending)
    requires { Followable indexed.table.now indexed.index.now set.old pending.old.states.now pending.old.height }
    ensures same { pending.new.states.ghost_name ≡ pending.old.states.ghost_name }
    ensures followed { Followed indexed.entry.table.now 0 (length indexed.entry.table.now) set.old
        pending.old.states.now pending.old.height set.new pending.new.states.now 0 }
{
    while let Some(p) = pending.pop() {
        follow_epsilons(indexed, p, set, pending);
    }
}

// Puts the closure of a state, the states that epsilon transitions reach from it, into a closed set. States that are in the set
// are not followed again.
fn add_closure(indexed: Indexed, state: usize, set: &mut [u32], pending: &mut [u32])
    requires { Addable indexed.table.now indexed.index.now state pending.old set.old }
    ensures { Added indexed.entry.table.now state set.old set.new }
{
    let mut stack = Pending {
        states: pending,
        height: 0,
    };
    put_state(set, &mut stack, state);
    follow_pending(indexed, set, &mut stack);
}

// The closure of a state as a set of its own.
fn close_state(indexed: Indexed, state: usize, pending: &mut [u32]) -> [u32; SET_MOST]
    requires { Closable indexed.table.now indexed.index.now state pending.old }
    ensures { ClosureOf indexed.entry.table.now state result }
{
    let mut set = [0u32; SET_MOST];
    add_closure(indexed, state, &mut set, pending);
    set
}

impl KeptClosures {
    // Keeps the closure of a state in its row, if none is there. Answers whether the row has it. A row is never given to another
    // state, so that at most as many closures are worked out by themselves in a call as there are rows.
    fn keep(&mut self, indexed: Indexed, state: usize, pending: &mut [u32]) -> bool
        requires { Keepable indexed.table.now indexed.index.now state self.old pending.old }
        ensures { Kept indexed.entry.table.now state result self.new }
    {
        let row = state % ROWS_MOST;
        let owner = state as u32 + 1;
        let found = self.owners[row];
        if found == owner {
            return true;
        }
        if found != 0 {
            return false;
        }
        let closure = close_state(indexed, state, pending);
        write_set_at(&mut self.rows, row * SET_MOST, &closure);
        self.owners[row] = owner;
        true
    }
}

// Puts the closure of a state into a closed set: from its row, or by a search in the set itself. The stack of states stays beside the
// closures: any slice with room for every state is taken, and an array of a struct would ask for one length.
pub fn join_closure(
    indexed: Indexed,
    state: usize,
    closures: &mut KeptClosures,
    pending: &mut [u32],
    set: &mut [u32],
)
    requires { Joinable indexed.table.now indexed.index.now state closures.old pending.old set.old }
    ensures { JoinedClosure indexed.entry.table.now state set.old set.new closures.new }
{
    if !closures.keep(indexed, state, pending) {
        add_closure(indexed, state, set, pending);
        return;
    }
    let at = state % ROWS_MOST * SET_MOST;
    join(set, &closures.rows[at..at + SET_MOST]);
}
