// What a table's head says: how many states there are, which is final, and how many words a state set takes.
ghost use Rattle.std.specs.Prelude.{◌≡◌, get_or};
ghost use Rattle.automaton.specs.Transition.{automaton_of};
ghost use Rattle.operations.specs.Marks.{size_of, final_of};

use sets::state::size_for;
use words::word::{COUNT_RANGE, STATE_RANGE};

// The first word, or 0 of a table with none.
fn head_word(table: &[u32]) -> u32
    ensures { result ≡ get_or table.now 0 0 }
{
    table.first().copied().unwrap_or(0)
}

// How many states there are.
#[tactic(auto, unfolding(automaton::specs::Transition::automaton_of))]
pub fn state_count(table: &[u32]) -> usize
    ensures { result ≡ (automaton_of table.now).states }
{
    (head_word(table) / STATE_RANGE % COUNT_RANGE) as usize
}

// The final state.
#[tactic(auto, unfolding(automaton::specs::Transition::automaton_of, operations::specs::Marks::final_of))]
pub fn final_state(table: &[u32]) -> usize
    ensures { result ≡ final_of table.now }
{
    (head_word(table) % STATE_RANGE) as usize
}

// Document 01's S: the words of one node's state set.
#[tactic(auto, unfolding(automaton::specs::Transition::automaton_of, operations::specs::Marks::size_of))]
pub fn set_size(table: &[u32]) -> usize
    ensures { result ≡ size_of table.now }
{
    size_for(state_count(table))
}
