// The check of a table (document 01's refusal 8).
ghost use Rattle.std.specs.Prelude.{cond, ◌≡◌};
ghost use Rattle.automaton.specs.Table.{is_head, is_table_word, sources_left, are_transitions, is_table};

use super::head::state_count;
use super::length::table_word_count;
use alphabet::rank;
use words::limits::{STATES_MOST, is_outside};
use words::word::{COUNT_RANGE, Kind, STATE_RANGE, SYMBOL_RANGE, kind_of, spare_bits_clear};

// Whether the word is a head: 1 to 1,024 states, and the final state is one of them.
#[tactic(auto, using(crate::proofs::CheckLaws::head_told))]
fn is_head(w: u32) -> bool
    ensures { result ≡ is_head w }
{
    let states = w / STATE_RANGE % COUNT_RANGE;
    let kind = kind_of(w);
    match kind {
        Kind::Head => spare_bits_clear(w)
            && !is_outside(STATES_MOST, states as usize)
            && w % STATE_RANGE < states,
        _ => false,
    }
}

// How many part states are to come behind the word, if the word may stand: where `left` part states are still to come it has to be
// a part state, and where none is, a transition.
fn sources_next(alphabet: &[u32], states: usize, left: usize, w: u32) -> Option<usize>
    ensures { result ≡ cond (is_table_word alphabet.now states left w) (Some (sources_left alphabet.now left w)) None }
{
    if !spare_bits_clear(w) {
        return None;
    }
    let below = (w % STATE_RANGE) as usize;
    if below >= states {
        return None;
    }
    let kind = kind_of(w);
    match kind {
        Kind::Transition => {
            let symbol = (w / STATE_RANGE % SYMBOL_RANGE) as usize;
            if 0 < left {
                return None;
            }
            if symbol < alphabet.len() {
                return Some(rank(alphabet, symbol));
            }
            None
        }
        Kind::Epsilon => {
            let above = (w / STATE_RANGE % STATE_RANGE) as usize;
            if 0 < left {
                return None;
            }
            if above < states {
                return Some(0);
            }
            None
        }
        Kind::Source => left.checked_sub(1),
        _ => None,
    }
}

// Whether the words behind the head and the length word are transitions, each followed by its part states.
fn are_transitions(alphabet: &[u32], states: usize, moves: &[u32]) -> bool
    ensures { result ≡ are_transitions alphabet.now states 0 moves.now }
{
    let mut left: usize = 0;
    for word in moves {
        let Some(next) = sources_next(alphabet, states, left, *word) else {
            return false;
        };
        left = next;
    }
    left == 0
}

// Whether the words are a table for the alphabet, no more and no fewer.
#[tactic(auto, using(crate::proofs::TableScanLaws::table_tests))]
pub fn is_table(alphabet: &[u32], table: &[u32]) -> bool
    ensures { result ≡ is_table alphabet.now table.now }
{
    let Some(&head) = table.first() else {
        return false;
    };
    if table_word_count(table) != table.len() {
        return false;
    }
    if !is_head(head) {
        return false;
    }
    are_transitions(alphabet, state_count(table), &table[2..])
}
