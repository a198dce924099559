// The states of rule words: how many each has, and a word's port.
ghost use Rattle.std.specs.Prelude.{◌≡◌, ◌*◌, ◌<◌, ◌≤◌, length};
ghost use Rattle.words.specs.Limits.{expression_most};
ghost use Rattle.words.specs.Alphabet.{constants_of};
ghost use Rattle.automaton.specs.Numbering.{has_entries, states_of, states_after, port_of};
ghost use Rattle.ports.specs.Ports.{exit_range, port_in};
ghost use Rattle.compiler.specs.Compiling.{word_states_most, StatesCountable};

use alphabet::rank;
use ports::port::port_of;
use ports::states::{Entries, Port};
use words::word::{Kind, SYMBOL_RANGE, kind_of};

// Whether a word has an entry for each constant.
fn has_entries(alphabet: &[u32], w: u32) -> bool
    ensures { result ≡ has_entries alphabet.now w }
{
    let kind = kind_of(w);
    match kind {
        Kind::Symbol => rank(alphabet, (w % SYMBOL_RANGE) as usize) != 0,
        Kind::Union => true,
        Kind::Product => true,
        Kind::Closure => true,
        Kind::Anything => true,
        _ => false,
    }
}

// How many states a word has, where `count` is the number of constants.
pub(crate) fn states_of(alphabet: &[u32], count: usize, w: u32) -> u32
    requires { StatesCountable alphabet.now count }
    ensures { (result ≡ states_of alphabet.now w) × (result ≤ word_states_most) }
{
    if has_entries(alphabet, w) {
        return count as u32 + 1;
    }
    1
}

// The first state behind those of the words.
pub(crate) fn states_after(alphabet: &[u32], count: usize, expression: &[u32]) -> u32
    requires states_countable { StatesCountable alphabet.now count }
    requires expression_len_bound { length expression.now ≤ expression_most }
    ensures { (result ≡ states_after alphabet.now 0 expression.now)
        × (result ≤ word_states_most * length expression.now) }
{
    let mut state: u32 = 0;
    for w in expression {
        state += states_of(alphabet, count, *w);
    }
    state
}

// The port of a word with this exit.
pub(crate) fn word_port(alphabet: &[u32], exit: u32, w: u32) -> Port
    requires { exit < exit_range }
    ensures { port_in (constants_of alphabet.now) result ≡ port_of alphabet.now exit w }
{
    if has_entries(alphabet, w) {
        return port_of(exit, Entries::Every);
    }
    let kind = kind_of(w);
    match kind {
        Kind::Symbol => port_of(exit, Entries::Single((w % SYMBOL_RANGE) as u8)),
        _ => port_of(exit, Entries::Missing),
    }
}
