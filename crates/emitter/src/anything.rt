// The own transitions of anything: a symbol move for each symbol of rank above 0, and an empty move from each entry.
ghost use Rattle.std.specs.Prelude.{◌≡◌, [], ◌∷◌, ◌+◌, ◌≤◌, ◌<◌, length, get_or, replicate};
ghost use Rattle.words.specs.Limits.{rank_most};
ghost use Rattle.automaton.specs.Transition.{source_words, transitions_words};
ghost use Rattle.automaton.specs.Numbering.{every_symbol, anything_transitions, full_port};
ghost use Rattle.ports.specs.Ports.{exit_range};
ghost use Rattle.emitter.specs.Writing.{Written, last_index};
ghost use Rattle.emitter.specs.Emission.{symbol_words_most, every_symbol_most, own_words_most, SymbolsEmittable};

use super::entries::{Targets, push_entries};
use super::rule_word::RuleWord;
use super::writer::Writer;
use alphabet::rank;
use words::word::{KIND_UNIT, SOURCE};

// The part states of a symbol move over so many children: the exit in every part.
fn push_exits(writer: &mut Writer, exit: u32, children: usize)
    requires { (children ≤ rank_most) × ((writer.old.at + rank_most ≤ last_index) × (exit < exit_range)) }
    ensures same_slice { writer.new.out.ghost_name ≡ writer.old.out.ghost_name }
    ensures written { Written rank_most
        (source_words (replicate children exit))
        writer.old writer.new }
{
    for _ in 0..children {
        writer.push(SOURCE * KIND_UNIT + exit);
    }
}

// The symbol move on one symbol; a constant has none.
fn push_on_symbol(alphabet: &[u32], writer: &mut Writer, exit: u32, symbol: usize)
    requires symbols_emittable { SymbolsEmittable alphabet.now × (symbol < length alphabet.now) }
    requires symbol_words_most_bound { (writer.old.at + symbol_words_most ≤ last_index) × (exit < exit_range) }
    ensures same_slice { writer.new.out.ghost_name ≡ writer.old.out.ghost_name }
    ensures written { Written symbol_words_most
        (transitions_words (every_symbol exit symbol (get_or alphabet.now symbol 0 ∷ [])))
        writer.old writer.new }
{
    let children = rank(alphabet, symbol);
    if children == 0 {
        return;
    }
    writer.push_transition(symbol as u32, exit);
    push_exits(writer, exit, children)
}

// Those on every symbol, in symbol order.
fn push_every_symbol(alphabet: &[u32], writer: &mut Writer, exit: u32)
    requires symbols_emittable { SymbolsEmittable alphabet.now }
    requires every_symbol_most_bound { (writer.old.at + every_symbol_most ≤ last_index) × (exit < exit_range) }
    ensures same_slice { writer.new.out.ghost_name ≡ writer.old.out.ghost_name }
    ensures written { Written every_symbol_most
        (transitions_words (every_symbol exit 0 alphabet.now))
        writer.old writer.new }
{
    for symbol in 0..alphabet.len() {
        push_on_symbol(alphabet, writer, exit, symbol);
    }
}

// Anything, which has no children.
pub(crate) fn push_anything(alphabet: &[u32], word: &RuleWord, writer: &mut Writer)
    requires symbols_emittable { SymbolsEmittable alphabet.now }
    requires fits { writer.old.at + own_words_most ≤ last_index }
    ensures same_slice { writer.new.out.ghost_name ≡ writer.old.out.ghost_name }
    ensures written { Written own_words_most
        (transitions_words (anything_transitions alphabet.now (full_port word.now.constants.now word.now.exit)))
        writer.old writer.new }
{
    push_every_symbol(alphabet, writer, word.exit);
    push_entries(word, writer, Targets::Exit)
}
