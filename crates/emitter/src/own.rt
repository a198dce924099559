// The own transitions of a word by its kind: its symbol moves, if it has any, and its empty moves.
ghost use Rattle.std.specs.Prelude.{◌≡◌, [], ◌∷◌, ◌+◌, ◌≤◌, ◌<◌, length, get_or};
ghost use Rattle.words.specs.Limits.{rank_most};
ghost use Rattle.words.specs.Word.{symbol_range};
ghost use Rattle.automaton.specs.Transition.{epsilon, source_words, transitions_words};
ghost use Rattle.automaton.specs.Numbering.{symbol_transitions, union_transitions, product_transitions};
ghost use Rattle.automaton.specs.Numbering.{closure_transitions, own_transitions, full_port};
ghost use Rattle.ports.specs.Ports.{entry_range, exits_in, ports_in, child_in};
ghost use Rattle.emitter.specs.Writing.{Written, last_index};
ghost use Rattle.emitter.specs.Emission.{own_words_most, ListedConstant, SymbolsEmittable, OwnEmittable};

use super::anything::push_anything;
use super::entries::{Targets, push_entries, push_to};
use super::rule_word::RuleWord;
use super::writer::Writer;
use ports::port::{entry_at, exit_of};
use ports::states::Port;
use words::word::{KIND_UNIT, Kind, SOURCE, SYMBOL_RANGE, kind_of};

// The index of a constant.
fn constant_index(constants: &[u32], c: u32) -> usize
    requires { ListedConstant constants.now c }
    ensures { (result < length constants.now) × (get_or constants.now result 0 ≡ c) }
{
    constants.iter().position(|&w| w == c).unwrap_or(0)
}

// The part states of a symbol move: the children's exits.
fn push_sources(ports: &[Port], writer: &mut Writer)
    requires { (length ports.now ≤ rank_most) × (writer.old.at + rank_most ≤ last_index) }
    ensures same_slice { writer.new.out.ghost_name ≡ writer.old.out.ghost_name }
    ensures written { Written rank_most
        (source_words (exits_in ports.now))
        writer.old writer.new }
{
    for port in ports {
        writer.push(SOURCE * KIND_UNIT + exit_of(*port));
    }
}

// A symbol over its children; a constant has no transitions.
fn push_symbol(word: &RuleWord, writer: &mut Writer, symbol: u32)
    requires fits { writer.old.at + own_words_most ≤ last_index }
    requires symbol_lt_symbol_range { symbol < symbol_range }
    ensures same_slice { writer.new.out.ghost_name ≡ writer.old.out.ghost_name }
    ensures written { Written own_words_most
        (transitions_words (symbol_transitions symbol (full_port word.now.constants.now word.now.exit)
        (ports_in word.now.constants.now word.now.ports.now)))
        writer.old writer.new }
{
    if word.ports.len() == 0 {
        return;
    }
    writer.push_transition(symbol, word.exit);
    push_sources(word.ports, writer);
    push_entries(word, writer, Targets::Children)
}

// From two states to one.
fn push_both(writer: &mut Writer, first: u32, second: u32, to: u32)
    requires { (writer.old.at + 2 ≤ last_index) × ((first < entry_range) × ((second < entry_range) × (to < entry_range))) }
    ensures same_slice { writer.new.out.ghost_name ≡ writer.old.out.ghost_name }
    ensures written { Written 2
        (transitions_words (epsilon first to ∷ epsilon second to ∷ []))
        writer.old writer.new }
{
    writer.push_epsilon(first, to);
    writer.push_epsilon(second, to)
}

// A union of two children.
fn push_union(word: &RuleWord, writer: &mut Writer)
    requires fits { writer.old.at + own_words_most ≤ last_index }
    requires ports_len { length word.now.ports.now ≡ 2 }
    ensures same_slice { writer.new.out.ghost_name ≡ writer.old.out.ghost_name }
    ensures written { Written own_words_most
        (transitions_words (union_transitions (full_port word.now.constants.now word.now.exit)
        (child_in word.now.constants.now word.now.ports.now 0)
        (child_in word.now.constants.now word.now.ports.now 1)))
        writer.old writer.new }
{
    let first = exit_of(word.ports[0]);
    let second = exit_of(word.ports[1]);
    push_both(writer, first, second, word.exit);
    push_entries(word, writer, Targets::Children)
}

// A product over c.
fn push_product(word: &RuleWord, writer: &mut Writer, c: u32)
    requires fits { writer.old.at + own_words_most ≤ last_index }
    requires ports_len { (length word.now.ports.now ≡ 2) × ListedConstant word.now.constants.now c }
    ensures same_slice { writer.new.out.ghost_name ≡ writer.old.out.ghost_name }
    ensures written { Written own_words_most
        (transitions_words (product_transitions c (full_port word.now.constants.now word.now.exit)
        (child_in word.now.constants.now word.now.ports.now 0)
        (child_in word.now.constants.now word.now.ports.now 1)))
        writer.old writer.new }
{
    let first = word.ports[0];
    let entry = entry_at(word.constants, first, constant_index(word.constants, c));
    writer.push_epsilon(exit_of(first), word.exit);
    push_to(writer, exit_of(word.ports[1]), entry);
    push_entries(word, writer, Targets::Product(c))
}

// A closure over c.
fn push_closure(word: &RuleWord, writer: &mut Writer, c: u32)
    requires fits { writer.old.at + own_words_most ≤ last_index }
    requires ports_len { (length word.now.ports.now ≡ 1) × ListedConstant word.now.constants.now c }
    ensures same_slice { writer.new.out.ghost_name ≡ writer.old.out.ghost_name }
    ensures written { Written own_words_most
        (transitions_words (closure_transitions c (full_port word.now.constants.now word.now.exit)
        (child_in word.now.constants.now word.now.ports.now 0)))
        writer.old writer.new }
{
    let first = word.ports[0];
    let entry = entry_at(word.constants, first, constant_index(word.constants, c));
    push_to(writer, exit_of(first), entry);
    writer.push_epsilon(exit_of(first), word.exit);
    push_entries(word, writer, Targets::Closure(c))
}

// The own transitions of word w, whose states and children `word` has.
pub fn push_own(alphabet: &[u32], word: &RuleWord, writer: &mut Writer, w: u32)
    requires fits { writer.old.at + own_words_most ≤ last_index }
    requires symbols_emittable { SymbolsEmittable alphabet.now × OwnEmittable word.now.constants.now word.now.ports.now w }
    ensures same_slice { writer.new.out.ghost_name ≡ writer.old.out.ghost_name }
    ensures written { Written own_words_most
        (transitions_words (own_transitions alphabet.now w (full_port word.now.constants.now word.now.exit)
        (ports_in word.now.constants.now word.now.ports.now)))
        writer.old writer.new }
{
    let kind = kind_of(w);
    match kind {
        Kind::Symbol => push_symbol(word, writer, w % SYMBOL_RANGE),
        Kind::Union => push_union(word, writer),
        Kind::Product => push_product(word, writer, w % SYMBOL_RANGE),
        Kind::Closure => push_closure(word, writer, w % SYMBOL_RANGE),
        Kind::Anything => push_anything(alphabet, word, writer),
        _ => {}
    }
}
