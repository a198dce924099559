// Epsilon transitions from a word's entries, in the order of the constants.
ghost use Rattle.std.specs.Prelude.{◌≡◌, ◌+◌, ◌≤◌, ◌<◌, length, get_or};
ghost use Rattle.words.specs.Limits.{rank_most};
ghost use Rattle.automaton.specs.Transition.{transitions_words};
ghost use Rattle.automaton.specs.Numbering.{full_entries, epsilons, entry_epsilons, symbol_targets, product_targets, closure_targets};
ghost use Rattle.ports.specs.Ports.{Low, entry_range, entry_state, states_of_entry, ports_in, child_in};
ghost use Rattle.emitter.specs.Writing.{Written, last_index};
ghost use Rattle.emitter.specs.Emission.{entry_words_most, entries_words_most, targets_in, Targetable};

use super::rule_word::RuleWord;
use super::writer::Writer;
use ports::port::{entry_at, entry_state};

// Where a word's entry for a constant leads: to the children's entries for it, in a product over c at c not to the first
// child's, in a closure over c at c also to the word's own exit; for anything to its own exit. With a function for a parameter
// in place of this enum, the two loops below would stand in the code once for each of the four.
#[derive(Clone, Copy)]
pub(crate) enum Targets {
    Children,
    Product(u32),
    Closure(u32),
    Exit,
}

// "A move that names a missing entry is omitted."
pub(crate) fn push_to(writer: &mut Writer, from: u32, to: Option<u32>)
    requires { (writer.old.at < last_index) × ((from < entry_range) × Low to) }
    ensures same_slice { writer.new.out.ghost_name ≡ writer.old.out.ghost_name }
    ensures written { Written 1
        (transitions_words (epsilons from (states_of_entry to)))
        writer.old writer.new }
{
    match to {
        Some(state) => writer.push_epsilon(from, state),
        None => {}
    }
}

// From the entry for constant k to the children's entries for it.
fn push_to_children(word: &RuleWord, writer: &mut Writer, k: usize)
    requires fits { writer.old.at + entry_words_most ≤ last_index }
    requires k_in_bounds { k < length word.now.constants.now }
    ensures same_slice { writer.new.out.ghost_name ≡ writer.old.out.ghost_name }
    ensures written { Written rank_most
        (transitions_words (epsilons (entry_state word.now.exit k)
        (symbol_targets (ports_in word.now.constants.now word.now.ports.now) (get_or word.now.constants.now k 0))))
        writer.old writer.new }
{
    let from = entry_state(word.exit, k);
    for port in word.ports {
        push_to(writer, from, entry_at(word.constants, *port, k));
    }
}

// The same for a product over c: at c not to the first child.
fn push_product_entry(word: &RuleWord, writer: &mut Writer, c: u32, k: usize)
    requires fits { writer.old.at + entry_words_most ≤ last_index }
    requires k_in_bounds { (k < length word.now.constants.now) × (length word.now.ports.now ≡ 2) }
    ensures same_slice { writer.new.out.ghost_name ≡ writer.old.out.ghost_name }
    ensures written { Written entry_words_most
        (transitions_words (epsilons (entry_state word.now.exit k)
        (product_targets c (child_in word.now.constants.now word.now.ports.now 0)
        (child_in word.now.constants.now word.now.ports.now 1) (get_or word.now.constants.now k 0))))
        writer.old writer.new }
{
    if word.constants[k] == c {
        let behind_first = RuleWord {
            constants: word.constants,
            ports: &word.ports[1..],
            exit: word.exit,
        };
        return push_to_children(&behind_first, writer, k);
    }
    push_to_children(word, writer, k)
}

// The same for a closure over c: at c also to its own exit.
fn push_closure_entry(word: &RuleWord, writer: &mut Writer, c: u32, k: usize)
    requires fits { writer.old.at + entry_words_most ≤ last_index }
    requires k_in_bounds { (k < length word.now.constants.now) × (length word.now.ports.now ≡ 1) }
    ensures same_slice { writer.new.out.ghost_name ≡ writer.old.out.ghost_name }
    ensures written { Written entry_words_most
        (transitions_words (epsilons (entry_state word.now.exit k)
        (closure_targets c word.now.exit (child_in word.now.constants.now word.now.ports.now 0) (get_or word.now.constants.now k 0))))
        writer.old writer.new }
{
    push_to_children(word, writer, k);
    if word.constants[k] == c {
        writer.push_epsilon(entry_state(word.exit, k), word.exit);
    }
}

// From the entry for constant k.
fn push_entry(word: &RuleWord, writer: &mut Writer, targets: Targets, k: usize)
    requires fits { writer.old.at + entry_words_most ≤ last_index }
    requires k_in_bounds { (k < length word.now.constants.now) × Targetable targets word.now.ports.now }
    ensures same_slice { writer.new.out.ghost_name ≡ writer.old.out.ghost_name }
    ensures written { Written entry_words_most
        (transitions_words (epsilons (entry_state word.now.exit k)
        (targets_in word.now.constants.now word.now.ports.now word.now.exit targets (get_or word.now.constants.now k 0))))
        writer.old writer.new }
{
    match targets {
        Targets::Children => push_to_children(word, writer, k),
        Targets::Product(c) => push_product_entry(word, writer, c, k),
        Targets::Closure(c) => push_closure_entry(word, writer, c, k),
        Targets::Exit => writer.push_epsilon(entry_state(word.exit, k), word.exit),
    }
}

// From each entry of the word.
pub(crate) fn push_entries(word: &RuleWord, writer: &mut Writer, targets: Targets)
    requires fits { writer.old.at + entries_words_most ≤ last_index }
    requires targetable { Targetable targets word.now.ports.now }
    ensures same_slice { writer.new.out.ghost_name ≡ writer.old.out.ghost_name }
    ensures written { Written entries_words_most
        (transitions_words (entry_epsilons (full_entries word.now.constants.now word.now.exit)
        (targets_in word.now.constants.now word.now.ports.now word.now.exit targets)))
        writer.old writer.new }
{
    for k in 0..word.constants.len() {
        push_entry(word, writer, targets, k);
    }
}
