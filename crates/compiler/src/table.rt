// The table of a rule: its head, its length word, the constants' symbol moves, and each word's own transitions.
ghost use Rattle.std.specs.Prelude.{◌≡◌, []};
ghost use Rattle.words.specs.Refusal.{refusal};
ghost use Rattle.automaton.specs.Transition.{transitions_words};
ghost use Rattle.automaton.specs.Numbering.{transitions_from};
ghost use Rattle.operations.specs.Compile.{compiled_table, rule_refusals};
ghost use Rattle.emitter.specs.Writing.{WordsWritten, Written};
ghost use Rattle.compiler.specs.Compiling.{all_own_words_most, compiled_words_most, Compilable};

use super::stack::Stack;
use super::states::{states_after, states_of, word_port};
use alphabet::{arity, write_constants};
use emitter::constants::push_constants;
use emitter::own::push_own;
use emitter::rule_word::RuleWord;
use emitter::writer::Writer;
use words::limits::CONSTANTS_MOST;
use words::word::{HEAD, KIND_UNIT, LENGTH, STATE_RANGE};

// Where the moves begin: behind the head and the length word.
const FIRST_MOVE: usize = 2;

// The own transitions of the rule's words in order. The ports of the words that wait for their parent stand on a stack.
fn write_words(alphabet: &[u32], constants: &[u32], expression: &[u32], writer: &mut Writer)
    requires { Compilable alphabet.now constants.now expression.now writer.old.at }
    ensures same_slice { writer.new.out.ghost_name ≡ writer.old.out.ghost_name }
    ensures written { Written all_own_words_most
        (transitions_words (transitions_from alphabet.now 0 expression.now []))
        writer.old writer.new }
{
    let mut stack = Stack::new();
    let mut state: u32 = 0;
    for &w in expression {
        let children = arity(alphabet, w);
        let word = RuleWord {
            constants,
            ports: stack.top(children),
            exit: state,
        };
        push_own(alphabet, &word, writer, w);
        stack.replace(children, word_port(alphabet, state, w));
        state += states_of(alphabet, constants.len(), w);
    }
}

// The head, with the last word's exit as final state, the moves of the constants into its entries, the own transitions, and then
// in front of the moves the length word, which counts all words of the table.
#[tactic(auto, using(crate::proofs::AcceptedRuleLaws::first_states))]
fn write_parts(alphabet: &[u32], constants: &[u32], expression: &[u32], writer: &mut Writer)
    requires compilable { Compilable alphabet.now constants.now expression.now 0 }
    requires at_first { writer.old.at ≡ 0 }
    ensures same_slice { writer.new.out.ghost_name ≡ writer.old.out.ghost_name }
    ensures written { Written compiled_words_most (compiled_table alphabet.now expression.now)
        writer.old writer.new }
{
    let last = expression.len() - 1;
    let w = expression[last];
    let exit = states_after(alphabet, constants.len(), &expression[..last]);
    let states = exit + states_of(alphabet, constants.len(), w);
    let port = word_port(alphabet, exit, w);
    writer.push(HEAD * KIND_UNIT + (states * STATE_RANGE + exit));
    writer.at = FIRST_MOVE;
    push_constants(constants, port, writer);
    write_words(alphabet, constants, expression, writer);
    let size = writer.at;
    writer.at = 1;
    writer.push(LENGTH * KIND_UNIT + size as u32);
    writer.at = size;
}

// Writes the table of a rule, as far as the slice reaches, and answers its word count in both cases.
pub(crate) fn write_table(alphabet: &[u32], expression: &[u32], out: &mut [u32]) -> usize
    requires { refusal (rule_refusals alphabet.now expression.now) ≡ 0 }
    ensures { WordsWritten compiled_words_most 0 (compiled_table alphabet.now expression.now)
        out.old out.new result }
{
    let mut list = [0u32; CONSTANTS_MOST];
    let count = write_constants(alphabet, &mut list);
    let mut writer = Writer { out, at: 0 };
    write_parts(alphabet, &list[..count], expression, &mut writer);
    writer.at
}
