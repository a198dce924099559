// Compile: turns an alphabet and a rule into the table of the numbered Thompson tree automaton, or refuses.
#![tactic(auto)]

ghost use Rattle.std.specs.Prelude.{◌≡◌};
ghost use Rattle.words.specs.Decoded.{fault_in};
ghost use Rattle.words.specs.Refusal.{refusal};
ghost use Rattle.operations.specs.Compile.{rule_refusals, compile_fault, compile_answer, compile_exit};
ghost use Rattle.compiler.specs.CompileAnswer.{answer_in_compiled};

use alphabet::{alphabet_fault, count_constants};
use states::states_after;
use syntax::expression::expression_fault;
use table::write_table;
use words::limits::{STATES_MOST, TABLE_MOST};
use words::refusal::Refusal;

mod stack;
mod states;
mod table;

// Of an alphabet and a rule: the first refusal that applies.
#[tactic(auto, unfolding(operations::specs::Compile::too_many_states, automaton::specs::Numbering::compiled))]
fn rule_fault(alphabet: &[u32], expression: &[u32]) -> Result<(), Refusal>
    ensures { fault_in result ≡ refusal (rule_refusals alphabet.now expression.now) }
{
    alphabet_fault(alphabet)?;
    expression_fault(alphabet, expression)?;
    let count = count_constants(alphabet);
    let states = states_after(alphabet, count, expression);
    if states > STATES_MOST as u32 {
        return Err(Refusal::TooManyStates);
    }
    Ok(())
}

// The first refusal that applies for a table slice of this length. The table's words are counted by writing them into a slice of one
// word; those past its end are left out.
#[tactic(auto, unfolding(operations::specs::Compile::too_many_words, operations::specs::Compile::table_too_long))]
fn compile_fault(alphabet: &[u32], expression: &[u32], table_length: usize) -> Result<(), Refusal>
    ensures { fault_in result ≡ compile_fault alphabet.now expression.now table_length }
{
    rule_fault(alphabet, expression)?;
    let mut small = [0u32; 1];
    let size = write_table(alphabet, expression, &mut small);
    if size > TABLE_MOST {
        return Err(Refusal::TooManyWords);
    }
    if table_length < size {
        return Err(Refusal::TableTooLong);
    }
    Ok(())
}

// Writes the table of the rule into the first words of the slice and answers its word count. A refused call changes no word.
pub fn compile(alphabet: &[u32], rule: &[u32], table: &mut [u32]) -> Result<usize, Refusal>
    ensures answer { answer_in_compiled result ≡ compile_answer alphabet.now rule.now table.old }
    ensures table { table.new ≡ compile_exit alphabet.now rule.now table.old }
{
    compile_fault(alphabet, rule, table.len())?;
    Ok(write_table(alphabet, rule, table))
}
