// The refusals that Run, List and Exchange share.
ghost use Rattle.std.specs.Prelude.{◌≡◌, [], ◌∷◌, ◌≤◌, length};
ghost use Rattle.words.specs.Decoded.{fault_in};
ghost use Rattle.words.specs.Limits.{nodes_most};
ghost use Rattle.words.specs.Refusal.{refusal};
ghost use Rattle.words.specs.Postfix.{height_of};
ghost use Rattle.words.specs.Chapter.{too_high};
ghost use Rattle.operations.specs.Run.{wrong_count, marks_too_short, table_refusals, element_refusals, marked_refusals};
ghost use Rattle.refusals.specs.Judged.{JudgedBound};

use alphabet::alphabet_fault;
use bounds::shape::tree_shape;
use syntax::height::words_height;
use tables::check::is_table;
use tables::head::set_size;
use words::limits::{HEIGHT_MOST, NODES_MOST, is_outside};
use words::refusal::Refusal;

// Document 01's 1, 2 or 8, the first that applies.
#[tactic(auto, unfolding(automaton::specs::Table::no_table))]
pub(crate) fn table_fault(alphabet: &[u32], table: &[u32]) -> Result<(), Refusal>
    ensures { fault_in result ≡ refusal (table_refusals alphabet.now table.now) }
{
    alphabet_fault(alphabet)?;
    if !is_table(alphabet, table) {
        return Err(Refusal::NoTable);
    }
    Ok(())
}

// Whether a chapter of this many elements has too few or too many.
#[tactic(auto, unfolding(operations::specs::Run::wrong_count))]
pub(crate) fn wrong_count(count: usize) -> bool
    ensures { result ≡ wrong_count count }
{
    is_outside(NODES_MOST, count)
}

// Whether a marks slice of this length is too short for the state sets of this many elements.
#[tactic(auto, using(crate::proofs::CountRefusalLaws::words_few), unfolding(operations::specs::Run::marks_too_short))]
pub(crate) fn marks_too_short(table: &[u32], count: usize, marks_length: usize) -> bool
    requires { count ≤ nodes_most }
    ensures { result ≡ marks_too_short table.now count marks_length }
{
    marks_length < count * set_size(table)
}

// Of a chapter's elements that are at most `bound` high: a bound that no chapter's height may exceed, or 24. The height is worked out
// only where the bound does not tell that the chapter is low enough.
#[tactic(auto, using(crate::proofs::JudgedLaws::low_height, crate::proofs::JudgedLaws::high_height))]
fn low_bound(alphabet: &[u32], nodes: &[u32], bound: usize) -> Result<usize, Refusal>
    requires few { length nodes.now ≤ nodes_most }
    requires high { height_of alphabet.now nodes.now ≤ bound }
    ensures { JudgedBound (refusal ((24, too_high alphabet.now nodes.now) ∷ [])) alphabet.now nodes.now result }
{
    if bound <= HEIGHT_MOST {
        return Ok(bound);
    }
    let height = words_height(alphabet, nodes);
    if height > HEIGHT_MOST {
        return Err(Refusal::TooHigh);
    }
    Ok(height)
}

// Of a chapter's elements: how high they are at most, or 10, 11, 24 or 26, the first that applies.
fn element_bound(alphabet: &[u32], nodes: &[u32]) -> Result<usize, Refusal>
    requires { length nodes.now ≤ nodes_most }
    ensures { JudgedBound (refusal (element_refusals alphabet.now nodes.now)) alphabet.now nodes.now result }
{
    let shape = tree_shape(alphabet, nodes);
    let most = shape.bound?;
    let bound = low_bound(alphabet, nodes, most)?;
    if shape.holes {
        return Err(Refusal::HasHoles);
    }
    Ok(bound)
}

// Of a chapter's elements and a marks slice of this length: how high the elements are at most, or 10, 11, 24, 26 or 12, the first that
// applies.
pub(crate) fn marked_bound(
    alphabet: &[u32],
    table: &[u32],
    nodes: &[u32],
    marks_length: usize,
) -> Result<usize, Refusal>
    requires { length nodes.now ≤ nodes_most }
    ensures { JudgedBound
        (refusal
        (marked_refusals alphabet.now table.now (length nodes.now) nodes.now marks_length))
        alphabet.now nodes.now result }
{
    let bound = element_bound(alphabet, nodes)?;
    if marks_too_short(table, nodes.len(), marks_length) {
        return Err(Refusal::MarksTooShort);
    }
    Ok(bound)
}
