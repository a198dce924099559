// Run's refusals in the documents' order.
ghost use Rattle.std.specs.Prelude.{◌≡◌};
ghost use Rattle.words.specs.Decoded.{fault_in};
ghost use Rattle.operations.specs.Run.{run_fault};

use super::shared::{marked_bound, table_fault, wrong_count};
use words::refusal::Refusal;

// The first of the documents' refusals that applies, for a marks slice of this length.
#[tactic(auto, using(crate::proofs::CountRefusalLaws::count_few))]
pub fn run_fault(
    alphabet: &[u32],
    table: &[u32],
    chapter: &[u32],
    marks_length: usize,
) -> Result<(), Refusal>
    ensures { fault_in result ≡ run_fault alphabet.now table.now chapter.now marks_length }
{
    table_fault(alphabet, table)?;
    if wrong_count(chapter.len()) {
        return Err(Refusal::WrongCount);
    }
    marked_bound(alphabet, table, chapter, marks_length)?;
    Ok(())
}
