// List's refusals in document 01's order.
ghost use Rattle.std.specs.Prelude.{◌≡◌};
ghost use Rattle.words.specs.Decoded.{fault_in};
ghost use Rattle.operations.specs.Listing.{list_fault};

use super::shared::{marks_too_short, table_fault, wrong_count};
use words::refusal::Refusal;

// The first of document 01's refusals that applies, for marks and list slices of these lengths.
#[tactic(auto, using(crate::proofs::CountRefusalLaws::count_few), unfolding(operations::specs::Listing::list_too_short))]
pub fn list_fault(
    alphabet: &[u32],
    table: &[u32],
    count: usize,
    marks_length: usize,
    list_length: usize,
) -> Result<(), Refusal>
    ensures { fault_in result ≡ list_fault alphabet.now table.now count marks_length list_length }
{
    table_fault(alphabet, table)?;
    if wrong_count(count) {
        return Err(Refusal::WrongCount);
    }
    if marks_too_short(table, count, marks_length) {
        return Err(Refusal::MarksTooShort);
    }
    if list_length < count {
        return Err(Refusal::ListTooShort);
    }
    Ok(())
}
