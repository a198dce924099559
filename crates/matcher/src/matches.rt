// An accepted List: the numbers of the matches, ascending.
ghost use Rattle.std.specs.Prelude.{◌≡◌, [], ◌∷◌, ◌+◌, ◌<◌, length};
ghost use Rattle.std.proofs.lemmas.List.Edits.{sets};
ghost use Rattle.words.specs.Lists.{written_over};
ghost use Rattle.words.specs.Limits.{nodes_most};
ghost use Rattle.operations.specs.Listing.{list_fault, matches_in, matches_of};

use sets::state::contains;
use tables::head::{final_state, set_size};

// Writes the number of a node behind the matches found so far if its state set holds the final state; answers how many
// matches there are then. The list is a caller's slice, lent through the C interface: its matches are counted beside it.
fn list_node(set: &[u32], last: usize, node: usize, list: &mut [u32], found: usize) -> usize
    requires { (found < length list.old) × (node < nodes_most) }
    ensures answer { result ≡ found + length (matches_in last node (set.now ∷ [])) }
    ensures list { list.new ≡ sets list.old found (matches_in last node (set.now ∷ [])) }
{
    if contains(set, last) {
        list[found] = node as u32;
        return found + 1;
    }
    found
}

// Writes the numbers of the matches of a call that is not refused, and answers how many there are.
pub(crate) fn write_matches(
    alphabet: &[u32],
    table: &[u32],
    count: usize,
    marks: &[u32],
    list: &mut [u32],
) -> usize
    requires { list_fault alphabet.now table.now count (length marks.now) (length list.old) ≡ 0 }
    ensures answer { result ≡ length (matches_of table.now count marks.now) }
    ensures list { list.new ≡ written_over (matches_of table.now count marks.now) list.old }
{
    let size = set_size(table);
    let last = final_state(table);
    let mut found: usize = 0;
    for node in 0..count {
        let at = node * size;
        found = list_node(&marks[at..at + size], last, node, list, found);
    }
    found
}
