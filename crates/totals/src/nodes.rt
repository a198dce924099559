// The totals of nodes that stand one behind the other, by their stored marks.
ghost use Rattle.std.specs.Prelude.{◌≡◌, [], ◌∷◌, ◌-◌, length};
ghost use Rattle.words.specs.Lists.{list_from};
ghost use Rattle.operations.specs.Marks.{size_of, stored_set};
ghost use Rattle.operations.specs.Listing.{matches_in};
ghost use Rattle.operations.specs.Totals.{totals_of};
ghost use Rattle.totals.specs.Countable.{Countable};
ghost use Rattle.totals.specs.TotalsIn.{totals_in};

use super::Totals;
use sets::state::contains;
use sets::whole::count_cells;
use tables::head::{final_state, set_size};

// 1 where the set holds the final state, otherwise 0.
pub(crate) fn hit_of(set: &[u32], last: usize) -> usize
    ensures { result ≡ length (matches_in last 0 (set.now ∷ [])) }
{
    usize::from(contains(set, last))
}

// How many of the nodes from `from` to before `to` are hits, where a set has `size` words.
fn count_hits(marks: &[u32], size: usize, last: usize, from: usize, to: usize) -> usize
    requires { Countable (length marks.now) size from to }
    ensures { result ≡ length (matches_in last 0 (list_from (stored_set size marks.now) from (to - from))) }
{
    let mut hits: usize = 0;
    for i in from..to {
        let at = i * size;
        hits += hit_of(&marks[at..at + size], last);
    }
    hits
}

// The totals of the nodes from `from` to before `to`.
pub fn nodes_totals(table: &[u32], marks: &[u32], from: usize, to: usize) -> Totals
    requires { Countable (length marks.now) (size_of table.now) from to }
    ensures { totals_in result
        ≡ totals_of table.now (list_from (stored_set (size_of table.now) marks.now) from (to - from)) }
{
    let size = set_size(table);
    let last = final_state(table);
    let hits = count_hits(marks, size, last, from, to);
    let begin = from * size;
    let end = to * size;
    let cells = count_cells(&marks[begin..end]);
    Totals {
        elements: (to - from) as u32,
        hits: hits as u32,
        cells: cells as u32,
    }
}
