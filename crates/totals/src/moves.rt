// The record's totals moved by what an exchange makes of them, and 27 (document 02, U10); and two totals together.
ghost use Rattle.std.specs.Prelude.{◌≡◌, false, ◌*◌, ◌≤◌};
ghost use Rattle.words.specs.Limits.{cells_most};
ghost use Rattle.operations.specs.Totals.{out_of_range, wrong_totals, moved, moved_totals};
ghost use Rattle.totals.specs.TotalsIn.{totals_in};
ghost use Rattle.totals.specs.Room.{has_room};
ghost use Rattle.totals.specs.Sum.{sum_totals, Addable};

use super::Totals;
use words::limits::CELLS_MOST;

// 27: whether one total comes out below zero or above the most. The record may hold any number, so the sum is taken in more bits.
pub fn is_out_of_range(before: u32, fallen: u32, added: u32) -> bool
    ensures { result ≡ out_of_range before fallen added }
{
    let sum = before as usize + added as usize;
    sum.checked_sub(fallen as usize)
        .is_none_or(|total| total > CELLS_MOST)
}

// One total moved by the difference.
fn move_total(before: u32, fallen: u32, added: u32) -> u32
    requires { out_of_range before fallen added ≡ false }
    ensures { result ≡ moved before fallen added }
{
    (before as usize + added as usize - fallen as usize) as u32
}

// The three totals moved by the difference, where none comes out of range. They are three fields, the form that document 01 asks for.
pub fn moved_totals(before: Totals, fallen: Totals, added: Totals) -> Totals
    requires { wrong_totals (totals_in before) (totals_in fallen) (totals_in added) ≡ false }
    ensures { totals_in result ≡ moved_totals (totals_in before) (totals_in fallen) (totals_in added) }
{
    Totals {
        elements: move_total(before.elements, fallen.elements, added.elements),
        hits: move_total(before.hits, fallen.hits, added.hits),
        cells: move_total(before.cells, fallen.cells, added.cells),
    }
}

// Whether one total stays in range for certain, whatever is added to it up to `most`: then that need not be known.
pub fn has_room(before: u32, fallen: u32, most: usize) -> bool
    requires { most ≤ 2 * cells_most }
    ensures { result ≡ has_room before fallen most }
{
    before
        .checked_sub(fallen)
        .is_some_and(|left| left as usize + most <= CELLS_MOST)
}

// Two totals together.
pub(crate) fn add_totals(first: Totals, second: Totals) -> Totals
    requires { Addable (totals_in first) (totals_in second) }
    ensures { totals_in result ≡ sum_totals (totals_in first) (totals_in second) }
{
    Totals {
        elements: first.elements + second.elements,
        hits: first.hits + second.hits,
        cells: first.cells + second.cells,
    }
}
