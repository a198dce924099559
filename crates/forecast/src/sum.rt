// One state set more in three totals.
ghost use Rattle.std.specs.Prelude.{◌≡◌};
ghost use Rattle.totals.specs.TotalsIn.{totals_in};
ghost use Rattle.forecast.specs.Sum.{with_set, Plausible, Addable};

use sets::state::contains;
use sets::whole::count_cells;
use tables::head::final_state;
use totals::Totals;

// The totals with those of one node more, which has this state set.
pub(crate) fn add_set(table: &[u32], totals: Totals, set: &[u32]) -> Totals
    requires { Addable totals set.now }
    ensures answer { totals_in result ≡ with_set table.now (totals_in totals) set.now }
    ensures plausible { Plausible result }
{
    let hit = contains(set, final_state(table));
    let cells = count_cells(set);
    Totals {
        elements: totals.elements + 1,
        hits: totals.hits + hit as u32,
        cells: totals.cells + cells as u32,
    }
}
