// What the totals at a place will be behind an exchange, worked out before any lent word is written (document 02, U10). State sets stand
// one above the other in an array of its own.
#![tactic(auto)]

ghost use Rattle.std.specs.Prelude.{◌≡◌};
ghost use Rattle.totals.specs.TotalsIn.{totals_in};
ghost use Rattle.totals.specs.Place.{added_totals};
ghost use Rattle.totals.specs.Replaceable.{Replaceable};
ghost use Rattle.forecast.specs.ChangeIn.{call_in};

use behind::{Place, behind_totals};
use closures::{KeptClosures, ROWS_LENGTH, ROWS_MOST};
use index::{INDEX_LENGTH, Indexed, write_index};
use pile::{PILE_LENGTH, Pile, Work};
use sets::state::SET_MOST;
use sets::whole::write_set;
use tables::head::set_size;
use totals::Totals;
use tree::tree_totals;
use words::limits::STATES_MOST;

mod behind;
mod pile;
mod sum;
mod tree;

// What an exchange is lent besides the chapter and its marks, and where the element's subtree begins.
#[derive(Clone, Copy)]
pub struct Change<'a> {
    pub alphabet: &'a [u32],
    pub table: &'a [u32],
    pub count: usize,
    pub element: usize,
    pub start: usize,
    pub replacement: &'a [u32],
}

// The totals of the replacement's nodes and of the ancestors of the place, as they are behind the exchange. First the replacement is
// worked out alone; its root's set is kept. Then the sets before the place are put on the pile, the root's set above them, and
// the nodes behind the place are passed.
pub fn forecast_totals<'a>(change: Change<'a>, chapter: &'a [u32], marks: &'a [u32]) -> Totals
    requires { Replaceable (call_in change chapter.now marks.now) change.start }
    ensures { totals_in result ≡ added_totals (call_in change.entry chapter.now marks.now) }
{
    let alphabet = change.alphabet;
    let table = change.table;
    let mut index = [0u32; INDEX_LENGTH];
    write_index(table, &mut index);
    let indexed = Indexed {
        table,
        index: &index,
    };
    let mut pile = Pile {
        sets: [0u32; PILE_LENGTH],
        height: 0,
    };
    let mut work = Work {
        closures: KeptClosures {
            owners: [0u32; ROWS_MOST],
            rows: [0u32; ROWS_LENGTH],
        },
        pending: [0u32; STATES_MOST],
    };
    let counted = tree_totals(alphabet, indexed, change.replacement, &mut pile, &mut work);
    let size = set_size(table);
    let mut root = [0u32; SET_MOST];
    write_set(&mut root, &pile.sets[..size]);
    let place = Place {
        alphabet,
        indexed,
        nodes: &chapter[..change.count],
        marks,
        element: change.element,
    };
    behind_totals(
        place,
        change.start,
        &root[..size],
        counted,
        &mut pile,
        &mut work,
    )
}
