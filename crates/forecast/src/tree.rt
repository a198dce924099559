// The totals of a tree that is worked out alone.
ghost use Rattle.std.specs.Prelude.{◌≡◌};
ghost use Rattle.operations.specs.Totals.{totals_of};
ghost use Rattle.operations.specs.Marks.{size_of, node_sets, stored_set};
ghost use Rattle.operations.specs.Exchange.{root_set};
ghost use Rattle.totals.specs.TotalsIn.{totals_in};
ghost use Rattle.forecast.specs.Pile.{Kept};
ghost use Rattle.forecast.specs.Sum.{Plausible};
ghost use Rattle.forecast.specs.Tree.{TreeCountable};

use super::pile::{Pile, Work};
use super::sum::add_set;
use index::Indexed;
use tables::head::set_size;
use totals::Totals;

// Works out the nodes one after the other, and answers their totals. The root's set is the only one that is left on the pile.
pub(crate) fn tree_totals(
    alphabet: &[u32],
    indexed: Indexed,
    nodes: &[u32],
    pile: &mut Pile,
    work: &mut Work,
) -> Totals
    requires { TreeCountable alphabet.now indexed.table.now indexed.index.now nodes.now work.old }
    ensures answer { totals_in result ≡ totals_of indexed.entry.table.now (node_sets alphabet.now indexed.entry.table.now nodes.now) }
    ensures plausible { Plausible result }
    ensures root { stored_set (size_of indexed.entry.table.now) pile.new.sets 0
        ≡ root_set alphabet.now indexed.entry.table.now nodes.now }
    ensures kept { Kept alphabet.now indexed.entry.table.now indexed.entry.index.now work.new }
{
    let size = set_size(indexed.table);
    let mut totals = Totals::default();
    pile.height = 0;
    for w in nodes {
        let set = pile.step(alphabet, indexed, *w, work);
        totals = add_set(indexed.table, totals, &set[..size]);
    }
    totals
}
