// An accepted Run: the state sets of all nodes of a tree, in order, and their totals.
ghost use Rattle.std.specs.Prelude.{◌≡◌, length};
ghost use Rattle.operations.specs.Marks.{node_sets};
ghost use Rattle.operations.specs.Run.{run_fault, run_marks};
ghost use Rattle.operations.specs.Totals.{totals_of};
ghost use Rattle.totals.specs.TotalsIn.{totals_in};

use totals::Totals;
use totals::nodes::nodes_totals;
use updates::update_marks;

// Marks the chapter of a call that is not refused, and answers its totals.
pub(crate) fn mark_chapter(
    alphabet: &[u32],
    table: &[u32],
    chapter: &[u32],
    marks: &mut [u32],
) -> Totals
    requires { run_fault alphabet.now table.now chapter.now (length marks.old) ≡ 0 }
    ensures answer { totals_in result
        ≡ totals_of table.now (node_sets alphabet.now table.now chapter.now) }
    ensures marks { marks.new ≡ run_marks alphabet.now table.now chapter.now marks.old }
{
    update_marks(alphabet, table, chapter, 0, chapter.len(), marks);
    nodes_totals(table, marks, 0, chapter.len())
}
