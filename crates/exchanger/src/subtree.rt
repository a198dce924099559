// An accepted Exchange: an element's subtree gives way to a replacement. The words and the marks behind it move, the
// replacement's nodes are worked out, and then ancestors, nearest first; no other node is.
ghost use Rattle.std.specs.Prelude.{◌≡◌, [], ◌∷◌};
ghost use Rattle.operations.specs.Exchange.{exchange_values, new_chapter, new_marks};
ghost use Rattle.totals.specs.Replaceable.{Replaceable};
ghost use Rattle.forecast.specs.ChangeIn.{call_in};

use super::Replaced;
use super::tail::move_tail;
use forecast::Change;
use slices::moves::copy_words;
use tables::head::set_size;
use updates::update_marks;

// A call that is not refused; the element's subtree begins at `start`. The old element's words move to the place of the replacement's root,
// which is then compared with them.
pub(crate) fn replace_subtree(change: Change, chapter: &mut [u32], marks: &mut [u32]) -> Replaced
    requires { Replaceable (call_in change chapter.old marks.old) change.start }
    ensures answer { result.elements ∷ result.worked_out ∷ []
        ≡ exchange_values
        (call_in change.entry chapter.old marks.old) }
    ensures chapter { chapter.new
        ≡ new_chapter
        (call_in change.entry chapter.old marks.old) }
    ensures marks { marks.new
        ≡ new_marks
        (call_in change.entry chapter.old marks.old) }
{
    let size = set_size(change.table);
    let count = change.count;
    let element = change.element;
    let behind = change.start + change.replacement.len();
    let root = behind - 1;
    let total = behind + (count - element - 1);
    move_tail(chapter, count, element + 1, behind);
    copy_words(chapter, change.start, change.replacement);
    move_tail(marks, count * size, element * size, root * size);
    let recomputed = update_marks(
        change.alphabet,
        change.table,
        &chapter[..total],
        change.start,
        root,
        marks,
    );
    Replaced {
        elements: total,
        worked_out: recomputed,
    }
}
