// A call that is refused, if at all, by 27 (document 02, U10): the totals at the place are counted before and behind the exchange, and
// whether the record may be moved is known before any lent word changes.
ghost use Rattle.std.specs.Prelude.{◌≡◌, ◌||◌};
ghost use Rattle.operations.specs.Totals.{out_of_range, wrong_totals};
ghost use Rattle.operations.specs.Exchange.{old_totals, new_totals, exchange_answer, exchange_chapter, exchange_marks, exchange_totals};
ghost use Rattle.totals.specs.TotalsIn.{totals_in};
ghost use Rattle.totals.specs.Place.{fallen_totals, added_totals};
ghost use Rattle.totals.specs.Replaceable.{Replaceable};
ghost use Rattle.forecast.specs.ChangeIn.{call_in};
ghost use Rattle.exchanger.specs.ExchangeAnswer.{answer_in_exchanged};

use super::ExchangeCounted;
use super::subtree::replace_subtree;
use forecast::{Change, forecast_totals};
use tables::head::set_size;
use totals::Totals;
use totals::listed::{list_ancestors, listed_totals, move_numbers};
use totals::moves::{has_room, is_out_of_range, moved_totals};
use words::limits::HEIGHT_MOST;
use words::refusal::Refusal;

// Whether hits or cells come out of range, where `fallen` are the totals at the place: those that will be there are worked out
// beforehand. What that takes of the stack stays out of other calls.
#[inline(never)]
fn wrong_figures(
    change: Change,
    chapter: &[u32],
    marks: &[u32],
    before: Totals,
    fallen: Totals,
) -> bool
    requires { Replaceable (call_in change chapter.now marks.now) change.start }
    ensures { result
        ≡ (out_of_range (totals_in before).hits (totals_in fallen).hits
        (added_totals (call_in change.entry chapter.now marks.now)).hits
        || out_of_range (totals_in before).cells (totals_in fallen).cells
        (added_totals (call_in change.entry chapter.now marks.now)).cells) }
{
    let added = forecast_totals(change, chapter, marks);
    is_out_of_range(before.hits, fallen.hits, added.hits)
        || is_out_of_range(before.cells, fallen.cells, added.cells)
}

// Whether 27 applies, where `fallen` are the totals at the place. As many nodes will be there as the replacement has, and the ancestors.
// If the record has room for a hit at each and for a cell at each of the 32 bits of each word of their marks, it need not be known how
// many there will be.
fn wrong_totals(
    change: Change,
    chapter: &[u32],
    marks: &[u32],
    before: Totals,
    fallen: Totals,
) -> bool
    requires replaceable { Replaceable (call_in change chapter.now marks.now) change.start }
    requires fallen_value { totals_in fallen ≡ fallen_totals (call_in change chapter.now marks.now) }
    ensures { result
        ≡ wrong_totals (totals_in before)
        (old_totals (call_in change.entry chapter.now marks.now))
        (new_totals (call_in change.entry chapter.now marks.now)) }
{
    let ancestors = fallen.elements as usize - (change.element + 1 - change.start);
    let many = change.replacement.len() + ancestors;
    if is_out_of_range(before.elements, fallen.elements, many as u32) {
        return true;
    }
    let size = set_size(change.table);
    let bits = many * size * 32;
    let hits_fit = has_room(before.hits, fallen.hits, many);
    let cells_fit = has_room(before.cells, fallen.cells, bits);
    if hits_fit && cells_fit {
        return false;
    }
    wrong_figures(change, chapter, marks, before, fallen)
}

// A call that is not refused but perhaps by 27; the element's subtree begins at `start`. Its ancestors, fewer than the chapter is high, are
// found once, and keep their order behind the exchange. `list_ancestors` writes them into an array that is lent, and answers how many.
pub(crate) fn replace_counted(
    change: Change,
    chapter: &mut [u32],
    marks: &mut [u32],
    before: Totals,
) -> ExchangeCounted
    requires { Replaceable (call_in change chapter.old marks.old) change.start }
    ensures answer { answer_in_exchanged result.exchanged
        ≡ exchange_answer
        (call_in change.entry chapter.old marks.old)
        (totals_in before) }
    ensures chapter { chapter.new
        ≡ exchange_chapter
        (call_in change.entry chapter.old marks.old)
        (totals_in before) }
    ensures marks { marks.new
        ≡ exchange_marks
        (call_in change.entry chapter.old marks.old)
        (totals_in before) }
    ensures totals { totals_in result.totals
        ≡ exchange_totals
        (call_in change.entry chapter.old marks.old)
        (totals_in before) }
{
    let mut above = [0u32; HEIGHT_MOST];
    let many = list_ancestors(
        change.alphabet,
        &chapter[..change.count],
        change.element,
        &mut above,
    );
    let end = change.element + 1;
    let fallen = listed_totals(change.table, marks, change.start, end, &above[..many]);
    if wrong_totals(change, chapter, marks, before, fallen) {
        return ExchangeCounted {
            exchanged: Err(Refusal::WrongTotals),
            totals: before,
        };
    }
    let replaced = replace_subtree(change, chapter, marks);
    let behind = change.start + change.replacement.len();
    move_numbers(&mut above[..many], end, behind);
    let added = listed_totals(change.table, marks, change.start, behind, &above[..many]);
    ExchangeCounted {
        exchanged: Ok(replaced),
        totals: moved_totals(before, fallen, added),
    }
}
