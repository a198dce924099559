// Exchange: one subtree of a marked chapter gives way to a replacement.
#![tactic(auto)]

ghost use Rattle.std.specs.Prelude.{◌≡◌};
ghost use Rattle.automaton.specs.Table.{table_in};
ghost use Rattle.operations.specs.ExchangeCall.{exchange_call};
ghost use Rattle.operations.specs.Exchange.{exchange_answer, exchange_chapter, exchange_marks, exchange_totals};
ghost use Rattle.totals.specs.TotalsIn.{totals_in};
ghost use Rattle.exchanger.specs.ExchangeAnswer.{answer_in_exchanged};

use counted::replace_counted;
use forecast::Change;
use refusals::exchange::exchange_fault;
use tables::length::table_word_count;
use totals::Totals;
use words::refusal::Refusal;

mod counted;
mod subtree;
mod tail;

// What an accepted call answers: the new element count and the number of nodes worked out.
#[derive(Clone, Copy)]
pub struct Replaced {
    pub elements: usize,
    pub worked_out: usize,
}

// The same or a refusal, and the chapter's record of totals as Exchange leaves it, also where it refuses.
#[derive(Clone, Copy)]
pub struct ExchangeCounted {
    pub exchanged: Result<Replaced, Refusal>,
    pub totals: Totals,
}

// Document 01's Exchange with the record by value, by the table in its slice: the new element count and the number worked out, or a
// refusal. What follows the table is not read. The call's parts are taken as the C interface lends them.
pub fn exchange_counted(
    alphabet: &[u32],
    table_slice: &[u32],
    chapter: &mut [u32],
    count: usize,
    marks: &mut [u32],
    element: usize,
    replacement: &[u32],
    before: Totals,
) -> ExchangeCounted
    ensures answer { answer_in_exchanged result.exchanged
        ≡ exchange_answer
        (exchange_call alphabet.now (table_in table_slice.now) chapter.old marks.old
        count element replacement.now)
        (totals_in before) }
    ensures chapter { chapter.new
        ≡ exchange_chapter
        (exchange_call alphabet.now (table_in table_slice.now) chapter.old marks.old
        count element replacement.now)
        (totals_in before) }
    ensures marks { marks.new
        ≡ exchange_marks
        (exchange_call alphabet.now (table_in table_slice.now) chapter.old marks.old
        count element replacement.now)
        (totals_in before) }
    ensures totals { totals_in result.totals
        ≡ exchange_totals
        (exchange_call alphabet.now (table_in table_slice.now) chapter.old marks.old
        count element replacement.now)
        (totals_in before) }
{
    let words = table_word_count(table_slice);
    let table = &table_slice[..words];
    let room = marks.len();
    let judged = exchange_fault(alphabet, table, chapter, count, room, element, replacement);
    let start = match judged {
        Ok(start) => start,
        Err(refusal) => {
            return ExchangeCounted {
                exchanged: Err(refusal),
                totals: before,
            };
        }
    };
    let change = Change {
        alphabet,
        table,
        count,
        element,
        start,
        replacement,
    };
    replace_counted(change, chapter, marks, before)
}

// Document 01's Exchange, which also changes the record of totals by the difference that it makes (document 02, U10). All
// work is in `exchange_counted`, which has the record by value: document 01 asks for a thin function, by which the record is changed.
pub fn exchange(
    alphabet: &[u32],
    table_slice: &[u32],
    chapter: &mut [u32],
    count: usize,
    marks: &mut [u32],
    element: usize,
    replacement: &[u32],
    totals: &mut Totals,
) -> Result<Replaced, Refusal>
    ensures answer { answer_in_exchanged result
        ≡ exchange_answer
        (exchange_call alphabet.now (table_in table_slice.now) chapter.old marks.old
        count element replacement.now)
        (totals_in totals.old) }
    ensures chapter { chapter.new
        ≡ exchange_chapter
        (exchange_call alphabet.now (table_in table_slice.now) chapter.old marks.old
        count element replacement.now)
        (totals_in totals.old) }
    ensures marks { marks.new
        ≡ exchange_marks
        (exchange_call alphabet.now (table_in table_slice.now) chapter.old marks.old
        count element replacement.now)
        (totals_in totals.old) }
    ensures totals { totals_in totals.new
        ≡ exchange_totals
        (exchange_call alphabet.now (table_in table_slice.now) chapter.old marks.old
        count element replacement.now)
        (totals_in totals.old) }
{
    let counted = exchange_counted(
        alphabet,
        table_slice,
        chapter,
        count,
        marks,
        element,
        replacement,
        *totals,
    );
    *totals = counted.totals;
    counted.exchanged
}
