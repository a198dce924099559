// Run and List (document 01): state sets for the nodes of a tree, and the matches.
#![tactic(auto)]

ghost use Rattle.std.specs.Prelude.{◌≡◌};
ghost use Rattle.automaton.specs.Table.{table_in};
ghost use Rattle.operations.specs.Run.{run_answer, run_exit};
ghost use Rattle.operations.specs.Totals.{run_totals};
ghost use Rattle.operations.specs.Listing.{list_answer, list_exit};
ghost use Rattle.totals.specs.TotalsIn.{totals_in};
ghost use Rattle.matcher.specs.MatcherAnswers.{answer_in_counted, totals_behind, answer_in_ran, answer_in_listed};

use matches::write_matches;
use refusals::list::list_fault;
use refusals::run::run_fault;
use tables::length::table_word_count;
use totals::Totals;
use tree::mark_chapter;
use words::refusal::Refusal;

mod matches;
mod tree;

// What Run answers where it accepts: the element count and the cells.
#[derive(Clone, Copy)]
pub struct Marked {
    pub elements: usize,
    pub cells: usize,
}

// Document 01's Run without the record: marks the chapter by the table in its slice and answers its totals, or refuses. What follows
// the table is not read.
pub fn run_counted(
    alphabet: &[u32],
    table_slice: &[u32],
    chapter: &[u32],
    marks: &mut [u32],
) -> Result<Totals, Refusal>
    ensures answer { answer_in_counted result
        ≡ run_answer alphabet.now (table_in table_slice.now) chapter.now marks.old }
    ensures marks { marks.new
        ≡ run_exit alphabet.now (table_in table_slice.now) chapter.now marks.old }
    ensures totals { (before : Totals) → totals_behind result (totals_in before)
        ≡ run_totals alphabet.now (table_in table_slice.now) chapter.now marks.old
        (totals_in before) }
{
    let words = table_word_count(table_slice);
    let table = &table_slice[..words];
    run_fault(alphabet, table, chapter, marks.len())?;
    Ok(mark_chapter(alphabet, table, chapter, marks))
}

// Document 01's Run: marks the chapter and sets the record of totals (document 02, U10), or refuses. All work is in
// `run_counted`, which answers the totals: document 01 asks for a thin function, by which the record is changed.
pub fn run(
    alphabet: &[u32],
    table_slice: &[u32],
    chapter: &[u32],
    marks: &mut [u32],
    totals: &mut Totals,
) -> Result<Marked, Refusal>
    ensures answer { answer_in_ran result
        ≡ run_answer alphabet.now (table_in table_slice.now) chapter.now marks.old }
    ensures marks { marks.new
        ≡ run_exit alphabet.now (table_in table_slice.now) chapter.now marks.old }
    ensures totals { totals_in totals.new
        ≡ run_totals alphabet.now (table_in table_slice.now) chapter.now marks.old
        (totals_in totals.old) }
{
    let counted = run_counted(alphabet, table_slice, chapter, marks)?;
    *totals = counted;
    Ok(Marked {
        elements: counted.elements as usize,
        cells: counted.cells as usize,
    })
}

// Document 01's List: writes the numbers of the matches by the table in its slice, or refuses. What follows the table is not read.
pub fn list(
    alphabet: &[u32],
    table_slice: &[u32],
    count: usize,
    marks: &[u32],
    list: &mut [u32],
) -> Result<usize, Refusal>
    ensures answer { answer_in_listed result
        ≡ list_answer alphabet.now (table_in table_slice.now) count marks.now list.old }
    ensures list { list.new
        ≡ list_exit alphabet.now (table_in table_slice.now) count marks.now list.old }
{
    let words = table_word_count(table_slice);
    let table = &table_slice[..words];
    list_fault(alphabet, table, count, marks.len(), list.len())?;
    Ok(write_matches(alphabet, table, count, marks, list))
}
