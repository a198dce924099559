// The C interface: Compile, Run, List and Exchange over slices of words. A slice is a pointer and then a length; each
// function returns 0 or the documents' number, and writes its out-parameters only where it accepts. A record of totals is a pointer
// to three words. `include/haqbylur.h` declares them for C.
#![tactic(auto)]

ghost use Rattle.std.specs.Prelude.{◌≡◌};
ghost use Rattle.words.specs.Answer.{value_or};
ghost use Rattle.words.specs.Decoded.{fault_in};
ghost use Rattle.automaton.specs.Table.{table_in};
ghost use Rattle.operations.specs.Compile.{compile_answer, compile_exit};
ghost use Rattle.operations.specs.Run.{run_answer, run_exit};
ghost use Rattle.operations.specs.Totals.{run_totals};
ghost use Rattle.operations.specs.Listing.{list_answer, list_exit};
ghost use Rattle.operations.specs.ExchangeCall.{exchange_call};
ghost use Rattle.operations.specs.Exchange.{exchange_answer, exchange_chapter, exchange_marks, exchange_totals};
ghost use Rattle.totals.specs.TotalsIn.{totals_in};
ghost use Rattle.haqbylur.specs.Status.{status_of};

use compiler::compile;
use exchanger::exchange;
use matcher::run;
use totals::Totals;
use words::refusal::Refusal;

// The status of a call: 0 where it is accepted, and otherwise the number of the refusal.
fn status<A: Copy>(answer: Result<A, Refusal>) -> u32
    ensures { result ≡ fault_in answer }
{
    match answer {
        Ok(_) => 0,
        Err(refusal) => u32::from(refusal),
    }
}

// Compile: `words` is the table's word count.
#[unsafe(no_mangle)]
pub extern "C" fn haqbylur_compile(
    alphabet: &[u32],
    rule: &[u32],
    table: &mut [u32],
    words: &mut u32,
) -> u32
    ensures status { result ≡ status_of (compile_answer alphabet.now rule.now table.old) }
    ensures table { table.new ≡ compile_exit alphabet.now rule.now table.old }
    ensures words { words.new
        ≡ value_or (compile_answer alphabet.now rule.now table.old) 0 words.old }
{
    let compiled = compile(alphabet, rule, table);
    if let Ok(count) = compiled {
        *words = count as u32;
    }
    status(compiled)
}

// Run: `elements` is the element count, `cells` the number of ones in all marks of the chapter; `totals` is the chapter's record.
#[tactic(auto, using(crate::proofs::AnswerValueLaws::run_small))]
#[unsafe(no_mangle)]
pub extern "C" fn haqbylur_run(
    alphabet: &[u32],
    table: &[u32],
    chapter: &[u32],
    marks: &mut [u32],
    elements: &mut u32,
    cells: &mut u32,
    totals: &mut Totals,
) -> u32
    ensures status { result ≡ status_of (run_answer alphabet.now (table_in table.now) chapter.now marks.old) }
    ensures marks { marks.new
        ≡ run_exit alphabet.now (table_in table.now) chapter.now marks.old }
    ensures elements { elements.new
        ≡ value_or (run_answer alphabet.now (table_in table.now) chapter.now marks.old) 0
        elements.old }
    ensures cells { cells.new
        ≡ value_or (run_answer alphabet.now (table_in table.now) chapter.now marks.old) 1
        cells.old }
    ensures totals { totals_in totals.new
        ≡ run_totals alphabet.now (table_in table.now) chapter.now marks.old
        (totals_in totals.old) }
{
    let ran = run(alphabet, table, chapter, marks, totals);
    if let Ok(marked) = ran {
        *elements = marked.elements as u32;
        *cells = marked.cells as u32;
    }
    status(ran)
}

// List: `hits` is the number of hits.
#[unsafe(no_mangle)]
pub extern "C" fn haqbylur_list(
    alphabet: &[u32],
    table: &[u32],
    count: usize,
    marks: &[u32],
    list: &mut [u32],
    hits: &mut u32,
) -> u32
    ensures status { result ≡ status_of (list_answer alphabet.now (table_in table.now) count marks.now list.old) }
    ensures list { list.new ≡ list_exit alphabet.now (table_in table.now) count marks.now list.old }
    ensures hits { hits.new
        ≡ value_or (list_answer alphabet.now (table_in table.now) count marks.now list.old) 0
        hits.old }
{
    let listed = matcher::list(alphabet, table, count, marks, list);
    if let Ok(found) = listed {
        *hits = found as u32;
    }
    status(listed)
}

// Exchange: `elements` is the new element count, `worked_out` the number of elements worked out; `totals` is the chapter's record.
#[tactic(auto, using(crate::proofs::AnswerValueLaws::exchange_small))]
#[unsafe(no_mangle)]
pub extern "C" fn haqbylur_exchange(
    alphabet: &[u32],
    table: &[u32],
    chapter: &mut [u32],
    count: usize,
    marks: &mut [u32],
    element: usize,
    replacement: &[u32],
    elements: &mut u32,
    worked_out: &mut u32,
    totals: &mut Totals,
) -> u32
    ensures status { result
        ≡ status_of
        (exchange_answer
        (exchange_call alphabet.now (table_in table.now) chapter.old marks.old count element
        replacement.now)
        (totals_in totals.old)) }
    ensures chapter { chapter.new
        ≡ exchange_chapter
        (exchange_call alphabet.now (table_in table.now) chapter.old marks.old count element
        replacement.now)
        (totals_in totals.old) }
    ensures marks { marks.new
        ≡ exchange_marks
        (exchange_call alphabet.now (table_in table.now) chapter.old marks.old count element
        replacement.now)
        (totals_in totals.old) }
    ensures elements { elements.new
        ≡ value_or
        (exchange_answer
        (exchange_call alphabet.now (table_in table.now) chapter.old marks.old count element
        replacement.now)
        (totals_in totals.old))
        0 elements.old }
    ensures worked { worked_out.new
        ≡ value_or
        (exchange_answer
        (exchange_call alphabet.now (table_in table.now) chapter.old marks.old count element
        replacement.now)
        (totals_in totals.old))
        1 worked_out.old }
    ensures totals { totals_in totals.new
        ≡ exchange_totals
        (exchange_call alphabet.now (table_in table.now) chapter.old marks.old count element
        replacement.now)
        (totals_in totals.old) }
{
    let exchanged = exchange(
        alphabet,
        table,
        chapter,
        count,
        marks,
        element,
        replacement,
        totals,
    );
    if let Ok(replaced) = exchanged {
        *elements = replaced.elements as u32;
        *worked_out = replaced.worked_out as u32;
    }
    status(exchanged)
}
