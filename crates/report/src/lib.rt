// What `marklist` reads and prints, as bytes (document 01).
#![tactic(auto)]

ghost use Rattle.std.specs.Prelude.{◌≡◌, List, ◌++◌, ℕ, ◌≤◌, length, drop};
ghost use Rattle.report.specs.Output.{output_of};
ghost use Rattle.report.specs.Stages.{buffer_length, ChapterReportable, HitsReportable, Reported};

use compiler::compile;
use lines::{write_lines, write_refused};
use matcher::{list, run_counted};
use sets::state::SET_MOST;
use tables::head::state_count;
use words::limits::TABLE_MOST;
use words::refusal::Refusal;

pub mod input;

// The most elements of a chapter here.
pub(crate) const CHAPTER_MOST: usize = 256;

// The words of the marks.
const MARKS_LENGTH: usize = CHAPTER_MOST * SET_MOST;

// Lists the hits in the marks, and writes the head line and the lines of the hits.
fn report_hits(
    alphabet: &[u32],
    table: &[u32],
    chapter: &[u32],
    marks: &[u32],
    out: &mut [u8],
) -> Result<usize, Refusal>
    ensures { (rule : List ℕ) → HitsReportable alphabet.now rule table.now chapter.now marks.now
        → Reported alphabet.now rule chapter.now out.old out.new result }
{
    let mut hits = [0u32; CHAPTER_MOST];
    let count = list(alphabet, table, chapter.len(), marks, &mut hits)?;
    let states = state_count(table);
    Ok(write_lines(out, alphabet, chapter, states, &hits[..count]))
}

// Marks the chapter by the table in the slice, and writes the output.
#[tactic(auto, using(crate::proofs::ReportLaws::over_output))]
fn report_chapter(
    alphabet: &[u32],
    table: &[u32],
    chapter: &[u32],
    out: &mut [u8],
) -> Result<usize, Refusal>
    ensures { (rule : List ℕ) → ChapterReportable alphabet.now rule table.now
        → Reported alphabet.now rule chapter.now out.old out.new result }
{
    if chapter.len() > CHAPTER_MOST {
        return Err(Refusal::WrongCount);
    }
    let mut marks = [0u32; MARKS_LENGTH];
    run_counted(alphabet, table, chapter, &mut marks)?;
    report_hits(alphabet, table, chapter, &marks, out)
}

// Compiles the rule, and writes the output. The slices of the table, the marks and the hits are so large that no refusal but
// those of `marklist_refusals` can arise.
fn report_rule(
    alphabet: &[u32],
    rule: &[u32],
    chapter: &[u32],
    out: &mut [u8],
) -> Result<usize, Refusal>
    ensures { Reported alphabet.now rule.now chapter.now out.old out.new result }
{
    let mut table = [0u32; TABLE_MOST];
    compile(alphabet, rule, &mut table)?;
    report_chapter(alphabet, &table, chapter, out)
}

// Writes the output of the words that were read: `complete` says whether the input held all that it announced. That it ended
// early is told as 0, which is no refusal of the four operations. The promise is said of the flag.
pub fn report(
    complete: bool,
    alphabet: &[u32],
    rule: &[u32],
    chapter: &[u32],
    out: &mut [u8],
) -> usize
    requires { buffer_length ≤ length out.old }
    ensures answer { result ≡ length (output_of complete alphabet.now rule.now chapter.now) }
    ensures out { out.new
        ≡ output_of complete alphabet.now rule.now chapter.now ++ drop result out.old }
{
    if !complete {
        return write_refused(out, 0);
    }
    match report_rule(alphabet, rule, chapter, out) {
        Ok(written) => written,
        Err(refusal) => write_refused(out, refusal.into()),
    }
}
