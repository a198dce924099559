// Exchange's refusals in the documents' order.
ghost use Rattle.std.specs.Prelude.{◌≡◌, length, take};
ghost use Rattle.words.specs.Refusal.{refusal};
ghost use Rattle.words.specs.Postfix.{splice};
ghost use Rattle.words.specs.Chapter.{too_high};
ghost use Rattle.operations.specs.Exchange.{wrong_used_count, no_replacement, result_too_long, change_refusals, exchange_fault};
ghost use Rattle.refusals.specs.Judged.{JudgedChange, Changeable, Spliceable};

use super::shared::{marked_bound, marks_too_short, table_fault, wrong_count};
use syntax::chapter::{holes_in, tree_fault};
use syntax::height::joined_height;
use syntax::postfix::subtree_span;
use words::limits::{HEIGHT_MOST, NODES_MOST};
use words::refusal::Refusal;

// Whether so many elements are too few or too many, or do not fit a chapter slice of this length.
#[tactic(auto, unfolding(operations::specs::Exchange::wrong_used_count))]
fn wrong_used_count(count: usize, chapter_length: usize) -> bool
    ensures { result ≡ wrong_used_count count chapter_length }
{
    wrong_count(count) || chapter_length < count
}

// Whether the words are no replacement: none, too many, or no tree over the alphabet.
#[tactic(auto, unfolding(operations::specs::Exchange::no_replacement))]
fn no_replacement(alphabet: &[u32], replacement: &[u32]) -> bool
    ensures { result ≡ no_replacement alphabet.now replacement.now }
{
    wrong_count(replacement.len()) || tree_fault(alphabet, replacement).is_err()
}

// Whether a result of `count` elements is too long for chapter and marks slices of these lengths.
#[tactic(auto, unfolding(operations::specs::Exchange::result_too_long))]
fn result_too_long(table: &[u32], count: usize, chapter_length: usize, marks_length: usize) -> bool
    ensures { result ≡ result_too_long table.now count chapter_length marks_length }
{
    count > NODES_MOST || count > chapter_length || marks_too_short(table, count, marks_length)
}

// Whether the chapter is too high once the replacement stands in the place of the element's subtree, which begins at `start` and is
// `high`. No tree is higher than it has words: with no more words than that, the replacement raises nothing; and the result of a low
// chapter and a short replacement is low. Otherwise the heights of the words before the place, of the replacement and of the words
// behind are read one after the other.
#[tactic(auto, using(crate::proofs::JudgedLaws::low_result))]
fn result_too_high(
    alphabet: &[u32],
    used: &[u32],
    bound: usize,
    start: usize,
    high: usize,
    element: usize,
    replacement: &[u32],
) -> bool
    requires { Spliceable alphabet.now used.now bound start high element replacement.now }
    ensures { result ≡ too_high alphabet.now (splice alphabet.now used.now element replacement.now) }
{
    if replacement.len() <= high {
        return false;
    }
    if bound + replacement.len() <= HEIGHT_MOST {
        return false;
    }
    let height = joined_height(alphabet, &used[..start], replacement, &used[element + 1..]);
    height > HEIGHT_MOST
}

// Of the element and the replacement, for a chapter that is at most `bound` high: where the element's subtree begins, or 14, 15, 26, 16
// or 24, the first that applies. For 16 the result's length is known: what stands before the element's subtree, the replacement, and
// what stands behind. One caller says all of these, once: a struct of them would be no shorter.
#[tactic(auto, using(crate::proofs::CountRefusalLaws::change_parts), unfolding(operations::specs::Exchange::no_element))]
fn change_fault(
    alphabet: &[u32],
    table: &[u32],
    used: &[u32],
    bound: usize,
    chapter_length: usize,
    marks_length: usize,
    element: usize,
    replacement: &[u32],
) -> Result<usize, Refusal>
    requires { Changeable alphabet.now used.now bound }
    ensures { JudgedChange
        (refusal
        (change_refusals alphabet.now table.now (length used.now)
        used.now chapter_length marks_length element replacement.now))
        alphabet.now used.now element result }
{
    if element >= used.len() {
        return Err(Refusal::NoElement);
    }
    if no_replacement(alphabet, replacement) {
        return Err(Refusal::NoReplacement);
    }
    if holes_in(alphabet, replacement) {
        return Err(Refusal::HasHoles);
    }
    let span = subtree_span(alphabet, used, element);
    let start = span.start;
    let behind = used.len() - element - 1;
    let count = start + replacement.len() + behind;
    if result_too_long(table, count, chapter_length, marks_length) {
        return Err(Refusal::ResultTooLong);
    }
    if result_too_high(
        alphabet,
        used,
        bound,
        start,
        span.height,
        element,
        replacement,
    ) {
        return Err(Refusal::TooHigh);
    }
    Ok(start)
}

// Where the element's subtree begins, or the first of the documents' refusals that applies. The call's parts are taken as the C
// interface lends them.
#[tactic(auto, using(crate::proofs::CountRefusalLaws::used_length, crate::proofs::CountRefusalLaws::used_few))]
pub fn exchange_fault(
    alphabet: &[u32],
    table: &[u32],
    chapter: &[u32],
    count: usize,
    marks_length: usize,
    element: usize,
    replacement: &[u32],
) -> Result<usize, Refusal>
    ensures { JudgedChange
        (exchange_fault alphabet.now table.now count (take count chapter.now)
        (length chapter.now) marks_length element replacement.now)
        alphabet.now (take count chapter.now) element result }
{
    table_fault(alphabet, table)?;
    if wrong_used_count(count, chapter.len()) {
        return Err(Refusal::WrongCount);
    }
    let bound = marked_bound(alphabet, table, &chapter[..count], marks_length)?;
    change_fault(
        alphabet,
        table,
        &chapter[..count],
        bound,
        chapter.len(),
        marks_length,
        element,
        replacement,
    )
}
