// The words of a rule, and refusals 3, 4 and 5.
ghost use Rattle.std.specs.Prelude.{◌≡◌};
ghost use Rattle.words.specs.Decoded.{fault_in};
ghost use Rattle.words.specs.Lists.{all};
ghost use Rattle.words.specs.ExpressionWords.{is_expression_word, expression_fault};

use super::postfix::one_tree;
use alphabet::may_name;
use words::limits::{EXPRESSION_MOST, is_outside};
use words::refusal::Refusal;
use words::word::{Kind, SYMBOL_RANGE, kind_of, spare_bits_clear};

// Whether a word is a rule word with a known symbol, or a constant that may be named, where it names one.
fn is_expression_word(alphabet: &[u32], w: u32) -> bool
    ensures { result ≡ is_expression_word alphabet.now w }
{
    if !spare_bits_clear(w) {
        return false;
    }
    let symbol = (w % SYMBOL_RANGE) as usize;
    let kind = kind_of(w);
    match kind {
        Kind::Symbol => symbol < alphabet.len(),
        Kind::Empty => true,
        Kind::Union => true,
        Kind::Product => may_name(alphabet, symbol),
        Kind::Closure => may_name(alphabet, symbol),
        Kind::Anything => true,
        _ => false,
    }
}

// Whether every word is one.
fn expression_words_only(alphabet: &[u32], expression: &[u32]) -> bool
    ensures { result ≡ all (is_expression_word alphabet.now) expression.now }
{
    expression.iter().all(|&w| is_expression_word(alphabet, w))
}

// Document 01's 3, 4 or 5, the first that applies. Every word is judged for 4 before 5.
#[tactic(auto, unfolding(words::specs::ExpressionWords::wrong_length, words::specs::ExpressionWords::not_expression_words, words::specs::Postfix::not_one_tree))]
pub fn expression_fault(alphabet: &[u32], expression: &[u32]) -> Result<(), Refusal>
    ensures { fault_in result ≡ expression_fault alphabet.now expression.now }
{
    if is_outside(EXPRESSION_MOST, expression.len()) {
        return Err(Refusal::WrongLength);
    }
    if !expression_words_only(alphabet, expression) {
        return Err(Refusal::NotExpressionWords);
    }
    if !one_tree(alphabet, expression) {
        return Err(Refusal::NotOneExpression);
    }
    Ok(())
}
