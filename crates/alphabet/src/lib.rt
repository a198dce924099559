// The alphabet: ranks, how many children a word takes by them, constants in symbol order, holes, and refusals 1 and 2.
#![tactic(auto)]

ghost use Rattle.std.specs.Prelude.{◌≡◌, cond, ◌≤◌, length, take, get_or};
ghost use Rattle.std.proofs.lemmas.List.Edits.{sets};
ghost use Rattle.words.specs.Decoded.{fault_in};
ghost use Rattle.words.specs.Lists.{all};
ghost use Rattle.words.specs.Word.{node_kind, symbol_range, kind_of, low_byte};
ghost use Rattle.words.specs.Limits.{alphabet_most, rank_most};
ghost use Rattle.words.specs.Alphabet.{entry_rank, marks_hole, is_entry, rank_of, is_constant, is_hole, has_holes, may_name, constants_of};
ghost use Rattle.words.specs.Alphabet.{no_alphabet, alphabet_fault};
ghost use Rattle.words.specs.Postfix.{arity};
ghost use Rattle.alphabet.specs.Ranks.{RanksWritten};

use words::limits::{ALPHABET_MOST, CONSTANTS_MOST, RANK_MOST, is_outside};
use words::refusal::Refusal;
use words::word::{HOLE_RANGE, Kind, SYMBOL_RANGE, kind_of, spare_bits_clear};

// How many symbols a word can name.
pub const SYMBOLS: usize = SYMBOL_RANGE as usize;

// The rank of a symbol; 0 for an unknown one.
#[tactic(auto, unfolding(words::specs::Alphabet::rank_of))]
pub fn rank(alphabet: &[u32], symbol: usize) -> usize
    ensures { result ≡ rank_of alphabet.now symbol }
{
    alphabet
        .get(symbol)
        .map_or(0, |&w| (w % SYMBOL_RANGE) as usize)
}

// The rank of the symbol in bits 7..0 of a word.
fn symbol_rank(alphabet: &[u32], w: u32) -> usize
    ensures { result ≡ rank_of alphabet.now (low_byte w) }
{
    rank(alphabet, (w % SYMBOL_RANGE) as usize)
}

// Whether an entry marks a hole. Only here is the mark read.
#[tactic(auto, unfolding(words::specs::Alphabet::marks_hole))]
fn marks_hole(w: u32) -> bool
    ensures { result ≡ marks_hole w }
{
    w / SYMBOL_RANGE % HOLE_RANGE == 1
}

// The rank in an entry; for a hole, the other number.
fn rank_unless_hole(w: u32, other: u32) -> u32
    ensures { result ≡ cond (marks_hole w) other (entry_rank w) }
{
    if marks_hole(w) {
        return other;
    }
    w % SYMBOL_RANGE
}

// Writes the ranks of the alphabet's symbols into the list, as far as it reaches, each at its symbol's number. At a hole's number
// the list stays as it is.
pub fn write_ranks(alphabet: &[u32], ranks: &mut [u32])
    ensures { RanksWritten alphabet.now ranks.old ranks.new }
{
    for symbol in 0..alphabet.len().min(ranks.len()) {
        ranks[symbol] = rank_unless_hole(alphabet[symbol], ranks[symbol]);
    }
}

// The rank of the symbol in bits 7..0 of a word, from such a list.
pub fn rank_in(ranks: &[u32], w: u32) -> usize
    requires { symbol_range ≤ length ranks.now }
    ensures { result ≡ get_or ranks.now (low_byte w) 0 }
{
    ranks[(w % SYMBOL_RANGE) as usize] as usize
}

// How many children a node takes. It decodes no kind: those who read a chapter again and again know that its words are nodes.
pub fn node_arity(alphabet: &[u32], w: u32) -> usize
    requires { kind_of w ≡ node_kind }
    ensures { result ≡ arity alphabet.now w }
{
    symbol_rank(alphabet, w)
}

// How many children a word of a rule or a chapter takes.
pub fn arity(alphabet: &[u32], w: u32) -> usize
    ensures { result ≡ arity alphabet.now w }
{
    let kind = kind_of(w);
    match kind {
        Kind::Symbol => symbol_rank(alphabet, w),
        Kind::Union => 2,
        Kind::Product => 2,
        Kind::Closure => 1,
        Kind::Node => node_arity(alphabet, w),
        _ => 0,
    }
}

// Whether the alphabet has the symbol and its rank is 0.
#[tactic(auto, unfolding(words::specs::Alphabet::is_constant))]
pub fn is_constant(alphabet: &[u32], symbol: usize) -> bool
    ensures { result ≡ is_constant alphabet.now symbol }
{
    symbol < alphabet.len() && rank(alphabet, symbol) == 0
}

// Whether a symbol is a hole; an unknown one is not.
#[tactic(auto, unfolding(words::specs::Alphabet::is_hole, words::specs::Alphabet::marks_hole))]
pub fn is_hole(alphabet: &[u32], symbol: usize) -> bool
    ensures { result ≡ is_hole alphabet.now symbol }
{
    alphabet.get(symbol).is_some_and(|&w| marks_hole(w))
}

// Whether the alphabet has a hole.
pub fn has_holes(alphabet: &[u32]) -> bool
    ensures { result ≡ has_holes alphabet.now }
{
    alphabet.iter().any(|&w| marks_hole(w))
}

// Whether a product or a closure may name the symbol: a constant, and where the alphabet has a hole, a hole.
#[tactic(auto, unfolding(words::specs::Alphabet::may_name))]
pub fn may_name(alphabet: &[u32], symbol: usize) -> bool
    ensures { result ≡ may_name alphabet.now symbol }
{
    if !is_constant(alphabet, symbol) {
        return false;
    }
    if !has_holes(alphabet) {
        return true;
    }
    is_hole(alphabet, symbol)
}

// The highest rank of an entry: a hole is a constant.
fn rank_most(w: u32) -> u32
    ensures { result ≡ cond (marks_hole w) 0 rank_most }
{
    if marks_hole(w) {
        return 0;
    }
    RANK_MOST as u32
}

// Whether a word is an alphabet entry.
fn is_entry(w: u32) -> bool
    ensures { result ≡ is_entry w }
{
    let kind = kind_of(w);
    match kind {
        Kind::Entry => spare_bits_clear(w) && w % SYMBOL_RANGE <= rank_most(w),
        _ => false,
    }
}

// Whether every word is an alphabet entry.
fn entries_only(alphabet: &[u32]) -> bool
    ensures { result ≡ all is_entry alphabet.now }
{
    alphabet.iter().all(|&w| is_entry(w))
}

// Whether the words are no alphabet: none, too many, or one that is no entry.
#[tactic(auto, unfolding(words::specs::Alphabet::no_alphabet))]
fn no_alphabet(alphabet: &[u32]) -> bool
    ensures { result ≡ no_alphabet alphabet.now }
{
    is_outside(ALPHABET_MOST, alphabet.len()) || !entries_only(alphabet)
}

// How many constants the alphabet has.
pub fn count_constants(alphabet: &[u32]) -> usize
    ensures { result ≡ length (constants_of alphabet.now) }
{
    alphabet.iter().filter(|&&w| w % SYMBOL_RANGE == 0).count()
}

// Writes the constants in symbol order into the first words of the list, as far as it reaches, and answers how many there are.
// Only the symbols that an alphabet can have are looked at. The list is the caller's memory, and those that it has no room for are
// counted too, so that the count stands beside it.
pub fn write_constants(alphabet: &[u32], list: &mut [u32]) -> usize
    ensures answer { result ≡ length (constants_of (take alphabet_most alphabet.now)) }
    ensures list { list.new ≡ sets list.old 0 (constants_of (take alphabet_most alphabet.now)) }
{
    let mut n: usize = 0;
    for symbol in 0..ALPHABET_MOST {
        if is_constant(alphabet, symbol) {
            if n < list.len() {
                list[n] = symbol as u32;
            }
            n += 1;
        }
    }
    n
}

// Document 01's 1 or 2, the first that applies.
#[tactic(auto, unfolding(words::specs::Alphabet::wrong_constants))]
pub fn alphabet_fault(alphabet: &[u32]) -> Result<(), Refusal>
    ensures { fault_in result ≡ alphabet_fault alphabet.now }
{
    if no_alphabet(alphabet) {
        return Err(Refusal::NoAlphabet);
    }
    if is_outside(CONSTANTS_MOST, count_constants(alphabet)) {
        return Err(Refusal::WrongConstants);
    }
    Ok(())
}
