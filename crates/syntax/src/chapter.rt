// The words of a chapter, refusals 10 and 11, and whether a hole is among them.
ghost use Rattle.std.specs.Prelude.{◌≡◌};
ghost use Rattle.words.specs.Decoded.{fault_in};
ghost use Rattle.words.specs.Lists.{all};
ghost use Rattle.words.specs.Word.{node_kind, is_of};
ghost use Rattle.words.specs.Chapter.{is_node, tree_fault, holes_in};

use alphabet::{has_holes, is_hole, node_arity};
use words::refusal::Refusal;
use words::word::{Kind, SYMBOL_RANGE, kind_of, spare_bits_clear};

// Whether a word is of the chapter's kind, its spare bits clear.
#[tactic(auto, using(crate::proofs::ChapterLaws::node_told))]
pub fn is_element(w: u32) -> bool
    ensures { result ≡ is_of node_kind w }
{
    let kind = kind_of(w);
    match kind {
        Kind::Node => spare_bits_clear(w),
        _ => false,
    }
}

// Whether a word is a chapter element with a symbol that the alphabet has.
fn is_node(alphabet: &[u32], w: u32) -> bool
    ensures { result ≡ is_node alphabet.now w }
{
    let symbol = (w % SYMBOL_RANGE) as usize;
    is_element(w) && symbol < alphabet.len()
}

// Whether every word is one.
fn nodes_only(alphabet: &[u32], words: &[u32]) -> bool
    ensures { result ≡ all (is_node alphabet.now) words.now }
{
    words.iter().all(|&w| is_node(alphabet, w))
}

// Document 01's 10 or 11, the first that applies. The words before word i are nodes and make `made` trees. Where word i lacks
// children, the words from it on are judged for 10 before 11. `one_tree` would read a chapter a second time.
pub fn tree_fault(alphabet: &[u32], words: &[u32]) -> Result<(), Refusal>
    ensures { fault_in result ≡ tree_fault alphabet.now words.now }
{
    let mut made: usize = 0;
    for (i, &w) in words.iter().enumerate() {
        if !is_node(alphabet, w) {
            return Err(Refusal::NotNodes);
        }
        let children = node_arity(alphabet, w);
        if made < children {
            if !nodes_only(alphabet, &words[i..]) {
                return Err(Refusal::NotNodes);
            }
            return Err(Refusal::NotOneTree);
        }
        made = made - children + 1;
    }
    if made == 1 {
        return Ok(());
    }
    Err(Refusal::NotOneTree)
}

// Whether some word's symbol is a hole. Where the alphabet has none, no word is looked at.
#[tactic(auto, using(crate::proofs::ChapterLaws::without_holes))]
pub fn holes_in(alphabet: &[u32], words: &[u32]) -> bool
    ensures { result ≡ holes_in alphabet.now words.now }
{
    if !has_holes(alphabet) {
        return false;
    }
    words
        .iter()
        .any(|&w| is_hole(alphabet, (w % SYMBOL_RANGE) as usize))
}
