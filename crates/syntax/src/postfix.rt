// Words in postfix order: which words make one tree, where subtrees begin and how high they are.
ghost use Rattle.std.specs.Prelude.{◌≡◌, ◌<◌, ◌≤◌, length};
ghost use Rattle.words.specs.Limits.{nodes_most};
ghost use Rattle.words.specs.Postfix.{one_tree, span_of};
ghost use Rattle.syntax.specs.SpanAnswer.{span_in};

use super::height::words_height;
use alphabet::arity;

// Whether the words make exactly one tree.
pub(crate) fn one_tree(alphabet: &[u32], words: &[u32]) -> bool
    ensures { result ≡ one_tree alphabet.now words.now }
{
    let mut made: usize = 0;
    for &w in words {
        let children = arity(alphabet, w);
        if made < children {
            return false;
        }
        made = made - children + 1;
    }
    made == 1
}

// The span of a node's subtree: the index of its first word, and its height (document 02, U6).
#[derive(Drop)]
pub struct Span {
    pub start: usize,
    pub height: usize,
}

// Where a node's subtree begins. Counted back from the node, `needed` trees end before the words that were passed; words that lack
// children make no whole tree, and their subtree goes to the beginning.
fn subtree_start(alphabet: &[u32], words: &[u32], node: usize) -> usize
    requires within { node < length words.now }
    requires few { length words.now ≤ nodes_most }
    ensures order { result ≤ node }
    ensures start { result ≡ (span_of alphabet.now words.now node).start }
{
    let mut needed: usize = 1;
    for start in (0..node + 1).rev() {
        needed = needed - 1 + arity(alphabet, words[start]);
        if needed == 0 {
            return start;
        }
    }
    0
}

// The span of the node's subtree: where it begins, and its height. A missing node's has no words.
pub fn subtree_span(alphabet: &[u32], words: &[u32], node: usize) -> Span
    requires { length words.now ≤ nodes_most }
    ensures { span_in result ≡ span_of alphabet.now words.now node }
{
    if node >= words.len() {
        return Span {
            start: node,
            height: 0,
        };
    }
    let start = subtree_start(alphabet, words, node);
    let height = words_height(alphabet, &words[start..node + 1]);
    Span { start, height }
}
