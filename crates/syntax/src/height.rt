// Heights by a stack in an array, the last tree's on top. A word takes its children's heights from the top, and one more than
// the highest is put in their place, which is one store.
ghost use Rattle.std.specs.Prelude.{◌≡◌, ◌++◌, ◌+◌, ◌<◌, ◌≤◌, List, ℕ, max, length, get_or};
ghost use Rattle.words.specs.Limits.{nodes_most};
ghost use Rattle.words.specs.Lists.{highest};
ghost use Rattle.words.specs.Postfix.{height_of};
ghost use Rattle.syntax.specs.HeightStack.{stack_in, heights_after, heights_after_word, word_most};

use alphabet::arity;
use std::marker::Model;
use words::limits::NODES_MOST;

// The higher of two heights. It is the library's `max`, kept under its public name.
pub fn higher(left: u32, right: u32) -> u32
    ensures { result ≡ max left right }
{
    left.max(right)
}

// The highest of the heights; 0 if there are none.
pub fn highest_of(heights: &[u32]) -> u32
    ensures { result ≡ highest heights.now }
{
    heights.iter().copied().max().unwrap_or(0)
}

// A stack of at most N heights: those before `top`, the last one on top. Words that lack children take what there is, so that it takes
// from the top otherwise than the stacks of trees do.
#[derive(Drop)]
struct Heights<const N: usize> {
    array: [u32; N],
    top: usize,
}

// Clauses see the heights from the top on.
impl<const N: usize> Model for Heights<N> {
    ghost Value = { List ℕ };

    ghost view = { λ s. stack_in s.array s.top };

    ghost invariant = { λ s. s.top ≤ N };
}

impl<const N: usize> Heights<N> {
    // Puts the height of a word's tree on the stack in the place of its children's.
    fn push(&mut self, alphabet: &[u32], w: u32)
        requires room { length self.old < N }
        requires low { highest self.old < word_most }
        ensures { self.new ≡ heights_after_word alphabet.now w self.old }
    {
        let top = self.top;
        let below = top.saturating_sub(arity(alphabet, w));
        let heights = &self.array[..];
        let high = highest_of(&heights[below..top]);
        self.array[below] = high + 1;
        self.top = below + 1;
    }

    // Reads words on the stack.
    fn read(&mut self, alphabet: &[u32], words: &[u32])
        requires room { length self.old + length words.now ≤ N }
        requires low { highest self.old + length words.now ≤ word_most }
        ensures { self.new ≡ heights_after alphabet.now words.now self.old }
    {
        for &w in words {
            self.push(alphabet, w);
        }
    }

    // The height on top; 0 if there is none.
    fn top(&self) -> usize
        ensures { result ≡ get_or self.now 0 0 }
    {
        let top = self.top;
        if top == 0 {
            return 0;
        }
        self.array[top - 1] as usize
    }
}

// The height of the tree that three runs of words make, one behind the other, where the stack has a place for each word.
fn runs_height<const N: usize>(
    alphabet: &[u32],
    before: &[u32],
    place: &[u32],
    behind: &[u32],
) -> usize
    requires room { length before.now + length place.now + length behind.now ≤ N }
    requires low { N ≤ nodes_most }
    ensures { result ≡ height_of alphabet.now (before.now ++ (place.now ++ behind.now)) }
{
    let mut heights = Heights::<N> {
        array: [0; N],
        top: 0,
    };
    heights.read(alphabet, before);
    heights.read(alphabet, place);
    heights.read(alphabet, behind);
    heights.top()
}

// The height of the tree that the words before a place, those put there and those behind it make; nothing is moved for it. It is not
// inlined, so that no caller's frame holds the large array.
#[inline(never)]
pub fn joined_height(alphabet: &[u32], before: &[u32], place: &[u32], behind: &[u32]) -> usize
    requires { length before.now + length place.now + length behind.now ≤ nodes_most }
    ensures { result ≡ height_of alphabet.now (before.now ++ (place.now ++ behind.now)) }
{
    runs_height::<NODES_MOST>(alphabet, before, place, behind)
}

// As many words' heights are read in a small array, which costs less to clear.
const FEW: usize = 128;

// The height of the tree that the words make: nothing stands before them or behind.
pub fn words_height(alphabet: &[u32], words: &[u32]) -> usize
    requires { length words.now ≤ nodes_most }
    ensures { result ≡ height_of alphabet.now words.now }
{
    if words.len() <= FEW {
        return runs_height::<FEW>(alphabet, &words[..0], words, &words[words.len()..]);
    }
    joined_height(alphabet, &words[..0], words, &words[words.len()..])
}
