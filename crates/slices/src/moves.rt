// Words of a slice are moved, copied and made zero. `paste l at ws n` is l with the n words from index `at` on replaced by
// the first n of ws.
ghost use Rattle.std.specs.Prelude.{◌≡◌, ◌+◌, ◌-◌, ◌≤◌, length, drop, replicate};
ghost use Rattle.std.proofs.Math.Seq.{paste};
ghost use Rattle.slices.specs.Movable.{Movable};

// The last word first, so that none is written before it is read. One function for both directions would take the order as a
// parameter, and its proof would split by it again.
fn move_up(words: &mut [u32], from: usize, to: usize, count: usize)
    requires movable { Movable words.old from to count }
    requires from_le_to { from ≤ to }
    ensures { words.new ≡ paste words.old to (drop from words.old) count }
{
    for k in (0..count).rev() {
        words[to + k] = words[from + k];
    }
}

// The first word first.
fn move_down(words: &mut [u32], from: usize, to: usize, count: usize)
    requires movable { Movable words.old from to count }
    requires to_le_from { to ≤ from }
    ensures { words.new ≡ paste words.old to (drop from words.old) count }
{
    for k in 0..count {
        words[to + k] = words[from + k];
    }
}

// Moves words within the slice; both places may overlap, and where they are the same there is nothing to do. The places are numbers
// beside the slice, which is the caller's: a struct of them would still need the slice in each contract.
#[tactic(auto, using(crate::proofs::CopyLaws::same_place))]
pub fn move_words(words: &mut [u32], from: usize, to: usize, count: usize)
    requires { Movable words.old from to count }
    ensures { words.new ≡ paste words.old to (drop from words.old) count }
{
    if from == to {
        return;
    }
    if from < to {
        move_up(words, from, to, count);
        return;
    }
    move_down(words, from, to, count);
}

// Copies the words to the places from index `at` on.
pub fn copy_words(words: &mut [u32], at: usize, source: &[u32])
    requires { at + length source.now ≤ length words.old }
    ensures { words.new ≡ paste words.old at source.now (length source.now) }
{
    words[at..at + source.len()].copy_from_slice(source);
}

// Makes the words from index `from` up to `to` zero; none where `to` is not above `from`.
pub fn clear_words(words: &mut [u32], from: usize, to: usize)
    requires { to ≤ length words.old }
    ensures { words.new ≡ paste words.old from (replicate (to - from) 0) (to - from) }
{
    if to <= from {
        return;
    }
    words[from..to].fill(0);
}
