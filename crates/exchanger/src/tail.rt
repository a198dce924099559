// The words behind a replaced part of a slice move, and the words that fall out of use become zero.
ghost use Rattle.std.specs.Prelude.{◌≡◌, ◌++◌, take};
ghost use Rattle.std.proofs.Math.Seq.{slice};
ghost use Rattle.operations.specs.Marks.{refit};
ghost use Rattle.exchanger.specs.Tail.{TailMovable};

use slices::moves::{clear_words, move_words};

// Of the slice's words the first `used` are in use. Those from index `end` on move to index `at`; what they leave becomes zero.
pub(crate) fn move_tail(words: &mut [u32], used: usize, end: usize, at: usize)
    requires { TailMovable words.old used end at }
    ensures { words.new ≡ refit used (take at words.old ++ slice end used words.old) words.old }
{
    let count = used - end;
    move_words(words, end, at, count);
    clear_words(words, at + count, used);
}
