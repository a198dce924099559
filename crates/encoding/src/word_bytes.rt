// Words in bytes: four bytes each, low byte first.
ghost use Rattle.std.specs.Prelude.{◌≡◌, ◌+◌, ◌*◌, ◌≤◌, min, length, true};
ghost use Rattle.std.proofs.lemmas.List.Edits.{sets};
ghost use Rattle.encoding.specs.Words.{word_bytes, are_bytes, word_at, words_in};

// How many bytes a word has.
pub const WORD_BYTES: usize = 4;

// Word i of the bytes.
#[tactic(auto, unfolding(crate::specs::Words::word_at))]
fn word_at(bytes: &[u8], i: usize) -> u32
    requires { word_bytes * i + word_bytes ≤ length bytes.now }
    ensures { result ≡ word_at bytes.now i }
{
    let first = WORD_BYTES * i;
    u32::from_le_bytes([
        bytes[first],
        bytes[first + 1],
        bytes[first + 2],
        bytes[first + 3],
    ])
}

// The lesser of two numbers. It is the library's `min`, kept under its public name.
pub fn least(a: usize, b: usize) -> usize
    ensures { result ≡ min a b }
{
    a.min(b)
}

// Writes the words of the bytes to the places from index `at` on, as far as the slice reaches; the others are left out. That
// the bytes are below 256 says their type; callers take it from here.
#[tactic(auto, using(crate::proofs::WordByteLaws::keeping_none))]
pub fn keep_words(words: &mut [u32], at: usize, bytes: &[u8])
    ensures words { words.new ≡ sets words.old at (words_in bytes.now) }
    ensures bytes { are_bytes bytes.now ≡ true }
{
    let room = words.len().saturating_sub(at);
    let count = least(room, bytes.len() / WORD_BYTES);
    for i in 0..count {
        words[at + i] = word_at(bytes, i);
    }
}
