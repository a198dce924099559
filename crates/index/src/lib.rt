// An index of a table, made once for all nodes: for each symbol and each state a chain of the words at which transitions begin.
#![tactic(auto)]

ghost use Rattle.std.specs.Prelude.{◌≡◌, ◌+◌, ◌<◌, length, get_or};
ghost use Rattle.words.specs.Word.{state_below};
ghost use Rattle.index.specs.Index.{key_of, key_count, chain_word, indexed_at, index_of, Insertable, Indexable, IndexedTable};

use words::limits::TABLE_MOST;
use words::word::{Kind, STATE_RANGE, SYMBOL_RANGE, kind_of};

// The numbers that a symbol may have; the keys of the states stand behind them, and behind all keys the words' next words.
pub const STATE_KEYS: usize = SYMBOL_RANGE as usize;

pub const KEY_COUNT: usize = STATE_KEYS + STATE_RANGE as usize;

// The words of an index.
pub const INDEX_LENGTH: usize = KEY_COUNT + TABLE_MOST;

// The key of a word.
fn key(w: u32) -> usize
    ensures { result ≡ key_of w }
{
    let kind = kind_of(w);
    let symbol = (w / STATE_RANGE % SYMBOL_RANGE) as usize;
    let from = (w / STATE_RANGE % STATE_RANGE) as usize;
    match kind {
        Kind::Transition => symbol,
        Kind::Epsilon => STATE_KEYS + from,
        _ => KEY_COUNT,
    }
}

// Puts word i in front of its key's chain.
fn put_word(table: &[u32], i: usize, index: &mut [u32])
    requires { Insertable table.now i index.old }
    ensures { index.new ≡ indexed_at table.now i index.old }
{
    let at = key(table[i]);
    if at < KEY_COUNT {
        index[KEY_COUNT + i] = index[at];
        index[at] = i as u32;
    }
}

// Writes the index of a table into an array of zeros. It is lent, since an array that is returned is copied.
pub fn write_index(table: &[u32], index: &mut [u32])
    requires { Indexable table.now index.old }
    ensures { index.new ≡ index_of table.now }
{
    for i in (0..table.len()).rev() {
        put_word(table, i, index);
    }
}

// The word that a word of an index names; a chain ends with 0, since the head is in none.
fn word_of(number: u32) -> Option<usize>
    ensures { result ≡ chain_word number }
{
    if number == 0 {
        return None;
    }
    Some(number as usize)
}

// A table and its index, which are read together.
#[derive(Clone, Copy)]
pub struct Indexed<'a> {
    pub table: &'a [u32],
    pub index: &'a [u32],
}

impl<'a> Indexed<'a> {
    // The first word of a key's chain, if it has one.
    pub fn first(self, key: usize) -> Option<usize>
        requires checked { IndexedTable self.table.now self.index.now }
        requires few { key < key_count }
        ensures { result ≡ chain_word (get_or self.entry.index.now key 0) }
    {
        word_of(self.index[key])
    }

    // The next word of word i's chain, unless i is the last.
    pub fn next(self, i: usize) -> Option<usize>
        requires checked { IndexedTable self.table.now self.index.now }
        requires inside { i < length self.table.now }
        ensures { result ≡ chain_word (get_or self.entry.index.now (key_count + i) 0) }
    {
        word_of(self.index[KEY_COUNT + i])
    }

    // The state that the transition at word i leads to.
    pub fn target(self, i: usize) -> usize
        requires { i < length self.table.now }
        ensures { result ≡ state_below (get_or self.entry.table.now i 0) }
    {
        (self.table[i] % STATE_RANGE) as usize
    }
}
