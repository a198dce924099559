// The key of a node step: one number for the symbol and the children's representatives.
ghost use Rattle.std.specs.Prelude.{◌≡◌, ◌-◌, ◌<◌, drop};
ghost use Rattle.words.specs.Limits.{rank_most};
ghost use Rattle.memo.specs.Key.{packed, step_key, Packable, Keyable};
ghost use Rattle.memo.specs.Memo.{slots_most};

use super::SLOTS_MOST;
use words::limits::{NODES_MOST, RANK_MOST};
use words::word::{SYMBOL_RANGE, WORD_RANGE};

// A digit is a child's number and 1, so that each list has a number of its own, whatever its length.
const DIGIT_RANGE: u64 = 2 * NODES_MOST as u64;

const DIGIT_BITS: usize = 13;

// The last digit is a symbol and 1.
const LAST_DIGIT_RANGE: u64 = 2 * SYMBOL_RANGE as u64;

const SLOTS: u64 = SLOTS_MOST as u64;

// A key has two halves of 32 bits. Their factors together are below WORD_RANGE, so that the sum of the products fits.
const LOW_FACTOR: u64 = 1640531527;

const HIGH_FACTOR: u64 = 2246822519;

// Lower bits of the sum depend on fewer bits of the key.
const MIXED: u64 = 4194304;

// The last `rank` of four nodes as the digits of one number, the first one lowest. All four are packed and the others shifted
// out, since a branch on the rank is often mispredicted.
fn pack(four: &[u32], rank: usize) -> u64
    requires { Packable four.now rank }
    ensures { result ≡ packed (drop (rank_most - rank) four.now) }
{
    let first = u64::from(four[0]) + 1;
    let second = u64::from(four[1]) + 1;
    let third = u64::from(four[2]) + 1;
    let fourth = u64::from(four[3]) + 1;
    let all = ((fourth * DIGIT_RANGE + third) * DIGIT_RANGE + second) * DIGIT_RANGE + first;
    all >> ((RANK_MOST - rank) * DIGIT_BITS) as u32
}

// The key; it is not 0.
pub(crate) fn step_key(symbol: u32, four: &[u32], rank: usize) -> u64
    requires { Keyable symbol four.now rank }
    ensures { result ≡ step_key symbol (drop (rank_most - rank) four.now) }
{
    pack(four, rank) * LAST_DIGIT_RANGE + u64::from(symbol) + 1
}

// The slot of a key. Any slot is right; both halves of the key count, so that few steps share one.
pub(crate) fn slot_of(key: u64) -> usize
    ensures { result < slots_most }
{
    ((key % WORD_RANGE * LOW_FACTOR + key / WORD_RANGE * HIGH_FACTOR) / MIXED % SLOTS) as usize
}
