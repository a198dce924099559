// The documents' limits; specs/Limits.antt has them for the definitions.
ghost use Rattle.std.specs.Prelude.{◌≡◌};
ghost use Rattle.words.specs.Limits.{outside};

// The most entries of an alphabet.
pub const ALPHABET_MOST: usize = 64;

// The most constants of an alphabet.
pub const CONSTANTS_MOST: usize = 16;

// The highest rank.
pub const RANK_MOST: usize = 4;

// The most words of a rule.
pub const EXPRESSION_MOST: usize = 64;

// The most states of a table.
pub const STATES_MOST: usize = 1024;

// The most words of a table.
pub const TABLE_MOST: usize = 2048;

// The most elements of a chapter.
pub const NODES_MOST: usize = 4096;

// The height of the highest chapter (document 02, U6).
pub const HEIGHT_MOST: usize = 512;

// The most cells of a chapter (document 02, U10).
pub const CELLS_MOST: usize = 4194304;

// Whether a number is 0 or over the most: the documents' words, which a range's `contains` would say no plainer.
pub fn is_outside(most: usize, n: usize) -> bool
    ensures { result ≡ outside most n }
{
    n == 0 || n > most
}
