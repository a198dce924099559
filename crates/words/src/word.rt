// The kinds of words, and which bits each kind names.
ghost use Rattle.std.specs.Prelude.{◌≡◌};
ghost use Rattle.words.specs.Word.{kind_of, field_range, spare_bits_clear};
ghost use Rattle.words.specs.Decoded.{kind_in};

// A word of 32 bits is below this.
pub const WORD_RANGE: u64 = 0x1_0000_0000;

// Bits 31..28 of a word are its kind.
pub const KIND_UNIT: u32 = 0x1000_0000;

// An alphabet entry.
const ENTRY: u32 = 0x1;

// A symbol of a rule.
const SYMBOL: u32 = 0x2;

// The empty language.
const EMPTY: u32 = 0x3;

// A union of two rules.
const UNION: u32 = 0x4;

// A product over a constant.
const PRODUCT: u32 = 0x5;

// A closure over a constant.
const CLOSURE: u32 = 0x6;

// A chapter element.
const NODE: u32 = 0x7;

// The head of a table.
pub const HEAD: u32 = 0x8;

// A symbol move of a table.
pub const TRANSITION: u32 = 0x9;

// An empty move of a table.
pub const EPSILON: u32 = 0xA;

// A part state of a symbol move.
pub const SOURCE: u32 = 0xB;

// The length word of a table.
pub const LENGTH: u32 = 0xC;

// Every tree over the alphabet.
const ANYTHING: u32 = 0xE;

// Bits 7..0 of an entry are its rank, those of rule words and elements a symbol or a constant.
pub const SYMBOL_RANGE: u32 = 0x100;

// Bit 8 of an entry marks a hole: above the rank stands a number below this.
pub const HOLE_RANGE: u32 = 0x2;

// Bits 9..0 of a word of a table, but for the length word, are a state. Above them stand a head's state count, a symbol
// transition's symbol, or the from state of an epsilon transition.
pub const STATE_RANGE: u32 = 0x400;

// A head's state count is below this.
pub const COUNT_RANGE: u32 = 0x800;

// Bits 11..0 of a length word are the table's word count.
pub const LENGTH_RANGE: u32 = 0x1000;

// The kinds of documents 01 and 02, in the order of their numbers, and no kind of theirs.
#[derive(Drop)]
pub enum Kind {
    Entry,
    Symbol,
    Empty,
    Union,
    Product,
    Closure,
    Node,
    Head,
    Transition,
    Epsilon,
    Source,
    Length,
    Anything,
    Other,
}

// The kind of a word. Only here is a kind told by its number: by one match over a local, the form that document 01 asks for.
pub fn kind_of(w: u32) -> Kind
    ensures { kind_in result ≡ kind_of w }
{
    let kind = w / KIND_UNIT;
    match kind {
        ENTRY => Kind::Entry,
        SYMBOL => Kind::Symbol,
        EMPTY => Kind::Empty,
        UNION => Kind::Union,
        PRODUCT => Kind::Product,
        CLOSURE => Kind::Closure,
        NODE => Kind::Node,
        HEAD => Kind::Head,
        TRANSITION => Kind::Transition,
        EPSILON => Kind::Epsilon,
        SOURCE => Kind::Source,
        LENGTH => Kind::Length,
        ANYTHING => Kind::Anything,
        _ => Kind::Other,
    }
}

// The other 28 bits of a word of this kind stay below the answer.
fn field_range(kind: Kind) -> u32
    ensures { result ≡ field_range (kind_in kind) }
{
    match kind {
        Kind::Entry => HOLE_RANGE * SYMBOL_RANGE,
        Kind::Symbol => SYMBOL_RANGE,
        Kind::Empty => 0x1,
        Kind::Union => 0x1,
        Kind::Product => SYMBOL_RANGE,
        Kind::Closure => SYMBOL_RANGE,
        Kind::Node => SYMBOL_RANGE,
        Kind::Head => COUNT_RANGE * STATE_RANGE,
        Kind::Transition => SYMBOL_RANGE * STATE_RANGE,
        Kind::Epsilon => STATE_RANGE * STATE_RANGE,
        Kind::Source => STATE_RANGE,
        Kind::Length => LENGTH_RANGE,
        Kind::Anything => 0x1,
        Kind::Other => 0x0,
    }
}

// Whether the bits that the word's kind does not name are zero; false for a word of no kind.
pub fn spare_bits_clear(w: u32) -> bool
    ensures { result ≡ spare_bits_clear w }
{
    let kind = kind_of(w);
    w % KIND_UNIT < field_range(kind)
}
