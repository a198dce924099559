// Refusals by name, in the order of their numbers.
ghost use Rattle.std.specs.Prelude.{◌≡◌};
ghost use Rattle.words.specs.Decoded.{number_in};

// Why a call is refused. Each case's number is the documents'; the definitions of `specs/` have its condition under this name, but
// for a rule and a chapter that are not one tree, which share `not_one_tree`, and for holes, `holes_in`.
#[derive(Clone, Copy, PartialEq, Eq)]
pub enum Refusal {
    NoAlphabet = 1,
    WrongConstants = 2,
    WrongLength = 3,
    NotExpressionWords = 4,
    NotOneExpression = 5,
    TooManyStates = 6,
    TableTooLong = 7,
    NoTable = 8,
    WrongCount = 9,
    NotNodes = 10,
    NotOneTree = 11,
    MarksTooShort = 12,
    ListTooShort = 13,
    NoElement = 14,
    NoReplacement = 15,
    ResultTooLong = 16,
    TooHigh = 24,
    TooManyWords = 25,
    HasHoles = 26,
    WrongTotals = 27,
}

// The number that a refused call answers.
impl From<Refusal> for u32 {
    ghost from_gives = { λ refusal number. number ≡ number_in refusal };

    fn from(refusal: Refusal) -> u32 {
        refusal as u32
    }
}
