use cep_event::{NoMemory, Sequence};
use thiserror::Error;

/// What a token is. A literal is its text with both quotes; `content_of` gives what it says.
#[derive(Clone, Copy, Debug, PartialEq, Eq)]
pub enum TokenKind {
    Word,
    Number,
    Literal,
    Symbol,
}

/// A token is the part of the text from `start` to before `end`, byte offsets from 0.
#[derive(Clone, Copy, Debug, PartialEq, Eq)]
pub struct Token {
    pub kind: TokenKind,
    pub start: u32,
    pub end: u32,
}

pub type TokenList = Sequence<Token>;

/// Why a text has no tokens. The code is `BAD_CHARACTER`, `OPEN_TEXT` or `NUMBER_TOO_LARGE`, and the place a byte offset from 0.
#[derive(Clone, Copy, Debug, PartialEq, Eq, Error)]
pub enum TokenFault {
    #[error("no memory")]
    NoMemory,
    #[error("code {code} at byte {place}")]
    Bad { place: u32, code: u8 },
}

/// A character begins no token, and the place is that character; or in a literal neither `"` nor `\` stands behind a backslash, and the place is that backslash.
pub const BAD_CHARACTER: u8 = 1;

/// A literal has no closing quote. The place is its opening quote.
pub const OPEN_TEXT: u8 = 2;

/// The digits say more than `GREATEST_NUMBER`. The place is the first of them.
pub const NUMBER_TOO_LARGE: u8 = 3;

/// The greatest value of a number.
pub const GREATEST_NUMBER: u64 = 9_223_372_036_854_775_807;

impl From<NoMemory> for TokenFault {
    ghost use Rattle.std.specs.Prelude.{◌≡◌};
    ghost use Rattle.cep_token.specs.declared.token.TokenFault.TheVariants.{NoMemory as WantOfMemory};

    ghost from_gives = { λ _ fault. fault ≡ WantOfMemory };

    fn from(_error: NoMemory) -> TokenFault {
        TokenFault::NoMemory
    }
}
