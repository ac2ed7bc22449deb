use thiserror::Error;

/// Why bytes are no pattern file. The place is a byte offset from 0; the codes 1 to 3 are those of the tokens.
#[derive(Clone, Copy, Debug, PartialEq, Eq, Error)]
pub enum SyntaxFault {
    #[error("no memory")]
    NoMemory,
    #[error("code {code} at byte {place}")]
    Bad { place: u32, code: u8 },
}

/// No file goes on with the token at the place, or the text ended, at the place, before the file did.
pub const EXPECTED: u8 = 4;

/// The `(` at the place is the 33rd open one.
pub const TOO_DEEP: u8 = 5;

/// The bytes are more than 65,536, which is the place.
pub const TOO_LONG: u8 = 6;

/// `greedy` stands at the place, where a modifier may stand. Greedy loops are left out.
pub const GREEDY: u8 = 7;

/// The bytes before the place, and no more of them, are UTF-8.
pub const NOT_UTF8: u8 = 8;
