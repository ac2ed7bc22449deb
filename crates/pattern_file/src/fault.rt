use thiserror::Error;

/// Why the bytes of a pattern file are refused: a code, and its place, a byte offset from 0. Codes 1 to 8 are those of reading, and 10 to 30 those of checking.
#[derive(Clone, Copy, Debug, PartialEq, Eq, Error)]
pub enum PatternFault {
    #[error("no memory")]
    NoMemory,
    #[error("code {code} at byte {place}")]
    Bad { place: u32, code: u8 },
}
