ghost use Rattle.std.specs.Prelude.{◌≡◌};

use std::marker::Model;

/// The greatest number of bytes of a line, without its line feed.
pub const LIMIT: usize = 65536;

/// A line without its line feed, seen as its bytes.
#[derive(Debug, Drop)]
pub struct Line {
    bytes: Vec<u8>,
}

impl Model for Line {
    ghost use Rattle.std.specs.Prelude.{List, ℕ};

    ghost Value = { List ℕ };

    ghost view = { λ line. line.bytes.items };
}

impl Line {
    pub fn from_vec(bytes: Vec<u8>) -> Line
        ensures { result ≡ bytes.items }
    {
        Line { bytes }
    }

    pub fn as_slice(&self) -> &[u8]
        ensures { result.now ≡ self.now }
    {
        &self.bytes
    }
}

/// The answer to a request for the next line.
#[derive(Debug, Drop)]
pub enum Next {
    Line(Line),
    /// The line hasn't ended yet.
    NotYet,
    /// The line has more bytes than are allowed.
    TooLong,
}
