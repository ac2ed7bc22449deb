ghost use Rattle.std.specs.Prelude.{◌≡◌};
ghost use Rattle.cep_session.specs.Number.{number_of};

use cep_rows::RowCause;

/// How the program ended.
#[derive(Clone, Copy, Debug, PartialEq, Eq)]
pub enum Status {
    Done,
    NoMemory,
    BadWords,
    PatternFault,
    /// The place is an offset in bytes from the start of the pattern file.
    PatternRefused { code: u8, place: u32 },
    /// Rows are numbered from 1.
    BadRow { row: u32, cause: RowCause },
    TooManyRows,
    ReadFault,
    WriteFault,
}

/// The number with which the program exits.
pub fn number(status: &Status) -> u8
    ensures { result ≡ number_of status.now }
{
    match status {
        Status::Done => 0,
        Status::NoMemory => 1,
        Status::BadWords => 2,
        Status::PatternFault => 3,
        Status::PatternRefused { code: _, place: _ } => 4,
        Status::BadRow { row: _, cause: _ } => 5,
        Status::TooManyRows => 6,
        Status::ReadFault => 7,
        Status::WriteFault => 8,
    }
}
