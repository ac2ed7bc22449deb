ghost use Rattle.std.specs.Prelude.{◌≡◌};
ghost use Rattle.cep_session.specs.Ending.{status_of};

use crate::Status;
use cep_rows::RowCause;

/// How a run over an input ended: the statuses that can come once the words and the pattern are accepted.
#[derive(Clone, Copy, Debug, PartialEq, Eq)]
pub enum Ending {
    Done,
    NoMemory,
    BadRow { row: u32, cause: RowCause },
    TooManyRows,
    ReadFault,
    WriteFault,
}

impl Ending {
    pub fn status(self) -> Status
        ensures { result ≡ status_of self }
    {
        match self {
            Ending::Done => Status::Done,
            Ending::NoMemory => Status::NoMemory,
            Ending::BadRow { row, cause } => Status::BadRow { row, cause },
            Ending::TooManyRows => Status::TooManyRows,
            Ending::ReadFault => Status::ReadFault,
            Ending::WriteFault => Status::WriteFault,
        }
    }
}
