ghost use Rattle.std.specs.Prelude.{◌≡◌};
ghost use Rattle.cep_rows.specs.Causes.{cause_number};

/// Why a row is refused. Of two causes the one that stands first here comes.
#[derive(Clone, Copy, Debug, PartialEq, Eq)]
pub enum RowCause {
    /// The line has over 65,536 bytes. Only who cuts lines finds it.
    LineTooLong,
    /// The line isn't UTF-8, holds a CR that doesn't end it, or begins with U+FEFF.
    NotText,
    /// The line has an odd number of quotes.
    OpenQuote,
    /// The first field is neither `@` nor the name of a declared type.
    UnknownType,
    /// A mark has other than 2 fields, or an event other than 2 more than its type.
    FieldCount,
    /// The second field isn't a number.
    BadTime,
    /// This field of the type, counted from 1, is the first Int field that isn't a number.
    BadNumber(u16),
}

impl RowCause {
    /// The number that the fault line shows.
    pub fn number(self) -> u8
        ensures { result ≡ cause_number self }
    {
        match self {
            RowCause::LineTooLong => 1,
            RowCause::NotText => 2,
            RowCause::OpenQuote => 3,
            RowCause::UnknownType => 4,
            RowCause::FieldCount => 5,
            RowCause::BadTime => 6,
            RowCause::BadNumber(_) => 7,
        }
    }
}
