//! The fields of a line as `csv` reads them, at the cost of a split, and which fields it writes in quotes.
//! `csv` itself reads only a line that is empty, may begin with a byte order mark, ends a record outside quotes, or has a quote that is not one of the two around a field.
#![tactic(auto)]

mod piece;
mod quoted;
mod quotes;
mod reading;
mod record;
mod split;

pub use quotes::needs_quotes;
pub use reading::{Fields, read_fields};
pub use record::record_by_csv;
