//! Reads a line as a record: a blank line, a mark, or an event of one of the declared types.
#![tactic(auto)]

mod bare;
mod cause;
mod number;
mod reading;
mod values;

pub use cause::RowFault;
pub use cep_rows::RowCause;
pub use reading::record_of;
