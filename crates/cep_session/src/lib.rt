//! Runs over a stream: lines in, text out, and how each run ends.
#![tactic(auto)]

mod ending;
mod handler;
mod notes;
mod rows;
mod session;
mod status;
mod stream;

pub use cep_rows::RowCause;
pub use ending::Ending;
pub use handler::{EndFault, Handler, LineFault};
pub use notes::tell;
pub use status::{Status, number};
pub use stream::run;
