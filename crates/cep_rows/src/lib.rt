//! Cuts a stream of bytes into the lines that are rows, whatever pieces it comes in.
#![tactic(auto)]

mod cause;
mod laws;
mod line;
mod lines;

pub use cause::RowCause;
pub use laws::lines_from_the_front;
pub use line::{LIMIT, Line, Next};
pub use lines::Lines;
