//! The words of the command line, those after the program's name.
#![tactic(auto)]

mod app;
mod number;
mod options;
mod said;
mod words;

pub use options::{Mode, Options};
pub use words::{WordsFault, command};
