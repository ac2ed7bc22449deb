//! The words of reading: the tokens that are left, and what one of them can be.
#![tactic(auto)]

mod cursor;
mod name;
mod stop;

pub use cursor::Cursor;
pub use name::{LONGEST_NAME, Name, any_word, number, number_value, stage_name};
pub use stop::Stop;
