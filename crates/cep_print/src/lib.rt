//! The one printed form of pattern files, and whether two files are the same but for their places.
#![tactic(auto)]

mod compared;
mod declaration;
mod expression;
mod literal;
mod pattern;
mod same_expression;
mod tail;
mod whole;

pub use compared::same_file;
pub use whole::{print, read_back};
