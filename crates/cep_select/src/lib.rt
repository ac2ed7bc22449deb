//! Writes the rows that are printed: matches, timeouts and late events, as `csv`'s default writer does.
#![tactic(auto)]

mod field;
mod named;
mod row;
mod selected;
#[cfg(test)]
mod tests;

pub use row::{late_row, push_item, row_of, rows_of};
