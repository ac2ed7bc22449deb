//! Generates the lines of a load run, and writes its summary.
#![tactic(auto)]

mod draw;
mod generated;
mod report;
#[cfg(test)]
mod tests;
mod text;

pub use generated::Generated;
pub use report::summary;
