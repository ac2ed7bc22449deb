//! The expressions of patterns: their grammar, and a reader of them.
#![tactic(auto)]

mod aggregate;
mod chain;
mod expr;
mod grammar;
mod sign;

pub use expr::{Agg, Cmp, How, SynExpr, SynFactor, SynNode, SynTerm};
pub use grammar::expression;
