//! The checker of patterns: the plan that a pattern file stands for, or the rule that it breaks.
#![tactic(auto)]

mod checker;
mod condition;
mod expression;
mod fault;
mod number;
mod plan;
mod stage;
mod translated;
mod types;

pub use checker::check;
pub use fault::CheckFault;
