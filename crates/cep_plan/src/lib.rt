//! What a pattern says once it is checked, and what its matches are: the definitions in `specs/` are the meaning on which every contract of the engine stands.
#![tactic(auto)]

mod condition;
mod item;
mod matched;
mod plan;

pub use condition::{Agg, Cmp, Cond, Expr, ExprList, Factor, How, Join, Part, PartList, Term, Val};
pub use item::{Due, Item, ItemList, Taken, TakenList, before};
pub use matched::Matched;
pub use plan::{Contiguity, Negation, NegationList, Plan, Skip, Stage, StageList};
