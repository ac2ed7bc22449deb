//! Expressions as they are written.

use cep_event::Text;
use cep_reading::Name;
use sqlite_items::{Boxed, Items};

/// What an aggregate is taken of the events of a stage.
#[derive(Clone, Copy, Debug, PartialEq, Eq)]
pub enum Agg {
    Sum,
    Min,
    Max,
    First,
    Last,
}

/// How two values are compared.
#[derive(Clone, Copy, Debug, PartialEq, Eq)]
pub enum Cmp {
    Eq,
    Ne,
    Lt,
    Le,
    Gt,
    Ge,
}

/// `*`, `/` and `%`.
#[derive(Clone, Copy, Debug, PartialEq, Eq)]
pub enum How {
    Times,
    Over,
    Rest,
}

/// An expression. Its place is that of its first token, a byte offset from 0; parentheses round it do not count.
#[cycle(expression)]
#[derive(Debug, Drop)]
pub struct SynExpr {
    pub place: u32,
    pub node: SynNode,
}

/// Parentheses make no node. A chain of `||`, of `&&`, of `+` and `-`, or of `*`, `/` and `%` is one node with all its parts, at least two.
#[cycle(expression)]
#[derive(Debug, Drop)]
pub enum SynNode {
    Int(u64),
    Text(Text),
    Bool(bool),
    /// A field of the event.
    Field(Name),
    /// How many events a stage has taken.
    Count(Name),
    /// A stage and a field of its events.
    Of(Agg, Name, Name),
    Any(Items<SynExpr>),
    All(Items<SynExpr>),
    Compare(Cmp, Boxed<SynExpr>, Boxed<SynExpr>),
    Add(Items<SynTerm>),
    Mul(Items<SynFactor>),
    Not(Boxed<SynExpr>),
    Neg(Boxed<SynExpr>),
}

/// A part of a sum. The first has no `minus`.
#[cycle(expression)]
#[derive(Debug, Drop)]
pub struct SynTerm {
    pub minus: bool,
    pub expr: SynExpr,
}

/// A part of a product. The first one's `how` is `Times`.
#[cycle(expression)]
#[derive(Debug, Drop)]
pub struct SynFactor {
    pub how: How,
    pub expr: SynExpr,
}
