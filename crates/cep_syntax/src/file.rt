//! What a pattern file says, as it is written. Places are byte offsets from 0.

use cep_event::{Kind, Sequence};
use cep_expression::SynExpr;
use cep_reading::Name;

#[derive(Debug, Drop)]
pub struct FieldDecl {
    pub name: Name,
    pub kind: Kind,
}

pub type FieldDeclList = Sequence<FieldDecl>;

#[derive(Debug, Drop)]
pub struct TypeDecl {
    pub name: Name,
    pub fields: FieldDeclList,
}

pub type TypeDeclList = Sequence<TypeDecl>;

/// How a stage is opened. The first of a pattern, and no other, is `Begin`.
#[derive(Clone, Copy, Debug, PartialEq, Eq)]
pub enum OpenKind {
    Begin,
    Next,
    FollowedBy,
    FollowedByAny,
    NotNext,
    NotFollowedBy,
}

/// How a condition joins those before it: `where` by "and", `or` by "or".
#[derive(Clone, Copy, Debug, PartialEq, Eq)]
pub enum Join {
    Both,
    Either,
}

#[derive(Debug, Drop)]
pub enum ModKind {
    Filter { join: Join, expr: SynExpr },
    Until(SynExpr),
    Times { from: u64, to: Option<u64> },
    TimesOrMore(u64),
    OneOrMore,
    Optional,
    Consecutive,
    AllowCombinations,
}

/// A modifier stands at its word.
#[derive(Debug, Drop)]
pub struct Modifier {
    pub what: ModKind,
    pub place: u32,
}

pub type ModifierList = Sequence<Modifier>;

/// A stage. Its name stands at its literal, and `of` is the manual's `subtype`.
#[derive(Debug, Drop)]
pub struct Opener {
    pub how: OpenKind,
    pub name: Name,
    pub of: Option<Name>,
    pub mods: ModifierList,
}

pub type OpenerList = Sequence<Opener>;

#[derive(Clone, Copy, Debug, PartialEq, Eq)]
pub struct PlacedNumber {
    pub value: u64,
    pub place: u32,
}

#[derive(Debug, Drop)]
pub enum SkipDecl {
    No,
    ToNext,
    PastLast,
    ToFirst(Name),
    ToLast(Name),
}

pub type SynExprList = Sequence<SynExpr>;

#[derive(Debug, Drop)]
pub struct File {
    pub types: TypeDeclList,
    pub openers: OpenerList,
    /// In milliseconds of event time; it bounds the whole pattern.
    pub within: Option<PlacedNumber>,
    /// In milliseconds of event time; it bounds the time between neighbouring events of a match.
    pub within_gap: Option<PlacedNumber>,
    pub skip: Option<SkipDecl>,
    pub select: Option<SynExprList>,
}
