//! The grammar of pattern files, and a reader of them.
#![tactic(auto)]

mod declaration;
mod depth;
mod fault;
mod file;
mod limit;
mod link;
mod modifier;
mod pattern;
mod tail;
mod whole;

pub use cep_expression::{Agg, Cmp, How, SynExpr, SynFactor, SynNode, SynTerm};
pub use cep_reading::Name;
pub use fault::{EXPECTED, GREEDY, NOT_UTF8, SyntaxFault, TOO_DEEP, TOO_LONG};
pub use file::{
    FieldDecl, FieldDeclList, File, Join, ModKind, Modifier, ModifierList, OpenKind, Opener,
    OpenerList, PlacedNumber, SkipDecl, SynExprList, TypeDecl, TypeDeclList,
};
pub use whole::{LONGEST_FILE, read};
