//! The rules of pattern files: which of them a file breaks, and where.
#![tactic(auto)]

mod bounds;
mod code;
mod declarations;
mod fields;
mod indexed;
mod kind;
mod mention;
mod named;
mod names;
mod role;
mod rule;
mod site;
mod stage;
mod stages;
mod type_fields;
mod whole;

pub use bounds::{bounds_of, is_negated};
pub use code::{
    BAD_TIMES, BAD_WITHIN, ENDS_WITH_NOT, FIELD_KINDS, KIND_CLASH, LATER_NAME, MODE_WITHOUT_LOOP,
    NEGATED_NAME, NOT_AFTER_OPTIONAL, QUANTIFIER_ON_NOT, SKIP_NAME, TOO_MANY_STAGES,
    TOO_MANY_STATES, TWICE_QUANTIFIER, TWICE_STAGE, TWICE_TYPE, TWO_MODES, UNKNOWN_FIELD,
    UNKNOWN_NAME, UNKNOWN_TYPE, UNTIL_WITHOUT_OPEN_LOOP,
};
pub use fields::{KnownFields, known_fields};
pub use named::{opener_number, type_number};
pub use role::{MOST_TIMES, Role, has};
pub use rule::{Fault, fault_in};
pub use stages::{MOST_STAGES, MOST_STATES};
pub use whole::GREATEST_LIMIT;
