//! The codes of the rules.

/// A type's name was declared before.
pub const TWICE_TYPE: u8 = 10;

/// A field's name stands twice in one type, or has another kind than before.
pub const FIELD_KINDS: u8 = 11;

/// `of` names no declared type.
pub const UNKNOWN_TYPE: u8 = 12;

/// A stage's name, negated or not, stood before.
pub const TWICE_STAGE: u8 = 13;

/// The last stage is a `notNext`, or a `notFollowedBy` of a pattern without a time limit.
pub const ENDS_WITH_NOT: u8 = 14;

/// The last positive stage before a negation is optional.
pub const NOT_AFTER_OPTIONAL: u8 = 15;

/// A negation has a modifier other than `where` and `or`.
pub const QUANTIFIER_ON_NOT: u8 = 16;

/// A stage has a second loop, a second `optional` or a second `until`.
pub const TWICE_QUANTIFIER: u8 = 17;

/// A number of `times` or `timesOrMore` is 0 or over 256, or the second is below the first.
pub const BAD_TIMES: u8 = 18;

/// `consecutive` or `allowCombinations` on a stage without a loop.
pub const MODE_WITHOUT_LOOP: u8 = 19;

/// A stage has a second one of `consecutive` and `allowCombinations`.
pub const TWO_MODES: u8 = 20;

/// `until` on a stage without `oneOrMore` and `timesOrMore`.
pub const UNTIL_WITHOUT_OPEN_LOOP: u8 = 21;

/// A field that its events cannot have.
pub const UNKNOWN_FIELD: u8 = 22;

/// An operand of the wrong kind.
pub const KIND_CLASH: u8 = 23;

/// An aggregate names no stage.
pub const UNKNOWN_NAME: u8 = 24;

/// A condition names a positive stage after its own.
pub const LATER_NAME: u8 = 25;

/// An aggregate names a negated stage.
pub const NEGATED_NAME: u8 = 26;

/// A time limit is 0 or over 2^62 milliseconds.
pub const BAD_WITHIN: u8 = 27;

/// The skip strategy names no positive stage.
pub const SKIP_NAME: u8 = 28;

/// There are over 64 stages, negated ones included.
pub const TOO_MANY_STAGES: u8 = 29;

/// The sum of states over the stages passes 1,024.
pub const TOO_MANY_STATES: u8 = 30;
