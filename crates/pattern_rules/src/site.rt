//! Where expressions stand, and which of two places is told.

ghost use Rattle.std.specs.Prelude.{◌≡◌};
ghost use Rattle.pattern_rules.specs.First.{or_else};

/// Where an expression stands: in a condition of the opener with the number, in its `until`, or in `select`.
#[derive(Clone, Copy, Debug, PartialEq, Eq)]
pub enum Site {
    Condition(usize),
    Until(usize),
    Select,
}

/// The place that was found first, if one was.
pub fn earlier(first: Option<u32>, second: Option<u32>) -> Option<u32>
    ensures { result ≡ or_else first second }
{
    match first {
        None => second,
        Some(place) => Some(place),
    }
}
