//! How many events a stage takes.

ghost use Rattle.std.specs.Prelude.{◌≡◌};
ghost use Rattle.pattern_rules.specs.Bounds as spec;
ghost use Rattle.pattern_rules.specs.First.{first_some};

use cep_syntax::{ModKind, Modifier, OpenKind, Opener};

pub fn is_negated(how: OpenKind) -> bool
    ensures { result ≡ spec.is_negated how }
{
    matches!(how, OpenKind::NotNext | OpenKind::NotFollowedBy)
}

fn times_of(from: u64, to: Option<u64>) -> (u64, Option<u64>)
    ensures { result ≡ spec.times_of from to }
{
    match to {
        None => (from, Some(from)),
        Some(to) => (from, Some(to)),
    }
}

fn bounds_in(what: &ModKind) -> Option<(u64, Option<u64>)>
    ensures { result ≡ spec.bounds_in what.now }
{
    match what {
        ModKind::Times { from, to } => Some(times_of(*from, *to)),
        ModKind::TimesOrMore(from) => Some((*from, None)),
        ModKind::OneOrMore => Some((1, None)),
        _ => None,
    }
}

fn loop_bounds(mods: &[Modifier]) -> Option<(u64, Option<u64>)>
    ensures { result ≡ first_some (λ m. spec.bounds_in m.what) mods.now }
{
    for modifier in mods {
        if let Some(bounds) = bounds_in(&modifier.what) {
            return Some(bounds);
        }
    }
    None
}

/// The least and the greatest number of events that a stage takes, if there is a greatest.
pub fn bounds_of(mods: &[Modifier]) -> (u64, Option<u64>)
    ensures { result ≡ spec.bounds_of mods.now }
{
    match loop_bounds(mods) {
        Some(bounds) => bounds,
        None => (1, Some(1)),
    }
}

fn states_within(bounds: (u64, Option<u64>)) -> u64
    ensures { result ≡ spec.states_within bounds }
{
    match bounds {
        (least, None) => least,
        (_, Some(greatest)) => greatest,
    }
}

/// How many states a stage has.
pub fn states_of(opener: &Opener) -> u64
    ensures { result ≡ spec.states_of opener.now }
{
    if is_negated(opener.how) {
        0
    } else {
        states_within(bounds_of(opener.mods.as_slice()))
    }
}
