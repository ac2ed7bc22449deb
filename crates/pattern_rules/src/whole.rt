//! Rules of the whole pattern.

ghost use Rattle.std.specs.Prelude.{◌≡◌};
ghost use Rattle.std.specs.Option.{option_copied};
ghost use Rattle.pattern_rules.specs.Whole as spec;

use crate::bounds::is_negated;
use crate::named::opener_number;
use cep_syntax::{File, Name, Opener, PlacedNumber, SkipDecl};

/// Whether the file limits the time of a match, as a whole or between neighbouring events.
pub fn has_limit(file: &File) -> bool
    ensures { result ≡ spec.has_limit file.now }
{
    file.within.is_some() || file.within_gap.is_some()
}

/// The greatest time limit, in milliseconds of event time: 2^62.
pub const GREATEST_LIMIT: u64 = 4_611_686_018_427_387_904;

#[tactic(auto, unfolding(crate::specs::Whole::bad_limit))]
fn bad_limit(limit: Option<PlacedNumber>) -> Option<u32>
    ensures { result ≡ spec.bad_limit limit }
{
    match limit {
        None => None,
        Some(number) => {
            if number.value < 1 || GREATEST_LIMIT < number.value {
                Some(number.place)
            } else {
                None
            }
        }
    }
}

/// A time limit is 0 or too great. That of the whole pattern stands first.
pub fn bad_within(file: &File) -> Option<u32>
    ensures { result ≡ spec.bad_within file.now }
{
    match bad_limit(file.within) {
        Some(place) => Some(place),
        None => bad_limit(file.within_gap),
    }
}

pub fn is_positive_one(opener: Option<&Opener>) -> bool
    ensures { result ≡ spec.is_positive_one (option_copied opener.entry) }
{
    match opener {
        None => false,
        Some(opener) => !is_negated(opener.how),
    }
}

fn bad_skip_name(openers: &[Opener], name: &Name) -> Option<u32>
    ensures { result ≡ spec.bad_skip_name openers.now name.now }
{
    if is_positive_one(openers.get(opener_number(openers, &name.text))) {
        None
    } else {
        Some(name.place)
    }
}

/// The skip strategy names no positive stage.
#[tactic(auto, unfolding(crate::specs::Whole::skip_name))]
pub fn skip_name(openers: &[Opener], skip: &Option<SkipDecl>) -> Option<u32>
    ensures { result ≡ spec.skip_name openers.now skip.now }
{
    match skip {
        Some(SkipDecl::ToFirst(name)) => bad_skip_name(openers, name),
        Some(SkipDecl::ToLast(name)) => bad_skip_name(openers, name),
        _ => None,
    }
}
