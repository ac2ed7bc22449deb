//! Rules of the row of stages.

ghost use Rattle.std.specs.Prelude.{◌≡◌};
ghost use Rattle.std.specs.Option.{option_copied};
ghost use Rattle.pattern_rules.specs.Stages as spec;

use crate::bounds::{is_negated, states_of};
use crate::indexed::IndexedFile;
use crate::role::{Role, has};
use cep_syntax::{OpenKind, Opener};

/// How many stages a pattern may have, negated ones included.
pub const MOST_STAGES: usize = 64;

/// How many states a pattern may have.
pub const MOST_STATES: u64 = 1024;

/// A stage's name, negated or not, stood before.
#[tactic(auto, unfolding(crate::specs::Stages::twice_stage))]
pub fn twice_stage(file: &IndexedFile) -> Option<u32>
    ensures { result ≡ spec.twice_stage file.now.openers }
{
    for (number, opener) in file.openers().iter().enumerate() {
        if file.is_stage_before(number, &opener.name.text) {
            return Some(opener.name.place);
        }
    }
    None
}

fn may_not_end(is_limited: bool, how: OpenKind) -> bool
    ensures { result ≡ spec.may_not_end is_limited how }
{
    match how {
        OpenKind::NotNext => true,
        OpenKind::NotFollowedBy => !is_limited,
        _ => false,
    }
}

fn wrong_end(is_limited: bool, opener: Option<&Opener>) -> Option<u32>
    ensures { result ≡ spec.wrong_end is_limited (option_copied opener.entry) }
{
    match opener {
        None => None,
        Some(opener) => {
            if may_not_end(is_limited, opener.how) {
                Some(opener.name.place)
            } else {
                None
            }
        }
    }
}

/// The last stage is a `notNext`, or a `notFollowedBy` where no time limit ends its wait.
#[tactic(auto, unfolding(crate::specs::Stages::ends_with_not))]
pub fn ends_with_not(is_limited: bool, openers: &[Opener]) -> Option<u32>
    ensures { result ≡ spec.ends_with_not is_limited openers.now }
{
    wrong_end(is_limited, openers.last())
}

fn behind(is_behind: bool, opener: &Opener) -> bool
    ensures { result ≡ spec.behind is_behind opener.now }
{
    if is_negated(opener.how) {
        is_behind
    } else {
        has(Role::Optional, opener.mods.as_slice())
    }
}

/// The last positive stage before a negation is optional.
#[tactic(auto, unfolding(crate::specs::Stages::not_after_optional))]
pub fn not_after_optional(openers: &[Opener]) -> Option<u32>
    ensures { result ≡ spec.not_after_optional openers.now }
{
    let mut is_behind = false;
    for opener in openers {
        if is_negated(opener.how) && is_behind {
            return Some(opener.name.place);
        }
        is_behind = behind(is_behind, opener);
    }
    None
}

fn place_of(opener: Option<&Opener>) -> Option<u32>
    ensures { result ≡ spec.place_of (option_copied opener.entry) }
{
    match opener {
        None => None,
        Some(opener) => Some(opener.name.place),
    }
}

/// There are over 64 stages.
#[tactic(auto, unfolding(crate::specs::Stages::too_many_stages))]
pub fn too_many_stages(openers: &[Opener]) -> Option<u32>
    ensures { result ≡ spec.too_many_stages openers.now }
{
    place_of(openers.get(MOST_STAGES))
}

/// The sum of states passes 1,024.
#[tactic(auto, unfolding(crate::specs::Stages::too_many_states))]
pub fn too_many_states(openers: &[Opener]) -> Option<u32>
    ensures { result ≡ spec.too_many_states openers.now }
{
    let mut states: u64 = 0;
    for opener in openers {
        let more = states_of(opener);
        if MOST_STATES - states < more {
            return Some(opener.name.place);
        }
        states += more;
    }
    None
}
