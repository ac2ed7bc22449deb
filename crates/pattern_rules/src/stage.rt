//! Rules of one stage.

ghost use Rattle.std.specs.Prelude.{◌≡◌};
ghost use Rattle.std.specs.Option.{option_copied};
ghost use Rattle.pattern_rules.specs.Stages as spec;

use crate::bounds::is_negated;
use crate::indexed::IndexedFile;
use crate::role::{Role, first_again, first_of, has};
use cep_syntax::{Name, Opener};

#[derive(Clone, Copy, Debug, PartialEq, Eq)]
pub enum StageRule {
    UnknownType,
    QuantifierOnNot,
    TwiceQuantifier,
    BadTimes,
    ModeWithoutLoop,
    TwoModes,
    UntilWithoutOpenLoop,
}

/// `of` names no declared type.
fn unknown_type(file: &IndexedFile, of: &Option<Name>) -> Option<u32>
    ensures { result ≡ spec.unknown_type file.now.types of.now }
{
    match of {
        None => None,
        Some(name) => {
            if file.is_type(&name.text) {
                None
            } else {
                Some(name.place)
            }
        }
    }
}

/// A negation has a modifier other than `where` and `or`.
fn quantifier_on_not(opener: &Opener) -> Option<u32>
    ensures { result ≡ spec.quantifier_on_not opener.now }
{
    if is_negated(opener.how) {
        first_of(Role::NoCondition, opener.mods.as_slice())
    } else {
        None
    }
}

/// A stage has a second loop, a second `optional` or a second `until`.
fn twice_quantifier(opener: &Opener) -> Option<u32>
    ensures { result ≡ spec.twice_quantifier opener.now }
{
    let roles = [Role::Loop, Role::Optional, Role::Until];
    first_again(&roles, opener.mods.as_slice())
}

/// A number of `times` or `timesOrMore` is 0 or over 256, or the second is below the first.
fn bad_times(opener: &Opener) -> Option<u32>
    ensures { result ≡ spec.bad_times opener.now }
{
    first_of(Role::BadTimes, opener.mods.as_slice())
}

/// `consecutive` or `allowCombinations` on a stage without a loop.
fn mode_without_loop(opener: &Opener) -> Option<u32>
    ensures { result ≡ spec.mode_without_loop opener.now }
{
    let mods = opener.mods.as_slice();
    if has(Role::Loop, mods) {
        None
    } else {
        first_of(Role::Mode, mods)
    }
}

/// A stage has a second one of `consecutive` and `allowCombinations`.
fn two_modes(opener: &Opener) -> Option<u32>
    ensures { result ≡ spec.two_modes opener.now }
{
    let roles = [Role::Mode];
    first_again(&roles, opener.mods.as_slice())
}

/// `until` on a stage without `oneOrMore` and `timesOrMore`.
fn until_without_open_loop(opener: &Opener) -> Option<u32>
    ensures { result ≡ spec.until_without_open_loop opener.now }
{
    let mods = opener.mods.as_slice();
    if has(Role::OpenLoop, mods) {
        None
    } else {
        first_of(Role::Until, mods)
    }
}

fn broken_in_stage(rule: StageRule, file: &IndexedFile, opener: &Opener) -> Option<u32>
    ensures { result ≡ spec.broken_in_stage rule file.now.types opener.now }
{
    match rule {
        StageRule::UnknownType => unknown_type(file, &opener.of),
        StageRule::QuantifierOnNot => quantifier_on_not(opener),
        StageRule::TwiceQuantifier => twice_quantifier(opener),
        StageRule::BadTimes => bad_times(opener),
        StageRule::ModeWithoutLoop => mode_without_loop(opener),
        StageRule::TwoModes => two_modes(opener),
        StageRule::UntilWithoutOpenLoop => until_without_open_loop(opener),
    }
}

/// The first place where a stage breaks the rule.
#[tactic(auto, unfolding(crate::specs::Stages::broken_in_stages))]
pub fn broken_in_stages(rule: StageRule, file: &IndexedFile) -> Option<u32>
    ensures { result ≡ spec.broken_in_stages rule file.now.types file.now.openers }
{
    for opener in file.openers() {
        if let Some(place) = broken_in_stage(rule, file, opener) {
            return Some(place);
        }
    }
    None
}
