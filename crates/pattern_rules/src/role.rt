//! What a modifier does in its stage.

ghost use Rattle.std.specs.Prelude.{◌≡◌};
ghost use Rattle.std.specs.List.{list_any};
ghost use Rattle.pattern_rules.specs.Role as spec;

use cep_syntax::{ModKind, Modifier};

#[derive(Clone, Copy, Debug, PartialEq, Eq)]
pub enum Role {
    /// `where` and `or`.
    Condition,
    NoCondition,
    /// `times`, `timesOrMore` and `oneOrMore`.
    Loop,
    /// A loop with no greatest number.
    OpenLoop,
    Optional,
    Until,
    /// `consecutive` and `allowCombinations`.
    Mode,
    Consecutive,
    Combining,
    /// A loop whose numbers are refused.
    BadTimes,
}

/// The greatest number of a loop.
pub const MOST_TIMES: u64 = 256;

fn is_condition(what: &ModKind) -> bool
    ensures { result ≡ spec.is_condition what.now }
{
    matches!(what, ModKind::Filter { .. })
}

fn is_loop(what: &ModKind) -> bool
    ensures { result ≡ spec.is_loop what.now }
{
    matches!(
        what,
        ModKind::Times { .. } | ModKind::TimesOrMore(_) | ModKind::OneOrMore
    )
}

fn is_open_loop(what: &ModKind) -> bool
    ensures { result ≡ spec.is_open_loop what.now }
{
    matches!(what, ModKind::TimesOrMore(_) | ModKind::OneOrMore)
}

fn is_consecutive(what: &ModKind) -> bool
    ensures { result ≡ spec.is_consecutive what.now }
{
    matches!(what, ModKind::Consecutive)
}

fn is_combining(what: &ModKind) -> bool
    ensures { result ≡ spec.is_combining what.now }
{
    matches!(what, ModKind::AllowCombinations)
}

fn is_bad_number(number: u64) -> bool
    ensures { result ≡ spec.is_bad_number number }
{
    number < 1 || MOST_TIMES < number
}

fn are_bad_numbers(from: u64, to: Option<u64>) -> bool
    ensures { result ≡ spec.are_bad_numbers from to }
{
    match to {
        None => is_bad_number(from),
        Some(to) => is_bad_number(from) || is_bad_number(to) || to < from,
    }
}

fn has_bad_numbers(what: &ModKind) -> bool
    ensures { result ≡ spec.has_bad_numbers what.now }
{
    match what {
        ModKind::Times { from, to } => are_bad_numbers(*from, *to),
        ModKind::TimesOrMore(from) => is_bad_number(*from),
        _ => false,
    }
}

fn has_role(role: Role, what: &ModKind) -> bool
    ensures { result ≡ spec.has_role role what.now }
{
    match role {
        Role::Condition => is_condition(what),
        Role::NoCondition => !is_condition(what),
        Role::Loop => is_loop(what),
        Role::OpenLoop => is_open_loop(what),
        Role::Optional => matches!(what, ModKind::Optional),
        Role::Until => matches!(what, ModKind::Until(_)),
        Role::Mode => is_consecutive(what) || is_combining(what),
        Role::Consecutive => is_consecutive(what),
        Role::Combining => is_combining(what),
        Role::BadTimes => has_bad_numbers(what),
    }
}

/// Whether some modifier has the role.
pub fn has(role: Role, mods: &[Modifier]) -> bool
    ensures { result ≡ spec.has role mods.now }
{
    for modifier in mods {
        if has_role(role, &modifier.what) {
            return true;
        }
    }
    false
}

/// The place of the first modifier that has the role.
pub fn first_of(role: Role, mods: &[Modifier]) -> Option<u32>
    ensures { result ≡ spec.first_of role mods.now }
{
    for modifier in mods {
        if has_role(role, &modifier.what) {
            return Some(modifier.place);
        }
    }
    None
}

/// Whether the modifier has one of the roles, and one before it has it too.
fn is_again(roles: &[Role], before: &[Modifier], modifier: &Modifier) -> bool
    ensures { result ≡ list_any (spec.is_again before.now modifier.now) roles.now }
{
    for role in roles {
        if has_role(*role, &modifier.what) && has(*role, before) {
            return true;
        }
    }
    false
}

/// The place of the first modifier that has one of the roles as a second one.
pub fn first_again(roles: &[Role], mods: &[Modifier]) -> Option<u32>
    ensures { result ≡ spec.first_again roles.now mods.now }
{
    for (number, modifier) in mods.iter().enumerate() {
        if is_again(roles, &mods[..number], modifier) {
            return Some(modifier.place);
        }
    }
    None
}
