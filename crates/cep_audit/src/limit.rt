//! The time limits of a list, and how many events are below one.
ghost use Rattle.std.specs.Prelude.{◌≡◌, ◌≤◌, ◌+ℤ◌, pos, length, option_map, true, None};
ghost use Rattle.std.specs.Option.{option_map_or, option_copied};
ghost use Rattle.std.specs.List.{list_all};
ghost use Rattle.cep_plan.specs.Limit.{lesser_limit, limit_of, is_below_limit, are_within, are_near, are_in_time};
ghost use Rattle.cep_plan.specs.Partial.{count_before};
ghost use Rattle.cep_audit.specs.Asked.{NeverFall, near_behind, limit_by};

use crate::last::last_of;
use cep_event::Event;
use cep_plan::{Plan, Taken, TakenList};

/// The time at which a limit is reached that begins at this time, if there is one.
fn end_of(limit: Option<u64>, from: i64) -> Option<i128>
    ensures { result ≡ option_map (λ long. from +ℤ pos long) limit }
{
    match limit {
        None => None,
        Some(limit) => Some(from as i128 + limit as i128),
    }
}

fn is_below(limit: Option<i128>, ts: i64) -> bool
    ensures { result ≡ is_below_limit limit ts }
{
    match limit {
        None => true,
        Some(limit) => !(limit <= ts as i128),
    }
}

fn are_below(limit: Option<i128>, taken: &[Taken]) -> bool
    ensures { result ≡ list_all (λ t. is_below_limit limit t.event.ts) taken.now }
{
    for t in taken {
        if !is_below(limit, t.event.ts) {
            return false;
        }
    }
    true
}

#[tactic(auto, using(crate::proofs::LimitLaws::within_none, crate::proofs::LimitLaws::within_some))]
fn are_within(plan: &Plan, taken: &[Taken]) -> bool
    ensures { result ≡ are_within plan.now taken.now }
{
    match taken.first() {
        None => true,
        Some(first) => are_below(end_of(plan.within, first.event.ts), taken),
    }
}

/// Whether the event comes before the limit that its neighbour before it sets, whose time this is.
fn comes_near(plan: &Plan, before: Option<i64>, taken: &Taken) -> bool
    ensures { result ≡ option_map_or (λ ts. is_below_limit (option_map (λ long. ts +ℤ pos long) plan.now.within_gap) taken.now.event.ts) before true }
{
    match before {
        None => true,
        Some(ts) => is_below(end_of(plan.within_gap, ts), taken.event.ts),
    }
}

/// Whether each event but the first comes before the limit that its neighbour sets.
fn are_near(plan: &Plan, taken: &[Taken]) -> bool
    ensures { result ≡ near_behind plan.now None taken.now }
{
    let mut before = None;
    for t in taken {
        if !comes_near(plan, before, t) {
            return false;
        }
        before = Some(t.event.ts);
    }
    true
}

#[tactic(auto, using(crate::proofs::LimitLaws::near_all))]
/// Whether all events come before the limit that the first one sets, and each but the first before the one that its neighbour sets.
pub fn are_in_time(plan: &Plan, taken: &[Taken]) -> bool
    ensures { result ≡ are_in_time plan.now taken.now }
{
    are_within(plan, taken) && are_near(plan, taken)
}

fn lesser(limit: Option<i128>, other: Option<i128>) -> Option<i128>
    ensures { result ≡ lesser_limit limit other }
{
    match (limit, other) {
        (None, other) => other,
        (Some(limit), None) => Some(limit),
        (Some(limit), Some(other)) => Some(if other < limit { other } else { limit }),
    }
}

fn limit_between(plan: &Plan, first: Option<&Taken>, last: Option<&Taken>) -> Option<i128>
    ensures { result ≡ limit_by plan.now (option_copied first.entry) (option_copied last.entry) }
{
    match first {
        None => None,
        Some(first) => match last {
            None => None,
            Some(last) => lesser(
                end_of(plan.within, first.event.ts),
                end_of(plan.within_gap, last.event.ts),
            ),
        },
    }
}

/// The time at which the list's limit is reached, if it has one.
#[tactic(auto, using(crate::proofs::LimitLaws::limit_by_ends))]
pub fn limit_of(plan: &Plan, taken: &TakenList) -> Option<i128>
    ensures { result ≡ limit_of plan.now taken.now }
{
    limit_between(plan, taken.get(0), last_of(taken))
}

/// How many of the events are below the limit, which are the first ones.
pub fn count_before(events: &[Event], limit: i128) -> usize
    requires { NeverFall events.now }
    ensures count { result ≡ count_before events.now limit }
    ensures bound { result ≤ length events.now }
{
    events.partition_point(|event| !(limit <= event.ts as i128))
}
