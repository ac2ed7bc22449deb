ghost use Rattle.std.specs.Prelude.{◌≡◌, ◌<◌, ◌+◌, ◌-◌, ◌^◌, ℕ, Some, IfSome};
ghost use Rattle.std.specs.List.{AllByRecursion as Each};
ghost use Rattle.std.specs.Option.{option_copied};
ghost use Rattle.cep_plan.specs.Entry.{last_taken};
ghost use Rattle.cep_plan.specs.Skipping.{start_of, end_of, entries_for, is_from_below, is_from_to, is_same, kills_start};
ghost use Rattle.skip_strategy.specs.Range.{is_in, newer};

use cep_plan::{Skip, Taken, TakenList};

/// The range from one position up to another, without the latter, if it isn't empty.
#[tactic(auto, using(crate::proofs::RangeLaws::empty_range))]
pub fn ranged(from: u32, to: u32) -> Option<(u32, u32)>
    ensures positions { (position : ℕ) → is_in result position ≡ is_in (Some (from, to)) position }
    ensures some { IfSome result (λ range. range.0 < range.1) }
    ensures from { IfSome result (λ range. range.0 ≡ from) }
{
    if from < to { Some((from, to)) } else { None }
}

/// The next position, if there is one.
pub fn behind(position: u32) -> u32
    ensures { position < 2 ^ 32 - 1 → result ≡ position + 1 }
{
    if position < u32::MAX {
        position + 1
    } else {
        position
    }
}

/// The position of the first event of the list.
pub fn first_position(list: &TakenList) -> Option<u32>
    ensures { result ≡ start_of list.now }
{
    match list.get(0) {
        None => None,
        Some(taken) => Some(taken.position),
    }
}

/// The last of the taken events.
pub fn last_of(list: &TakenList) -> Option<&Taken>
    ensures { option_copied result ≡ last_taken list.now }
{
    list.as_slice().last()
}

/// The position of the last event of the list.
pub fn last_position(list: &TakenList) -> Option<u32>
    ensures { result ≡ end_of list.now }
{
    match last_of(list) {
        None => None,
        Some(taken) => Some(taken.position),
    }
}

/// The position of the first event of the list for the stage.
pub fn first_for(list: &TakenList, stage: u16) -> Option<u32>
    ensures { result ≡ start_of (entries_for stage list.now) }
{
    for taken in list.as_slice() {
        if taken.stage == stage {
            return Some(taken.position);
        }
    }
    None
}

/// The position of the event, where it was taken for the stage, and else the earlier one.
pub fn newest(stage: u16, earlier: Option<u32>, taken: &Taken) -> Option<u32>
    ensures { result ≡ newer stage earlier taken.now }
{
    if taken.stage == stage {
        Some(taken.position)
    } else {
        earlier
    }
}

/// The position of the last event of the list for the stage.
#[tactic(auto, using(crate::proofs::RangeLaws::newer_behind))]
pub fn last_for(list: &TakenList, stage: u16) -> Option<u32>
    ensures { result ≡ end_of (entries_for stage list.now) }
{
    let mut last = None;
    for taken in list.as_slice() {
        last = newest(stage, last, taken);
    }
    last
}

/// The range of one position.
#[tactic(auto, using(crate::proofs::RangeLaws::range_of_one))]
pub fn only(position: Option<u32>) -> Option<(u32, u32)>
    ensures positions { IfSome position (λ p. p < 2 ^ 32 - 1) → (start : ℕ) → is_in result start ≡ is_same position start }
    ensures some { IfSome result (λ range. range.0 < range.1) }
    ensures from { IfSome result (λ range. position ≡ Some range.0) }
{
    match position {
        None => None,
        Some(position) => ranged(position, behind(position)),
    }
}

/// The range from one position to another, with the latter.
#[tactic(auto, using(crate::proofs::RangeLaws::range_through))]
pub fn through(from: Option<u32>, to: Option<u32>) -> Option<(u32, u32)>
    ensures positions { IfSome to (λ p. p < 2 ^ 32 - 1) → (start : ℕ) → is_in result start ≡ is_from_to from to start }
    ensures some { IfSome result (λ range. range.0 < range.1) }
    ensures from { IfSome result (λ range. from ≡ Some range.0) }
{
    match (from, to) {
        (Some(from), Some(to)) => ranged(from, behind(to)),
        _ => None,
    }
}

/// The range from one position to another, without the latter.
pub fn up_to(from: Option<u32>, to: Option<u32>) -> Option<(u32, u32)>
    ensures positions { (start : ℕ) → is_in result start ≡ is_from_below from to start }
    ensures some { IfSome result (λ range. range.0 < range.1) }
    ensures from { IfSome result (λ range. from ≡ Some range.0) }
{
    match (from, to) {
        (Some(from), Some(to)) => ranged(from, to),
        _ => None,
    }
}

/// The starts that a match kills, by the skip strategy: from the first number on, which is the match's own start, and below the second one. `None` comes exactly where it kills none.
/// The positions of the match are below 2^32 - 1, as all positions are.
pub fn cut(skip: Skip, list: &TakenList) -> Option<(u32, u32)>
    ensures positions { Each (λ t. t.position < 2 ^ 32 - 1) list.now → (start : ℕ) → is_in result start ≡ kills_start skip list.now start }
    ensures some { IfSome result (λ range. range.0 < range.1) }
    ensures from { IfSome result (λ range. start_of list.now ≡ Some range.0) }
{
    match skip {
        Skip::No => None,
        Skip::ToNext => only(first_position(list)),
        Skip::PastLast => through(first_position(list), last_position(list)),
        Skip::ToFirst(stage) => up_to(first_position(list), first_for(list, stage)),
        Skip::ToLast(stage) => up_to(first_position(list), last_for(list, stage)),
    }
}
