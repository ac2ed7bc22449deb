ghost use Rattle.std.specs.Prelude.{◌≡◌, ◌<◌, ◌^◌, ◌==◌, length, count_by};
ghost use Rattle.std.specs.Option.{option_copied};
ghost use Rattle.cep_plan.specs.declared.condition.Agg.TheVariants as agg;
ghost use Rattle.cep_plan.specs.Answer.{answer_seen};
ghost use Rattle.cep_plan.specs.Aggregate.{aggregate_answer, taken_for, first_event, last_event, lesser, greater};
ghost use Rattle.cond_eval.specs.Known.{drawn};

use crate::answer::{in_word, number_if_known};
use crate::field::{number_taken, value_held};
use cep_event::{Event, EventType};
use cep_plan::{Taken, Val};

fn count_taken(list: &[Taken], stage: u16) -> usize
    ensures { result ≡ count_by (λ taken. taken.stage == stage) list.now }
{
    list.iter().filter(|taken| taken.stage == stage).count()
}

pub fn count_for(list: &[Taken], stage: u16) -> u32
    requires { length list.now < 2 ^ 32 }
    ensures { result ≡ length (taken_for stage list.now) }
{
    count_taken(list, stage) as u32
}

/// A list of fewer than 2^32 events sums up to less than 2^95, so the total is whole.
pub fn sum_for<'a>(types: &[EventType], list: &[Taken], stage: u16, field: u16) -> Val<'a>
    requires { length list.now < 2 ^ 32 }
    ensures { answer_seen result ≡ aggregate_answer types.now agg.Sum stage field list.now }
{
    let mut total: i128 = 0;
    for taken in list {
        total += i128::from(number_taken(types, stage, field, taken).unwrap_or(0));
    }
    in_word(total)
}

/// The lesser of two numbers that may be there.
pub fn lesser_of(so_far: Option<i64>, next: Option<i64>) -> Option<i64>
    ensures { result ≡ drawn lesser so_far next }
{
    match (so_far, next) {
        (Some(x), Some(y)) => Some(if y < x { y } else { x }),
        (Some(x), None) => Some(x),
        (None, next) => next,
    }
}

/// The greater of two numbers that may be there.
pub fn greater_of(so_far: Option<i64>, next: Option<i64>) -> Option<i64>
    ensures { result ≡ drawn greater so_far next }
{
    match (so_far, next) {
        (Some(x), Some(y)) => Some(if x < y { y } else { x }),
        (Some(x), None) => Some(x),
        (None, next) => next,
    }
}

pub fn least_for<'a>(types: &[EventType], list: &[Taken], stage: u16, field: u16) -> Val<'a>
    ensures { answer_seen result ≡ aggregate_answer types.now agg.Min stage field list.now }
{
    let mut least = None;
    for taken in list {
        least = lesser_of(least, number_taken(types, stage, field, taken));
    }
    number_if_known(least)
}

pub fn greatest_for<'a>(types: &[EventType], list: &[Taken], stage: u16, field: u16) -> Val<'a>
    ensures { answer_seen result ≡ aggregate_answer types.now agg.Max stage field list.now }
{
    let mut greatest = None;
    for taken in list {
        greatest = greater_of(greatest, number_taken(types, stage, field, taken));
    }
    number_if_known(greatest)
}

fn first_event(list: &[Taken], stage: u16) -> Option<&Event>
    ensures { option_copied result ≡ first_event (taken_for stage list.now) }
{
    for taken in list {
        if taken.stage == stage {
            return Some(&taken.event);
        }
    }
    None
}

/// From the end, where the event often is the last one.
fn last_event(list: &[Taken], stage: u16) -> Option<&Event>
    ensures { option_copied result ≡ last_event (taken_for stage list.now) }
{
    let mut place = list.len();
    while place > 0 {
        place -= 1;
        let taken = &list[place];
        if taken.stage == stage {
            return Some(&taken.event);
        }
    }
    None
}

pub fn first_for<'a>(types: &[EventType], list: &'a [Taken], stage: u16, field: u16) -> Val<'a>
    ensures { answer_seen result ≡ aggregate_answer types.now agg.First stage field list.now }
{
    value_held(types, field, first_event(list, stage))
}

pub fn last_for<'a>(types: &[EventType], list: &'a [Taken], stage: u16, field: u16) -> Val<'a>
    ensures { answer_seen result ≡ aggregate_answer types.now agg.Last stage field list.now }
{
    value_held(types, field, last_event(list, stage))
}
