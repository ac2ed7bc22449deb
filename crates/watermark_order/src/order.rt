ghost use Rattle.std.specs.Prelude.{◌≡◌, ◌<◌, ℕ, if◌then◌else◌, List, [], ◌∷◌, ◌++◌, map, IfOk, OnOk, OnErr, IfNone, IsFalse, Option, Some, option_to_list};
ghost use Rattle.std.specs.Bool.{OnFalse};
ghost use Rattle.std.specs.List.{AllByRecursion};
ghost use Rattle.cep_event.specs.declared.event.Event.{Event};
ghost use Rattle.cep_event.specs.declared.record.Moment.TheVariants.{At, End};
ghost use Rattle.cep_plan.specs.EventTime.{Arrival, arrived, marked, is_late, lag_mark, marks_behind, released, rises};
ghost use Rattle.watermark_order.specs.declared.order.Arrived.TheVariants as answers;
ghost use Rattle.watermark_order.specs.Order.{HandsOut, ended, event_times, greater_time, mark_of_lag, order_of, ready, settled, with_event, with_mark};
ghost use Rattle.watermark_order.specs.Reached.{is_above, is_reached};

use crate::waiting::{Waiting, has_reached};
use cep_event::{Event, Moment, NoMemory};
use std::alloc::Global;
use std::marker::Model;

/// What became of an event that came.
#[derive(Clone, Copy, Debug, PartialEq, Eq)]
pub enum Arrived {
    /// It waits for a mark.
    Kept,
    /// Some mark has reached its time already, so it is dropped. The number is its row.
    Late(u32),
}

/// Events that wait for the mark that releases them. Times are milliseconds of event time.
///
/// Contracts see it as one record, and say for which arrivals (events and marks, one after another) it stands. Each call says for which it stands then.
#[derive(Debug, Drop)]
pub struct Order {
    lag: Option<u64>,
    mark: Option<Moment>,
    greatest: Option<i64>,
    waiting: Waiting,
}

impl Model for Order {
    ghost use Rattle.watermark_order.specs.Order.{OrderState};

    ghost Value = { OrderState };

    ghost view = { λ o. record { lag = o.lag; mark = o.mark; greatest = o.greatest; waiting = o.waiting } };
}

impl Order {
    /// An order to which nothing came yet. With a lag, a mark arises behind each event: see `lag_mark`.
    pub fn new(alloc: Global, lag: Option<u64>) -> Order
        ensures { result ≡ order_of lag [] }
    {
        Order {
            lag,
            mark: None,
            greatest: None,
            waiting: Waiting::new(alloc),
        }
    }

    /// Takes an event. It is late exactly where its time is at most that of some mark before it; else it waits. Its row must be above the rows of those that wait. After want of memory nothing has changed.
    pub fn arrive(&mut self, event: Event) -> Result<Arrived, NoMemory>
        requires rows { AllByRecursion (λ waiting. waiting.row < event.row) self.old.waiting }
        ensures answer { IfOk result (λ answer. (lag : Option ℕ) (arrivals : List Arrival) → self.old ≡ order_of lag arrivals
            → answer ≡ (if is_late arrivals event then answers.Late event.row else answers.Kept)) }
        ensures stands { OnOk result ((lag : Option ℕ) (arrivals : List Arrival) → self.old ≡ order_of lag arrivals
            → self.new ≡ order_of lag (arrivals ++ arrived event ∷ [])) }
        ensures by_mark { IfOk result (λ answer. answer ≡ (if is_reached self.old.mark event.ts then answers.Late event.row else answers.Kept)) }
        ensures state { OnOk result (self.new ≡ with_event self.old event) }
        ensures err { OnErr result (self.new ≡ self.old) }
    {
        self.admit(event)
    }

    // The same, from the greatest mark alone.
    fn admit(&mut self, event: Event) -> Result<Arrived, NoMemory>
        requires rows { AllByRecursion (λ waiting. waiting.row < event.row) self.old.waiting }
        ensures by_mark { IfOk result (λ answer. answer ≡ (if is_reached self.old.mark event.ts then answers.Late event.row else answers.Kept)) }
        ensures state { OnOk result (self.new ≡ with_event self.old event) }
        ensures err { OnErr result (self.new ≡ self.old) }
    {
        let greatest = greater_time(self.greatest, event.ts);
        if has_reached(self.mark, event.ts) {
            self.greatest = Some(greatest);
            return Ok(Arrived::Late(event.row));
        }
        self.waiting.push(event)?;
        self.greatest = Some(greatest);
        Ok(Arrived::Kept)
    }

    /// The mark that the lag adds behind the last event: the greatest time of all events so far, late ones too, less the lag and 1. None exactly where there is no lag, no event came, or the number is below the least of 64 bits. The caller gives it to `mark`.
    pub fn lag_mark(&self) -> Option<i64>
        ensures behind { (lag : Option ℕ) (before : List Arrival) (event : Event) → self.now ≡ order_of lag (before ++ arrived event ∷ [])
            → map marked (option_to_list result) ≡ marks_behind lag (event_times before) event.ts }
        ensures value { map marked (option_to_list result) ≡ mark_of_lag self.now.lag self.now.greatest }
    {
        mark_of_lag(self.lag, self.greatest)
    }

    /// Takes a mark. True exactly where it rises, which is where it is above all marks before it; then `next_ready` hands out what it releases. A mark that doesn't rise changes nothing.
    pub fn mark(&mut self, time: i64) -> bool
        ensures rises { (lag : Option ℕ) (arrivals : List Arrival) → self.old ≡ order_of lag arrivals → result ≡ rises arrivals time }
        ensures hands { (lag : Option ℕ) (arrivals : List Arrival) → self.old ≡ order_of lag arrivals
            → HandsOut self.new (if result then released arrivals (At time) else []) (order_of lag (arrivals ++ marked time ∷ [])) }
        ensures stays { OnFalse result ((lag : Option ℕ) (arrivals : List Arrival) → self.old ≡ order_of lag arrivals
            → self.new ≡ order_of lag (arrivals ++ marked time ∷ [])) }
        ensures by_mark { result ≡ is_above self.old.mark time }
        ensures state { self.new ≡ (if result then with_mark self.old (At time) else self.old) }
    {
        if !is_above(self.mark, time) {
            return false;
        }
        self.mark = Some(Moment::At(time));
        true
    }

    /// The end of the input: a mark above all times. `next_ready` then hands out all that waits.
    pub fn end(&mut self)
        ensures hands { (lag : Option ℕ) (arrivals : List Arrival) → self.old ≡ order_of lag arrivals
            → HandsOut self.new (released arrivals End) (ended (order_of lag arrivals)) }
        ensures state { self.new ≡ with_mark self.old End }
    {
        self.mark = Some(Moment::End);
    }

    /// Takes out the first event, by time and then by row, that the greatest mark has reached. None exactly where it has reached none that waits.
    pub fn next_ready(&mut self) -> Option<Event>
        ensures handed { ready self.old ≡ option_to_list result ++ ready self.new }
        ensures rest { settled self.new ≡ settled self.old }
        ensures none { IfNone result (ready self.old ≡ []) }
        ensures unchanged { IfNone result (self.new ≡ self.old) }
        ensures done { IfNone result (settled self.new ≡ self.new) }
        ensures waiting { self.old.waiting ≡ option_to_list result ++ self.new.waiting }
    {
        self.waiting.pop_reached(self.mark)
    }
}

fn greater_time(greatest: Option<i64>, time: i64) -> i64
    ensures { result ≡ greater_time greatest time }
{
    match greatest {
        Some(greatest) => { if greatest < time { time } else { greatest } }
        None => time,
    }
}

fn is_above(mark: Option<Moment>, time: i64) -> bool
    ensures { result ≡ is_above mark time }
{
    match mark {
        Some(Moment::At(mark)) => mark < time,
        Some(Moment::End) => false,
        None => true,
    }
}

fn mark_of_lag(lag: Option<u64>, greatest: Option<i64>) -> Option<i64>
    ensures { map marked (option_to_list result) ≡ mark_of_lag lag greatest }
{
    match (lag, greatest) {
        (Some(lag), Some(greatest)) => mark_below(greatest, lag),
        (Some(_lag), None) => None,
        (None, _greatest) => None,
    }
}

// The mark by the lag after an event, where its number has 64 bits.
fn mark_below(greatest: i64, lag: u64) -> Option<i64>
    ensures { map marked (option_to_list result) ≡ lag_mark lag greatest }
{
    greatest.checked_sub_unsigned(lag)?.checked_sub(1)
}
