ghost use Rattle.std.specs.Prelude.{◌≡◌, ◌<◌, [], ◌++◌, OnOk, OnErr, IfNone, drop, length, option_to_list, false};
ghost use Rattle.std.specs.List.{AllByRecursion};
ghost use Rattle.std.specs.Map.{values_of};
ghost use Rattle.cep_plan.specs.EventTime.{put_in_order, time_cmp};
ghost use Rattle.watermark_order.specs.Held.{is_behind, is_first_here, first_reached};
ghost use Rattle.watermark_order.specs.Reached.{is_reached};
ghost use Rattle.watermark_order.specs.Sooner as sooner;

use cep_event::{Event, Moment, NoMemory};
use std::alloc::Global;
use std::cmp::Ordering;
use std::collections::{BTreeMap, VecDeque};
use std::marker::Model;

// The events that wait, seen as their list by time and then by row. One that comes in order goes behind the queue, any other into the map under its time and row.
#[derive(Debug, Drop)]
pub(crate) struct Waiting {
    queue: VecDeque<Event>,
    aside: BTreeMap<(i64, u32), Event>,
}

impl Model for Waiting {
    ghost use Rattle.std.specs.Prelude.{List};
    ghost use Rattle.cep_event.specs.declared.event.Event.{Event};

    ghost Value = { List Event };

    ghost use Rattle.watermark_order.specs.Held.{events_held, IsHeld};

    ghost view = { events_held };

    ghost invariant = { IsHeld };
}

impl Waiting {
    pub(crate) fn new(alloc: Global) -> Waiting
        ensures { result ≡ [] }
    {
        Waiting {
            queue: VecDeque::new(alloc),
            aside: BTreeMap::new(alloc),
        }
    }

    // Adds the event at its place. Its row must be above those of all that wait.
    pub(crate) fn push(&mut self, event: Event) -> Result<(), NoMemory>
        requires rows { AllByRecursion (λ held. held.row < event.row) self.old }
        ensures ok { OnOk result (self.new ≡ put_in_order event self.old) }
        ensures err { OnErr result (self.new ≡ self.old) }
    {
        if is_behind(&self.queue, event.ts) {
            self.queue.push_back(event)?;
            Ok(())
        } else {
            self.aside.insert((event.ts, event.row), event)?;
            Ok(())
        }
    }

    // Takes out the first event, if the mark has reached it.
    pub(crate) fn pop_reached(&mut self, mark: Option<Moment>) -> Option<Event>
        ensures first { result ≡ first_reached mark self.old }
        ensures rest { self.old ≡ option_to_list result ++ self.new }
        ensures none { IfNone result (AllByRecursion (λ event. is_reached mark event.ts ≡ false) self.new) }
    {
        if is_first_queued(&self.queue, &self.aside) {
            pop_queue(&mut self.queue, mark)
        } else {
            pop_aside(&mut self.aside, mark)
        }
    }
}

fn time_order(event: &Event, other: &Event) -> Ordering
    ensures { result ≡ time_cmp event.now other.now }
{
    event.ts.cmp(&other.ts).then(event.row.cmp(&other.row))
}

fn is_sooner(event: &Event, other: &Event) -> bool
    ensures { result ≡ sooner.is_sooner event.now other.now }
{
    time_order(event, other).is_lt()
}

// Whether an event of this time may go behind the queue.
fn is_behind(queue: &VecDeque<Event>, time: i64) -> bool
    ensures { result ≡ is_behind queue.now.items time }
{
    match queue.back() {
        Some(last) => last.ts <= time,
        None => true,
    }
}

// Whether the first of all is the first of the queue.
fn is_first_queued(queue: &VecDeque<Event>, aside: &BTreeMap<(i64, u32), Event>) -> bool
    ensures { result ≡ is_first_here queue.now.items (values_of aside.now.entries) }
{
    let Some(event) = queue.front() else {
        return false;
    };
    match aside.first_key_value() {
        Some((_key, other)) => !is_sooner(other, event),
        None => true,
    }
}

pub(crate) fn has_reached(mark: Option<Moment>, time: i64) -> bool
    ensures { result ≡ is_reached mark time }
{
    match mark {
        Some(Moment::At(now)) => time <= now,
        Some(Moment::End) => true,
        None => false,
    }
}

fn pop_queue(queue: &mut VecDeque<Event>, mark: Option<Moment>) -> Option<Event>
    ensures first { result ≡ first_reached mark queue.old.items }
    ensures rest { queue.old.items ≡ option_to_list result ++ queue.new.items }
{
    let first = queue.front()?;
    if has_reached(mark, first.ts) {
        queue.pop_front()
    } else {
        None
    }
}

fn pop_aside(aside: &mut BTreeMap<(i64, u32), Event>, mark: Option<Moment>) -> Option<Event>
    ensures first { result ≡ first_reached mark (values_of aside.old.entries) }
    ensures rest { values_of aside.old.entries ≡ option_to_list result ++ values_of aside.new.entries }
    ensures entries { aside.new.entries ≡ drop (length (option_to_list result)) aside.old.entries }
{
    let (_key, first) = aside.first_key_value()?;
    if !has_reached(mark, first.ts) {
        return None;
    }
    match aside.pop_first() {
        Some((_key, event)) => Some(event),
        None => None,
    }
}
