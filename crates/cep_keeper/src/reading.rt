ghost use Rattle.std.specs.Prelude.{◌≡◌, ◌<◌, ◌≤◌, ◌^◌, true, Some, None, if◌then◌else◌, IfOk, OnOk};
ghost use Rattle.std.specs.Option.{option_copied};
ghost use Rattle.cep_keeper.specs.Rules as spec;
ghost use Rattle.cep_keeper.specs.Counted.{event_count};
ghost use Rattle.cep_keeper.specs.Tallies.{Tallies};

use crate::counts::Counts;
use crate::recent::{Recent, Tick};
use crate::row::SavedRow;
use crate::rules::{keeps, key_of, may_follow, same_key};
use crate::said::{Said, said_by};
use crate::saved::{EventList, Saved};
use cep_event::{Event, NoMemory, Value, ValueList};
use cep_plan::Plan;
use std::alloc::Global;

// What the rows so far state: the table of the last one, or 0 where there is none, how many events they have, the time of the last tick, the row of the
// last event that waits, and the contents.
#[derive(Debug, Drop)]
pub(crate) struct Reading {
    pub(crate) table: u8,
    pub(crate) events: u32,
    pub(crate) time: Option<i64>,
    pub(crate) row: u32,
    pub(crate) saved: Saved,
}

pub(crate) fn no_rows(alloc: Global) -> Reading
    ensures { result ≡ spec.no_rows }
{
    Reading {
        table: 0,
        events: 0,
        time: None,
        row: 0,
        saved: no_lines(alloc),
    }
}

pub(crate) fn no_lines(alloc: Global) -> Saved
    ensures { result ≡ spec.no_lines }
{
    Saved {
        lines: 0,
        mark: None,
        greatest: None,
        keys: ValueList::new(alloc),
        recent: Recent::new(alloc),
        pending: EventList::new(alloc),
    }
}

// Takes the row, if it breaks no rule.
pub(crate) fn take_row(
    alloc: Global,
    plan: &Plan,
    reading: &mut Reading,
    counts: &mut Counts,
    row: &SavedRow,
) -> Result<bool, NoMemory>
    requires tallies { Tallies plan.now counts.old reading.old.saved.keys reading.old.saved.recent }
    requires counted { event_count reading.old.saved.recent ≤ reading.old.events }
    ensures next { IfOk result (λ took. spec.next plan.now reading.old row.now ≡ (if took then Some reading.new else None)) }
    ensures tallies { OnOk result (Tallies plan.now counts.new reading.new.saved.keys reading.new.saved.recent) }
    ensures counted { OnOk result (event_count reading.new.saved.recent ≤ reading.new.events) }
{
    let Some(said) = said_by(alloc, row)? else {
        return Ok(false);
    };
    if !may_follow(reading.table, row.table) {
        return Ok(false);
    }
    if !keeps(plan, reading, counts, &said) {
        return Ok(false);
    }
    take_said(alloc, plan, reading, counts, said)?;
    Ok(true)
}

fn take_said(
    alloc: Global,
    plan: &Plan,
    reading: &mut Reading,
    counts: &mut Counts,
    said: Said,
) -> Result<(), NoMemory>
    requires keeps { spec.keeps plan.now reading.old said ≡ true }
    requires tallies { Tallies plan.now counts.old reading.old.saved.keys reading.old.saved.recent }
    requires counted { event_count reading.old.saved.recent ≤ reading.old.events }
    ensures after { OnOk result (reading.new ≡ spec.after plan.now reading.old said) }
    ensures tallies { OnOk result (Tallies plan.now counts.new reading.new.saved.keys reading.new.saved.recent) }
    ensures counted { OnOk result (event_count reading.new.saved.recent ≤ reading.new.events) }
{
    match said {
        Said::Head {
            lines,
            mark,
            greatest,
        } => {
            *reading = head(alloc, lines, mark, greatest);
            *counts = Counts::new(alloc);
            Ok(())
        }
        Said::Key(key) => take_key(plan, reading, counts, key),
        Said::Event(event) => take_event(plan, reading, counts, event),
        Said::Mark(time) => take_mark(reading, time),
        Said::Pending(event) => take_pending(reading, event),
    }
}

fn head(alloc: Global, lines: u32, mark: Option<i64>, greatest: Option<i64>) -> Reading
    ensures { result ≡ spec.headed lines mark greatest }
{
    Reading {
        table: 1,
        events: 0,
        time: None,
        row: 0,
        saved: Saved {
            lines,
            mark,
            greatest,
            keys: ValueList::new(alloc),
            recent: Recent::new(alloc),
            pending: EventList::new(alloc),
        },
    }
}

fn take_key(
    plan: &Plan,
    reading: &mut Reading,
    counts: &mut Counts,
    key: Value,
) -> Result<(), NoMemory>
    requires tallies { Tallies plan.now counts.old reading.old.saved.keys reading.old.saved.recent }
    requires counted { event_count reading.old.saved.recent ≤ reading.old.events }
    ensures after { OnOk result (reading.new ≡ spec.after_key reading.old key) }
    ensures tallies { OnOk result (Tallies plan.now counts.new reading.new.saved.keys reading.new.saved.recent) }
{
    let _events = reading.events;
    // The keys stand before all ticks, so there is nothing to go over.
    let count = key_count(plan, Some(&key), reading.saved.recent.ticks().as_slice());
    counts.set(&key, count)?;
    reading.saved.keys.push(key)?;
    reading.table = 2;
    Ok(())
}

fn take_event(
    plan: &Plan,
    reading: &mut Reading,
    counts: &mut Counts,
    event: Event,
) -> Result<(), NoMemory>
    requires room { reading.old.events < reading.old.saved.lines }
    requires known { spec.has_known_key plan.now reading.old.saved.keys event ≡ true }
    requires tallies { Tallies plan.now counts.old reading.old.saved.keys reading.old.saved.recent }
    requires counted { event_count reading.old.saved.recent ≤ reading.old.events }
    ensures after { OnOk result (reading.new ≡ spec.after_event plan.now reading.old event) }
    ensures tallies { OnOk result (Tallies plan.now counts.new reading.new.saved.keys reading.new.saved.recent) }
{
    let _lines = reading.saved.lines;
    let position = counts.count_event(plan, &event)?;
    let time = event.ts;
    reading.saved.recent.push(Tick::Event { event, position })?;
    reading.events += 1;
    reading.time = Some(time);
    reading.table = 3;
    Ok(())
}

fn take_mark(reading: &mut Reading, time: i64) -> Result<(), NoMemory>
    ensures { OnOk result (reading.new ≡ spec.after_mark reading.old time) }
{
    reading.saved.recent.push(Tick::Mark(time))?;
    reading.time = Some(time);
    reading.table = 3;
    Ok(())
}

fn take_pending(reading: &mut Reading, event: Event) -> Result<(), NoMemory>
    requires { reading.old.events < reading.old.saved.lines }
    ensures { OnOk result (reading.new ≡ spec.after_pending reading.old event) }
{
    let _lines = reading.saved.lines;
    let row = event.row;
    reading.saved.pending.push(event)?;
    reading.events += 1;
    reading.row = row;
    reading.table = 4;
    Ok(())
}

// How many events of the key are among the ticks.
fn key_count(plan: &Plan, key: Option<&Value>, ticks: &[Tick]) -> u32
    requires { spec.key_count plan.now (option_copied key) ticks.now < 2 ^ 32 }
    ensures { result ≡ spec.key_count plan.now (option_copied key.entry) ticks.now }
{
    let mut count = 0;
    for tick in ticks {
        if has_key(plan, key, tick) {
            count += 1;
        }
    }
    count
}

fn has_key(plan: &Plan, key: Option<&Value>, tick: &Tick) -> bool
    ensures { result ≡ spec.has_key plan.now (option_copied key.entry) tick.now }
{
    match tick {
        Tick::Event { event, .. } => same_key(key_of(plan, event), key),
        Tick::Mark(_) => false,
    }
}
