ghost use Rattle.std.specs.Prelude.{◌≡◌, ◌<◌, ◌+◌, ◌++◌, ℕ, map, OnOk};
ghost use Rattle.std.specs.List.{AllByRecursion};
ghost use Rattle.watermark_order.specs.Order.{ready, settled};
ghost use Rattle.engine_rows.specs.declared.order.Told.TheVariants as told_of;

use cep_event::{Event, NoMemory, ValueList};
use std::alloc::Global;
use std::test::Fail;
use watermark_order::{Arrived, Order};

// What comes. The events have the number of their step as their row, from 1 on.
#[derive(Clone, Copy)]
enum Step {
    Event(i64),
    Mark(i64),
    End,
}

// What is told: late rows, and the ticks.
#[derive(Clone, Copy, Debug, PartialEq, Eq)]
enum Told {
    Late(u32),
    Row(u32),
    Mark(i64),
    End,
}

fn event_of(alloc: Global, row: u32, ts: i64) -> Event
    ensures { result.row ≡ row }
{
    Event {
        row,
        ts,
        type_no: 0,
        values: ValueList::new(alloc),
    }
}

// What is ready is handed out in order, and nothing else changes.
fn hand_out(order: &mut Order, told: &mut Vec<Told>) -> Result<(), NoMemory>
    ensures rows { OnOk result (told.new.items ≡ told.old.items ++ map (λ event. told_of.Row event.row) (ready order.old)) }
    ensures order { OnOk result (order.new ≡ settled order.old) }
{
    while let Some(event) = order.next_ready() {
        told.push(Told::Row(event.row))?;
    }
    Ok(())
}

fn take_mark(order: &mut Order, time: i64, told: &mut Vec<Told>) -> Result<(), NoMemory>
    ensures { OnOk result ((n : ℕ) → AllByRecursion (λ event. event.row < n) order.old.waiting → AllByRecursion (λ event. event.row < n) order.new.waiting) }
{
    if order.mark(time) {
        hand_out(order, told)?;
        told.push(Told::Mark(time))?;
    }
    Ok(())
}

fn take_event(order: &mut Order, event: Event, told: &mut Vec<Told>) -> Result<(), NoMemory>
    requires { AllByRecursion (λ waiting. waiting.row < event.row) order.old.waiting }
    ensures { OnOk result (AllByRecursion (λ waiting. waiting.row < event.row + 1) order.new.waiting) }
{
    if let Arrived::Late(row) = order.arrive(event)? {
        told.push(Told::Late(row))?;
    }
    if let Some(time) = order.lag_mark() {
        take_mark(order, time, told)?;
    }
    Ok(())
}

fn take_step(
    order: &mut Order,
    row: u32,
    step: Step,
    alloc: Global,
    told: &mut Vec<Told>,
) -> Result<(), NoMemory>
    requires { AllByRecursion (λ waiting. waiting.row < row) order.old.waiting }
    ensures { OnOk result (AllByRecursion (λ waiting. waiting.row < row + 1) order.new.waiting) }
{
    match step {
        Step::Event(ts) => take_event(order, event_of(alloc, row, ts), told),
        Step::Mark(time) => take_mark(order, time, told),
        Step::End => take_end(order, told),
    }
}

fn take_end(order: &mut Order, told: &mut Vec<Told>) -> Result<(), NoMemory>
    ensures { OnOk result ((n : ℕ) → AllByRecursion (λ event. event.row < n) order.old.waiting → AllByRecursion (λ event. event.row < n) order.new.waiting) }
{
    order.end();
    hand_out(order, told)?;
    told.push(Told::End)?;
    Ok(())
}

fn run(alloc: Global, lag: Option<u64>, steps: &[Step]) -> Result<Vec<Told>, NoMemory> {
    let mut order = Order::new(alloc, lag);
    let mut told = Vec::new(alloc);
    let mut row: u32 = 0;
    for step in steps {
        if row == u32::MAX {
            break;
        }
        row += 1;
        take_step(&mut order, row, *step, alloc, &mut told)?;
    }
    Ok(told)
}

#[test]
fn ticks_and_late_rows(rt: HostRuntime) -> Result<(), Fail> {
    let tables: [(Option<u64>, &[Step], &[Told]); 9] = [
        // late at the mark; a mark that doesn't rise; ties of time by row
        (
            None,
            &[
                Step::Mark(5),
                Step::Event(5),
                Step::Mark(3),
                Step::Event(6),
                Step::Event(6),
                Step::End,
            ],
            &[
                Told::Mark(5),
                Told::Late(2),
                Told::Row(4),
                Told::Row(5),
                Told::End,
            ],
        ),
        // a lag of 2: the third event is late by the mark of the lag
        (
            Some(2),
            &[
                Step::Event(10),
                Step::Event(12),
                Step::Event(9),
                Step::Event(10),
                Step::Event(15),
                Step::End,
            ],
            &[
                Told::Mark(7),
                Told::Mark(9),
                Told::Late(3),
                Told::Row(1),
                Told::Row(4),
                Told::Row(2),
                Told::Mark(12),
                Told::Row(5),
                Told::End,
            ],
        ),
        // no event is above the greatest mark that there is
        (
            None,
            &[
                Step::Mark(i64::MAX),
                Step::Event(i64::MAX),
                Step::Event(i64::MAX),
                Step::Event(0),
            ],
            &[
                Told::Mark(i64::MAX),
                Told::Late(2),
                Told::Late(3),
                Told::Late(4),
            ],
        ),
        // below, at and above the mark
        (
            None,
            &[
                Step::Mark(5),
                Step::Event(4),
                Step::Event(5),
                Step::Event(6),
                Step::Mark(5),
                Step::Mark(6),
            ],
            &[
                Told::Mark(5),
                Told::Late(2),
                Told::Late(3),
                Told::Row(4),
                Told::Mark(6),
            ],
        ),
        // a lag of 0
        (
            Some(0),
            &[
                Step::Event(5),
                Step::Event(5),
                Step::Event(4),
                Step::Event(6),
                Step::End,
            ],
            &[
                Told::Mark(4),
                Told::Late(3),
                Told::Row(1),
                Told::Row(2),
                Told::Mark(5),
                Told::Row(4),
                Told::End,
            ],
        ),
        // the mark of the lag must have 64 bits
        (
            Some(2),
            &[
                Step::Event(i64::MIN),
                Step::Event(i64::MIN + 2),
                Step::Event(i64::MIN + 3),
            ],
            &[Told::Row(1), Told::Mark(i64::MIN)],
        ),
        // times in any order
        (
            None,
            &[
                Step::Event(7),
                Step::Event(3),
                Step::Event(7),
                Step::Event(3),
                Step::Event(5),
                Step::Mark(6),
                Step::End,
            ],
            &[
                Told::Row(2),
                Told::Row(4),
                Told::Row(5),
                Told::Mark(6),
                Told::Row(1),
                Told::Row(3),
                Told::End,
            ],
        ),
        // a mark below those of the lag does nothing, and one above them lets the lag wait
        (
            Some(1),
            &[
                Step::Event(10),
                Step::Mark(3),
                Step::Mark(20),
                Step::Event(20),
                Step::Event(21),
                Step::Event(22),
            ],
            &[Told::Mark(8), Told::Row(1), Told::Mark(20), Told::Late(4)],
        ),
        // nothing comes
        (Some(4611686018427387904), &[Step::End], &[Told::End]),
    ];
    for (lag, steps, wanted) in tables {
        let told = run(rt.alloc(), lag, steps)?;
        assert!(rt; told.as_slice() == wanted);
    }
    Ok(())
}
