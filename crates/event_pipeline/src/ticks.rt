// The steps between the order and the engine. Each tells what it makes known before the next.
ghost use Rattle.std.specs.Prelude.{◌≡◌, ◌≤◌, ◌<◌, ◌^◌, ◌-◌, ◌+◌, ◌++◌, ◌∷◌, [], List, ℕ, ℤ, length, map, max, All, IfOk, OnOk, OnErr, Option, Some, Err};
ghost use Rattle.std.specs.List.{AllByRecursion as Each};
ghost use Rattle.cep_event.specs.declared.event.Event.{Event};
ghost use Rattle.cep_event.specs.declared.record.LineRecord.{LineRecord};
ghost use Rattle.cep_event.specs.declared.record.LineRecord.TheVariants.{Mark, Row};
ghost use Rattle.cep_event.specs.declared.record.Moment.TheVariants.{At};
ghost use Rattle.cep_plan.specs.declared.plan.Plan.{Plan};
ghost use Rattle.cep_plan.specs.EventTime.{Arrival, arrived, marked, marks_behind, arrivals_of, ticks_of, ticks_after};
ghost use Rattle.cep_plan.specs.Skipping.{list_in};
ghost use Rattle.cep_plan.specs.Tick.{Tick, event_tick, mark_tick};
ghost use Rattle.cep_plan.specs.Keys.{kept_at};
ghost use Rattle.cep_engine.specs.State.{StandsFor, IsNotBefore};
ghost use Rattle.watermark_order.specs.Order.{order_of, ready, settled, event_times, with_event};
ghost use Rattle.event_pipeline.specs.Running.{IsReady, CanTake, ComesBehindWaiting, IsRunning, taken_and_waiting};
ghost use Rattle.sharing_laws.specs.Sizes.{sizes_after, sizes_from};
ghost use Rattle.event_pipeline.specs.Shown.{Shows, sizes_added};
ghost use Rattle.event_pipeline.specs.Telling.{Tells};
ghost use Rattle.event_pipeline.specs.Ticks.{Takes, Meets, Goes, told_late};
ghost use Rattle.event_pipeline.specs.Told.{item_told};

use crate::{Gauge, Outputs, TellFault};
use cep_engine::{Engine, EngineFault};
use cep_event::{Event, LineRecord};
use cep_plan::{ItemList, Plan};
use watermark_order::{Arrived, Order};

/// Tells the items that are kept of a tick, and then drops them.
pub(crate) fn tell_items<T, O: Outputs<T>>(
    plan: &Plan,
    items: ItemList,
    outputs: &mut O,
    to: &mut T,
) -> Result<(), TellFault>
    requires few { length plan.now.stages ≤ 65536 }
    requires short { All (λ item. length (list_in item) < 2 ^ 32) items }
    ensures { Tells (O.tells plan.now) (O.stops plan.now) (outputs.old, to.old) (outputs.new, to.new) (map item_told items) result }
{
    for item in items.as_slice() {
        outputs.item(to, plan, item)?;
    }
    Ok(())
}

// Shows the engine to the gauge, and answers how many events are held.
fn show<G: Gauge>(engine: &Engine, gauge: &mut G) -> Result<u64, TellFault>
    ensures shown { (ticks : List Tick) → StandsFor ticks engine.now
        → Shows (G.seen gauge.old) (G.seen gauge.new) (sizes_after engine.now.plan ticks ∷ []) result }
    ensures fault { OnErr result (result ≡ Err TellFault.NoMemory) }
{
    match gauge.tick(engine) {
        Ok(()) => Ok(engine.held().events),
        Err(_) => Err(TellFault::NoMemory),
    }
}

// A tick was taken: the gauge is shown the engine, and then the items that are kept of the tick are told. Each tick but that of
// time End goes through here. The answer is how many events are held.
fn tick_taken<T, O: Outputs<T>, G: Gauge>(
    engine: &Engine,
    items: ItemList,
    outputs: &mut O,
    to: &mut T,
    gauge: &mut G,
) -> Result<u64, TellFault>
    requires few { length engine.now.plan.stages ≤ 65536 }
    requires short { All (λ item. length (list_in item) < 2 ^ 32) items }
    ensures told { Tells (O.tells engine.now.plan) (O.stops engine.now.plan) (outputs.old, to.old) (outputs.new, to.new) (map item_told items) result }
    ensures shown { (ticks : List Tick) → StandsFor ticks engine.now
        → Shows (G.seen gauge.old) (G.seen gauge.new) (sizes_after engine.now.plan ticks ∷ []) result }
{
    let held = show(engine, gauge)?;
    tell_items(engine.plan(), items, outputs, to)?;
    Ok(held)
}

// Hands an event to the engine, and answers the items that are kept of it.
fn event_items(engine: &mut Engine, event: Event) -> Result<ItemList, TellFault>
    requires ready { IsReady engine.old }
    requires room { engine.old.runs.position < 2 ^ 32 - 1 }
    requires time { IsNotBefore engine.old.last event.ts }
    ensures plan { engine.new.plan ≡ engine.old.plan }
    ensures ready { OnOk result (IsReady engine.new) }
    ensures last { OnOk result (engine.new.last ≡ Some event.ts) }
    ensures position { OnOk result (engine.new.runs.position ≡ engine.old.runs.position + 1) }
    ensures taken { (ticks : List Tick) → StandsFor ticks engine.old → IfOk result (λ items. StandsFor (ticks ++ event_tick event ∷ []) engine.new × (items ≡ kept_at engine.old.plan ticks (event_tick event))) }
    ensures fault { OnErr result (result ≡ Err TellFault.NoMemory) }
{
    match engine.event(event) {
        Ok(()) => Ok(engine.items()),
        Err(EngineFault::NoMemory) => Err(TellFault::NoMemory),
        Err(EngineFault::Spent) => unreachable!(),
    }
}

// Hands a mark to the engine, and answers the items that are kept of it.
fn mark_items(engine: &mut Engine, time: i64) -> Result<ItemList, TellFault>
    requires ready { IsReady engine.old }
    requires time { IsNotBefore engine.old.last time }
    ensures plan { engine.new.plan ≡ engine.old.plan }
    ensures ready { OnOk result (IsReady engine.new) }
    ensures last { OnOk result (engine.new.last ≡ Some time) }
    ensures position { OnOk result (engine.new.runs.position ≡ engine.old.runs.position) }
    ensures taken { (ticks : List Tick) → StandsFor ticks engine.old → IfOk result (λ items. StandsFor (ticks ++ mark_tick (At time) ∷ []) engine.new × (items ≡ kept_at engine.old.plan ticks (mark_tick (At time)))) }
    ensures fault { OnErr result (result ≡ Err TellFault.NoMemory) }
{
    match engine.mark(time) {
        Ok(()) => Ok(engine.items()),
        Err(EngineFault::NoMemory) => Err(TellFault::NoMemory),
        Err(EngineFault::Spent) => unreachable!(),
    }
}

// Takes an event tick.
fn take_event<T, O: Outputs<T>, G: Gauge>(
    engine: &mut Engine,
    event: Event,
    outputs: &mut O,
    to: &mut T,
    gauge: &mut G,
) -> Result<u64, TellFault>
    requires ready { IsReady engine.old }
    requires room { engine.old.runs.position < 2 ^ 32 - 1 }
    requires time { IsNotBefore engine.old.last event.ts }
    requires stands { (ticks : List Tick) × StandsFor ticks engine.old }
    ensures plan { engine.new.plan ≡ engine.old.plan }
    ensures ready { OnOk result (IsReady engine.new) }
    ensures last { OnOk result (engine.new.last ≡ Some event.ts) }
    ensures position { OnOk result (engine.new.runs.position ≡ engine.old.runs.position + 1) }
    ensures taken { (ticks : List Tick) → StandsFor ticks engine.old
        → Takes (O.tells engine.old.plan) (O.stops engine.old.plan) engine.old.plan ticks (event_tick event ∷ []) engine.new (outputs.old, to.old) (outputs.new, to.new) result }
    ensures shown { (ticks : List Tick) → StandsFor ticks engine.old
        → Shows (G.seen gauge.old) (G.seen gauge.new) (sizes_from engine.old.plan ticks (event_tick event ∷ [])) result }
{
    let items = event_items(engine, event)?;
    tick_taken(engine, items, outputs, to, gauge)
}

// Takes a mark tick.
fn take_mark<T, O: Outputs<T>, G: Gauge>(
    engine: &mut Engine,
    time: i64,
    outputs: &mut O,
    to: &mut T,
    gauge: &mut G,
) -> Result<u64, TellFault>
    requires ready { IsReady engine.old }
    requires room { engine.old.runs.position < 2 ^ 32 }
    requires time { IsNotBefore engine.old.last time }
    requires stands { (ticks : List Tick) × StandsFor ticks engine.old }
    ensures plan { engine.new.plan ≡ engine.old.plan }
    ensures ready { OnOk result (IsReady engine.new) }
    ensures last { OnOk result (engine.new.last ≡ Some time) }
    ensures position { OnOk result (engine.new.runs.position ≡ engine.old.runs.position) }
    ensures taken { (ticks : List Tick) → StandsFor ticks engine.old
        → Takes (O.tells engine.old.plan) (O.stops engine.old.plan) engine.old.plan ticks (mark_tick (At time) ∷ []) engine.new (outputs.old, to.old) (outputs.new, to.new) result }
    ensures shown { (ticks : List Tick) → StandsFor ticks engine.old
        → Shows (G.seen gauge.old) (G.seen gauge.new) (sizes_from engine.old.plan ticks (mark_tick (At time) ∷ [])) result }
{
    let items = mark_items(engine, time)?;
    tick_taken(engine, items, outputs, to, gauge)
}

fn greater(a: u64, b: u64) -> u64
    ensures { result ≡ max a b }
{
    if a < b { b } else { a }
}

/// Hands all events that are ready to the engine, one after another. Here and below the answer is the greatest number of events that
/// were held after one of the ticks, 0 where there was none.
pub(crate) fn take_ready<T, O: Outputs<T>, G: Gauge>(
    order: &mut Order,
    engine: &mut Engine,
    outputs: &mut O,
    to: &mut T,
    gauge: &mut G,
) -> Result<u64, TellFault>
    requires takes { CanTake order.old.waiting engine.old }
    requires room { taken_and_waiting order.old.waiting engine.old < 2 ^ 32 }
    requires stands { (ticks : List Tick) × StandsFor ticks engine.old }
    ensures plan { engine.new.plan ≡ engine.old.plan }
    ensures settled { OnOk result (order.new ≡ settled order.old) }
    ensures takes { OnOk result (CanTake order.new.waiting engine.new) }
    ensures kept { OnOk result (taken_and_waiting order.new.waiting engine.new ≡ taken_and_waiting order.old.waiting engine.old) }
    ensures last { (time : ℤ) → order.old.mark ≡ Some (At time) → IsNotBefore engine.old.last time → OnOk result (IsNotBefore engine.new.last time) }
    ensures taken { (ticks : List Tick) → StandsFor ticks engine.old
        → Takes (O.tells engine.old.plan) (O.stops engine.old.plan) engine.old.plan ticks (map event_tick (ready order.old)) engine.new (outputs.old, to.old) (outputs.new, to.new) result }
    ensures shown { (ticks : List Tick) → StandsFor ticks engine.old
        → Shows (G.seen gauge.old) (G.seen gauge.new) (sizes_from engine.old.plan ticks (map event_tick (ready order.old))) result }
{
    let mut greatest = 0;
    while let Some(event) = order.next_ready() {
        let held = take_event(engine, event, outputs, to, gauge)?;
        greatest = greater(greatest, held);
    }
    Ok(greatest)
}

// Takes a mark: where it rises, the events that it releases go to the engine, and then the mark itself.
fn rise<T, O: Outputs<T>, G: Gauge>(
    order: &mut Order,
    engine: &mut Engine,
    time: i64,
    outputs: &mut O,
    to: &mut T,
    gauge: &mut G,
) -> Result<u64, TellFault>
    requires running { IsRunning order.old engine.old }
    requires room { taken_and_waiting order.old.waiting engine.old < 2 ^ 32 }
    requires stands { (ticks : List Tick) × StandsFor ticks engine.old }
    ensures plan { engine.new.plan ≡ engine.old.plan }
    ensures running { OnOk result (IsRunning order.new engine.new) }
    ensures kept { OnOk result (taken_and_waiting order.new.waiting engine.new ≡ taken_and_waiting order.old.waiting engine.old) }
    ensures met { (lag : Option ℕ) (arrivals : List Arrival) (ticks : List Tick) → order.old ≡ order_of lag arrivals → StandsFor ticks engine.old
        → Meets (O.tells engine.old.plan) (O.stops engine.old.plan) engine.old.plan lag arrivals (marked time ∷ []) ticks order.new engine.new (outputs.old, to.old) (outputs.new, to.new) result }
    ensures shown { (lag : Option ℕ) (arrivals : List Arrival) (ticks : List Tick) → order.old ≡ order_of lag arrivals → StandsFor ticks engine.old
        → Shows (G.seen gauge.old) (G.seen gauge.new) (sizes_from engine.old.plan ticks (ticks_after arrivals (marked time ∷ []))) result }
{
    if !order.mark(time) {
        return Ok(0);
    }
    let greatest = take_ready(order, engine, outputs, to, gauge)?;
    let held = take_mark(engine, time, outputs, to, gauge)?;
    Ok(greater(greatest, held))
}

// Takes an event, and tells where it is late.
fn arrive<T, O: Outputs<T>>(
    order: &mut Order,
    event: Event,
    outputs: &mut O,
    to: &mut T,
) -> Result<(), TellFault>
    requires rows { Each (λ waiting. waiting.row < event.row) order.old.waiting }
    ensures told { (plan : Plan) (lag : Option ℕ) (arrivals : List Arrival) → order.old ≡ order_of lag arrivals
        → Tells (O.tells plan) (O.stops plan) (outputs.old, to.old) (outputs.new, to.new) (told_late arrivals event) result }
    ensures order { (lag : Option ℕ) (arrivals : List Arrival) → order.old ≡ order_of lag arrivals
        → OnOk result (order.new ≡ order_of lag (arrivals ++ arrived event ∷ [])) }
    ensures state { OnOk result (order.new ≡ with_event order.old event) }
{
    match order.arrive(event) {
        Ok(Arrived::Late(row)) => outputs.late(to, row),
        Ok(Arrived::Kept) => Ok(()),
        Err(_) => Err(TellFault::NoMemory),
    }
}

// Takes the mark that the lag adds behind the event that came last.
fn follow<T, O: Outputs<T>, G: Gauge>(
    order: &mut Order,
    engine: &mut Engine,
    outputs: &mut O,
    to: &mut T,
    gauge: &mut G,
) -> Result<u64, TellFault>
    requires running { IsRunning order.old engine.old }
    requires room { taken_and_waiting order.old.waiting engine.old < 2 ^ 32 }
    requires stands { (ticks : List Tick) × StandsFor ticks engine.old }
    ensures plan { engine.new.plan ≡ engine.old.plan }
    ensures running { OnOk result (IsRunning order.new engine.new) }
    ensures kept { OnOk result (taken_and_waiting order.new.waiting engine.new ≡ taken_and_waiting order.old.waiting engine.old) }
    ensures met { (lag : Option ℕ) (before : List Arrival) (event : Event) (ticks : List Tick) → order.old ≡ order_of lag (before ++ arrived event ∷ []) → StandsFor ticks engine.old
        → Meets (O.tells engine.old.plan) (O.stops engine.old.plan) engine.old.plan lag (before ++ arrived event ∷ []) (marks_behind lag (event_times before) event.ts) ticks order.new engine.new (outputs.old, to.old) (outputs.new, to.new) result }
    ensures shown { (lag : Option ℕ) (before : List Arrival) (event : Event) (ticks : List Tick)
        → order.old ≡ order_of lag (before ++ arrived event ∷ []) → StandsFor ticks engine.old
        → let more = ticks_after (before ++ arrived event ∷ []) (marks_behind lag (event_times before) event.ts) in
        Shows (G.seen gauge.old) (G.seen gauge.new) (sizes_from engine.old.plan ticks more) result }
{
    match order.lag_mark() {
        Some(time) => rise(order, engine, time, outputs, to, gauge),
        None => Ok(0),
    }
}

// Takes a mark of the input.
fn take_marked<T, O: Outputs<T>, G: Gauge>(
    order: &mut Order,
    engine: &mut Engine,
    time: i64,
    outputs: &mut O,
    to: &mut T,
    gauge: &mut G,
) -> Result<u64, TellFault>
    requires running { IsRunning order.old engine.old }
    requires room { taken_and_waiting order.old.waiting engine.old < 2 ^ 32 }
    requires stands { (ticks : List Tick) × StandsFor ticks engine.old }
    ensures plan { engine.new.plan ≡ engine.old.plan }
    ensures running { OnOk result (IsRunning order.new engine.new) }
    ensures kept { OnOk result (taken_and_waiting order.new.waiting engine.new ≡ taken_and_waiting order.old.waiting engine.old) }
    ensures gone { (lag : Option ℕ) (records : List LineRecord) → order.old ≡ order_of lag (arrivals_of lag records) → StandsFor (ticks_of lag records) engine.old
        → Goes (O.tells engine.old.plan) (O.stops engine.old.plan) engine.old.plan lag records (Mark time) order.new engine.new (outputs.old, to.old) (outputs.new, to.new) result }
    ensures shown { (lag : Option ℕ) (records : List LineRecord)
        → order.old ≡ order_of lag (arrivals_of lag records) → StandsFor (ticks_of lag records) engine.old
        → Shows (G.seen gauge.old) (G.seen gauge.new) (sizes_added lag engine.old.plan records (Mark time)) result }
{
    rise(order, engine, time, outputs, to, gauge)
}

// Takes an event of the input, and the mark that the lag adds behind it.
fn take_arrived<T, O: Outputs<T>, G: Gauge>(
    order: &mut Order,
    engine: &mut Engine,
    event: Event,
    outputs: &mut O,
    to: &mut T,
    gauge: &mut G,
) -> Result<u64, TellFault>
    requires rows { Each (λ waiting. waiting.row < event.row) order.old.waiting }
    requires running { IsRunning order.old engine.old }
    requires room { taken_and_waiting order.old.waiting engine.old < 2 ^ 32 - 1 }
    requires stands { (ticks : List Tick) × StandsFor ticks engine.old }
    ensures plan { engine.new.plan ≡ engine.old.plan }
    ensures running { OnOk result (IsRunning order.new engine.new) }
    ensures grown { OnOk result (taken_and_waiting order.new.waiting engine.new ≤ taken_and_waiting order.old.waiting engine.old + 1) }
    ensures gone { (lag : Option ℕ) (records : List LineRecord) → order.old ≡ order_of lag (arrivals_of lag records) → StandsFor (ticks_of lag records) engine.old
        → Goes (O.tells engine.old.plan) (O.stops engine.old.plan) engine.old.plan lag records (Row event) order.new engine.new (outputs.old, to.old) (outputs.new, to.new) result }
    ensures shown { (lag : Option ℕ) (records : List LineRecord)
        → order.old ≡ order_of lag (arrivals_of lag records) → StandsFor (ticks_of lag records) engine.old
        → Shows (G.seen gauge.old) (G.seen gauge.new) (sizes_added lag engine.old.plan records (Row event)) result }
{
    arrive(order, event, outputs, to)?;
    let greatest = follow(order, engine, outputs, to, gauge)?;
    Ok(greatest)
}

/// Takes a record.
pub(crate) fn take_record<T, O: Outputs<T>, G: Gauge>(
    order: &mut Order,
    engine: &mut Engine,
    next: LineRecord,
    outputs: &mut O,
    to: &mut T,
    gauge: &mut G,
) -> Result<u64, TellFault>
    requires rows { ComesBehindWaiting order.old.waiting next }
    requires running { IsRunning order.old engine.old }
    requires room { taken_and_waiting order.old.waiting engine.old < 2 ^ 32 - 1 }
    requires stands { (ticks : List Tick) × StandsFor ticks engine.old }
    ensures plan { engine.new.plan ≡ engine.old.plan }
    ensures running { OnOk result (IsRunning order.new engine.new) }
    ensures grown { OnOk result (taken_and_waiting order.new.waiting engine.new ≤ taken_and_waiting order.old.waiting engine.old + 1) }
    ensures gone { (lag : Option ℕ) (records : List LineRecord) → order.old ≡ order_of lag (arrivals_of lag records) → StandsFor (ticks_of lag records) engine.old
        → Goes (O.tells engine.old.plan) (O.stops engine.old.plan) engine.old.plan lag records next order.new engine.new (outputs.old, to.old) (outputs.new, to.new) result }
    ensures shown { (lag : Option ℕ) (records : List LineRecord)
        → order.old ≡ order_of lag (arrivals_of lag records) → StandsFor (ticks_of lag records) engine.old
        → Shows (G.seen gauge.old) (G.seen gauge.new) (sizes_added lag engine.old.plan records next) result }
{
    match next {
        LineRecord::Blank => Ok(0),
        LineRecord::Mark(time) => take_marked(order, engine, time, outputs, to, gauge),
        LineRecord::Row(event) => take_arrived(order, engine, event, outputs, to, gauge),
    }
}
