ghost use Rattle.std.specs.Prelude.{◌≡◌, ◌≤◌, ◌<◌, ◌^◌, ◌-◌, ◌++◌, [], List, ℕ, length, map, IfOk, Option};
ghost use Rattle.cep_event.specs.declared.record.LineRecord.{LineRecord};
ghost use Rattle.cep_event.specs.declared.record.Moment.TheVariants.{End};
ghost use Rattle.cep_plan.specs.declared.plan.Plan.{Plan};
ghost use Rattle.cep_plan.specs.Tick.{Tick, mark_tick};
ghost use Rattle.cep_engine.specs.State.{StandsFor, HasRoom};
ghost use Rattle.cep_plan.specs.Keys.{kept_at};
ghost use Rattle.nfa_compile.specs.State.{IsCompilable};
ghost use Rattle.event_pipeline.specs.Handled.{HasHandled, Handles};
ghost use Rattle.event_pipeline.specs.Running.{ComesBehind, IsReady};
ghost use Rattle.event_pipeline.specs.Shown.{Shows, sizes_added, sizes_at_end};
ghost use Rattle.event_pipeline.specs.Telling.{Tells};
ghost use Rattle.event_pipeline.specs.Told.{item_told, told_at_end};

use crate::ticks::{take_ready, take_record, tell_items};
use crate::{Gauge, Outputs, TellFault};
use cep_engine::{Engine, EngineFault};
use cep_event::{LineRecord, NoMemory};
use cep_plan::Plan;
use std::alloc::Global;
use watermark_order::Order;

/// Takes the records of lines, one after another, and tells outputs what they make known: each late event, and each kept item of a tick as soon as that tick was taken.
///
/// It holds the events that wait for their mark and what the engine holds, and no item.
#[derive(Drop)]
pub struct Pipeline {
    order: Order,
    engine: Engine,
}

// Tells the items of a tick above all times.
fn finish<T, O: Outputs<T>>(engine: Engine, outputs: &mut O, to: &mut T) -> Result<(), TellFault>
    requires ready { IsReady engine }
    requires room { engine.runs.position < 2 ^ 32 }
    requires stands { (ticks : List Tick) × StandsFor ticks engine }
    ensures { (ticks : List Tick) → StandsFor ticks engine
        → Tells (O.tells engine.plan) (O.stops engine.plan) (outputs.old, to.old) (outputs.new, to.new) (map item_told (kept_at engine.plan ticks (mark_tick End))) result }
{
    match engine.end_with_plan() {
        Ok((plan, items)) => tell_items(&plan, items, outputs, to),
        Err(EngineFault::NoMemory) => Err(TellFault::NoMemory),
        Err(EngineFault::Spent) => unreachable!(),
    }
}

impl Pipeline {
    /// A pipeline that has handled no record. With a lag, in milliseconds, a mark arises behind each event. The plan is a checked one: it can be compiled, its time limit isn't 0, and stages can be numbered with 16 bits.
    pub fn new(alloc: Global, lag: Option<u64>, plan: Plan) -> Result<Pipeline, NoMemory>
        requires compilable { IsCompilable plan }
        requires within { HasRoom plan }
        requires few { length plan.stages ≤ 65536 }
        ensures { IfOk result (λ made. HasHandled lag plan [] made) }
    {
        Ok(Pipeline {
            order: Order::new(alloc, lag),
            engine: Engine::new(alloc, plan)?,
        })
    }

    /// The pattern's plan.
    pub fn plan(&self) -> &Plan
        ensures { (lag : Option ℕ) (plan : Plan) (records : List LineRecord) → HasHandled lag plan records self.now → result.now ≡ plan }
    {
        self.engine.plan()
    }

    /// Takes a record more, whose event has a row above those of all before, and tells what it makes known. The gauge is shown the
    /// engine after each tick, before the items of that tick are told. The answer is the greatest number of events that were held
    /// after one of the record's ticks, 0 where it has none. After an `Err` it may only be dropped; then a front of that was told
    /// and shown.
    pub fn take<T, O: Outputs<T>, G: Gauge>(
        &mut self,
        next: LineRecord,
        outputs: &mut O,
        to: &mut T,
        gauge: &mut G,
    ) -> Result<u64, TellFault>
        requires { (lag : Option ℕ) × (plan : Plan) × (records : List LineRecord) × HasHandled lag plan records self.old × ComesBehind records next × (length records < 2 ^ 32 - 1) }
        ensures handled { (lag : Option ℕ) (plan : Plan) (records : List LineRecord) → HasHandled lag plan records self.old
            → Handles (O.tells plan) (O.stops plan) lag plan records next self.new (outputs.old, to.old) (outputs.new, to.new) result }
        ensures shown { (lag : Option ℕ) (plan : Plan) (records : List LineRecord) → HasHandled lag plan records self.old
            → Shows (G.seen gauge.old) (G.seen gauge.new) (sizes_added lag plan records next) result }
    {
        take_record(&mut self.order, &mut self.engine, next, outputs, to, gauge)
    }

    /// There are no more records: the end is a mark above all times. Tells what it makes known, or a front of that. The gauge is
    /// shown the engine after each event that the end releases, but not after the end itself. The answer is the greatest number of
    /// events that were held after one of these events, 0 where there is none.
    pub fn end<T, O: Outputs<T>, G: Gauge>(
        self,
        outputs: &mut O,
        to: &mut T,
        gauge: &mut G,
    ) -> Result<u64, TellFault>
        requires { (lag : Option ℕ) × (plan : Plan) × (records : List LineRecord) × HasHandled lag plan records self × (length records < 2 ^ 32) }
        ensures told { (lag : Option ℕ) (plan : Plan) (records : List LineRecord) → HasHandled lag plan records self
            → Tells (O.tells plan) (O.stops plan) (outputs.old, to.old) (outputs.new, to.new) (told_at_end lag plan records) result }
        ensures shown { (lag : Option ℕ) (plan : Plan) (records : List LineRecord) → HasHandled lag plan records self
            → Shows (G.seen gauge.old) (G.seen gauge.new) (sizes_at_end lag plan records) result }
    {
        let Pipeline {
            mut order,
            mut engine,
        } = self;
        order.end();
        let greatest = take_ready(&mut order, &mut engine, outputs, to, gauge)?;
        finish(engine, outputs, to)?;
        Ok(greatest)
    }
}
