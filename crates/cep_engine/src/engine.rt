ghost use Rattle.std.specs.Prelude.{◌+◌, ◌≡◌, ◌<◌, ◌≤◌, ◌-◌, ◌^◌, ◌++◌, ◌↔◌, [], ◌∷◌, List, Some, None, true, false, length, IsTrue, IfOk, IfSome, OnOk, OnErr};
ghost use Rattle.std.specs.Prelude.{Ok, Err};
ghost use Rattle.cep_event.specs.declared.record.Moment.TheVariants.{At, End};
ghost use Rattle.cep_plan.specs.Tick.{Tick, event_tick, mark_tick};
ghost use Rattle.nfa_compile.specs.State.{IsCompilable};
ghost use Rattle.sharing_laws.specs.Sharing.{SharesExactly, held_in};
ghost use Rattle.sharing_laws.specs.Sizes.{sizes_after};
ghost use Rattle.cep_plan.specs.Keys.{kept_at};
ghost use Rattle.cep_engine.specs.State.{StandsFor, IsNotBefore, HasRoom};
ghost use Rattle.cep_engine.specs.declared.engine.EngineFault.TheVariants.{Spent};
ghost use Rattle.cep_engine.specs.declared.engine.EngineFault.TheVariants as fault;

use crate::tick::{append, take_event, take_mark};
use cep_event::{Event, Moment, NoMemory};
use cep_plan::{ItemList, Plan};
use cond_sums::Asked;
use nfa_compile::{Nfa, compile};
use run_step::RunSet;
use shared_buffer::{Buffer, Held};
use std::alloc::Global;
use std::marker::Model;
use std::mem;
use thiserror::Error;
use time_limit::Limits;

/// Why an engine gives no answer.
#[derive(Clone, Copy, Debug, PartialEq, Eq, Error)]
pub enum EngineFault {
    /// Memory was wanted, and the engine is spent.
    #[error("no memory")]
    NoMemory,
    /// An earlier call wanted memory.
    #[error("an earlier call wanted memory")]
    Spent,
}

/// Whether there is no such time limit, or one above 0.
pub fn is_above_zero(limit: Option<u64>) -> bool
    ensures { IsTrue result ↔ IfSome limit (λ l. 0 < l) }
{
    match limit {
        None => true,
        Some(limit) => limit > 0,
    }
}

/// Whether each time limit of the pattern is above 0.
pub fn has_room(plan: &Plan) -> bool
    ensures { IsTrue result ↔ HasRoom plan.now }
{
    is_above_zero(plan.within) && is_above_zero(plan.within_gap)
}

/// Takes ticks, one after another, and tells the items that the skip strategy keeps.
#[derive(Drop)]
pub struct Engine {
    alloc: Global,
    plan: Plan,
    // The plan's automaton.
    nfa: Nfa,
    runs: RunSet,
    // The events, nodes and edges of the runs' lists.
    buffer: Buffer,
    limits: Limits,
    // The time of the last tick in milliseconds.
    last: Option<i64>,
    items: ItemList,
    spent: bool,
}

impl Model for Engine {
    ghost use Rattle.std.specs.Prelude.{◌≡◌, false};
    ghost use Rattle.nfa_compile.specs.State.{IsCompilable};
    ghost use Rattle.nfa_compile.specs.Automaton.{automaton_of};
    ghost use Rattle.cep_engine.specs.State.{State, StandsForSome, AreBehind, HasRoom};
    ghost use Rattle.std.specs.Coded.{codes};
    ghost use Rattle.cep_plan.specs.contracts.condition.Expr as expr;

    ghost Value = { State };

    ghost coded = { Prim.hlevel (codes, expr.the_row.coded) };

    ghost view = { λ e. record { plan = e.plan; runs = e.runs; buffer = e.buffer; limits = e.limits; last = e.last; items = e.items; spent = e.spent } };

    ghost invariant = { λ e. record { plan : IsCompilable e.plan; nfa : e.nfa ≡ automaton_of e.plan; room : HasRoom e.plan; behind : e.spent ≡ false → AreBehind e.runs.position e.last e.limits; stands : e.spent ≡ false → StandsForSome (record { plan = e.plan; runs = e.runs; buffer = e.buffer; limits = e.limits; last = e.last; items = e.items; spent = e.spent }) } };
}

impl Engine {
    /// An engine before its first tick. The plan is a checked one: it can be compiled, and its time limit isn't 0.
    pub fn new(alloc: Global, plan: Plan) -> Result<Engine, NoMemory>
        requires plan { IsCompilable plan }
        requires within { HasRoom plan }
        ensures stands { IfOk result (λ engine. StandsFor [] engine) }
        ensures fresh { IfOk result (λ engine. (engine.plan ≡ plan) × (engine.last ≡ None) × (engine.runs.position ≡ 0) × (engine.items ≡ [])
            × (engine.spent ≡ false)) }
    {
        let nfa = compile(alloc, &plan)?;
        let asked = Asked::of(alloc, &plan)?;
        let runs = RunSet::new(alloc, &nfa, &asked)?;
        let buffer = Buffer::new(alloc);
        let limits = Limits::new(alloc, plan.within, plan.within_gap);
        let items = ItemList::new(alloc);
        Ok(Engine {
            alloc,
            plan,
            nfa,
            runs,
            buffer,
            limits,
            last: None,
            items,
            spent: false,
        })
    }

    /// Whether the time, in milliseconds, isn't below that of the last tick.
    pub fn may_come(&self, time: i64) -> bool
        ensures { IsTrue result ↔ IsNotBefore self.now.last time }
    {
        match self.last {
            None => true,
            Some(last) => last <= time,
        }
    }

    /// The pattern's plan.
    pub fn plan(&self) -> &Plan
        ensures { result.now ≡ self.now.plan }
    {
        &self.plan
    }

    /// How many events were taken.
    pub fn count(&self) -> u32
        ensures { result ≡ self.now.runs.position }
    {
        self.runs.position()
    }

    /// How many events, nodes and edges are held: those of the living partial matches, each shared one once. It takes no memory.
    pub fn held(&self) -> Held
        ensures counts { result ≡ held_in self.now.buffer }
        ensures sizes { (ticks : List Tick) → StandsFor ticks self.now → result ≡ sizes_after self.now.plan ticks }
        ensures shares { (ticks : List Tick) → StandsFor ticks self.now → SharesExactly self.now.plan ticks self.now.runs self.now.buffer }
    {
        self.buffer.facts();
        self.buffer.held()
    }

    /// Takes an event, or wants memory and is spent.
    fn take_event(&mut self, event: Event) -> Result<(), NoMemory>
        requires fresh { self.old.spent ≡ false }
        requires room { self.old.runs.position < 2 ^ 32 - 1 }
        requires time { IsNotBefore self.old.last event.ts }
        ensures plan { self.new.plan ≡ self.old.plan }
        ensures err { OnErr result ((self.new.spent ≡ true) × (self.new.items ≡ self.old.items)) }
        ensures ok { OnOk result ((self.new.spent ≡ false) × (self.new.last ≡ Some event.ts) × (self.new.runs.position ≡ self.old.runs.position + 1)) }
        ensures stands { (ticks : List Tick) → StandsFor ticks self.old → IfOk result (λ done. StandsFor (ticks ++ event_tick event ∷ []) self.new) }
        ensures items { (ticks : List Tick) → StandsFor ticks self.old
            → IfOk result (λ done. self.new.items ≡ self.old.items ++ kept_at self.old.plan ticks (event_tick event)) }
        ensures shares { (ticks : List Tick) → StandsFor ticks self.old
            → IfOk result (λ done. SharesExactly self.old.plan (ticks ++ event_tick event ∷ []) self.new.runs self.new.buffer) }
    {
        self.spent = true;
        let event_time = event.ts;
        let made = take_event(
            &mut self.runs,
            &mut self.buffer,
            &mut self.limits,
            &self.nfa,
            &self.plan,
            event,
            self.alloc,
        )?;
        append(&mut self.items, made)?;
        self.buffer.facts();
        self.last = Some(event_time);
        self.spent = false;
        Ok(())
    }

    /// Takes a mark, or wants memory and is spent.
    fn take_mark(&mut self, time: i64) -> Result<(), NoMemory>
        requires fresh { self.old.spent ≡ false }
        requires time { IsNotBefore self.old.last time }
        ensures plan { self.new.plan ≡ self.old.plan }
        ensures err { OnErr result ((self.new.spent ≡ true) × (self.new.items ≡ self.old.items)) }
        ensures ok { OnOk result ((self.new.spent ≡ false) × (self.new.last ≡ Some time) × (self.new.runs.position ≡ self.old.runs.position)) }
        ensures stands { (ticks : List Tick) → StandsFor ticks self.old → IfOk result (λ done. StandsFor (ticks ++ mark_tick (At time) ∷ []) self.new) }
        ensures items { (ticks : List Tick) → StandsFor ticks self.old
            → IfOk result (λ done. self.new.items ≡ self.old.items ++ kept_at self.old.plan ticks (mark_tick (At time))) }
        ensures shares { (ticks : List Tick) → StandsFor ticks self.old
            → IfOk result (λ done. SharesExactly self.old.plan (ticks ++ mark_tick (At time) ∷ []) self.new.runs self.new.buffer) }
    {
        self.spent = true;
        let now = Moment::At(time);
        let made = take_mark(
            &mut self.runs,
            &mut self.buffer,
            &mut self.limits,
            &self.nfa,
            &self.plan,
            now,
            self.alloc,
        )?;
        append(&mut self.items, made)?;
        self.buffer.facts();
        self.last = Some(time);
        self.spent = false;
        Ok(())
    }

    /// Takes an event tick. The event's time isn't below that of the last tick, and fewer than 2^32 - 1 events came before. After it the runs and what is held are exactly those of the living partial matches.
    /// The items not yet handed out grow by the kept items of the tick. `NoMemory` adds none, and from then on the engine is spent.
    pub fn event(&mut self, event: Event) -> Result<(), EngineFault>
        requires room { self.old.spent ≡ false → self.old.runs.position < 2 ^ 32 - 1 }
        requires time { self.old.spent ≡ false → IsNotBefore self.old.last event.ts }
        ensures plan { self.new.plan ≡ self.old.plan }
        ensures spent { (result ≡ Err Spent) ↔ (self.old.spent ≡ true) }
        ensures stays { self.old.spent ≡ true → self.new ≡ self.old }
        ensures no_memory { result ≡ Err fault.NoMemory → (self.new.spent ≡ true) × (self.new.items ≡ self.old.items) }
        ensures ok { OnOk result ((self.new.spent ≡ false) × (self.new.last ≡ Some event.ts) × (self.new.runs.position ≡ self.old.runs.position + 1)) }
        ensures stands { (ticks : List Tick) → StandsFor ticks self.old → IfOk result (λ done. StandsFor (ticks ++ event_tick event ∷ []) self.new) }
        ensures items { (ticks : List Tick) → StandsFor ticks self.old
            → IfOk result (λ done. self.new.items ≡ self.old.items ++ kept_at self.old.plan ticks (event_tick event)) }
        ensures shares { (ticks : List Tick) → StandsFor ticks self.old
            → IfOk result (λ done. SharesExactly self.old.plan (ticks ++ event_tick event ∷ []) self.new.runs self.new.buffer) }
    {
        if self.spent {
            return Err(EngineFault::Spent);
        }
        match self.take_event(event) {
            Ok(()) => Ok(()),
            Err(NoMemory) => Err(EngineFault::NoMemory),
        }
    }

    /// Takes a mark tick, with a time in milliseconds that isn't below that of the last tick.
    /// The items not yet handed out grow by the kept items of the tick. `NoMemory` adds none, and from then on the engine is spent.
    pub fn mark(&mut self, time: i64) -> Result<(), EngineFault>
        requires time { self.old.spent ≡ false → IsNotBefore self.old.last time }
        ensures plan { self.new.plan ≡ self.old.plan }
        ensures spent { (result ≡ Err Spent) ↔ (self.old.spent ≡ true) }
        ensures stays { self.old.spent ≡ true → self.new ≡ self.old }
        ensures no_memory { result ≡ Err fault.NoMemory → (self.new.spent ≡ true) × (self.new.items ≡ self.old.items) }
        ensures ok { OnOk result ((self.new.spent ≡ false) × (self.new.last ≡ Some time) × (self.new.runs.position ≡ self.old.runs.position)) }
        ensures stands { (ticks : List Tick) → StandsFor ticks self.old → IfOk result (λ done. StandsFor (ticks ++ mark_tick (At time) ∷ []) self.new) }
        ensures items { (ticks : List Tick) → StandsFor ticks self.old
            → IfOk result (λ done. self.new.items ≡ self.old.items ++ kept_at self.old.plan ticks (mark_tick (At time))) }
        ensures shares { (ticks : List Tick) → StandsFor ticks self.old
            → IfOk result (λ done. SharesExactly self.old.plan (ticks ++ mark_tick (At time) ∷ []) self.new.runs self.new.buffer) }
    {
        if self.spent {
            return Err(EngineFault::Spent);
        }
        match self.take_mark(time) {
            Ok(()) => Ok(()),
            Err(NoMemory) => Err(EngineFault::NoMemory),
        }
    }

    /// Hands out the kept items not yet handed out, in order. It takes no memory.
    pub fn items(&mut self) -> ItemList
        ensures items { result ≡ self.old.items }
        ensures rest { self.new ≡ record self.old { items = [] } }
    {
        let empty = self.items.emptied();
        mem::replace(&mut self.items, empty)
    }

    /// Ends the input: hands out the items not yet handed out, and then the kept items of a tick above all times.
    pub fn end(self) -> Result<ItemList, EngineFault>
        ensures spent { (result ≡ Err Spent) ↔ (self.spent ≡ true) }
        ensures items { (ticks : List Tick) → StandsFor ticks self → IfOk result (λ items. items ≡ self.items ++ kept_at self.plan ticks (mark_tick End)) }
    {
        if self.spent {
            return Err(EngineFault::Spent);
        }
        match self.parted() {
            Ok((_, items)) => Ok(items),
            Err(NoMemory) => Err(EngineFault::NoMemory),
        }
    }

    /// Ends the input as `end` does, and gives the plan back.
    pub fn end_with_plan(self) -> Result<(Plan, ItemList), EngineFault>
        ensures spent { (result ≡ Err Spent) ↔ (self.spent ≡ true) }
        ensures plan { IfOk result (λ ended. ended.0 ≡ self.plan) }
        ensures items { (ticks : List Tick) → StandsFor ticks self → IfOk result (λ ended. ended.1 ≡ self.items ++ kept_at self.plan ticks (mark_tick End)) }
    {
        if self.spent {
            return Err(EngineFault::Spent);
        }
        match self.parted() {
            Ok(ended) => Ok(ended),
            Err(NoMemory) => Err(EngineFault::NoMemory),
        }
    }

    /// The plan, and the items not yet handed out with those of the end.
    fn parted(self) -> Result<(Plan, ItemList), NoMemory>
        requires fresh { self.spent ≡ false }
        ensures plan { IfOk result (λ ended. ended.0 ≡ self.plan) }
        ensures items { (ticks : List Tick) → StandsFor ticks self → IfOk result (λ ended. ended.1 ≡ self.items ++ kept_at self.plan ticks (mark_tick End)) }
    {
        let mut engine = self;
        engine.spent = true;
        let made = take_mark(
            &mut engine.runs,
            &mut engine.buffer,
            &mut engine.limits,
            &engine.nfa,
            &engine.plan,
            Moment::End,
            engine.alloc,
        )?;
        append(&mut engine.items, made)?;
        let Engine { plan, items, .. } = engine;
        Ok((plan, items))
    }
}
