ghost use Rattle.std.specs.Prelude.{◌≡◌, ℕ, List, [], map, ◌++◌, ◌∷◌, Option, option_copied, OnOk, IfOk};
ghost use Rattle.cep_event.specs.declared.value.Value.{Value};
ghost use Rattle.cep_keeper.specs.Standing.{start_listed, stays, with_recent, noted, plain, IsPlaced, ListsOldest, StandsFor};
ghost use Rattle.cep_plan.specs.declared.plan.Plan.{Plan};
ghost use Rattle.recent_laws.specs.Law.{NeverFall};
ghost use Rattle.recent_laws.specs.Recent.{recent};
ghost use Rattle.cep_keeper.specs.declared.recent.Tick.{Tick};

use crate::rules::key_of;
use cep_event::{Event, NoMemory, Sequence, Value};
use cep_plan::Plan;
use std::alloc::Global;
use std::marker::Model;
use std::mem;

/// A step of the engine: an event with its position among those of its key, or a mark.
#[derive(Debug, Drop)]
pub enum Tick {
    Event { event: Event, position: u32 },
    Mark(i64),
}

pub type TickList = Sequence<Tick>;

/// The oldest starts that are still living, by keys.
pub trait Oldest {
    /// The keys with their starts, without a key where the pattern names none.
    ghost starts: { Self → List (Option Value × ℕ) };

    /// The start listed for the key, if one is.
    fn oldest(&self, key: Option<&Value>) -> Option<u32>
        ensures { result ≡ start_listed (starts self.now) (option_copied key.entry) };
}

/// The recent ticks: those from which a stream can go on as if all of them had been taken. Contracts see it as its ticks.
#[derive(Debug, Drop)]
pub struct Recent {
    ticks: TickList,
}

impl Model for Recent {
    ghost use Rattle.std.specs.Prelude.{List};
    ghost use Rattle.cep_keeper.specs.declared.recent.Tick.{Tick};

    ghost Value = { List Tick };

    ghost view = { λ r. r.ticks };
}

impl Recent {
    pub fn new(alloc: Global) -> Recent
        ensures { result ≡ [] }
    {
        Recent {
            ticks: TickList::new(alloc),
        }
    }

    /// Its ticks, which are the recent ones of all ticks for which it stands.
    pub fn ticks(&self) -> &TickList
        ensures value { result.now ≡ self.now }
        ensures recent { (plan : Plan) (all : List Tick) → StandsFor plan self.now all → map plain self.now ≡ recent plan (map plain all) }
    {
        &self.ticks
    }

    /// Takes one more tick, and leaves out the events that stand before the oldest start of their key, and the marks before the first event.
    /// It looks at each recent tick, so its time grows with their number.
    pub fn note<O: Oldest>(&mut self, plan: &Plan, tick: Tick, starts: &O) -> Result<(), NoMemory>
        ensures { OnOk result ((all : List Tick) → StandsFor plan.now self.old all → IsPlaced plan.now [] (all ++ tick ∷ [])
            → NeverFall [] (map plain (all ++ tick ∷ [])) → ListsOldest plan.now (O.starts starts.now) (map plain (all ++ tick ∷ []))
            → StandsFor plan.now self.new (all ++ tick ∷ [])) }
    {
        self.take(plan, tick, starts)
    }

    fn take<O: Oldest>(&mut self, plan: &Plan, tick: Tick, starts: &O) -> Result<(), NoMemory>
        ensures { OnOk result (self.new ≡ noted plan.now (O.starts starts.now) (self.old ++ tick ∷ [])) }
    {
        self.ticks.push(tick)?;
        let empty = self.ticks.emptied();
        let ticks = mem::replace(&mut self.ticks, empty);
        self.ticks = still_recent(plan, starts, ticks)?;
        Ok(())
    }

    pub(crate) fn push(&mut self, tick: Tick) -> Result<(), NoMemory>
        ensures { OnOk result (self.new ≡ self.old ++ tick ∷ []) }
    {
        self.ticks.push(tick)?;
        Ok(())
    }
}

fn still_recent<O: Oldest>(plan: &Plan, starts: &O, ticks: TickList) -> Result<TickList, NoMemory>
    ensures { IfOk result (λ kept. kept ≡ noted plan.now (O.starts starts.now) ticks) }
{
    let mut kept = ticks.emptied();
    for tick in ticks.into_vec() {
        keep_recent(plan, starts, &mut kept, tick)?;
    }
    Ok(kept)
}

fn keep_recent<O: Oldest>(
    plan: &Plan,
    starts: &O,
    kept: &mut TickList,
    tick: Tick,
) -> Result<(), NoMemory>
    ensures { OnOk result (kept.new ≡ with_recent plan.now (O.starts starts.now) kept.old tick) }
{
    if stays(plan, starts, &tick, kept.len()) {
        kept.push(tick)?;
    }
    Ok(())
}

// Whether the tick is still recent, behind so many that are.
fn stays<O: Oldest>(plan: &Plan, starts: &O, tick: &Tick, behind: usize) -> bool
    ensures { result ≡ stays plan.now (O.starts starts.now) behind tick.now }
{
    match tick {
        Tick::Event { event, position } => match starts.oldest(key_of(plan, event)) {
            Some(start) => start <= *position,
            None => false,
        },
        Tick::Mark(_) => 0 < behind,
    }
}
