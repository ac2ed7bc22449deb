ghost use Rattle.std.specs.Prelude.{◌≡◌, ℕ, ℤ, ◌+◌, ◌<◌, ◌^◌, List, Some, None, OnOk, IfOk};
ghost use Rattle.std.specs.BTreeMap.{get, get_by_text};
ghost use Rattle.std.specs.Ordering.{int_cmp};
ghost use Rattle.cep_event.specs.declared.value.Value.{Value};
ghost use Rattle.cep_plan.specs.Keys.{key_of};
ghost use Rattle.cep_keeper.specs.Tallies.{count_of, count_before};

use crate::rules::key_of;
use cep_event::{Event, NoMemory, Text, Value};
use cep_plan::Plan;
use std::alloc::Global;
use std::collections::BTreeMap;

// How many of the ticks so far are events, and how many of these have each key that the rows gave. So neither keys nor ticks are gone over at each row.
#[derive(Drop)]
pub(crate) struct Counts {
    alloc: Global,
    events: u32,
    numbers: BTreeMap<i64, u32>,
    texts: BTreeMap<String, u32>,
}

impl Counts {
    pub(crate) fn new(alloc: Global) -> Counts
        ensures events { result.events ≡ 0 }
        ensures none { (key : Value) → count_of result key ≡ None }
    {
        Counts {
            alloc,
            events: 0,
            numbers: BTreeMap::new(alloc),
            texts: BTreeMap::new(alloc),
        }
    }

    // How many events have the key, where the rows gave it.
    pub(crate) fn of(&self, key: &Value) -> Option<u32>
        ensures { result ≡ count_of self.now key.now }
    {
        match key {
            Value::Int(number) => self.numbers.get(number).copied(),
            Value::Text(text) => self.texts.get(text.as_str()).copied(),
        }
    }

    pub(crate) fn set(&mut self, key: &Value, count: u32) -> Result<(), NoMemory>
        ensures here { OnOk result (count_of self.new key.now ≡ Some count) }
        ensures others { OnOk result ((other : Value) → (other ≡ key.now → ⊥) → count_of self.new other ≡ count_of self.old other) }
        ensures events { self.new.events ≡ self.old.events }
    {
        match key {
            Value::Int(number) => set_number(&mut self.numbers, *number, count),
            Value::Text(text) => set_text(self.alloc, &mut self.texts, text, count),
        }
    }

    // Counts the event, and tells how many with its key came before it.
    pub(crate) fn count_event(&mut self, plan: &Plan, event: &Event) -> Result<u32, NoMemory>
        requires events { self.old.events + 1 < 2 ^ 32 }
        requires own { count_before plan.now self.old event.now + 1 < 2 ^ 32 }
        ensures position { IfOk result (λ position. position ≡ count_before plan.now self.old event.now) }
        ensures events { OnOk result (self.new.events ≡ self.old.events + 1) }
        ensures own { OnOk result ((key : Value) → key_of plan.now event.now ≡ Some key → count_of self.new key ≡ Some (count_before plan.now self.old event.now + 1)) }
        ensures others { OnOk result ((key : Value) → (key_of plan.now event.now ≡ Some key → ⊥) → count_of self.new key ≡ count_of self.old key) }
    {
        let before = self.events;
        self.events += 1;
        match key_of(plan, event) {
            Some(key) => {
                let count = self.of(key).unwrap_or(0);
                self.set(key, count + 1)?;
                Ok(count)
            }
            None => Ok(before),
        }
    }
}

fn set_number(numbers: &mut BTreeMap<i64, u32>, number: i64, count: u32) -> Result<(), NoMemory>
    ensures here { OnOk result (get int_cmp numbers.new number ≡ Some count) }
    ensures others { OnOk result ((other : ℤ) → (other ≡ number → ⊥) → get int_cmp numbers.new other ≡ get int_cmp numbers.old other) }
{
    numbers.insert(number, count)?;
    Ok(())
}

// The text is copied only where it comes for the first time.
fn set_text(
    alloc: Global,
    texts: &mut BTreeMap<String, u32>,
    text: &Text,
    count: u32,
) -> Result<(), NoMemory>
    ensures here { OnOk result (get_by_text texts.new text.now ≡ Some count) }
    ensures others { OnOk result ((other : List ℕ) → (other ≡ text.now → ⊥) → get_by_text texts.new other ≡ get_by_text texts.old other) }
{
    if let Some(old) = texts.get_mut(text.as_str()) {
        *old = count;
        return Ok(());
    }
    let key = String::from_str(alloc, text.as_str())?;
    texts.insert(key, count)?;
    Ok(())
}
