//! The aggregates of a list of taken events, without the list.
ghost use Rattle.std.specs.Prelude.{◌≡◌, ◌<◌, ◌≤◌, ◌+◌, ◌-◌, ◌^◌, ◌++◌, ◌∷◌, [], ℕ, pos, true, List, map, length, IfOk, IsOk};
ghost use Rattle.std.specs.List.{All, list_any};
ghost use Rattle.cep_event.specs.declared.event.EventType.{EventType};
ghost use Rattle.cep_plan.specs.declared.condition.Agg.TheVariants as agg;
ghost use Rattle.cep_plan.specs.declared.item.Taken.{Taken};
ghost use Rattle.cep_plan.specs.Answer.{answer_seen};
ghost use Rattle.cep_plan.specs.Aggregate.{aggregate_answer, taken_for};
ghost use Rattle.cond_sums.specs.Kept.{shown, kept_of, kept_of_none, kept_after, count_after, IsWithin, Summed, none_of, summed_after, wanted_in, is_count_of, is_slot_of, CanAnswer, StandsFor};

use crate::asked::Asked;
use crate::slot::{Count, Slot, count_after};
use cep_event::{Event, EventType, NoMemory};
use cep_plan::{Matched, Plan, Val};
use cond_eval::{in_word, number_if_known};
use smallvec::SmallVec;
use std::alloc::Global;
use std::marker::Model;

/// So many are kept with no memory of their own.
const INLINE_COUNTS: usize = 4;

const INLINE_SLOTS: usize = 1;

/// What the conditions of a plan ask of a list of taken events, without the list.
#[derive(Drop)]
pub struct Sums {
    /// How many events were taken.
    taken: u32,
    counts: SmallVec<Count, INLINE_COUNTS>,
    slots: SmallVec<Slot, INLINE_SLOTS>,
}

impl Model for Sums {
    ghost use Rattle.std.specs.Prelude.{◌≤◌, map};
    ghost use Rattle.std.specs.List.{All};
    ghost use Rattle.cond_sums.specs.Kept.{shown, IsWithin, Summed};

    ghost Value = { Summed };

    ghost view = { λ s. record { taken = s.taken; counts = s.counts.items; slots = map shown s.slots.items } };

    ghost invariant = { λ s. record { counts : All (λ count. count.number ≤ s.taken) s.counts.items; slots : All (IsWithin s.taken) (map shown s.slots.items) } };
}

fn counts_of(alloc: Global, stages: &[u16]) -> Result<SmallVec<Count, INLINE_COUNTS>, NoMemory>
    ensures same { IfOk result (λ made. made.items ≡ map (λ stage. record { stage = stage; number = 0 }) stages.now) }
    ensures free { length stages.now ≤ 4 → IsOk result }
{
    let mut made = SmallVec::new(alloc);
    made.reserve(stages.len())?;
    for stage in stages {
        made.push_reserved(Count {
            stage: *stage,
            number: 0,
        });
    }
    Ok(made)
}

fn slots_of(alloc: Global, pairs: &[(u16, u16)]) -> Result<SmallVec<Slot, INLINE_SLOTS>, NoMemory>
    ensures same { IfOk result (λ made. map shown made.items ≡ map kept_of_none pairs.now) }
    ensures free { length pairs.now ≤ 1 → IsOk result }
{
    let mut made = SmallVec::new(alloc);
    made.reserve(pairs.len())?;
    for pair in pairs {
        made.push_reserved(Slot::none(pair.0, pair.1));
    }
    Ok(made)
}

fn counts_after(
    counts: &[Count],
    stage: u16,
    alloc: Global,
) -> Result<SmallVec<Count, INLINE_COUNTS>, NoMemory>
    requires { All (λ count. count.number < 2 ^ 32 - 1) counts.now }
    ensures same { IfOk result (λ made. made.items ≡ map (count_after stage) counts.now) }
    ensures free { length counts.now ≤ 4 → IsOk result }
{
    let mut made = SmallVec::new(alloc);
    made.reserve(counts.len())?;
    for count in counts {
        made.push_reserved(count_after(*count, stage));
    }
    Ok(made)
}

fn slots_after(
    slots: &[Slot],
    types: &[EventType],
    stage: u16,
    event: &Event,
    alloc: Global,
) -> Result<SmallVec<Slot, INLINE_SLOTS>, NoMemory>
    requires { All (IsWithin (2 ^ 32)) (map shown slots.now) }
    ensures same { IfOk result (λ made. map shown made.items ≡ map (kept_after types.now stage event.now) (map shown slots.now)) }
    ensures within { (n : ℕ) → All (IsWithin n) (map shown slots.now) → IfOk result (λ made. All (IsWithin (n + 1)) (map shown made.items)) }
    ensures free { slots.now ≡ [] → IsOk result }
{
    let mut made = SmallVec::new(alloc);
    made.reserve(slots.len())?;
    for slot in slots {
        let after = slot.after(types, stage, event, alloc)?;
        made.push(after)?;
    }
    Ok(made)
}

fn slots_copied(slots: &[Slot], alloc: Global) -> Result<SmallVec<Slot, INLINE_SLOTS>, NoMemory>
    ensures same { IfOk result (λ made. map shown made.items ≡ map shown slots.now) }
    ensures free { slots.now ≡ [] → IsOk result }
{
    let mut made = SmallVec::new(alloc);
    made.reserve(slots.len())?;
    for slot in slots {
        let copy = slot.copy()?;
        made.push(copy)?;
    }
    Ok(made)
}

fn has_count(counts: &[Count], stage: u16) -> bool
    ensures { result ≡ list_any (is_count_of stage) counts.now }
{
    counts.iter().any(|count| count.stage == stage)
}

fn has_slot(slots: &[Slot], stage: u16, field: u16) -> bool
    ensures { result ≡ list_any (is_slot_of stage field) (map shown slots.now) }
{
    for slot in slots {
        if slot.stage == stage && slot.field == field {
            return true;
        }
    }
    false
}

fn count_for(counts: &[Count], stage: u16) -> u32
    requires { list_any (is_count_of stage) counts.now ≡ true }
    ensures { (list : List Taken) → All (λ count. count.number ≡ length (taken_for count.stage list)) counts.now → result ≡ length (taken_for stage list) }
{
    for count in counts {
        if count.stage == stage {
            return count.number;
        }
    }
    unreachable!()
}

fn slot_for(slots: &[Slot], stage: u16, field: u16) -> &Slot
    requires { list_any (is_slot_of stage field) (map shown slots.now) ≡ true }
    ensures { (types : List EventType) (list : List Taken) → All (λ kept. kept ≡ kept_of types list kept.stage kept.field) (map shown slots.now)
        → shown result.now ≡ kept_of types list stage field }
{
    for slot in slots {
        if slot.stage == stage && slot.field == field {
            return slot;
        }
    }
    unreachable!()
}

impl Sums {
    /// The sums of no event. Where little is asked, it takes no memory.
    pub fn none(alloc: Global, asked: &Asked) -> Result<Sums, NoMemory>
        ensures same { IfOk result (λ sums. sums ≡ none_of asked.now) }
        ensures asked { IfOk result (λ sums. wanted_in sums ≡ asked.now) }
        ensures stands { (types : List EventType) → IfOk result (λ sums. StandsFor sums types []) }
        ensures free { length asked.now.pairs ≤ 1 → length asked.now.counted ≤ 4 → IsOk result }
    {
        let counts = counts_of(alloc, asked.counted())?;
        let slots = slots_of(alloc, asked.pairs())?;
        Ok(Sums {
            taken: 0,
            counts,
            slots,
        })
    }

    /// The sums of the list with one more event, which is taken for the stage. The plan's types tell where a field stands in the event.
    pub fn after(&self, plan: &Plan, stage: u16, event: &Event) -> Result<Sums, NoMemory>
        requires { self.now.taken < 2 ^ 32 - 1 }
        ensures same { IfOk result (λ sums. sums ≡ summed_after plan.now.types stage event.now self.now) }
        ensures asked { IfOk result (λ sums. wanted_in sums ≡ wanted_in self.now) }
        ensures stands { (list : List Taken) (position : ℕ) → StandsFor self.now plan.now.types list
            → IfOk result (λ sums. StandsFor sums plan.now.types (list ++ record { stage = stage; position = position; event = event.now } ∷ [])) }
        ensures free { self.now.slots ≡ [] → length self.now.counts ≤ 4 → IsOk result }
    {
        let alloc = *self.slots.allocator();
        let counts = counts_after(self.counts.as_slice(), stage, alloc)?;
        let slots = slots_after(
            self.slots.as_slice(),
            plan.types.as_slice(),
            stage,
            event,
            alloc,
        )?;
        Ok(Sums {
            taken: self.taken + 1,
            counts,
            slots,
        })
    }

    /// The same sums, for another list that begins with the same events. Texts are shared.
    pub fn copy(&self) -> Result<Sums, NoMemory>
        ensures same { IfOk result (λ sums. sums ≡ self.now) }
        ensures free { self.now.slots ≡ [] → length self.now.counts ≤ 4 → IsOk result }
    {
        let alloc = *self.slots.allocator();
        let counts = SmallVec::from_slice(alloc, self.counts.as_slice())?;
        let slots = slots_copied(self.slots.as_slice(), alloc)?;
        Ok(Sums {
            taken: self.taken,
            counts,
            slots,
        })
    }

    /// How many events were taken.
    pub fn taken(&self) -> u32
        ensures { result ≡ self.now.taken }
    {
        self.taken
    }

    /// Whether it counts the stage's events.
    pub fn can_count(&self, stage: u16) -> bool
        ensures { result ≡ list_any (is_count_of stage) self.now.counts }
    {
        has_count(self.counts(), stage)
    }

    /// Whether it keeps the aggregates of the stage's events in the field.
    pub fn can_sum(&self, stage: u16, field: u16) -> bool
        ensures { result ≡ list_any (is_slot_of stage field) self.now.slots }
    {
        has_slot(self.slots(), stage, field)
    }

    fn counts(&self) -> &[Count]
        ensures { result.now ≡ self.now.counts }
    {
        self.counts.as_slice()
    }

    fn slots(&self) -> &[Slot]
        ensures { map shown result.now ≡ self.now.slots }
    {
        self.slots.as_slice()
    }
}

impl Matched for Sums {
    ghost can_answer = { CanAnswer };

    ghost stands_for = { StandsFor };

    fn count(&self, stage: u16) -> u32 {
        count_for(self.counts(), stage)
    }

    fn sum(&self, stage: u16, field: u16) -> Val<'_> {
        in_word(slot_for(self.slots(), stage, field).sum)
    }

    fn min(&self, stage: u16, field: u16) -> Val<'_> {
        number_if_known(slot_for(self.slots(), stage, field).least)
    }

    fn max(&self, stage: u16, field: u16) -> Val<'_> {
        number_if_known(slot_for(self.slots(), stage, field).greatest)
    }

    fn first(&self, stage: u16, field: u16) -> Val<'_> {
        slot_for(self.slots(), stage, field).first.val()
    }

    fn last(&self, stage: u16, field: u16) -> Val<'_> {
        slot_for(self.slots(), stage, field).last.val()
    }
}
