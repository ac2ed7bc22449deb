//! Runs that wait for one stage.
ghost use Rattle.std.specs.Prelude.{IsTrue, ◌-◌, slice_index_or, ◌≡◌, ◌==◌, false, ◌≤◌, ◌<◌, [], ◌∷◌, ◌++◌, IfOk, if◌then◌else◌, List, length, take, drop, map, filter, not};
ghost use Rattle.std.specs.List.{list_any, AllByRecursion as Each};
ghost use Rattle.std.specs.List.Sorted.{IsPermutation};
ghost use Rattle.run_step.specs.declared.runs.Run.{Run as RunRow};
ghost use Rattle.cep_event.specs.declared.event.Event.{Event as EventRow};
ghost use Rattle.run_step.specs.Content.{IsOrdered, staged, is_in_due};
ghost use Rattle.run_step.specs.Runs.{Waiter, AreRunsOf};
ghost use Rattle.cep_plan.specs.declared.plan.Plan.{Plan as PlanRow};
ghost use Rattle.live_laws.specs.Starts.{is_from};
ghost use Rattle.list_buffer.specs.Held.{Holder, Holds};
ghost use Rattle.list_buffer.specs.Listed.{HoldsLists};
ghost use Rattle.run_step.specs.Putting.{CanEndAll, CanEndAllSome};
ghost use Rattle.run_step.specs.Pins.{KeepsPins};
ghost use Rattle.run_step.specs.Showing.{shown_in};
ghost use Rattle.run_step.specs.Noting.{CanPassGroup, CanPassGroupSome, GroupPassed, TailPassed};

use crate::passed::{judged, note_take};
use crate::passing::Passing;
use crate::put::end_run;
use crate::runs::{Run, TipList};
use crate::shown::add_shown;
use cep_event::{Event, NoMemory};
use cep_plan::{Due, Plan};
use nfa_compile::Nfa;
use run_judge::{StageAt, stage_at};
use shared_buffer::Buffer;
use std::alloc::Global;
use std::collections::VecDeque;
use std::marker::Model;

pub type RunQueue = VecDeque<Run>;

/// The runs that wait for one stage, in order of their starts.
#[derive(Drop)]
pub struct Group {
    stage: u16,
    runs: RunQueue,
}

impl Model for Group {
    ghost use Rattle.run_step.specs.Content.{Grouped, IsOrdered};

    ghost Value = { Grouped };

    ghost view = { λ g. record { stage = g.stage; runs = g.runs.items } };

    ghost invariant = { λ g. IsOrdered g.runs.items };
}

/// How many runs at the front go on waiting. Their takes are noted.
pub fn pass_front(
    runs: &mut RunQueue,
    at: &StageAt<'_>,
    nfa: &Nfa,
    plan: &Plan,
    event: &Event,
    position: u32,
    passing: &mut Passing,
) -> Result<usize, NoMemory>
    requires plan { at.now.plan ≡ plan.now }
    requires event { at.now.event ≡ event.now }
    requires can { CanPassGroupSome plan.now position at.now.stage nfa.now runs.old.items }
    ensures within { IfOk result (λ kept. (kept ≤ length runs.new.items) × (length runs.new.items ≡ length runs.old.items)) }
    ensures rest { IfOk result (λ kept. drop kept runs.new.items ≡ drop kept runs.old.items) }
    ensures order { IsOrdered runs.old.items → IsOrdered runs.new.items }
    ensures front { (events : List EventRow) (waiters : List Waiter) → CanPassGroup plan.now events position at.now.stage waiters nfa.now runs.old.items
        → IfOk result (λ kept. GroupPassed plan.now events event.now at.now.stage (take kept waiters) (take kept runs.new.items) passing.old passing.new) }
{
    let number = runs.len();
    for place in 0..number {
        let run = &mut runs[place];
        let fate = judged(at, run, position);
        if !fate.lives {
            return Ok(place);
        }
        note_take(run, fate.taken, nfa, plan, event, position, passing)?;
    }
    Ok(number)
}

/// Adds the run where it goes on waiting. Else it ends.
pub fn keep_or_end(
    runs: &mut RunQueue,
    run: Run,
    lives: bool,
    ended: &mut Vec<Run>,
) -> Result<(), NoMemory>
    ensures kept { IfOk result (λ done. runs.new.items ≡ runs.old.items ++ (if lives then run ∷ [] else [])) }
    ensures ended { IfOk result (λ done. ended.new.items ≡ ended.old.items ++ (if lives then [] else run ∷ [])) }
    ensures order { (rest : List RunRow) → IsOrdered (runs.old.items ++ run ∷ rest) → IsOrdered (runs.new.items ++ rest) }
{
    if lives {
        runs.push_back(run)?;
        return Ok(());
    }
    ended.push(run)?;
    Ok(())
}

/// Adds those of the runs that go on waiting. The others end.
pub fn pass_tail(
    runs: &mut RunQueue,
    tail: RunQueue,
    at: &StageAt<'_>,
    nfa: &Nfa,
    plan: &Plan,
    event: &Event,
    position: u32,
    passing: &mut Passing,
) -> Result<(), NoMemory>
    requires plan { at.now.plan ≡ plan.now }
    requires event { at.now.event ≡ event.now }
    requires can { CanPassGroupSome plan.now position at.now.stage nfa.now tail.items }
    ensures order { IsOrdered (runs.old.items ++ tail.items) → IsOrdered runs.new.items }
    ensures passed { (events : List EventRow) (waiters : List Waiter) (front : List Waiter)
        → CanPassGroup plan.now events position at.now.stage waiters nfa.now tail.items
        → AreRunsOf plan.now (events ++ event.now ∷ []) front (map (staged at.now.stage) runs.old.items)
        → IfOk result (λ done. TailPassed plan.now events event.now at.now.stage front waiters runs.new.items passing.old passing.new) }
{
    for run in tail {
        let mut run = run;
        let fate = judged(at, &run, position);
        note_take(&mut run, fate.taken, nfa, plan, event, position, passing)?;
        keep_or_end(runs, run, fate.lives, &mut passing.ended)?;
    }
    Ok(())
}

impl Group {
    pub fn new(alloc: Global, stage: u16) -> Group
        ensures { result ≡ record { stage = stage; runs = [] } }
    {
        Group {
            stage,
            runs: RunQueue::new(alloc),
        }
    }

    pub fn stage(&self) -> u16
        ensures { result ≡ self.now.stage }
    {
        self.stage
    }

    /// Takes the event into the runs. What the event alone tells of the stage is found once. A group of which the event changes nothing isn't looked at, and
    /// the runs at the front that go on waiting aren't moved.
    pub fn pass(
        &mut self,
        nfa: &Nfa,
        plan: &Plan,
        event: &Event,
        position: u32,
        passing: &mut Passing,
    ) -> Result<(), NoMemory>
        requires { CanPassGroupSome plan.now position self.old.stage nfa.now self.old.runs }
        ensures stage { IfOk result (λ done. self.new.stage ≡ self.old.stage) }
        ensures passed { (events : List EventRow) (waiters : List Waiter)
            → CanPassGroup plan.now events position self.old.stage waiters nfa.now self.old.runs
            → IfOk result (λ done. GroupPassed plan.now events event.now self.old.stage waiters self.new.runs passing.old passing.new) }
    {
        if self.runs.is_empty() {
            return Ok(());
        }
        let at = stage_at(plan, self.stage, event);
        if at.is_untouched() {
            return Ok(());
        }
        let kept = pass_front(&mut self.runs, &at, nfa, plan, event, position, passing)?;
        if kept < self.runs.len() {
            let tail = self.runs.split_off(kept)?;
            pass_tail(
                &mut self.runs,
                tail,
                &at,
                nfa,
                plan,
                event,
                position,
                passing,
            )?;
        }
        Ok(())
    }

    /// The group with the other runs, which wait for its stage.
    pub fn with(self, others: RunQueue) -> Result<Group, NoMemory>
        ensures stage { IfOk result (λ made. made.stage ≡ self.stage) }
        ensures runs { IfOk result (λ made. IsPermutation (self.runs ++ others.items) made.runs) }
    {
        let Group { stage, runs } = self;
        let runs = joined(runs, others)?;
        Ok(Group { stage, runs })
    }

    /// Adds the tips of the runs of the due whose lists aren't full, one for each run.
    pub fn add_shown(&self, nfa: &Nfa, due: Due, tips: &mut TipList) -> Result<(), NoMemory>
        ensures { IfOk result (λ done. tips.new ≡ tips.old ++ shown_in nfa.now due self.now) }
    {
        let (first, end) = range_of(&self.runs, due);
        for place in first..end {
            add_shown(tips, &self.runs[place], nfa, due)?;
        }
        Ok(())
    }

    /// Lets the runs go that start from one position up to another, without the latter, and their holds. It takes no memory.
    pub fn kill(&mut self, buffer: &mut Buffer, from: u32, to: u32)
        requires { CanEndAllSome (filter (λ run. is_from from to run.start) self.old.runs) buffer.old }
        ensures runs { self.new ≡ record self.old { runs = filter (λ run. not (is_from from to run.start)) self.old.runs } }
        ensures held { (plan : PlanRow) (events : List EventRow) (holders : List Holder) (held : Holds)
            → CanEndAll plan events holders held (filter (λ run. is_from from to run.start) self.old.runs) buffer.old
            → HoldsLists plan events held buffer.new }
        ensures pins { KeepsPins buffer.old buffer.new }
    {
        if from < to {
            let first = place_of(&self.runs, from);
            let end = place_of(&self.runs, to);
            end_between(&self.runs, buffer, first, end);
            drop_between(&mut self.runs, first, end);
        }
    }

    /// Lets the runs of the due go, and their holds. It takes no memory.
    pub fn expire(&mut self, buffer: &mut Buffer, due: Due)
        requires { CanEndAllSome (filter (is_in_due due) self.old.runs) buffer.old }
        ensures runs { self.new ≡ record self.old { runs = filter (λ run. not (is_in_due due run)) self.old.runs } }
        ensures held { (plan : PlanRow) (events : List EventRow) (holders : List Holder) (held : Holds)
            → CanEndAll plan events holders held (filter (is_in_due due) self.old.runs) buffer.old
            → HoldsLists plan events held buffer.new }
        ensures pins { KeepsPins buffer.old buffer.new }
    {
        match due {
            Due::Start(start) => expire_start(&mut self.runs, buffer, start),
            Due::Last(last) => expire_last(&mut self.runs, buffer, last),
        }
    }
}

/// Whether no run starts later than this one does.
pub fn comes_last(runs: &RunQueue, run: &Run) -> bool
    ensures { IsTrue result → (d : RunRow) → 0 < length runs.now.items → (slice_index_or runs.now.items (length runs.now.items - 1) d).start ≤ run.now.start }
{
    match runs.back() {
        None => true,
        Some(last) => last.start <= run.start,
    }
}

/// Adds the run, and answers whether they are in order of their starts, as far as they were.
pub fn push_run(runs: &mut RunQueue, run: Run, are_ordered: bool) -> Result<bool, NoMemory>
    ensures runs { IfOk result (λ ordered. runs.new.items ≡ runs.old.items ++ run ∷ []) }
    ensures ordered { (IsTrue are_ordered → IsOrdered runs.old.items) → IfOk result (λ ordered. IsTrue ordered → IsOrdered runs.new.items) }
{
    let is_last = comes_last(runs, &run);
    runs.push_back(run)?;
    if is_last {
        return Ok(are_ordered);
    }
    Ok(false)
}

/// The runs in order of their starts.
pub fn in_start_order(runs: RunQueue, are_ordered: bool) -> Result<RunQueue, NoMemory>
    requires { IsTrue are_ordered → IsOrdered runs.items }
    ensures same { IfOk result (λ made. IsPermutation runs.items made.items) }
    ensures ordered { IfOk result (λ made. IsOrdered made.items) }
{
    if are_ordered {
        return Ok(runs);
    }
    // Both parts of the runs are in order, so this is a merge.
    let mut all = runs.into_vec();
    all.sort_by_key(|run| run.start)?;
    Ok(RunQueue::from_vec(all))
}

/// The runs with the others among them, in order of their starts.
pub fn joined(runs: RunQueue, others: RunQueue) -> Result<RunQueue, NoMemory>
    requires { IsOrdered runs.items }
    ensures same { IfOk result (λ made. IsPermutation (runs.items ++ others.items) made.items) }
    ensures ordered { IfOk result (λ made. IsOrdered made.items) }
{
    let mut all = runs;
    let mut are_ordered = true;
    for run in others {
        are_ordered = push_run(&mut all, run, are_ordered)?;
    }
    in_start_order(all, are_ordered)
}

/// How many of the runs start before the position.
pub fn place_of(runs: &RunQueue, start: u32) -> usize
    requires { IsOrdered runs.now.items }
    ensures bound { result ≤ length runs.now.items }
    ensures before { Each (λ run. run.start < start) (take result runs.now.items) }
    ensures behind { Each (λ run. start ≤ run.start) (drop result runs.now.items) }
{
    runs.partition_point(|run| run.start < start)
}

/// How many of the runs start at the position or before it.
pub fn place_behind(runs: &RunQueue, start: u32) -> usize
    requires { IsOrdered runs.now.items }
    ensures bound { result ≤ length runs.now.items }
    ensures before { Each (λ run. run.start ≤ start) (take result runs.now.items) }
    ensures behind { Each (λ run. start < run.start) (drop result runs.now.items) }
{
    runs.partition_point(|run| run.start <= start)
}

/// Between which places the runs of the due stand. Those of a start stand together.
pub fn range_of(runs: &RunQueue, due: Due) -> (usize, usize)
    requires { IsOrdered runs.now.items }
    ensures order { result.0 ≤ result.1 }
    ensures bound { result.1 ≤ length runs.now.items }
    ensures before { Each (λ run. is_in_due due run ≡ false) (take result.0 runs.now.items) }
    ensures behind { Each (λ run. is_in_due due run ≡ false) (drop result.1 runs.now.items) }
{
    match due {
        Due::Start(start) => (place_of(runs, start), place_behind(runs, start)),
        Due::Last(_) => (0, runs.len()),
    }
}

/// Takes the holds of the runs between the two places.
pub fn end_between(runs: &RunQueue, buffer: &mut Buffer, first: usize, end: usize)
    requires bound { end ≤ length runs.now.items }
    requires can { CanEndAllSome (take (end - first) (drop first runs.now.items)) buffer.old }
    ensures held { (plan : PlanRow) (events : List EventRow) (holders : List Holder) (held : Holds)
        → CanEndAll plan events holders held (take (end - first) (drop first runs.now.items)) buffer.old → HoldsLists plan events held buffer.new }
    ensures pins { KeepsPins buffer.old buffer.new }
{
    for place in first..end {
        end_run(&runs[place], buffer);
    }
}

/// Lets the runs between the two places go.
pub fn drop_between(runs: &mut RunQueue, first: usize, end: usize)
    requires order { first ≤ end }
    requires bound { end ≤ length runs.old.items }
    ensures { runs.new.items ≡ take first runs.old.items ++ drop end runs.old.items }
{
    // To take out none would still turn the queue.
    if first < end {
        runs.drain(first..end);
    }
}

/// Lets the runs with this start go, and their holds.
pub fn expire_start(runs: &mut RunQueue, buffer: &mut Buffer, start: u32)
    requires order { IsOrdered runs.old.items }
    requires can { CanEndAllSome (filter (λ run. run.start == start) runs.old.items) buffer.old }
    ensures runs { runs.new.items ≡ filter (λ run. not (run.start == start)) runs.old.items }
    ensures held { (plan : PlanRow) (events : List EventRow) (holders : List Holder) (held : Holds)
        → CanEndAll plan events holders held (filter (λ run. run.start == start) runs.old.items) buffer.old → HoldsLists plan events held buffer.new }
    ensures pins { KeepsPins buffer.old buffer.new }
{
    let first = place_of(runs, start);
    let end = place_behind(runs, start);
    end_between(runs, buffer, first, end);
    drop_between(runs, first, end);
}

/// Takes the hold of the run, where its last event stands at the position.
pub fn end_at(run: &Run, buffer: &mut Buffer, last: u32)
    requires { CanEndAllSome (if run.now.last.position == last then run.now ∷ [] else []) buffer.old }
    ensures held { (plan : PlanRow) (events : List EventRow) (holders : List Holder) (held : Holds)
        → CanEndAll plan events holders held (if run.now.last.position == last then run.now ∷ [] else []) buffer.old → HoldsLists plan events held buffer.new }
    ensures pins { KeepsPins buffer.old buffer.new }
{
    if run.last.position == last {
        end_run(run, buffer);
    }
}

/// Takes the holds of the runs whose last event stands at the position.
pub fn end_last(runs: &RunQueue, buffer: &mut Buffer, last: u32)
    requires { CanEndAllSome (filter (λ run. run.last.position == last) runs.now.items) buffer.old }
    ensures held { (plan : PlanRow) (events : List EventRow) (holders : List Holder) (held : Holds)
        → CanEndAll plan events holders held (filter (λ run. run.last.position == last) runs.now.items) buffer.old → HoldsLists plan events held buffer.new }
    ensures pins { KeepsPins buffer.old buffer.new }
{
    for place in 0..runs.len() {
        end_at(&runs[place], buffer, last);
    }
}

/// Whether the last event of some run stands at the position.
pub fn some_at(runs: &RunQueue, last: u32) -> bool
    ensures { result ≡ list_any (λ run. run.last.position == last) runs.now.items }
{
    runs.iter().any(|run| run.last.position == last)
}

/// Lets the runs go whose last event stands at the position, and their holds.
pub fn expire_last(runs: &mut RunQueue, buffer: &mut Buffer, last: u32)
    requires { CanEndAllSome (filter (λ run. run.last.position == last) runs.old.items) buffer.old }
    ensures runs { runs.new.items ≡ filter (λ run. not (run.last.position == last)) runs.old.items }
    ensures held { (plan : PlanRow) (events : List EventRow) (holders : List Holder) (held : Holds)
        → CanEndAll plan events holders held (filter (λ run. run.last.position == last) runs.old.items) buffer.old → HoldsLists plan events held buffer.new }
    ensures pins { KeepsPins buffer.old buffer.new }
{
    if !some_at(runs, last) {
        // To keep all would still move each run.
        return;
    }
    end_last(runs, buffer, last);
    runs.retain(|run| run.last.position != last);
}
