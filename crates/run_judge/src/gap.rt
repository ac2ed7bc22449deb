//! What an event does to a run: whether it may be taken, and whether the run goes on waiting without it.
ghost use Rattle.std.specs.Prelude.{◌≡◌, ◌&&◌, List};
ghost use Rattle.cep_plan.specs.declared.item.Taken.{Taken};
ghost use Rattle.cep_plan.specs.Candidate.{is_candidate, keeps_next};
ghost use Rattle.cep_plan.specs.Gap.{contiguity_allows};
ghost use Rattle.live_laws.specs.Survival.{survives, takes};
ghost use Rattle.cond_sums.specs.Questions.{IsWantedBy};
ghost use Rattle.cond_sums.specs.Kept.{wanted_in, StandsFor};
ghost use Rattle.run_judge.specs.Fate.{IsKeptOf, spares_where, is_next_to, survives_where, breaks_no_next, is_within, is_timely, is_near};

use crate::candidate::{ends, is_forbidden, is_forbidden_next, is_wanted};
use cep_event::Event;
use cep_plan::{Contiguity, Plan};
use cond_sums::Sums;
use nfa_compile::contiguity_between;

/// The last entry of a list: the stage that its event was taken for, and the event's position and time.
#[derive(Clone, Copy, Debug)]
pub struct Last {
    pub stage: u16,
    pub position: u32,
    pub ts: i64,
}

/// Whether contiguity allows an event in a gap, by whether it is a candidate.
pub fn may_pass(contiguity: Contiguity, candidate: bool) -> bool
    ensures { result ≡ contiguity_allows contiguity candidate }
{
    match contiguity {
        Contiguity::Strict => false,
        Contiguity::Relaxed => !candidate,
        Contiguity::Any => true,
    }
}

/// Whether the event keeps what `notNext` asks between the two stages, by whether it directly follows the last taken event.
pub fn is_next_kept(
    plan: &Plan,
    sums: &Sums,
    before: u16,
    stage: u16,
    directly: bool,
    event: &Event,
) -> bool
    requires { IsWantedBy plan.now (wanted_in sums.now) }
    ensures { (list : List Taken) → StandsFor sums.now plan.now.types list → result ≡ keeps_next plan.now list before stage directly event.now }
{
    !(directly && is_forbidden_next(plan, sums, before, stage, event))
}

/// Whether the position is the next one after that of the last entry.
pub fn is_direct(position: u32, last: Last) -> bool
    ensures { result ≡ is_next_to position last }
{
    last.position as u64 + 1 == position as u64
}

/// Whether the event may stand in the gap behind the taken events, by whether it is a candidate.
pub fn is_spared(
    plan: &Plan,
    sums: &Sums,
    before: u16,
    stage: u16,
    directly: bool,
    event: &Event,
    candidate: bool,
) -> bool
    requires { IsWantedBy plan.now (wanted_in sums.now) }
    ensures { (list : List Taken) → StandsFor sums.now plan.now.types list → result ≡ spares_where plan.now list before stage directly event.now candidate }
{
    may_pass(contiguity_between(plan, before, stage), candidate)
        && if before == stage {
            !ends(plan, sums, stage, event)
        } else {
            is_next_kept(plan, sums, before, stage, directly, event)
                && !is_forbidden(plan, sums, before, stage, event)
        }
}

/// Whether the taken events go on waiting for the stage where the event isn't taken.
pub fn lives_on(
    plan: &Plan,
    sums: &Sums,
    last: Option<Last>,
    stage: u16,
    event: &Event,
    position: u32,
    candidate: bool,
) -> bool
    requires { IsWantedBy plan.now (wanted_in sums.now) }
    ensures { (list : List Taken) → StandsFor sums.now plan.now.types list → result ≡ survives_where plan.now list last stage event.now position candidate }
{
    match last {
        None => true,
        Some(last) => {
            let directly = is_direct(position, last);
            is_spared(plan, sums, last.stage, stage, directly, event, candidate)
        }
    }
}

/// Whether no `notNext` forbids the event.
pub fn is_unbroken(
    plan: &Plan,
    sums: &Sums,
    last: Option<Last>,
    stage: u16,
    event: &Event,
    position: u32,
) -> bool
    requires { IsWantedBy plan.now (wanted_in sums.now) }
    ensures { (list : List Taken) → StandsFor sums.now plan.now.types list → result ≡ breaks_no_next plan.now list last stage event.now position }
{
    match last {
        None => true,
        Some(last) => {
            let directly = is_direct(position, last);
            is_next_kept(plan, sums, last.stage, stage, directly, event)
        }
    }
}

/// Whether the event is below the limit that begins at this time and is this long, if there is one.
fn is_below(limit: Option<u64>, from: i64, event: &Event) -> bool
    ensures { result ≡ is_within limit from event.now }
{
    match limit {
        None => true,
        Some(limit) => !(from as i128 + limit as i128 <= event.ts as i128),
    }
}

/// Whether the event is below the limit between neighbours that the last entry sets, if there is one.
fn is_near(plan: &Plan, last: Option<Last>, event: &Event) -> bool
    ensures { result ≡ is_near plan.now last event.now }
{
    match last {
        None => true,
        Some(last) => is_below(plan.within_gap, last.ts, event),
    }
}

/// Whether the event may be taken for the stage, by whether it is a candidate.
pub fn is_taken(
    plan: &Plan,
    sums: &Sums,
    last: Option<Last>,
    start_ts: i64,
    stage: u16,
    event: &Event,
    position: u32,
    candidate: bool,
) -> bool
    requires { IsWantedBy plan.now (wanted_in sums.now) }
    ensures { (list : List Taken) → StandsFor sums.now plan.now.types list
        → result ≡ (candidate && breaks_no_next plan.now list last stage event.now position
        && is_timely plan.now start_ts event.now && is_near plan.now last event.now) }
{
    candidate
        && is_unbroken(plan, sums, last, stage, event, position)
        && is_below(plan.within, start_ts, event)
        && is_near(plan, last, event)
}

/// What an event does to a list that waits for a stage.
#[derive(Clone, Copy, Debug)]
pub struct Fate {
    /// The event may be taken.
    pub taken: bool,
    /// The list goes on waiting without it.
    pub lives: bool,
}

/// What the event does to a list that waits for the stage, by what is kept of the list and by whether the event is a candidate.
pub fn judged_where(
    plan: &Plan,
    sums: &Sums,
    last: Option<Last>,
    start_ts: i64,
    stage: u16,
    event: &Event,
    position: u32,
    candidate: bool,
) -> Fate
    requires { IsWantedBy plan.now (wanted_in sums.now) }
    ensures taken { (list : List Taken) → IsKeptOf plan.now event.now list sums.now last start_ts
        → candidate ≡ is_candidate plan.now list stage event.now → result.taken ≡ takes plan.now list stage event.now position }
    ensures lives { (list : List Taken) → IsKeptOf plan.now event.now list sums.now last start_ts
        → candidate ≡ is_candidate plan.now list stage event.now → result.lives ≡ survives plan.now list stage event.now position }
{
    let taken = is_taken(
        plan, sums, last, start_ts, stage, event, position, candidate,
    );
    let lives = lives_on(plan, sums, last, stage, event, position, candidate);
    Fate { taken, lives }
}

/// What the event does to a list that waits for the stage, by what is kept of the list. Whether the event is a candidate is asked once.
pub fn judged_list(
    plan: &Plan,
    sums: &Sums,
    last: Option<Last>,
    start_ts: i64,
    stage: u16,
    event: &Event,
    position: u32,
) -> Fate
    requires { IsWantedBy plan.now (wanted_in sums.now) }
    ensures taken { (list : List Taken) → IsKeptOf plan.now event.now list sums.now last start_ts
        → result.taken ≡ takes plan.now list stage event.now position }
    ensures lives { (list : List Taken) → IsKeptOf plan.now event.now list sums.now last start_ts
        → result.lives ≡ survives plan.now list stage event.now position }
{
    let candidate = is_wanted(plan, sums, stage, event);
    judged_where(
        plan, sums, last, start_ts, stage, event, position, candidate,
    )
}
