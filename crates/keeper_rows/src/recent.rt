ghost use Rattle.std.specs.Prelude.{◌≡◌, [], ◌∷◌, None, option_copied};
ghost use Rattle.cep_keeper.specs.Standing.{start_listed};

use crate::rows::{plan_of, rows_of, same_rows};
use cep_event::{CallList, Event, NoMemory, Text, Value, ValueList};
use cep_keeper::*;
use cep_plan::Plan;
use std::alloc::Global;
use std::test::Fail;

// One start, without a key.
struct Start {
    at: u32,
}

impl Oldest for Start {
    ghost starts = { λ s. (None, s.at) ∷ [] };

    fn oldest(&self, key: Option<&Value>) -> Option<u32>
        ensures { result ≡ start_listed ((None, self.now.at) ∷ []) (option_copied key.entry) }
    {
        match key {
            Some(_) => None,
            None => Some(self.at),
        }
    }
}

fn event_at(alloc: Global, row: u32, type_no: u16, ts: i64) -> Event {
    Event {
        row,
        ts,
        type_no,
        values: ValueList::new(alloc),
    }
}

#[test]
fn ticks_are_noted_from_the_oldest_start_on(rt: HostRuntime) -> Result<(), Fail> {
    let plan = plan_of(rt.alloc(), false)?;
    let mut recent = Recent::new(rt.alloc());
    for position in 0..3u32 {
        let event = event_at(rt.alloc(), position + 1, 0, 1);
        recent.note(&plan, Tick::Event { event, position }, &Start { at: 0 })?;
        recent.note(&plan, Tick::Mark(1), &Start { at: 0 })?;
    }
    assert!(rt; recent.ticks().len() == 6);
    recent.note(&plan, Tick::Mark(2), &Start { at: 2 })?;
    assert!(rt; recent.ticks().len() == 3);
    recent.note(&plan, Tick::Mark(3), &Start { at: 3 })?;
    assert!(rt; recent.ticks().is_empty());
    Ok(())
}

// The contents after the lines `A,1`, `@,1` and `B,2`, where seven events of A were dropped before.
fn after_three_lines(alloc: Global, plan: &Plan) -> Result<Saved, NoMemory> {
    let mut recent = Recent::new(alloc);
    let event = event_at(alloc, 1, 0, 1);
    recent.note(plan, Tick::Event { event, position: 7 }, &Start { at: 7 })?;
    recent.note(plan, Tick::Mark(1), &Start { at: 7 })?;
    let mut pending = EventList::new(alloc);
    pending.push(event_at(alloc, 3, 1, 2))?;
    Ok(Saved {
        lines: 3,
        mark: Some(1),
        greatest: Some(2),
        keys: ValueList::new(alloc),
        recent,
        pending,
    })
}

const THREE: &str = "1 plan 3 1 2/3 0 1 1 0/3 1 1/4 2 3 1";

#[test]
fn three_lines_are_saved_and_restored(rt: HostRuntime) -> Result<(), Fail> {
    let plan = plan_of(rt.alloc(), false)?;
    let text = Text::from_str(rt.alloc(), "plan")?;
    let saved = after_three_lines(rt.alloc(), &plan)?;
    let rows = save_rows(rt.alloc(), &saved, &text)?;
    assert!(rt; same_rows(&rows, &rows_of(rt.alloc(), THREE)?));
    let Ok(again) = restore(rt.alloc(), &plan, &text, &rows) else {
        assert!(rt; false);
        return Ok(());
    };
    assert!(rt; again.lines == 3 && again.mark == Some(1) && again.greatest == Some(2));
    assert!(rt; again.recent.ticks().len() == 2 && again.pending.len() == 1);
    let Some(Tick::Event { position, .. }) = again.recent.ticks().get(0) else {
        assert!(rt; false);
        return Ok(());
    };
    assert!(rt; *position == 0);
    Ok(())
}

#[test]
fn rows_in_memory_are_kept_by_name(rt: HostRuntime) -> Result<(), Fail> {
    let fails = CallList::from_slice(rt.alloc(), &[2])?;
    let mut keeper = MemoryKeeper::new(rt.alloc(), fails);
    let text = Text::from_str(rt.alloc(), "plan")?;
    let plan = plan_of(rt.alloc(), false)?;
    let saved = after_three_lines(rt.alloc(), &plan)?;
    let rows = save_rows(rt.alloc(), &saved, &text)?;
    assert!(rt; keeper.save("s", &rows).is_ok());
    assert!(rt; keeper.save("t", &rows).is_err());
    let Ok(loaded) = keeper.load("s") else {
        assert!(rt; false);
        return Ok(());
    };
    assert!(rt; same_rows(&loaded, &rows));
    let Ok(loaded) = keeper.load("t") else {
        assert!(rt; false);
        return Ok(());
    };
    assert!(rt; loaded.is_empty());
    Ok(())
}
