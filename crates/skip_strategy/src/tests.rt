use crate::cut;
use cep_event::{Event, NoMemory, ValueList};
use cep_plan::{Skip, Taken, TakenList};
use std::alloc::Global;
use std::test::Fail;

// The event at the position, for the stage.
fn taken(alloc: Global, stage: u16, position: u32) -> Taken {
    Taken {
        stage,
        position,
        event: Event {
            row: position,
            ts: 0,
            type_no: 0,
            values: ValueList::new(alloc),
        },
    }
}

fn found(alloc: Global, entries: &[(u16, u32)]) -> Result<TakenList, NoMemory> {
    let mut list = TakenList::new(alloc);
    for entry in entries {
        list.push(taken(alloc, entry.0, entry.1))?;
    }
    Ok(list)
}

/// What a match of position 4 for stage 0 and positions 5 and 7 for stage 1 kills.
#[test]
fn ranges(rt: HostRuntime) -> Result<(), Fail> {
    let list = found(rt.alloc(), &[(0, 4), (1, 5), (1, 7)])?;
    let rows: [(Skip, Option<(u32, u32)>); 7] = [
        (Skip::No, None),
        (Skip::ToNext, Some((4, 5))),
        (Skip::PastLast, Some((4, 8))),
        (Skip::ToFirst(0), None),
        (Skip::ToFirst(1), Some((4, 5))),
        (Skip::ToLast(1), Some((4, 7))),
        (Skip::ToLast(2), None),
    ];
    for (skip, range) in rows {
        assert!(rt; cut(skip, &list) == range);
    }
    Ok(())
}
