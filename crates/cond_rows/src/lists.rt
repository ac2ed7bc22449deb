ghost use Rattle.std.specs.Prelude.{◌≡◌, List, []};
ghost use Rattle.cep_event.specs.declared.event.EventType.{EventType};
ghost use Rattle.cep_plan.specs.declared.item.Taken.{Taken};
ghost use Rattle.cep_plan.specs.Question.{Question};

use cep_event::{Event, NoMemory, ValueList};
use cep_plan::{Matched, Taken, TakenList, Val, before};
use std::alloc::Global;
use std::test::Fail;

fn list_of(alloc: Global, entries: &[(u32, u16)]) -> Result<TakenList, NoMemory> {
    let mut list = TakenList::new(alloc);
    for (position, stage) in entries {
        let event = Event {
            row: 1,
            ts: 0,
            type_no: 0,
            values: ValueList::new(alloc),
        };
        list.push(Taken {
            stage: *stage,
            position: *position,
            event,
        })?;
    }
    Ok(list)
}

#[test]
fn lists_are_in_order_by_position_then_stage(rt: HostRuntime) -> Result<(), Fail> {
    let empty: &[(u32, u16)] = &[];
    let rows: [(&[(u32, u16)], &[(u32, u16)], bool); 8] = [
        (empty, empty, false),
        (empty, &[(0, 0)], true),
        (&[(0, 0)], empty, false),
        (&[(0, 0)], &[(0, 0), (1, 1)], true),
        (&[(0, 0), (1, 1)], &[(0, 0)], false),
        (&[(0, 1), (4, 1)], &[(1, 0), (2, 0)], true),
        (&[(3, 0), (4, 1)], &[(3, 0), (4, 2)], true),
        (&[(3, 0), (4, 1)], &[(3, 0), (4, 1)], false),
    ];
    for (list, other, wanted) in rows {
        let list = list_of(rt.alloc(), list)?;
        let other = list_of(rt.alloc(), other)?;
        assert_eq!(rt; before(&list, &other), wanted);
    }
    Ok(())
}

#[derive(Drop)]
struct NothingTaken;

impl Matched for NothingTaken {
    ghost can_answer = { λ _ q. Unit {0} };

    ghost stands_for = { λ _ types list. list ≡ [] };

    fn count(&self, _stage: u16) -> u32 {
        0
    }

    fn sum(&self, _stage: u16, _field: u16) -> Val<'_> {
        Val::Int(0)
    }

    fn min(&self, _stage: u16, _field: u16) -> Val<'_> {
        Val::Missing
    }

    fn max(&self, _stage: u16, _field: u16) -> Val<'_> {
        Val::Missing
    }

    fn first(&self, _stage: u16, _field: u16) -> Val<'_> {
        Val::Missing
    }

    fn last(&self, _stage: u16, _field: u16) -> Val<'_> {
        Val::Missing
    }
}

#[test]
fn nothing_taken_answers_every_question(rt: HostRuntime) {
    let taken = NothingTaken;
    assert_eq!(rt; taken.count(0), 0);
    assert!(rt; matches!(taken.sum(0, 0), Val::Int(0)));
    assert!(rt; matches!(taken.min(0, 0), Val::Missing));
    assert!(rt; matches!(taken.max(0, 0), Val::Missing));
    assert!(rt; matches!(taken.first(0, 0), Val::Missing));
    assert!(rt; matches!(taken.last(0, 0), Val::Missing));
}
