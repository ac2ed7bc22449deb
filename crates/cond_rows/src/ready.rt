//! Conditions made ready for an event, with what the event alone tells of them.
use crate::conditions::{Case, Row, TRADE, event, is_right, pattern};
use cep_event::Event;
use cep_plan::Plan;
use cond_ready::at_event;
use pattern_file::plan_in;
use std::alloc::Global;
use std::process::Abort;
use std::test::Fail;

/// What the event alone tells of a condition: that it holds with no list, with each, or neither.
#[derive(Clone, Copy, PartialEq, Eq)]
enum ByEvent {
    Never,
    Always,
    Open,
}

struct Told {
    case: Case,
    by_event: ByEvent,
}

// What asks nothing of the taken events is known from the event.
const ALONE: [Told; 8] = [
    Told {
        case: Case {
            condition: "",
            taken: &[],
            event: TRADE,
            holds: true,
        },
        by_event: ByEvent::Always,
    },
    Told {
        case: Case {
            condition: ".where(price == 6)",
            taken: &[(1, Row::Trade(5, "IBM"))],
            event: TRADE,
            holds: true,
        },
        by_event: ByEvent::Always,
    },
    Told {
        case: Case {
            condition: ".where(price == 7)",
            taken: &[(1, Row::Trade(5, "IBM"))],
            event: TRADE,
            holds: false,
        },
        by_event: ByEvent::Never,
    },
    Told {
        case: Case {
            condition: ".or(price == 7)",
            taken: &[],
            event: TRADE,
            holds: false,
        },
        by_event: ByEvent::Never,
    },
    Told {
        case: Case {
            condition: ".where(size == 1)",
            taken: &[],
            event: TRADE,
            holds: false,
        },
        by_event: ByEvent::Never,
    },
    Told {
        case: Case {
            condition: ".where(!(symbol == \"SAP\"))",
            taken: &[(1, Row::Trade(5, "IBM"))],
            event: TRADE,
            holds: true,
        },
        by_event: ByEvent::Always,
    },
    Told {
        case: Case {
            condition: ".where(price == 7).or(price + 1 == 7)",
            taken: &[],
            event: TRADE,
            holds: true,
        },
        by_event: ByEvent::Always,
    },
    Told {
        case: Case {
            condition: ".where(price == 6).or(price == 7).where(symbol == \"SAP\")",
            taken: &[],
            event: TRADE,
            holds: false,
        },
        by_event: ByEvent::Never,
    },
];

// A comparison of which the event tells one side asks the other.
const SIDES: [Told; 10] = [
    Told {
        case: Case {
            condition: ".where(price > last(\"b\").price)",
            taken: &[(1, Row::Trade(5, "IBM"))],
            event: TRADE,
            holds: true,
        },
        by_event: ByEvent::Open,
    },
    Told {
        case: Case {
            condition: ".where(price > last(\"b\").price)",
            taken: &[(1, Row::Trade(5, "IBM")), (1, Row::Order(7, "SAP", 9))],
            event: TRADE,
            holds: false,
        },
        by_event: ByEvent::Open,
    },
    Told {
        case: Case {
            condition: ".where(last(\"b\").price < price)",
            taken: &[(1, Row::Trade(5, "IBM"))],
            event: TRADE,
            holds: true,
        },
        by_event: ByEvent::Open,
    },
    Told {
        case: Case {
            condition: ".where(last(\"b\").price < price)",
            taken: &[(1, Row::Trade(5, "IBM")), (1, Row::Order(7, "SAP", 9))],
            event: TRADE,
            holds: false,
        },
        by_event: ByEvent::Open,
    },
    Told {
        case: Case {
            condition: ".where(size == last(\"b\").size)",
            taken: &[(1, Row::Trade(5, "IBM")), (1, Row::Order(7, "SAP", 9))],
            event: TRADE,
            holds: false,
        },
        by_event: ByEvent::Open,
    },
    Told {
        case: Case {
            condition: ".where(last(\"b\").symbol == \"SAP\")",
            taken: &[(1, Row::Trade(5, "IBM")), (1, Row::Order(7, "SAP", 9))],
            event: TRADE,
            holds: true,
        },
        by_event: ByEvent::Open,
    },
    Told {
        case: Case {
            condition: ".where(first(\"b\").symbol != symbol)",
            taken: &[(1, Row::Trade(5, "IBM")), (1, Row::Order(7, "SAP", 9))],
            event: TRADE,
            holds: false,
        },
        by_event: ByEvent::Open,
    },
    Told {
        case: Case {
            condition: ".where(count(\"b\") == 2)",
            taken: &[(1, Row::Trade(5, "IBM")), (1, Row::Order(7, "SAP", 9))],
            event: TRADE,
            holds: true,
        },
        by_event: ByEvent::Open,
    },
    Told {
        case: Case {
            condition: ".where(sum(\"b\".price) - count(\"b\") > price + price)",
            taken: &[(1, Row::Trade(5, "IBM")), (1, Row::Order(7, "SAP", 9))],
            event: TRADE,
            holds: false,
        },
        by_event: ByEvent::Open,
    },
    Told {
        case: Case {
            condition: ".where(min(\"b\".price) + 4 == max(\"b\".price))",
            taken: &[(1, Row::Trade(5, "IBM")), (1, Row::Order(7, "SAP", 9))],
            event: TRADE,
            holds: true,
        },
        by_event: ByEvent::Open,
    },
];

// Where all parts must hold, each is looked at alone.
const TOGETHER: [Told; 8] = [
    Told {
        case: Case {
            condition: ".where(price == 6 && count(\"b\") == 1)",
            taken: &[(1, Row::Trade(5, "IBM"))],
            event: TRADE,
            holds: true,
        },
        by_event: ByEvent::Open,
    },
    Told {
        case: Case {
            condition: ".where(price == 6 && count(\"b\") == 1)",
            taken: &[(1, Row::Trade(5, "IBM")), (1, Row::Order(7, "SAP", 9))],
            event: TRADE,
            holds: false,
        },
        by_event: ByEvent::Open,
    },
    Told {
        case: Case {
            condition: ".where(count(\"b\") == 1 && price == 7)",
            taken: &[(1, Row::Trade(5, "IBM"))],
            event: TRADE,
            holds: false,
        },
        by_event: ByEvent::Never,
    },
    Told {
        case: Case {
            condition: ".where(count(\"b\") == 1).where(price == 7)",
            taken: &[(1, Row::Trade(5, "IBM"))],
            event: TRADE,
            holds: false,
        },
        by_event: ByEvent::Never,
    },
    Told {
        case: Case {
            condition: ".where(count(\"b\") == 2 && price > first(\"b\").price && last(\"b\").symbol == \"SAP\")",
            taken: &[(1, Row::Trade(5, "IBM")), (1, Row::Order(7, "SAP", 9))],
            event: TRADE,
            holds: true,
        },
        by_event: ByEvent::Open,
    },
    Told {
        case: Case {
            condition: ".where(count(\"b\") == 2 && price > first(\"b\").price && last(\"b\").symbol == \"IBM\")",
            taken: &[(1, Row::Trade(5, "IBM")), (1, Row::Order(7, "SAP", 9))],
            event: TRADE,
            holds: false,
        },
        by_event: ByEvent::Open,
    },
    Told {
        case: Case {
            condition: ".where(count(\"b\") == 2).where(price > last(\"b\").price).where(last(\"b\").symbol == \"SAP\")",
            taken: &[(1, Row::Trade(5, "IBM")), (1, Row::Order(7, "SAP", 9))],
            event: TRADE,
            holds: false,
        },
        by_event: ByEvent::Open,
    },
    Told {
        case: Case {
            condition: ".where(count(\"b\") == 1).where(price > first(\"b\").price).where(last(\"b\").symbol == \"SAP\")",
            taken: &[(1, Row::Trade(5, "IBM")), (1, Row::Order(7, "SAP", 9))],
            event: TRADE,
            holds: false,
        },
        by_event: ByEvent::Open,
    },
];

// Where more is left than three things, the whole condition is asked.
const MANY: [Told; 6] = [
    Told {
        case: Case {
            condition: ".where(count(\"b\") == 2 && first(\"b\").price == 5 && last(\"b\").price == 9 && last(\"b\").size == 7)",
            taken: &[(1, Row::Trade(5, "IBM")), (1, Row::Order(7, "SAP", 9))],
            event: TRADE,
            holds: true,
        },
        by_event: ByEvent::Open,
    },
    Told {
        case: Case {
            condition: ".where(count(\"b\") == 2 && first(\"b\").price == 5 && last(\"b\").price == 9 && last(\"b\").size == 8)",
            taken: &[(1, Row::Trade(5, "IBM")), (1, Row::Order(7, "SAP", 9))],
            event: TRADE,
            holds: false,
        },
        by_event: ByEvent::Open,
    },
    Told {
        case: Case {
            condition: ".where(count(\"b\") == 2 && first(\"b\").price == 5 && last(\"b\").price == 9 && last(\"b\").size == 7 && price == 6)",
            taken: &[(1, Row::Trade(5, "IBM")), (1, Row::Order(7, "SAP", 9))],
            event: TRADE,
            holds: true,
        },
        by_event: ByEvent::Open,
    },
    Told {
        case: Case {
            condition: ".where(count(\"b\") == 2 && first(\"b\").price == 5 && last(\"b\").price == 9 && last(\"b\").size == 7 && price == 7)",
            taken: &[(1, Row::Trade(5, "IBM")), (1, Row::Order(7, "SAP", 9))],
            event: TRADE,
            holds: false,
        },
        by_event: ByEvent::Never,
    },
    Told {
        case: Case {
            condition: ".where(price == 7 && count(\"b\") == 2 && first(\"b\").price == 5 && last(\"b\").price == 9 && last(\"b\").size == 7)",
            taken: &[(1, Row::Trade(5, "IBM")), (1, Row::Order(7, "SAP", 9))],
            event: TRADE,
            holds: false,
        },
        by_event: ByEvent::Never,
    },
    Told {
        case: Case {
            condition: ".where(count(\"b\") == 2 && first(\"b\").price == 5 && last(\"b\").price == 9 && last(\"b\").size == 8).or(price == 6)",
            taken: &[(1, Row::Trade(5, "IBM")), (1, Row::Order(7, "SAP", 9))],
            event: TRADE,
            holds: true,
        },
        by_event: ByEvent::Open,
    },
];

// Of parts joined by `or` one that is known decides, or goes.
const EITHER: [Told; 10] = [
    Told {
        case: Case {
            condition: ".where(price == 6).or(count(\"b\") == 1)",
            taken: &[(1, Row::Trade(5, "IBM")), (1, Row::Order(7, "SAP", 9))],
            event: TRADE,
            holds: true,
        },
        by_event: ByEvent::Always,
    },
    Told {
        case: Case {
            condition: ".where(count(\"b\") == 1).or(price == 6)",
            taken: &[(1, Row::Trade(5, "IBM")), (1, Row::Order(7, "SAP", 9))],
            event: TRADE,
            holds: true,
        },
        by_event: ByEvent::Always,
    },
    Told {
        case: Case {
            condition: ".where(price == 7).or(count(\"b\") == 1)",
            taken: &[(1, Row::Trade(5, "IBM"))],
            event: TRADE,
            holds: true,
        },
        by_event: ByEvent::Open,
    },
    Told {
        case: Case {
            condition: ".where(count(\"b\") == 1).or(price == 7)",
            taken: &[(1, Row::Trade(5, "IBM")), (1, Row::Order(7, "SAP", 9))],
            event: TRADE,
            holds: false,
        },
        by_event: ByEvent::Open,
    },
    Told {
        case: Case {
            condition: ".where(count(\"b\") == 1).or(last(\"b\").price == 9)",
            taken: &[(1, Row::Trade(5, "IBM")), (1, Row::Order(7, "SAP", 9))],
            event: TRADE,
            holds: true,
        },
        by_event: ByEvent::Open,
    },
    Told {
        case: Case {
            condition: ".where(count(\"b\") == 1).or(last(\"b\").price == 5)",
            taken: &[(1, Row::Trade(5, "IBM")), (1, Row::Order(7, "SAP", 9))],
            event: TRADE,
            holds: false,
        },
        by_event: ByEvent::Open,
    },
    Told {
        case: Case {
            condition: ".where(price == 7).where(count(\"b\") == 1).or(price == 8)",
            taken: &[(1, Row::Trade(5, "IBM"))],
            event: TRADE,
            holds: false,
        },
        by_event: ByEvent::Never,
    },
    Told {
        case: Case {
            condition: ".where(price == 7 || count(\"b\") == 1)",
            taken: &[(1, Row::Trade(5, "IBM")), (1, Row::Order(7, "SAP", 9))],
            event: TRADE,
            holds: false,
        },
        by_event: ByEvent::Open,
    },
    Told {
        case: Case {
            condition: ".where(price == 7 && count(\"b\") == 1 || price == 8)",
            taken: &[(1, Row::Trade(5, "IBM"))],
            event: TRADE,
            holds: false,
        },
        by_event: ByEvent::Never,
    },
    Told {
        case: Case {
            condition: ".where(price == 7 || count(\"b\") == 1).or(price == 6)",
            taken: &[(1, Row::Trade(5, "IBM")), (1, Row::Order(7, "SAP", 9))],
            event: TRADE,
            holds: true,
        },
        by_event: ByEvent::Always,
    },
];

fn told_at(plan: &Plan, event: &Event) -> ByEvent {
    match plan.stages.get(2) {
        None => ByEvent::Open,
        Some(stage) => {
            let ready = at_event(plan, &stage.cond, event);
            if ready.is_never_met() {
                ByEvent::Never
            } else if ready.is_always_met() {
                ByEvent::Always
            } else {
                ByEvent::Open
            }
        }
    }
}

fn is_told(alloc: Global, case: &Case, by_event: ByEvent) -> Result<bool, Fail> {
    let text = pattern(alloc, case.condition)?;
    let plan = plan_in(alloc, &text)?;
    let event = event(alloc, case.event)?;
    Ok(told_at(&plan, &event) == by_event)
}

fn are_told<R: Abort>(rt: &R, alloc: Global, all: &[Told]) -> Result<(), Fail> {
    for told in all {
        assert!(rt; is_right(rt, alloc, &told.case)?, "{}", told.case.condition);
        assert!(rt;
            is_told(alloc, &told.case, told.by_event)?,
            "told of {}",
            told.case.condition
        );
    }
    Ok(())
}

#[test]
fn the_event_alone(rt: HostRuntime) -> Result<(), Fail> {
    are_told(&rt, rt.alloc(), &ALONE)
}

#[test]
fn one_side_of_a_comparison(rt: HostRuntime) -> Result<(), Fail> {
    are_told(&rt, rt.alloc(), &SIDES)
}

#[test]
fn parts_that_must_all_hold(rt: HostRuntime) -> Result<(), Fail> {
    are_told(&rt, rt.alloc(), &TOGETHER)
}

#[test]
fn more_than_three_things(rt: HostRuntime) -> Result<(), Fail> {
    are_told(&rt, rt.alloc(), &MANY)
}

#[test]
fn parts_joined_by_or(rt: HostRuntime) -> Result<(), Fail> {
    are_told(&rt, rt.alloc(), &EITHER)
}
