use crate::rows::{plan_of, rows_of};
use cep_event::{NoMemory, Text};
use cep_keeper::*;
use std::alloc::Global;
use std::process::Abort;
use std::test::Fail;

// The row that is refused, as its table and its number. It is 0 and 0 where the rows are restored, and 9 and 0 where their plan is another.
fn told(alloc: Global, keyed: bool, rows: &str) -> Result<(u8, u64), NoMemory> {
    let plan = plan_of(alloc, keyed)?;
    let text = Text::from_str(alloc, "plan")?;
    let rows = rows_of(alloc, rows)?;
    match restore(alloc, &plan, &text, &rows) {
        Ok(_) => Ok((0, 0)),
        Err(LoadFault::Unreadable { table, row }) => Ok((table, row)),
        Err(LoadFault::OtherPlan { .. }) => Ok((9, 0)),
        Err(LoadFault::NoMemory) => Err(NoMemory),
    }
}

fn are_told(
    rt: &impl Abort,
    alloc: Global,
    keyed: bool,
    cases: &[(&str, u8, u64)],
) -> Result<(), Fail> {
    for (rows, table, row) in cases {
        assert!(rt; told(alloc, keyed, rows)? == (*table, *row), "{rows}");
    }
    Ok(())
}

// The first row comes first, then the text of the plan, then the other rows.
const ORDERS: [(&str, u8, u64); 5] = [
    ("", 0, 0),
    ("1 plan 3 1 2/3 0 1 1 0/3 1 1/4 1 3 1", 4, 1),
    ("1 other 3 1 2/3 0 1 1 0/3 1 1/4 2 3 1", 9, 0),
    ("1 other 3 1 2/3 0 1 1 0/3 1 1/4 1 3 1", 9, 0),
    ("1 other ! 1 2/3 0 1 1 0/3 1 1/4 1 3 1", 1, 1),
];

#[test]
fn another_plan_is_told_after_the_first_row_and_before_the_others(
    rt: HostRuntime,
) -> Result<(), Fail> {
    are_told(&rt, rt.alloc(), false, &ORDERS)
}

const HEADS: [(&str, u8, u64); 8] = [
    ("2 1", 2, 1),
    ("1 plan 3 1", 1, 1),
    ("1 plan 3 1 2 -", 1, 1),
    ("1 plan -1 1 2", 1, 1),
    ("1 plan 4294967296 1 2", 1, 1),
    ("1 plan 4294967295 - -", 0, 0),
    ("1 plan 3 ! 2", 1, 1),
    ("1 plan 3 1 2/1 plan 3 1 2", 1, 2),
];

#[test]
fn a_head_is_judged(rt: HostRuntime) -> Result<(), Fail> {
    are_told(&rt, rt.alloc(), false, &HEADS)
}

const ROWS: [(&str, u8, u64); 12] = [
    ("1 plan 1 1 2/3 0 1 1 0/3 1 1/4 2 1 1", 4, 1),
    ("1 plan 3 - 2/3 0 1 1 0", 3, 1),
    ("1 plan 3 1 -/4 2 3 1", 4, 1),
    ("1 plan 3 1 2/2 1", 2, 1),
    ("1 plan 3 1 2/5 1", 5, 1),
    ("1 plan 3 1 2/3 0 2 1 0", 3, 1),
    ("1 plan 3 1 2/3 0 1 1 0/3 1 0", 3, 2),
    ("1 plan 3 1 2/3 0 1 1 0/3 1 1 1", 3, 2),
    ("1 plan 3 1 2/4 2 3 1/3 0 1 1 0", 3, 1),
    ("1 plan 3 1 2/4 2 3 1/4 2 3 1", 4, 2),
    ("1 plan 3 1 2/4 2 4 1", 4, 1),
    ("1 plan 3 1 2/4 2 3 2", 4, 1),
];

#[test]
fn a_row_that_breaks_a_rule_is_found(rt: HostRuntime) -> Result<(), Fail> {
    are_told(&rt, rt.alloc(), false, &ROWS)
}

const KEYS: [(&str, u8, u64); 5] = [
    ("1 plan 3 1 2/2 5/3 0 1 1 0 5", 0, 0),
    ("1 plan 3 1 2/2 5/2 6/2 5", 2, 3),
    ("1 plan 3 1 2/2 5/3 0 1 1 0 6", 3, 1),
    ("1 plan 3 1 2/2 x", 2, 1),
    ("1 plan 3 1 2/2 5/3 0 1 1 0 5 5", 3, 1),
];

#[test]
fn keys_are_judged(rt: HostRuntime) -> Result<(), Fail> {
    are_told(&rt, rt.alloc(), true, &KEYS)
}
