//! Tables of files and what the checker answers: the number of stages and negations of the plan, or the code and the place.

use cep_plan::Plan;
use cep_syntax::{SyntaxFault, read};
use pattern_check::{CheckFault, check};
use std::alloc::Global;
use std::test::Fail;

fn plan_line(alloc: Global, plan: &Plan) -> Result<String, Fail> {
    let stages = plan.stages.len();
    let negations = plan.negations.len();
    let line = format!(in alloc; "ok {stages} {negations}")?;
    Ok(line)
}

fn fault_line(alloc: Global, fault: CheckFault) -> Result<String, Fail> {
    let line = match fault {
        CheckFault::NoMemory => format!(in alloc; "no memory")?,
        CheckFault::Bad { place, code } => format!(in alloc; "code {code} at {place}")?,
    };
    Ok(line)
}

/// The answer of the checker to the text, in a short form.
pub fn answer(alloc: Global, text: &str) -> Result<String, Fail> {
    match read(alloc, text.as_bytes()) {
        Ok(file) => match check(alloc, &file) {
            Ok(plan) => plan_line(alloc, &plan),
            Err(fault) => fault_line(alloc, fault),
        },
        Err(_) => {
            let line = format!(in alloc; "not read")?;
            Ok(line)
        }
    }
}

#[test]
fn declarations_and_stages(rt: HostRuntime) -> Result<(), Fail> {
    let table = [
        (
            "event A(); event B(); pattern begin(\"a\").of(A).next(\"b\").of(B);",
            "ok 2 0",
        ),
        (
            "event A(); event A(); pattern begin(\"a\");",
            "code 10 at 17",
        ),
        (
            "event A(); event B(); event B(); event A(); pattern begin(\"a\");",
            "code 10 at 28",
        ),
        (
            "event A(v int); event B(v text); pattern begin(\"a\").of(A);",
            "code 11 at 24",
        ),
        (
            "event A(v int, w text, v int); pattern begin(\"a\");",
            "code 11 at 23",
        ),
        (
            "event A(v int); event B(w text, v int); pattern begin(\"a\");",
            "ok 1 0",
        ),
        (
            "event A(); pattern begin(\"a\").of(B).within(0);",
            "code 12 at 33",
        ),
        (
            "event A(); pattern begin(\"a\").of(A).next(\"a\").of(A);",
            "code 13 at 41",
        ),
        (
            "event A(); pattern begin(\"a\").notNext(\"a\").next(\"b\");",
            "code 13 at 38",
        ),
        (
            "event A(); pattern begin(\"a\").notFollowedBy(\"x\");",
            "code 14 at 44",
        ),
        (
            "event A(); pattern begin(\"a\").notFollowedBy(\"x\").notNext(\"y\");",
            "code 14 at 57",
        ),
        (
            "event A(); pattern begin(\"a\").of(A).notFollowedBy(\"x\").of(A);",
            "code 14 at 50",
        ),
        (
            "event A(); pattern begin(\"a\").of(A).notFollowedBy(\"x\").of(A).within(10);",
            "ok 1 1",
        ),
        (
            "event A(); pattern begin(\"a\").of(A).notFollowedBy(\"x\").of(A).withinGap(10);",
            "ok 1 1",
        ),
        (
            "pattern begin(\"a\").notNext(\"x\").notFollowedBy(\"y\").within(10).withinGap(5);",
            "ok 1 2",
        ),
        (
            "event A(); pattern begin(\"a\").notNext(\"x\").within(5);",
            "code 14 at 38",
        ),
        (
            "event A(); pattern begin(\"a\").notNext(\"x\").withinGap(5);",
            "code 14 at 38",
        ),
        (
            "pattern begin(\"a\").notFollowedBy(\"x\").notNext(\"y\").within(10);",
            "code 14 at 46",
        ),
        (
            "pattern begin(\"a\").optional().notFollowedBy(\"x\").within(10);",
            "code 15 at 44",
        ),
        (
            "event A(); pattern begin(\"a\").notNext(\"x\").notFollowedBy(\"y\").next(\"b\");",
            "ok 2 2",
        ),
        (
            "event A(); pattern begin(\"a\").of(A).optional().notNext(\"x\").of(A).next(\"b\").of(A);",
            "code 15 at 55",
        ),
        (
            "event A(); pattern begin(\"a\").optional().next(\"b\").notNext(\"x\").next(\"c\");",
            "ok 3 1",
        ),
    ];
    for (text, want) in table {
        let found = answer(rt.alloc(), text)?;
        assert_eq!(rt; found.as_str(), want, "{text}");
    }
    Ok(())
}

#[test]
fn modifiers(rt: HostRuntime) -> Result<(), Fail> {
    let table = [
        (
            "pattern begin(\"a\").notNext(\"x\").where(true).or(false).next(\"b\");",
            "ok 2 1",
        ),
        (
            "pattern begin(\"a\").notNext(\"x\").where(true).optional().next(\"b\");",
            "code 16 at 44",
        ),
        (
            "pattern begin(\"a\").notNext(\"x\").consecutive().next(\"b\");",
            "code 16 at 32",
        ),
        (
            "pattern begin(\"a\").times(2).optional().oneOrMore();",
            "code 17 at 39",
        ),
        (
            "pattern begin(\"a\").optional().optional();",
            "code 17 at 30",
        ),
        (
            "pattern begin(\"a\").oneOrMore().until(true).until(true);",
            "code 17 at 43",
        ),
        (
            "event A(); pattern begin(\"a\").of(A).times(3,2);",
            "code 18 at 36",
        ),
        ("pattern begin(\"a\").times(0);", "code 18 at 19"),
        ("pattern begin(\"a\").times(256);", "ok 1 0"),
        ("pattern begin(\"a\").times(257);", "code 18 at 19"),
        ("pattern begin(\"a\").timesOrMore(0);", "code 18 at 19"),
        (
            "pattern begin(\"a\").times(2,2).allowCombinations();",
            "ok 1 0",
        ),
        ("pattern begin(\"a\").consecutive();", "code 19 at 19"),
        (
            "pattern begin(\"a\").optional().allowCombinations();",
            "code 19 at 30",
        ),
        (
            "pattern begin(\"a\").oneOrMore().consecutive().allowCombinations();",
            "code 20 at 45",
        ),
        (
            "pattern begin(\"a\").oneOrMore().consecutive().consecutive();",
            "code 20 at 45",
        ),
        ("pattern begin(\"a\").timesOrMore(2).until(true);", "ok 1 0"),
        (
            "pattern begin(\"a\").times(2).until(true);",
            "code 21 at 28",
        ),
    ];
    for (text, want) in table {
        let found = answer(rt.alloc(), text)?;
        assert_eq!(rt; found.as_str(), want, "{text}");
    }
    Ok(())
}

#[test]
fn fields_and_kinds(rt: HostRuntime) -> Result<(), Fail> {
    let table = [
        (
            "event A(v int); pattern begin(\"a\").where(v > 0);",
            "ok 1 0",
        ),
        (
            "event A(v int); pattern begin(\"a\").where(w > 0);",
            "code 22 at 41",
        ),
        (
            "event A(v int); event B(); pattern begin(\"b\").of(B).where(v > 0);",
            "code 22 at 58",
        ),
        (
            "event A(v int); event B(); pattern begin(\"b\").of(B).oneOrMore().until(v > 0);",
            "ok 1 0",
        ),
        (
            "event A(v int); pattern begin(\"a\").oneOrMore().until(w > 0);",
            "code 22 at 53",
        ),
        (
            "event A(v int); event B(); pattern begin(\"b\").of(B).next(\"c\").where(sum(\"b\".v) > 0);",
            "code 22 at 76",
        ),
        (
            "event A(v int); pattern begin(\"a\").of(A); select v;",
            "code 22 at 49",
        ),
        (
            "event A(v int); pattern begin(\"a\").of(A); select last(\"a\").v;",
            "ok 1 0",
        ),
        (
            "event A(s text); pattern begin(\"a\").where(s);",
            "code 23 at 42",
        ),
        (
            "event A(s text); pattern begin(\"a\").where(s == 1);",
            "code 23 at 47",
        ),
        (
            "event A(s text); pattern begin(\"a\").where(true == s);",
            "code 23 at 42",
        ),
        (
            "event A(s text); pattern begin(\"a\").where(1 + s > 2);",
            "code 23 at 46",
        ),
        (
            "event A(s text); pattern begin(\"a\").where(sum(\"a\".s) > 2);",
            "code 23 at 42",
        ),
        (
            "event A(s text); pattern begin(\"a\").where(last(\"a\").s == s && !(1 < 2) || s < \"b\");",
            "ok 1 0",
        ),
        (
            "event A(v int); pattern begin(\"a\"); select count(\"a\"), max(\"a\".v) * 2, 1 < 2;",
            "code 23 at 71",
        ),
    ];
    for (text, want) in table {
        let found = answer(rt.alloc(), text)?;
        assert_eq!(rt; found.as_str(), want, "{text}");
    }
    Ok(())
}

#[test]
fn names_limits_and_skips(rt: HostRuntime) -> Result<(), Fail> {
    let table = [
        (
            "pattern begin(\"a\").where(count(\"b\") > 0);",
            "code 24 at 31",
        ),
        (
            "event A(v int); pattern begin(\"a\").of(A).where(last(\"b\").v > 0).next(\"b\").of(A);",
            "code 25 at 52",
        ),
        (
            "event A(v int); pattern begin(\"a\").of(A).where(last(\"a\").v > 0);",
            "ok 1 0",
        ),
        (
            "pattern begin(\"a\").notNext(\"x\").where(count(\"b\") > 0).next(\"b\");",
            "code 25 at 44",
        ),
        (
            "pattern begin(\"a\").next(\"b\"); select count(\"b\"), count(\"a\");",
            "ok 2 0",
        ),
        (
            "pattern begin(\"a\").notNext(\"x\").next(\"b\").where(count(\"x\") > 0);",
            "code 26 at 54",
        ),
        ("pattern begin(\"a\").within(0);", "code 27 at 26"),
        (
            "pattern begin(\"a\").within(4611686018427387904);",
            "ok 1 0",
        ),
        (
            "pattern begin(\"a\").within(4611686018427387905);",
            "code 27 at 26",
        ),
        ("pattern begin(\"a\").withinGap(0);", "code 27 at 29"),
        (
            "pattern begin(\"a\").withinGap(4611686018427387904);",
            "ok 1 0",
        ),
        (
            "pattern begin(\"a\").within(5).withinGap(4611686018427387905);",
            "code 27 at 39",
        ),
        (
            "pattern begin(\"a\").within(5).withinGap(0);",
            "code 27 at 39",
        ),
        (
            "pattern begin(\"a\").within(0).withinGap(0);",
            "code 27 at 26",
        ),
        (
            "pattern begin(\"a\").notFollowedBy(\"x\").within(0);",
            "code 27 at 45",
        ),
        ("pattern begin(\"a\").withinGap(5).within(8);", "not read"),
        (
            "pattern begin(\"a\"); skip to_first(\"b\");",
            "code 28 at 34",
        ),
        (
            "pattern begin(\"a\").notNext(\"x\").next(\"b\"); skip to_last(\"x\");",
            "code 28 at 56",
        ),
        ("pattern begin(\"a\"); skip to_last(\"a\");", "ok 1 0"),
        ("pattern begin(\"a\").within(0).optional();", "not read"),
        (
            "pattern begin(\"a\").times(0).next(\"a\");",
            "code 13 at 33",
        ),
        (
            "pattern begin(\"a\").times(0).next(\"b\").times(0).within(0);",
            "code 18 at 19",
        ),
    ];
    for (text, want) in table {
        let found = answer(rt.alloc(), text)?;
        assert_eq!(rt; found.as_str(), want, "{text}");
    }
    Ok(())
}
