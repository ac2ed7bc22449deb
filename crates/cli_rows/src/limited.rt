ghost use Rattle.std.specs.Prelude.{◌<◌};

use crate::patterns::{Row, is_met};
use std::test::Fail;

const ROWS: [Row; 27] = [
    Row {
        name: "closes at a mark at the limit",
        file: b"event A(); event B(); event C(); event D(); pattern begin(\"a\").of(A).followedBy(\"b\").of(B).notFollowedBy(\"x\").of(C).within(10);",
        input: b"A,0\nB,2\n@,9\n@,10\n",
        output: b"match,a=1,b=2\n",
    },
    Row {
        name: "is forbidden before the limit",
        file: b"event A(); event B(); event C(); event D(); pattern begin(\"a\").of(A).followedBy(\"b\").of(B).notFollowedBy(\"x\").of(C).within(10);",
        input: b"A,0\nB,2\nC,5\n@,10\n",
        output: b"",
    },
    Row {
        name: "is not forbidden at the limit",
        file: b"event A(); event B(); event C(); event D(); pattern begin(\"a\").of(A).followedBy(\"b\").of(B).notFollowedBy(\"x\").of(C).within(10);",
        input: b"A,0\nB,2\nC,10\n",
        output: b"match,a=1,b=2\n",
    },
    Row {
        name: "closes at the end of the input",
        file: b"event A(); event B(); event C(); event D(); pattern begin(\"a\").of(A).followedBy(\"b\").of(B).notFollowedBy(\"x\").of(C).within(10);",
        input: b"A,0\nB,2\n",
        output: b"match,a=1,b=2\n",
    },
    Row {
        name: "lacks a stage at the limit",
        file: b"event A(); event B(); event C(); event D(); pattern begin(\"a\").of(A).followedBy(\"b\").of(B).notFollowedBy(\"x\").of(C).within(10);",
        input: b"A,0\n@,10\n",
        output: b"timeout,a=1\n",
    },
    Row {
        name: "lacks a stage, and what is forbidden comes",
        file: b"event A(); event B(); event C(); event D(); pattern begin(\"a\").of(A).followedBy(\"b\").of(B).notFollowedBy(\"x\").of(C).within(10);",
        input: b"A,0\nC,1\nB,2\n@,10\n",
        output: b"match,a=1,b=3\n",
    },
    Row {
        name: "a loop goes on where its end is forbidden",
        file: b"event A(); event B(); event C(); event D(); pattern begin(\"a\").of(A).oneOrMore().notFollowedBy(\"x\").of(C).within(10);",
        input: b"A,0\nC,1\n",
        output: b"timeout,a=1\n",
    },
    Row {
        name: "a loop that went on closes",
        file: b"event A(); event B(); event C(); event D(); pattern begin(\"a\").of(A).oneOrMore().notFollowedBy(\"x\").of(C).within(10);",
        input: b"A,0\nC,1\nA,2\n",
        output: b"match,a=1 3\nmatch,a=3\n",
    },
    Row {
        name: "each front of a loop closes",
        file: b"event A(); event B(); event C(); event D(); pattern begin(\"a\").of(A).oneOrMore().notFollowedBy(\"x\").of(C).within(10);",
        input: b"A,0\nA,2\n",
        output: b"match,a=1\nmatch,a=1 2\nmatch,a=2\n",
    },
    Row {
        name: "closed matches come before those of the event",
        file: b"event A(); event B(); event C(); event D(); pattern begin(\"a\").of(A).notFollowedBy(\"x\").of(A).within(10);",
        input: b"A,0\nA,10\n@,20\n",
        output: b"match,a=1\nmatch,a=2\n",
    },
    Row {
        name: "none is due at the first tick",
        file: b"event A(); event B(); event C(); event D(); pattern begin(\"a\").of(A).notFollowedBy(\"x\").of(C).within(1);",
        input: b"A,5\n",
        output: b"match,a=1\n",
    },
    Row {
        name: "a closed match drops one of the same tick",
        file: b"event A(); event B(); event C(); event D(); pattern begin(\"a\").of(A).next(\"b\").of(A).notFollowedBy(\"x\").of(C).within(10); skip past_last;",
        input: b"A,0\nA,0\nA,0\nA,0\n@,10\n",
        output: b"timeout,a=4\nmatch,a=1,b=2\nmatch,a=3,b=4\n",
    },
    Row {
        name: "a closed match drops a later one",
        file: b"event A(); event B(); event C(); event D(); pattern begin(\"a\").of(A).next(\"b\").of(A).notFollowedBy(\"x\").of(C).within(10); skip past_last;",
        input: b"A,0\nA,1\nA,2\n@,10\n@,11\n",
        output: b"match,a=1,b=2\ntimeout,a=3\n",
    },
    Row {
        name: "to_next drops no other start",
        file: b"event A(); event B(); event C(); event D(); pattern begin(\"a\").of(A).next(\"b\").of(A).notFollowedBy(\"x\").of(C).within(10); skip to_next;",
        input: b"A,0\nA,0\nA,0\n@,10\n",
        output: b"timeout,a=3\nmatch,a=1,b=2\nmatch,a=2,b=3\n",
    },
    Row {
        name: "to_next drops the longer loop",
        file: b"event A(); event B(); event C(); event D(); pattern begin(\"a\").of(A).oneOrMore().notFollowedBy(\"x\").of(C).within(10); skip to_next;",
        input: b"A,0\nA,0\n@,10\n",
        output: b"match,a=1\nmatch,a=2\n",
    },
    Row {
        name: "to_first drops up to the stage",
        file: b"event A(); event B(); event C(); event D(); pattern begin(\"a\").of(A).next(\"b\").of(A).next(\"c\").of(A).notFollowedBy(\"x\").of(C).within(10); skip to_first(\"c\");",
        input: b"A,0\nA,0\nA,0\nA,0\nA,0\n@,10\n",
        output: b"timeout,a=4,b=5\ntimeout,a=5\nmatch,a=1,b=2,c=3\nmatch,a=3,b=4,c=5\n",
    },
    Row {
        name: "to_last drops up to the stage",
        file: b"event A(); event B(); event C(); event D(); pattern begin(\"a\").of(A).next(\"b\").of(A).next(\"c\").of(A).notFollowedBy(\"x\").of(C).within(10); skip to_last(\"b\");",
        input: b"A,0\nA,0\nA,0\nA,0\n@,10\n",
        output: b"timeout,a=3,b=4\ntimeout,a=4\nmatch,a=1,b=2,c=3\nmatch,a=2,b=3,c=4\n",
    },
    Row {
        name: "not next, as the last but one",
        file: b"event A(); event B(); event C(); event D(); pattern begin(\"a\").of(A).notNext(\"x\").of(B).notFollowedBy(\"y\").of(C).within(10);",
        input: b"A,0\nB,1\nA,2\nA,3\nB,4\n@,20\n",
        output: b"match,a=3\n",
    },
    Row {
        name: "a gap that is kept",
        file: b"event A(); event B(); event C(); event D(); pattern begin(\"a\").of(A).followedBy(\"b\").of(B).followedBy(\"c\").of(C).withinGap(5);",
        input: b"A,0\nB,4\nC,8\n",
        output: b"match,a=1,b=2,c=3\n",
    },
    Row {
        name: "a gap that is too long",
        file: b"event A(); event B(); event C(); event D(); pattern begin(\"a\").of(A).followedBy(\"b\").of(B).followedBy(\"c\").of(C).withinGap(5);",
        input: b"A,0\nB,5\nC,8\n",
        output: b"timeout,a=1\n",
    },
    Row {
        name: "both limits, the whole is reached first",
        file: b"event A(); event B(); event C(); event D(); pattern begin(\"a\").of(A).followedBy(\"b\").of(B).followedBy(\"c\").of(C).within(8).withinGap(5);",
        input: b"A,0\nB,4\nC,8\n",
        output: b"timeout,a=1,b=2\n",
    },
    Row {
        name: "both limits, the gap is reached first",
        file: b"event A(); event B(); event C(); event D(); pattern begin(\"a\").of(A).followedBy(\"b\").of(B).followedBy(\"c\").of(C).within(20).withinGap(5);",
        input: b"A,0\nB,4\n@,8\n@,9\n@,20\n",
        output: b"timeout,a=1,b=2\n",
    },
    Row {
        name: "both limits at one tick",
        file: b"event A(); event B(); event C(); event D(); pattern begin(\"a\").of(A).followedBy(\"b\").of(B).followedBy(\"c\").of(C).within(9).withinGap(5);",
        input: b"A,0\nB,4\n@,9\n",
        output: b"timeout,a=1,b=2\n",
    },
    Row {
        name: "lists of one last event",
        file: b"event A(); event B(); event C(); event D(); pattern begin(\"a\").of(A).followedBy(\"b\").of(B).followedBy(\"c\").of(C).withinGap(5);",
        input: b"A,0\nA,1\nB,2\n@,7\n",
        output: b"timeout,a=1,b=3\ntimeout,a=2,b=3\n",
    },
    Row {
        name: "the order of lists, and not of limits",
        file: b"event A(); event B(); event C(); event D(); pattern begin(\"a\").of(A).followedByAny(\"b\").of(B).followedBy(\"c\").of(C).within(10).withinGap(4);",
        input: b"A,0\nB,2\nA,6\nB,9\n@,30\n",
        output: b"timeout,a=1\ntimeout,a=1,b=2\ntimeout,a=3\ntimeout,a=3,b=4\n",
    },
    Row {
        name: "the end forbidden within a gap",
        file: b"event A(); event B(); event C(); event D(); pattern begin(\"a\").of(A).oneOrMore().notFollowedBy(\"x\").of(A).withinGap(5);",
        input: b"A,0\nA,4\nA,8\nA,13\n",
        output: b"match,a=1 2 3\nmatch,a=2 3\nmatch,a=3\nmatch,a=4\n",
    },
    Row {
        name: "a visit",
        file: b"event A(); event B(); event C(); event D(); pattern begin(\"a\").of(A).oneOrMore().notFollowedBy(\"x\").of(A).withinGap(5); skip past_last;",
        input: b"A,0\nA,4\nA,8\nA,13\n",
        output: b"match,a=1 2 3\nmatch,a=4\n",
    },
];

/// What a limit closes and what it ends, with all that is printed.
#[test]
fn limits_close_and_end(rt: HostRuntime) -> Result<(), Fail> {
    for row in &ROWS {
        for piece in [1usize, 4096] {
            let name = row.name;
            assert!(rt; is_met(&rt, row, piece)?, "{name}");
        }
    }
    Ok(())
}
