use crate::statuses::{Case, holds};
use std::test::Fail;

const PAIR: &[u8] = b"event A(); event B();\npattern begin(\"a\").of(A).next(\"b\").of(B);\n";

const ONE_TYPE: &[u8] =
    b"event A(); pattern begin(\"a\").of(A).next(\"b\").of(A).next(\"c\").of(A);";

const LIMITED: &[u8] =
    b"event A(); event B();\npattern begin(\"a\").of(A).followedBy(\"b\").of(B).within(2);\n";

const NO_TYPE: &[u8] = b"pattern begin(\"a\");\n";

// The input would be refused, and its first read fails: a load run doesn't read it.
const PLAIN: Case = Case {
    name: "",
    words: &["load", "p"],
    file: PAIR,
    input: b"no row\n",
    unread: 1,
    room: 999,
    status: 0,
    output: b"",
    notes: b"",
};

const CASES: [Case; 12] = [
    Case {
        name: "one row makes no pair",
        words: &["load", "p", "--count", "1"],
        output: b"rows 1\nlate 0\nmatches 0\ntimeouts 0\ngreatest held 0\n",
        ..PLAIN
    },
    Case {
        name: "one row of another seed",
        words: &["load", "p", "--count=1", "--seed=7"],
        output: b"rows 1\nlate 0\nmatches 0\ntimeouts 0\ngreatest held 1\n",
        ..PLAIN
    },
    // The types are B, A, B, A, B, B: two pairs.
    Case {
        name: "six rows",
        words: &["load", "p", "--count", "6"],
        output: b"rows 6\nlate 0\nmatches 2\ntimeouts 0\ngreatest held 1\n",
        ..PLAIN
    },
    // The types are A, B, B, B, B, B: one pair.
    Case {
        name: "six rows of another seed",
        words: &["load", "--seed", "7", "p", "--count", "6"],
        output: b"rows 6\nlate 0\nmatches 1\ntimeouts 0\ngreatest held 1\n",
        ..PLAIN
    },
    // Another program counted 243 places where B follows A directly.
    Case {
        name: "as many rows as by default",
        output: b"rows 1000\nlate 0\nmatches 243\ntimeouts 0\ngreatest held 1\n",
        ..PLAIN
    },
    // Each row but the last two begins a match, and none is late.
    Case {
        name: "one type: matches are the count less 2",
        words: &["load", "p", "--count", "1000", "--seed", "7"],
        file: ONE_TYPE,
        output: b"rows 1000\nlate 0\nmatches 998\ntimeouts 0\ngreatest held 2\n",
        ..PLAIN
    },
    // The same program counted 265 places where no B follows A directly, the last row among them if it is A.
    Case {
        name: "a time limit, with a lag",
        words: &["load", "p", "--lag=3"],
        file: LIMITED,
        output: b"rows 1000\nlate 0\nmatches 243\ntimeouts 265\ngreatest held 2\n",
        ..PLAIN
    },
    Case {
        name: "a time limit, and all released by the end",
        file: LIMITED,
        output: b"rows 1000\nlate 0\nmatches 243\ntimeouts 265\ngreatest held 2\n",
        ..PLAIN
    },
    Case {
        name: "no type: marks alone",
        words: &["load", "p", "--count", "5"],
        file: NO_TYPE,
        output: b"rows 5\nlate 0\nmatches 0\ntimeouts 0\ngreatest held 0\n",
        ..PLAIN
    },
    Case {
        name: "options of a run, in a load run",
        words: &["load", "--rows", "1", "--header", "p", "--count", "6"],
        output: b"rows 6\nlate 0\nmatches 2\ntimeouts 0\ngreatest held 1\n",
        ..PLAIN
    },
    Case {
        name: "a rule that is broken, by load",
        words: &["load", "p"],
        file: b"event A(); pattern begin(\"a\").of(A).times(3,2);",
        status: 4,
        notes: b"cep: pattern refused: code 18 at byte 36\n",
        ..PLAIN
    },
    Case {
        name: "a summary in part",
        words: &["load", "p", "--count", "1"],
        room: 9,
        status: 8,
        output: b"rows 1\nla",
        notes: b"cep: cannot write the output\n",
        ..PLAIN
    },
];

#[test]
fn a_load_run_counts_what_its_rows_cause(rt: HostRuntime) -> Result<(), Fail> {
    for case in &CASES {
        let name = case.name;
        assert!(rt; holds(&rt, case, 4096)?, "{name}");
    }
    Ok(())
}
