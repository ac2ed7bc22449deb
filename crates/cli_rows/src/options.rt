use crate::statuses::{Case, followed_by, holds, status_of};
use cep_cli::{RowCause, Status};
use std::test::Fail;

const PAIR: &[u8] = b"event A(); event B();\npattern begin(\"a\").of(A).next(\"b\").of(B);\n";

const ONE: &[u8] = b"event A(); pattern begin(\"a\").of(A);";

const NUMBERED: &[u8] = b"event A(v int); pattern begin(\"a\").of(A);";

const RELAXED: &[u8] =
    b"event A(); event B(); event C(); event D();\npattern begin(\"a\").of(A).followedBy(\"b\").of(B);";

const LOOP: &[u8] =
    b"event A(); event B(); event C(); event D();\npattern begin(\"a\").of(A).followedBy(\"b\").of(B).oneOrMore().followedBy(\"c\").of(C);";

const TRADES: &[u8] = b"event Trade(sym text, price int);
pattern begin(\"a\").of(Trade).where(price > 10)
 .followedBy(\"b\").of(Trade)
 .where(sym == last(\"a\").sym && price > last(\"a\").price).oneOrMore()
 .followedBy(\"c\").of(Trade)
 .where(sym == last(\"a\").sym && price < last(\"a\").price).within(60000);
skip past_last;
select last(\"a\").sym, count(\"b\"), max(\"b\".price), last(\"c\").price;
";

const STATES: &[u8] = b"states 3
start
  proceed take a#1 ignore all
state 1 a#1
  proceed take b#1+ ignore other
state 2 b#1+
  proceed take b#1+ ignore other chain
  proceed take c#1 ignore other
state 3 c#1 full
";

const USAGE: &[u8] =
    b"cep: usage: cep MODE PATTERN [--lag MS] [--rows N] [--header] [--seed S] [--count N]\n";

const PLAIN: Case = Case {
    name: "",
    words: &["run", "p"],
    file: PAIR,
    input: b"A,1\nB,2\n",
    unread: 0,
    room: 999,
    status: 0,
    output: b"",
    notes: b"",
};

const BAD: Case = Case {
    status: 2,
    notes: USAGE,
    ..PLAIN
};

const CASES: [Case; 36] = [
    Case {
        name: "a lag",
        words: &["run", "p", "--lag", "2"],
        file: RELAXED,
        input: b"A,10\nB,12\nB,9\nA,10\nB,15\n",
        output: b"late,3\nmatch,a=1,b=2\nmatch,a=4,b=2\n",
        ..PLAIN
    },
    Case {
        name: "the same without a lag",
        file: RELAXED,
        input: b"A,10\nB,12\nB,9\nA,10\nB,15\n",
        output: b"match,a=1,b=2\nmatch,a=4,b=2\n",
        ..PLAIN
    },
    Case {
        name: "a lag, behind =",
        words: &["run", "p", "--lag=2"],
        output: b"match,a=1,b=2\n",
        ..PLAIN
    },
    Case {
        name: "a lag of 0",
        words: &["run", "p", "--lag", "0"],
        input: b"A,1\nB,2\nA,2\nB,1\n",
        output: b"late,4\nmatch,a=1,b=2\n",
        ..PLAIN
    },
    Case {
        name: "the greatest lag",
        words: &["run", "p", "--lag", "4611686018427387904"],
        input: b"A,1\nB,2\nA,-4611686018427387904\nA,-4611686018427387902\nB,0\n",
        output: b"late,3\nmatch,a=4,b=5\nmatch,a=1,b=2\n",
        ..PLAIN
    },
    Case {
        name: "more rows than allowed",
        words: &["run", "p", "--rows", "2"],
        file: ONE,
        input: b"A,1\n@,1\nA,2\n",
        status: 6,
        output: b"match,a=1\n",
        notes: b"cep: more rows than allowed\n",
        ..PLAIN
    },
    Case {
        name: "as many rows as allowed",
        words: &["run", "p", "--rows", "3"],
        file: ONE,
        input: b"A,1\n@,1\nA,2\n",
        output: b"match,a=1\nmatch,a=3\n",
        ..PLAIN
    },
    Case {
        name: "trades under a heading",
        words: &["run", "p", "--header"],
        file: TRADES,
        input: b"type,ts,sym,price\nTrade,1000,IBM,20\nTrade,2000,HP,5\nTrade,3000,IBM,25\nTrade,4000,IBM,30\nTrade,5000,IBM,15\n",
        output: b"match,IBM,2,30,15\n",
        ..PLAIN
    },
    Case {
        name: "a heading that reads as an event",
        words: &["run", "p", "--header"],
        output: b"",
        ..PLAIN
    },
    Case {
        name: "a heading that reads as a mark",
        words: &["run", "p", "--header"],
        input: b"@,9\nA,1\nB,2\n",
        output: b"match,a=2,b=3\n",
        ..PLAIN
    },
    Case {
        name: "a heading that isn't UTF-8 and has an odd quote",
        words: &["run", "p", "--header"],
        input: b"\xff\"\r,x\nA,1\nB,2\n",
        output: b"match,a=2,b=3\n",
        ..PLAIN
    },
    Case {
        name: "a heading alone",
        words: &["run", "p", "--header"],
        input: b"\xff",
        ..PLAIN
    },
    Case {
        name: "no bytes, not even a heading",
        words: &["run", "p", "--header"],
        input: b"",
        ..PLAIN
    },
    Case {
        name: "a second line that would be a heading",
        words: &["run", "p", "--header"],
        input: b"type,ts\ntype,ts\nA,1\n",
        status: 5,
        notes: b"cep: row 2 refused: cause 4\n",
        ..PLAIN
    },
    Case {
        name: "a heading is a row",
        words: &["run", "p", "--header", "--rows", "1"],
        status: 6,
        notes: b"cep: more rows than allowed\n",
        ..PLAIN
    },
    Case {
        name: "options of another mode, in a run",
        words: &["run", "--seed", "7", "p", "--count", "1"],
        output: b"match,a=1,b=2\n",
        ..PLAIN
    },
    Case {
        name: "options of other modes, in a check",
        words: &[
            "check",
            "--lag",
            "0",
            "p",
            "--rows",
            "1",
            "--header",
            "--seed=7",
            "--count=1",
        ],
        output: b"event A();\nevent B();\npattern begin(\"a\").of(A).next(\"b\").of(B);\n",
        ..PLAIN
    },
    Case {
        name: "explained",
        words: &["explain", "p"],
        file: LOOP,
        unread: 1,
        output: STATES,
        ..PLAIN
    },
    Case {
        name: "options of other modes, in an explanation",
        words: &[
            "explain",
            "--lag",
            "0",
            "p",
            "--rows",
            "1",
            "--header",
            "--seed=7",
            "--count=1",
        ],
        file: LOOP,
        output: STATES,
        ..PLAIN
    },
    Case {
        name: "explained in part",
        words: &["explain", "p"],
        file: LOOP,
        room: 8,
        status: 8,
        output: b"states 3",
        notes: b"cep: cannot write the output\n",
        ..PLAIN
    },
    Case {
        name: "a rule that is broken, by explain",
        words: &["explain", "p"],
        file: b"event A(); pattern begin(\"a\").of(A).times(3,2);",
        status: 4,
        notes: b"cep: pattern refused: code 18 at byte 36\n",
        ..PLAIN
    },
    Case {
        name: "absent, by explain",
        words: &["explain", "q"],
        status: 3,
        notes: b"cep: cannot read the pattern\n",
        ..PLAIN
    },
    Case {
        name: "one word",
        words: &["run"],
        ..BAD
    },
    Case {
        name: "no rows",
        words: &["run", "p", "--rows", "0"],
        ..BAD
    },
    Case {
        name: "a lag with a sign",
        words: &["run", "p", "--lag", "-1"],
        ..BAD
    },
    Case {
        name: "a heading twice",
        words: &["run", "p", "--header", "--header"],
        ..BAD
    },
    Case {
        name: "another mode",
        words: &["walk", "p"],
        ..BAD
    },
    Case {
        name: "three words",
        words: &["run", "p", "q"],
        ..BAD
    },
    Case {
        name: "too great a lag, in a check",
        words: &["check", "p", "--lag", "4611686018427387905"],
        ..BAD
    },
    Case {
        name: "a line that isn't UTF-8",
        file: NUMBERED,
        input: b"A,1,5\n@,1\nA\xff\n",
        status: 5,
        output: b"match,a=1\n",
        notes: b"cep: row 3 refused: cause 2\n",
        ..PLAIN
    },
    Case {
        name: "an odd quote",
        file: NUMBERED,
        input: b"A,1,5\n@,1\nA,2,\"5\n",
        status: 5,
        output: b"match,a=1\n",
        notes: b"cep: row 3 refused: cause 3\n",
        ..PLAIN
    },
    Case {
        name: "an unknown type",
        file: NUMBERED,
        input: b"A,1,5\n@,1\nE,2,5\n",
        status: 5,
        output: b"match,a=1\n",
        notes: b"cep: row 3 refused: cause 4\n",
        ..PLAIN
    },
    Case {
        name: "too few fields",
        file: NUMBERED,
        input: b"A,1,5\n@,1\nA,2\n",
        status: 5,
        output: b"match,a=1\n",
        notes: b"cep: row 3 refused: cause 5\n",
        ..PLAIN
    },
    Case {
        name: "a time that is no number",
        file: NUMBERED,
        input: b"A,1,5\n@,1\nA,2x,5\n",
        status: 5,
        output: b"match,a=1\n",
        notes: b"cep: row 3 refused: cause 6\n",
        ..PLAIN
    },
    Case {
        name: "a number past 64 bits",
        file: NUMBERED,
        input: b"A,1,5\n@,1\nA,2,9223372036854775808\n",
        status: 5,
        output: b"match,a=1\n",
        notes: b"cep: row 3 refused: cause 7 in field 1\n",
        ..PLAIN
    },
    Case {
        name: "a dash alone is a file",
        words: &["run", "-"],
        status: 3,
        notes: b"cep: cannot read the pattern\n",
        ..PLAIN
    },
];

#[test]
fn each_option_counts_where_it_should(rt: HostRuntime) -> Result<(), Fail> {
    for case in &CASES {
        for piece in [1usize, 4096] {
            let name = case.name;
            assert!(rt; holds(&rt, case, piece)?, "{name}");
        }
    }
    Ok(())
}

// The second read fails, when all that came before is handled.
const UNREAD: Case = Case {
    name: "unread",
    file: ONE,
    input: b"A,1\n@,1\nA,2\n",
    unread: 2,
    status: 7,
    output: b"match,a=1\n",
    notes: b"cep: cannot read the input\n",
    ..PLAIN
};

#[test]
fn what_was_read_is_printed(rt: HostRuntime) -> Result<(), Fail> {
    assert!(rt; holds(&rt, &UNREAD, 4096)?);
    Ok(())
}

#[test]
fn a_heading_that_is_too_long_is_refused(rt: HostRuntime) -> Result<(), Fail> {
    let words = &["run", "p", "--header"];
    let longest = followed_by(rt.alloc(), b"", b'A', 65_536)?;
    let status = status_of(&rt, words, PAIR, longest)?;
    assert!(rt; matches!(&status, Status::Done));
    let longer = followed_by(rt.alloc(), b"", b'A', 65_537)?;
    let status = status_of(&rt, words, PAIR, longer)?;
    assert!(rt;
        matches!(
            &status,
            Status::BadRow {
                row: 1,
                cause: RowCause::LineTooLong
            }
        )
    );
    Ok(())
}
