use crate::statuses::{Case, followed_by, holds, holds_over};
use std::test::Fail;

const LOOP: &[u8] =
    b"event B(); event C(); pattern begin(\"b\").of(B).oneOrMore().next(\"c\").of(C);";

const TO_NEXT: &[u8] =
    b"event B(); event C(); pattern begin(\"b\").of(B).oneOrMore().next(\"c\").of(C); skip to_next;";

const TO_FIRST: &[u8] =
    b"event B(); event C(); pattern begin(\"b\").of(B).oneOrMore().next(\"c\").of(C); skip to_first(\"b\");";

const QUOTED: &[u8] =
    b"event T(s text, p int); pattern begin(\"a\").of(T).next(\"b\").of(T).where(s == last(\"a\").s && p > max(\"a\".p));";

const LATER: &[u8] =
    b"event A(v int); pattern begin(\"a\").of(A).where(last(\"b\").v > 0).next(\"b\").of(A);";

const DEEPEST: &[u8] =
    b"event A(v int); pattern begin(\"a\").of(A).where((((((((((((((((((((((((((((((((v > 0))))))))))))))))))))))))))))))));";

const TOO_DEEP: &[u8] =
    b"event A(v int); pattern begin(\"a\").of(A).where(((((((((((((((((((((((((((((((((v > 0)))))))))))))))))))))))))))))))));";

const TWO_KINDS: &[u8] = b"event A(v int); event B(v text); pattern begin(\"a\").of(A);";

const NUMBERED: &[u8] = b"event A(v int); pattern begin(\"a\").of(A);";

const PLAIN: Case = Case {
    name: "",
    words: &["run", "p"],
    file: LOOP,
    input: b"",
    unread: 0,
    room: 999,
    status: 0,
    output: b"",
    notes: b"",
};

const CASES: [Case; 9] = [
    Case {
        name: "matches that begin apart, by to_next",
        file: TO_NEXT,
        input: b"B,1\nB,2\nB,3\nC,4\n",
        output: b"match,b=1 2 3,c=4\nmatch,b=2 3,c=4\nmatch,b=3,c=4\n",
        ..PLAIN
    },
    Case {
        name: "the same by to_first",
        file: TO_FIRST,
        input: b"B,1\nB,2\nB,3\nC,4\n",
        output: b"match,b=1 2 3,c=4\nmatch,b=2 3,c=4\nmatch,b=3,c=4\n",
        ..PLAIN
    },
    Case {
        name: "no number behind a quoted field",
        file: QUOTED,
        input: b"T,1,\"x,y\",5\r\nT,2,\"x,y\",\r\nT,3,z,9\r\n",
        status: 5,
        notes: b"cep: row 2 refused: cause 7 in field 2\n",
        ..PLAIN
    },
    Case {
        name: "a stage that comes later in a condition",
        file: LATER,
        status: 4,
        notes: b"cep: pattern refused: code 25 at byte 52\n",
        ..PLAIN
    },
    Case {
        name: "a stage that comes later in a condition, by check",
        words: &["check", "p"],
        file: LATER,
        status: 4,
        notes: b"cep: pattern refused: code 25 at byte 52\n",
        ..PLAIN
    },
    Case {
        name: "31 parentheses",
        file: DEEPEST,
        input: b"A,1,1\nA,2,0\n",
        output: b"match,a=1\n",
        ..PLAIN
    },
    Case {
        name: "32 parentheses",
        file: TOO_DEEP,
        input: b"A,1,1\n",
        status: 4,
        notes: b"cep: pattern refused: code 5 at byte 78\n",
        ..PLAIN
    },
    Case {
        name: "one field of two kinds",
        file: TWO_KINDS,
        status: 4,
        notes: b"cep: pattern refused: code 11 at byte 24\n",
        ..PLAIN
    },
    Case {
        name: "one field of two kinds, by load",
        words: &["load", "p"],
        file: TWO_KINDS,
        status: 4,
        notes: b"cep: pattern refused: code 11 at byte 24\n",
        ..PLAIN
    },
];

#[test]
fn what_lies_at_an_edge_ends_as_it_should(rt: HostRuntime) -> Result<(), Fail> {
    for case in &CASES {
        for piece in [1usize, 4096] {
            let name = case.name;
            assert!(rt; holds(&rt, case, piece)?, "{name}");
        }
    }
    Ok(())
}

// The reads give a byte each, and the one fails that would give the last line's first byte.
const UNREAD: Case = Case {
    name: "unread",
    file: NUMBERED,
    input: b"A,1,5\n@,1\nA,2,5\n",
    unread: 11,
    status: 7,
    output: b"match,a=1\n",
    notes: b"cep: cannot read the input\n",
    ..PLAIN
};

#[test]
fn what_came_before_a_failed_read_of_one_byte_is_printed(rt: HostRuntime) -> Result<(), Fail> {
    assert!(rt; holds(&rt, &UNREAD, 1)?);
    Ok(())
}

// The third line has 65,537 bytes.
const LONG: Case = Case {
    name: "long",
    file: NUMBERED,
    status: 5,
    output: b"match,a=1\n",
    notes: b"cep: row 3 refused: cause 1\n",
    ..PLAIN
};

#[test]
fn the_rows_before_a_line_that_is_too_long_are_printed(rt: HostRuntime) -> Result<(), Fail> {
    let input = followed_by(rt.alloc(), b"A,1,5\n@,1\n", b'A', 65_537)?;
    assert!(rt; holds_over(&rt, &LONG, input, 4096)?);
    Ok(())
}
