use crate::statuses::{
    Case, Failing, calls, followed_by, holds, holds_failing, holds_over, status_of, status_over,
    words_of,
};
use cep_cli::{NoGauge, Status, cep_in_memory, number};
use cep_event::{ByteList, CallList, NoMemory};
use cep_outside::{MemorySink, MemorySource, NamedList, SureFiles, SureSource};
use std::test::Fail;

const PAIR: &[u8] = b"event A(); event B();\npattern begin(\"a\").of(A).next(\"b\").of(B);";

const ONE: &[u8] = b"event A(v int); pattern begin(\"a\").of(A);";

const PLAIN: Case = Case {
    name: "",
    words: &["run", "p"],
    file: PAIR,
    input: b"",
    unread: 0,
    room: 999,
    status: 0,
    output: b"",
    notes: b"",
};

const LAGGING: Case = Case {
    words: &["run", "p", "--lag", "2"],
    file: b"event A(); event B(); pattern begin(\"a\").of(A).followedBy(\"b\").of(B);",
    input: b"A,10\nB,12\nB,9\nA,10\nB,15\n",
    status: 7,
    output: b"late,3\nmatch,a=1,b=2\nmatch,a=4,b=2\n",
    notes: b"cep: cannot read the input\n",
    ..PLAIN
};

// The third line ends with byte 14, and the last with byte 24. Reads give a byte each.
fn lagging_at(call: u64) -> Case {
    let output = if call <= 14 {
        b"".as_slice()
    } else if call <= 24 {
        b"late,3\n".as_slice()
    } else {
        LAGGING.output
    };
    Case {
        unread: call,
        output,
        ..LAGGING
    }
}

#[test]
fn whichever_read_fails_the_lines_before_are_answered(rt: HostRuntime) -> Result<(), Fail> {
    for call in 1..=25u64 {
        assert!(rt; holds(&rt, &lagging_at(call), 1)?, "{call}");
    }
    Ok(())
}

const COMBINED: Case = Case {
    file: b"event A(); event B(); event C(); event D(); pattern begin(\"c\").of(C).followedBy(\"m\").of(A).oneOrMore().allowCombinations().followedBy(\"b\").of(B);",
    input: b"C,1\nD,2\nA,3\nA,4\nA,5\nD,6\nA,7\nB,8\n",
    status: 8,
    output: b"match,c=1,m=3 4 5 7,b=8\nmatch,c=1,m=3 4 5,b=8\nmatch,c=1,m=3 4 7,b=8\nmatch,c=1,m=3 4,b=8\nmatch,c=1,m=3 5 7,b=8\nmatch,c=1,m=3 5,b=8\nmatch,c=1,m=3 7,b=8\nmatch,c=1,m=3,b=8\n",
    notes: b"cep: cannot write the output\n",
    ..PLAIN
};

// What is printed has 168 bytes, and each write before takes five.
#[test]
fn whichever_write_fails_a_front_was_written(rt: HostRuntime) -> Result<(), Fail> {
    for before in 0..34usize {
        let case = Case {
            output: COMBINED.output.get(..before * 5).unwrap_or(b"none"),
            ..COMBINED
        };
        let input = ByteList::from_slice(rt.alloc(), case.input)?;
        let failing = Failing {
            output: before as u64 + 1,
            notes: 0,
        };
        assert!(rt; holds_failing(&rt, &case, input, 5, failing)?, "{before}");
    }
    Ok(())
}

// A cut inside a literal leaves it open, and any other cut leaves an unfinished file.
fn code_of_front(front: &[u8]) -> u8 {
    if front.iter().filter(|byte| **byte == b'"').count() % 2 == 1 {
        2
    } else {
        4
    }
}

// The pattern has 63 bytes.
#[test]
fn each_front_of_a_pattern_is_refused(rt: HostRuntime) -> Result<(), Fail> {
    for place in 0..63usize {
        let front = PAIR.get(..place).unwrap_or(PAIR);
        let expected = code_of_front(front);
        let status = status_of(&rt, &["run", "p"], front, ByteList::new(rt.alloc()))?;
        assert!(rt;
            matches!(&status, Status::PatternRefused { code, .. } if *code == expected),
            "{place}"
        );
    }
    Ok(())
}

const ABSENT: Case = Case {
    words: &["run", "q"],
    status: 3,
    ..PLAIN
};

#[test]
fn notes_that_fail_leave_the_status(rt: HostRuntime) -> Result<(), Fail> {
    let input = ByteList::new(rt.alloc());
    let failing = Failing {
        output: 0,
        notes: 1,
    };
    assert!(rt; holds_failing(&rt, &ABSENT, input, 4096, failing)?);
    Ok(())
}

const LONG: Case = Case {
    file: ONE,
    status: 5,
    notes: b"cep: row 1 refused: cause 1\n",
    ..PLAIN
};

#[test]
fn a_line_without_an_end_is_refused(rt: HostRuntime) -> Result<(), Fail> {
    let input = followed_by(rt.alloc(), b"", b'A', 70_000)?;
    assert!(rt; holds_over(&rt, &LONG, input, 7)?);
    Ok(())
}

const MARKED: Case = Case {
    input: b"@,5\nA,5\n@,3\nA,6\nB,6\n",
    status: 8,
    ..PLAIN
};

// What the input has left where the first write fails and a read gives one byte.
fn left_at_the_first_write(rt: &HostRuntime, expected: &[u8]) -> Result<bool, NoMemory> {
    let alloc = rt.alloc();
    let input = ByteList::from_slice(alloc, MARKED.input)?;
    let mut input = MemorySource::new(input, 1, CallList::new(alloc));
    let mut output = MemorySink::new(alloc, 100, 1, calls(alloc, 1)?)?;
    let mut notes = MemorySink::new(alloc, 100, 7, CallList::new(alloc))?;
    let status = status_over(rt, &MARKED, &mut input, &mut output, &mut notes)?;
    Ok(status == 8 && output.taken().is_empty() && input.left() == expected)
}

#[test]
fn a_line_is_answered_before_the_next_read(rt: HostRuntime) -> Result<(), Fail> {
    assert!(rt; left_at_the_first_write(&rt, b"@,3\nA,6\nB,6\n")?);
    Ok(())
}

// The mark stands above all times, so that each row behind it is late.
fn all_late(rt: &HostRuntime, rows: usize) -> Result<bool, NoMemory> {
    let alloc = rt.alloc();
    let mut lines = ByteList::from_slice(alloc, b"@,9223372036854775807\n")?;
    for _ in 0..rows {
        lines.extend(b"A,9223372036854775807,0\n")?;
    }
    let case = Case { file: ONE, ..PLAIN };
    let mut input = MemorySource::new(lines, 4096, CallList::new(alloc));
    let mut output = MemorySink::new(alloc, 120_000, 4096, CallList::new(alloc))?;
    let mut notes = MemorySink::new(alloc, 100, 7, CallList::new(alloc))?;
    let status = status_over(rt, &case, &mut input, &mut output, &mut notes)?;
    let mut row = 1usize;
    let mut told = true;
    for line in output.taken().split(|byte| *byte == b'\n') {
        row = row.wrapping_add(1);
        let mut digits = 0usize;
        for digit in line.iter().skip(5) {
            digits = digits
                .wrapping_mul(10)
                .wrapping_add((*digit as usize).wrapping_sub(48));
        }
        told = told && (line.is_empty() || (line.starts_with(b"late,") && digits == row));
    }
    Ok(status == 0 && told && row.wrapping_sub(2) == rows)
}

#[test]
fn ten_thousand_late_rows_are_told(rt: HostRuntime) -> Result<(), Fail> {
    assert!(rt; all_late(&rt, 10_000)?);
    Ok(())
}

// A name that isn't listed is an empty file, which is no pattern.
fn no_pattern_in_memory(rt: &HostRuntime) -> Result<bool, NoMemory> {
    let alloc = rt.alloc();
    let words = words_of(alloc, &["run", "p"])?;
    let mut files = SureFiles::new(NamedList::new(alloc));
    let mut input = SureSource::new(ByteList::from_slice(alloc, b"A,1\n")?, 1);
    let mut output = MemorySink::new(alloc, 100, 7, CallList::new(alloc))?;
    let mut notes = MemorySink::new(alloc, 100, 7, CallList::new(alloc))?;
    let status = cep_in_memory(
        alloc,
        &words,
        &mut files,
        &mut input,
        &mut output,
        &mut notes,
        &mut NoGauge,
    );
    Ok(
        number(&status) == 4
            && notes.taken() == b"cep: pattern refused: code 4 at byte 0\n".as_slice(),
    )
}

#[test]
fn an_empty_file_is_no_pattern(rt: HostRuntime) -> Result<(), Fail> {
    assert!(rt; no_pattern_in_memory(&rt)?);
    Ok(())
}
