ghost use Rattle.std.specs.Prelude.{◌<◌};

use cep_cli::{Gauge, NoGauge, RowCause, Status, cep, number};
use cep_event::{ByteList, CallList, NoMemory, Text};
use cep_outside::{MemoryFiles, MemorySink, MemorySource, Named, NamedList};
use std::alloc::{AllocError, Global};
use std::test::Fail;

/// A call of the program over files and streams in memory.
#[derive(Clone, Copy)]
pub struct Case {
    pub name: &'static str,
    pub words: &'static [&'static str],
    pub file: &'static [u8],
    pub input: &'static [u8],
    /// The call of the input that fails, and none where it is 0.
    pub unread: u64,
    pub room: usize,
    pub status: u8,
    pub output: &'static [u8],
    pub notes: &'static [u8],
}

const PAIR: &[u8] = b"event A(); event B();\npattern begin(\"a\").of(A).next(\"b\").of(B);\n";

const FOUR: &[u8] =
    b"event A(); event B(); event C(); event D();\npattern begin(\"a\").of(A).next(\"b\").of(B);";

const USAGE: &[u8] =
    b"cep: usage: cep MODE PATTERN [--lag MS] [--rows N] [--header] [--seed S] [--count N]\n";

const RUN: &[&str] = &["run", "p"];

const CHECK: &[&str] = &["check", "p"];

const CASES: [Case; 23] = [
    Case {
        name: "pairs",
        words: RUN,
        file: PAIR,
        input: b"A,1\nB,2\nA,3\nA,4\nB,5\n",
        unread: 0,
        room: 99,
        status: 0,
        output: b"match,a=1,b=2\nmatch,a=4,b=5\n",
        notes: b"",
    },
    Case {
        name: "no bytes",
        words: RUN,
        file: PAIR,
        input: b"",
        unread: 0,
        room: 99,
        status: 0,
        output: b"",
        notes: b"",
    },
    Case {
        name: "an event between",
        words: RUN,
        file: FOUR,
        input: b"A,1\nC,2\nB,3\nB,4\n",
        unread: 0,
        room: 99,
        status: 0,
        output: b"",
        notes: b"",
    },
    Case {
        name: "no last line feed",
        words: RUN,
        file: PAIR,
        input: b"A,1\nB,2",
        unread: 0,
        room: 99,
        status: 0,
        output: b"match,a=1,b=2\n",
        notes: b"",
    },
    Case {
        name: "a blank line",
        words: RUN,
        file: PAIR,
        input: b"A,1\n\nB,2\nA,3\nA,4\nB,5\n",
        unread: 0,
        room: 99,
        status: 0,
        output: b"match,a=1,b=3\nmatch,a=5,b=6\n",
        notes: b"",
    },
    Case {
        name: "out of order",
        words: RUN,
        file: PAIR,
        input: b"B,2\nA,1\nB,4\nA,4\n",
        unread: 0,
        room: 99,
        status: 0,
        output: b"match,a=2,b=1\n",
        notes: b"",
    },
    Case {
        name: "one time, by row",
        words: RUN,
        file: PAIR,
        input: b"A,1\nB,1\nA,1\n",
        unread: 0,
        room: 99,
        status: 0,
        output: b"match,a=1,b=2\n",
        notes: b"",
    },
    Case {
        name: "absent pattern",
        words: &["run", "q"],
        file: PAIR,
        input: b"A,1\n",
        unread: 0,
        room: 99,
        status: 3,
        output: b"",
        notes: b"cep: cannot read the pattern\n",
    },
    Case {
        name: "no pattern",
        words: RUN,
        file: b"event A();",
        input: b"A,1\n",
        unread: 0,
        room: 99,
        status: 4,
        output: b"",
        notes: b"cep: pattern refused: code 4 at byte 10\n",
    },
    Case {
        name: "a rule that is broken",
        words: RUN,
        file: b"event A(); pattern begin(\"a\").of(B).within(0);",
        input: b"A,1\n",
        unread: 0,
        room: 99,
        status: 4,
        output: b"",
        notes: b"cep: pattern refused: code 12 at byte 33\n",
    },
    Case {
        name: "a greedy loop, by check",
        words: CHECK,
        file: b"event A(); pattern begin(\"a\").of(A).oneOrMore().greedy();",
        input: b"",
        unread: 0,
        room: 99,
        status: 4,
        output: b"",
        notes: b"cep: pattern refused: code 7 at byte 48\n",
    },
    Case {
        name: "an open literal, by check",
        words: CHECK,
        file: b"event A(); pattern begin(\"a",
        input: b"",
        unread: 0,
        room: 99,
        status: 4,
        output: b"",
        notes: b"cep: pattern refused: code 2 at byte 25\n",
    },
    Case {
        name: "no bytes, by check",
        words: CHECK,
        file: b"",
        input: b"",
        unread: 0,
        room: 99,
        status: 4,
        output: b"",
        notes: b"cep: pattern refused: code 4 at byte 0\n",
    },
    Case {
        name: "an optional stage before a negation, by check",
        words: CHECK,
        file: b"event A(); pattern begin(\"a\").of(A).optional().notNext(\"x\").of(A).next(\"b\").of(A);",
        input: b"",
        unread: 0,
        room: 99,
        status: 4,
        output: b"",
        notes: b"cep: pattern refused: code 15 at byte 55\n",
    },
    Case {
        name: "printed",
        words: CHECK,
        file: b"event  A( v int ) ;pattern begin(\"a\").of(A).where((v>1)&&v<5).oneOrMore();",
        input: b"A,1\n",
        unread: 1,
        room: 99,
        status: 0,
        output: b"event A(v int);\npattern begin(\"a\").of(A).where(v > 1 && v < 5).oneOrMore();\n",
        notes: b"",
    },
    Case {
        name: "a comment, printed",
        words: CHECK,
        file: b"event A(); pattern begin(\"a\").of(A) ;// end",
        input: b"",
        unread: 0,
        room: 99,
        status: 0,
        output: b"event A();\npattern begin(\"a\").of(A);\n",
        notes: b"",
    },
    Case {
        name: "printed in part",
        words: CHECK,
        file: b"event A(); pattern begin(\"a\").of(A);",
        input: b"",
        unread: 0,
        room: 5,
        status: 8,
        output: b"event",
        notes: b"cep: cannot write the output\n",
    },
    Case {
        name: "no word",
        words: &[],
        file: PAIR,
        input: b"",
        unread: 0,
        room: 99,
        status: 2,
        output: b"",
        notes: USAGE,
    },
    Case {
        name: "an option",
        words: &["run", "-p"],
        file: PAIR,
        input: b"",
        unread: 0,
        room: 99,
        status: 2,
        output: b"",
        notes: USAGE,
    },
    Case {
        name: "a refused line",
        words: RUN,
        file: PAIR,
        input: b"A,1\nB,x\nB,2\n",
        unread: 0,
        room: 99,
        status: 5,
        output: b"",
        notes: b"cep: row 2 refused: cause 6\n",
    },
    Case {
        name: "a refused rest",
        words: RUN,
        file: PAIR,
        input: b"A,1\nB,2\nE,3",
        unread: 0,
        room: 99,
        status: 5,
        output: b"",
        notes: b"cep: row 3 refused: cause 4\n",
    },
    Case {
        name: "unread",
        words: RUN,
        file: PAIR,
        input: b"A,1\nB,2\n",
        unread: 2,
        room: 99,
        status: 7,
        output: b"",
        notes: b"cep: cannot read the input\n",
    },
    Case {
        name: "unwritten",
        words: RUN,
        file: PAIR,
        input: b"A,1\nB,2\n",
        unread: 0,
        room: 3,
        status: 8,
        output: b"mat",
        notes: b"cep: cannot write the output\n",
    },
];

/// The list of this call, empty where it is 0.
pub fn calls(alloc: Global, call: u64) -> Result<CallList, NoMemory> {
    let mut list = CallList::new(alloc);
    if call > 0 {
        list.push(call)?;
    }
    Ok(list)
}

pub fn words_of(alloc: Global, words: &[&str]) -> Result<Vec<String>, AllocError> {
    let mut list = Vec::new(alloc);
    for word in words {
        list.push(String::from_str(alloc, word)?)?;
    }
    Ok(list)
}

pub fn files_of(alloc: Global, bytes: &[u8]) -> Result<MemoryFiles, NoMemory> {
    let mut files = NamedList::new(alloc);
    files.push(Named {
        name: Text::from_str(alloc, "p")?,
        bytes: ByteList::from_slice(alloc, bytes)?,
    })?;
    Ok(MemoryFiles::new(files, CallList::new(alloc)))
}

/// Whether the call ends and prints as it should, where so many bytes move at once.
pub fn holds(rt: &HostRuntime, case: &Case, piece: usize) -> Result<bool, NoMemory>
    requires { 0 < piece }
{
    let input = ByteList::from_slice(rt.alloc(), case.input)?;
    holds_over(rt, case, input, piece)
}

/// The same over another input.
pub fn holds_over(
    rt: &HostRuntime,
    case: &Case,
    input: ByteList,
    piece: usize,
) -> Result<bool, NoMemory>
    requires { 0 < piece }
{
    holds_failing(rt, case, input, piece, NO_FAILURE)
}

/// The calls of the output and of the notes that fail, and none where it is 0.
#[derive(Clone, Copy)]
pub struct Failing {
    pub output: u64,
    pub notes: u64,
}

const NO_FAILURE: Failing = Failing {
    output: 0,
    notes: 0,
};

/// The same where calls of the output or of the notes fail.
pub fn holds_failing(
    rt: &HostRuntime,
    case: &Case,
    input: ByteList,
    piece: usize,
    failing: Failing,
) -> Result<bool, NoMemory>
    requires { 0 < piece }
{
    let alloc = rt.alloc();
    let mut input = MemorySource::new(input, piece, calls(alloc, case.unread)?);
    let mut output = MemorySink::new(alloc, case.room, piece, calls(alloc, failing.output)?)?;
    let mut notes = MemorySink::new(alloc, 100, 7, calls(alloc, failing.notes)?)?;
    let status = status_over(rt, case, &mut input, &mut output, &mut notes)?;
    Ok(status == case.status && output.taken() == case.output && notes.taken() == case.notes)
}

/// The number of the status with which the call ends over these.
pub fn status_over(
    rt: &HostRuntime,
    case: &Case,
    input: &mut MemorySource,
    output: &mut MemorySink,
    notes: &mut MemorySink,
) -> Result<u8, NoMemory> {
    gauged_over(rt, case, input, output, notes, &mut NoGauge)
}

/// The same with a gauge that is shown what is held.
pub fn gauged_over<G: Gauge>(
    rt: &HostRuntime,
    case: &Case,
    input: &mut MemorySource,
    output: &mut MemorySink,
    notes: &mut MemorySink,
    gauge: &mut G,
) -> Result<u8, NoMemory> {
    let alloc = rt.alloc();
    let words = words_of(alloc, case.words)?;
    let mut files = files_of(alloc, case.file)?;
    Ok(number(&cep(alloc, &words, &mut files, input, output, notes, gauge)))
}

#[test]
fn each_status_comes(rt: HostRuntime) -> Result<(), Fail> {
    for case in &CASES {
        for piece in [1usize, 3, 4096] {
            let name = case.name;
            assert!(rt; holds(&rt, case, piece)?, "{name}");
        }
    }
    Ok(())
}

/// How a call over this input ends.
pub fn status_of(
    rt: &HostRuntime,
    words: &[&str],
    file: &[u8],
    input: ByteList,
) -> Result<Status, NoMemory> {
    let alloc = rt.alloc();
    let words = words_of(alloc, words)?;
    let mut files = files_of(alloc, file)?;
    let mut input = MemorySource::new(input, 4096, CallList::new(alloc));
    let mut output = MemorySink::new(alloc, 100, 100, CallList::new(alloc))?;
    let mut notes = MemorySink::new(alloc, 100, 100, CallList::new(alloc))?;
    Ok(cep(
        alloc,
        &words,
        &mut files,
        &mut input,
        &mut output,
        &mut notes,
        &mut NoGauge,
    ))
}

/// The bytes, and so many of another byte behind them.
pub fn followed_by(
    alloc: Global,
    bytes: &[u8],
    byte: u8,
    count: usize,
) -> Result<ByteList, NoMemory> {
    let mut list = ByteList::from_slice(alloc, bytes)?;
    for _ in 0..count {
        list.push(byte)?;
    }
    Ok(list)
}

// The status over the pattern with so many spaces behind it.
fn padded_status(rt: &HostRuntime, spaces: usize) -> Result<Status, NoMemory> {
    let alloc = rt.alloc();
    let file = followed_by(alloc, PAIR, b' ', spaces)?;
    status_of(rt, RUN, file.as_slice(), ByteList::new(alloc))
}

#[test]
fn a_line_that_is_too_long_is_refused(rt: HostRuntime) -> Result<(), Fail> {
    let input = followed_by(rt.alloc(), b"A,1\n", b'A', 65_537)?;
    let status = status_of(&rt, RUN, PAIR, input)?;
    assert!(rt;
        matches!(
            &status,
            Status::BadRow {
                row: 2,
                cause: RowCause::LineTooLong
            }
        )
    );
    Ok(())
}

// The pattern itself has 64 bytes.
#[test]
fn a_file_that_is_too_long_is_refused(rt: HostRuntime) -> Result<(), Fail> {
    let status = padded_status(&rt, 65_536 - 64)?;
    assert!(rt; matches!(&status, Status::Done));
    let status = padded_status(&rt, 65_537 - 64)?;
    assert!(rt;
        matches!(
            &status,
            Status::PatternRefused {
                code: 6,
                place: 65536
            }
        )
    );
    Ok(())
}
