ghost use Rattle.std.specs.Prelude.{◌≡◌, ◌<◌, ◌==◌, ◌++◌, ◌∷◌, [], if◌then◌else◌, Some, None, codes, slice_index_or, IfOk};
ghost use Rattle.cep_rows.specs.declared.cause.RowCause.TheVariants.{UnknownType};

use cep_event::{ByteList, CallList, NoMemory};
use cep_outside::{MemorySink, MemorySource, Sink, write_all};
use cep_rows::Line;
use cep_session::{EndFault, Ending, Handler, LineFault, RowCause, Status, number, run, tell};
use std::alloc::Global;
use std::test::Fail;

// Prints each line, refuses one that begins with an exclamation mark, and owes a word at the end.
#[derive(Drop)]
struct Printer {
    alloc: Global,
}

fn is_refused(line: &[u8]) -> bool
    ensures { result ≡ (slice_index_or line.now 0 0 == 33) }
{
    match line {
        [] => false,
        [first, ..] => *first == b'!',
    }
}

fn printed(alloc: Global, line: &[u8]) -> Result<ByteList, NoMemory>
    ensures { IfOk result (λ text. text ≡ line.now ++ 10 ∷ []) }
{
    let mut text = ByteList::from_slice(alloc, line)?;
    text.push(b'\n')?;
    Ok(text)
}

impl Handler<(), u64> for Printer {
    ghost stands = { λ s m lines. m ≡ record { too_long = UnknownType; refusal = λ before line. if slice_index_or line 0 0 == 33 then Some UnknownType else None; text = record { caused = λ before line. line ++ 10 ∷ []; owed = λ lines. codes "end\n" }; shown = record { caused = λ before line. []; owed = λ lines. [] } } };

    ghost shown = { λ x. None };

    fn too_long(&self) -> RowCause {
        RowCause::UnknownType
    }

    fn line<K: Sink>(
        &mut self,
        line: &Line,
        output: &mut K,
        _shown: &mut (),
    ) -> Result<(), LineFault> {
        if is_refused(line.as_slice()) {
            return Err(LineFault::Refused(RowCause::UnknownType));
        }
        let text = match printed(self.alloc, line.as_slice()) {
            Ok(text) => text,
            Err(_) => return Err(LineFault::NoMemory),
        };
        match write_all(output, text.as_slice()) {
            Ok(()) => Ok(()),
            Err(_) => Err(LineFault::Unwritten),
        }
    }

    fn end<K: Sink>(self, output: &mut K, _shown: &mut ()) -> Result<(), EndFault> {
        match write_all(output, b"end\n") {
            Ok(()) => Ok(()),
            Err(_) => Err(EndFault::Unwritten),
        }
    }
}

struct Case {
    name: &'static str,
    input: &'static str,
    allowed: u32,
    read_fails: u64,
    room: usize,
    status: Status,
    output: &'static str,
    notes: &'static str,
}

fn calls(alloc: Global, call: u64) -> Result<CallList, NoMemory> {
    CallList::from_slice(alloc, &[call])
}

fn holds(alloc: Global, case: &Case, piece: usize) -> Result<bool, NoMemory>
    requires { 0 < piece }
{
    let bytes = ByteList::from_slice(alloc, case.input.as_bytes())?;
    let mut input = MemorySource::new(bytes, piece, calls(alloc, case.read_fails)?);
    let mut output = MemorySink::new(alloc, case.room, piece, CallList::new(alloc))?;
    let mut notes = MemorySink::new(alloc, 100, 7, CallList::new(alloc))?;
    let ending = run(
        alloc,
        Printer { alloc },
        case.allowed,
        &mut input,
        &mut output,
        &mut (),
    );
    let status = ending.status();
    tell(&mut notes, &status);
    Ok(
        status == case.status
            && output.taken() == case.output.as_bytes()
            && notes.taken() == case.notes.as_bytes(),
    )
}

const BAD_SECOND: Status = Status::BadRow {
    row: 2,
    cause: RowCause::UnknownType,
};

const CASES: [Case; 10] = [
    Case {
        name: "none",
        input: "",
        allowed: 9,
        read_fails: 0,
        room: 99,
        status: Status::Done,
        output: "end\n",
        notes: "",
    },
    Case {
        name: "two",
        input: "a\nbc\n",
        allowed: 2,
        read_fails: 0,
        room: 99,
        status: Status::Done,
        output: "a\nbc\nend\n",
        notes: "",
    },
    Case {
        name: "open",
        input: "a\nbc",
        allowed: 2,
        read_fails: 0,
        room: 99,
        status: Status::Done,
        output: "a\nbc\nend\n",
        notes: "",
    },
    Case {
        name: "refused",
        input: "a\n!b\nc\n",
        allowed: 9,
        read_fails: 0,
        room: 99,
        status: BAD_SECOND,
        output: "a\n",
        notes: "cep: row 2 refused: cause 4\n",
    },
    Case {
        name: "refused at the end",
        input: "a\n!b",
        allowed: 9,
        read_fails: 0,
        room: 99,
        status: BAD_SECOND,
        output: "a\n",
        notes: "cep: row 2 refused: cause 4\n",
    },
    Case {
        name: "many",
        input: "a\nb\nc",
        allowed: 2,
        read_fails: 0,
        room: 99,
        status: Status::TooManyRows,
        output: "a\nb\n",
        notes: "cep: more rows than allowed\n",
    },
    Case {
        name: "refused past the last",
        input: "a\nb\n!",
        allowed: 2,
        read_fails: 0,
        room: 99,
        status: Status::TooManyRows,
        output: "a\nb\n",
        notes: "cep: more rows than allowed\n",
    },
    Case {
        name: "unread",
        input: "a\nb\n",
        allowed: 9,
        read_fails: 1,
        room: 99,
        status: Status::ReadFault,
        output: "",
        notes: "cep: cannot read the input\n",
    },
    Case {
        name: "unwritten",
        input: "abc\n",
        allowed: 9,
        read_fails: 0,
        room: 2,
        status: Status::WriteFault,
        output: "ab",
        notes: "cep: cannot write the output\n",
    },
    Case {
        name: "unwritten at the end",
        input: "abc",
        allowed: 9,
        read_fails: 0,
        room: 6,
        status: Status::WriteFault,
        output: "abc\nen",
        notes: "cep: cannot write the output\n",
    },
];

#[test]
fn each_ending_comes(rt: HostRuntime) -> Result<(), Fail> {
    for case in &CASES {
        for piece in [1usize, 3, 4096] {
            let name = case.name;
            assert!(rt; holds(rt.alloc(), case, piece)?, "{name} by {piece}");
        }
    }
    Ok(())
}

#[test]
fn a_read_fails_in_the_middle(rt: HostRuntime) -> Result<(), Fail> {
    let alloc = rt.alloc();
    let bytes = ByteList::from_slice(alloc, b"a\nbc\nd")?;
    let mut input = MemorySource::new(bytes, 2, calls(alloc, 3)?);
    let mut output = MemorySink::new(alloc, 99, 99, CallList::new(alloc))?;
    let ending = run(
        alloc,
        Printer { alloc },
        9,
        &mut input,
        &mut output,
        &mut (),
    );
    assert!(rt; ending == Ending::ReadFault);
    assert!(rt; output.taken() == b"a\n".as_slice());
    assert!(rt; input.left() == b"\nd".as_slice());
    Ok(())
}

#[test]
fn the_text_of_a_line_is_written_before_the_next_read(rt: HostRuntime) -> Result<(), Fail> {
    let alloc = rt.alloc();
    let bytes = ByteList::from_slice(alloc, b"a\nb\nc\n")?;
    let mut input = MemorySource::new(bytes, 1, CallList::new(alloc));
    let mut output = MemorySink::new(alloc, 99, 99, calls(alloc, 1)?)?;
    let ending = run(
        alloc,
        Printer { alloc },
        9,
        &mut input,
        &mut output,
        &mut (),
    );
    assert!(rt; ending == Ending::WriteFault);
    assert!(rt; output.taken().is_empty());
    assert!(rt; input.left() == b"b\nc\n".as_slice());
    Ok(())
}

#[test]
fn a_long_line_is_refused_before_its_end(rt: HostRuntime) -> Result<(), Fail> {
    let alloc = rt.alloc();
    let long = vec![in alloc; b'A'; 70000]?;
    let bytes = ByteList::from_vec(long);
    let mut input = MemorySource::new(bytes, 7, CallList::new(alloc));
    let mut output = MemorySink::new(alloc, 9, 9, CallList::new(alloc))?;
    let ending = run(
        alloc,
        Printer { alloc },
        9,
        &mut input,
        &mut output,
        &mut (),
    );
    let refused = Ending::BadRow {
        row: 1,
        cause: RowCause::UnknownType,
    };
    assert!(rt; ending == refused);
    assert!(rt; input.left().len() == 70000 - 65541);
    Ok(())
}

const LINES: [(Status, u8, &str); 10] = [
    (Status::Done, 0, ""),
    (Status::NoMemory, 1, "cep: no memory\n"),
    (
        Status::BadWords,
        2,
        "cep: usage: cep MODE PATTERN [--lag MS] [--rows N] [--header] [--seed S] [--count N]\n",
    ),
    (Status::PatternFault, 3, "cep: cannot read the pattern\n"),
    (
        Status::PatternRefused {
            code: 9,
            place: 4294967295,
        },
        4,
        "cep: pattern refused: code 9 at byte 4294967295\n",
    ),
    (
        Status::BadRow {
            row: 4294967295,
            cause: RowCause::UnknownType,
        },
        5,
        "cep: row 4294967295 refused: cause 4\n",
    ),
    (
        Status::BadRow {
            row: 4294967295,
            cause: RowCause::BadNumber(65535),
        },
        5,
        "cep: row 4294967295 refused: cause 7 in field 65535\n",
    ),
    (Status::TooManyRows, 6, "cep: more rows than allowed\n"),
    (Status::ReadFault, 7, "cep: cannot read the input\n"),
    (Status::WriteFault, 8, "cep: cannot write the output\n"),
];

#[test]
fn each_status_has_its_number_and_its_line(rt: HostRuntime) -> Result<(), Fail> {
    let alloc = rt.alloc();
    for (status, wanted, line) in LINES {
        let mut notes = MemorySink::new(alloc, 100, 7, CallList::new(alloc))?;
        tell(&mut notes, &status);
        assert!(rt;
            number(&status) == wanted && notes.taken() == line.as_bytes(),
            "{line}"
        );
    }
    let mut failing = MemorySink::new(alloc, 100, 7, calls(alloc, 1)?)?;
    tell(&mut failing, &Status::ReadFault);
    assert!(rt; failing.taken().is_empty());
    Ok(())
}
