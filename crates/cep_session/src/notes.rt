ghost use Rattle.std.specs.Prelude.{◌≡◌, ◌+◌, ◌≤◌, [], ◌++◌, length};
ghost use Rattle.std.specs.Io.KnownBytes.{Appends};
ghost use Rattle.cep_outside.specs.Outside.{Rose, AppendsPart};
ghost use Rattle.cep_session.specs.Notes.{field_text, cause_text, fault_line};

use crate::Status;
use cep_outside::{Sink, write_all};
use cep_rows::RowCause;
use itoa::Buffer;
use std::marker::Model;

// More bytes than the longest line has.
const ROOM: usize = 128;

const USAGE: &[u8] =
    b"cep: usage: cep MODE PATTERN [--lag MS] [--rows N] [--header] [--seed S] [--count N]\n";

/// A short text that takes no memory.
#[derive(Drop)]
struct Note {
    room: [u8; ROOM],
    used: usize,
}

impl Model for Note {
    ghost use Rattle.std.specs.Prelude.{List, ℕ, ◌≤◌, take};

    ghost Value = { List ℕ };

    ghost view = { λ note. take note.used note.room };

    ghost invariant = { λ note. note.used ≤ 128 };
}

impl Note {
    fn new() -> Note
        ensures { result ≡ [] }
    {
        Note {
            room: [0; ROOM],
            used: 0,
        }
    }

    fn push(&mut self, bytes: &[u8])
        requires { length self.old + length bytes.now ≤ 128 }
        ensures { self.new ≡ self.old ++ bytes.now }
    {
        let end = self.used + bytes.len();
        self.room[self.used..end].copy_from_slice(bytes);
        self.used = end;
    }

    fn as_slice(&self) -> &[u8]
        ensures { result.now ≡ self.now }
    {
        &self.room[..self.used]
    }
}

// Appends the words for the field of a cause, where it has one.
fn push_field(note: &mut Note, cause: RowCause)
    requires { length note.old ≤ 80 }
    ensures text { note.new ≡ note.old ++ field_text cause }
    ensures short { length note.new ≤ length note.old + 40 }
{
    if let RowCause::BadNumber(field) = cause {
        let mut digits = Buffer::new();
        note.push(b" in field ");
        note.push(digits.format(field).as_bytes());
    }
}

// Appends the words of a cause.
fn push_cause(note: &mut Note, cause: RowCause)
    requires { length note.old ≤ 60 }
    ensures text { note.new ≡ note.old ++ cause_text cause }
    ensures short { length note.new ≤ length note.old + 60 }
{
    let mut digits = Buffer::new();
    note.push(digits.format(cause.number()).as_bytes());
    push_field(note, cause);
}

fn row_note(row: u32, cause: RowCause) -> Note
    ensures { result ≡ fault_line (Status.BadRow row cause) }
{
    let mut digits = Buffer::new();
    let mut note = Note::new();
    note.push(b"cep: row ");
    note.push(digits.format(row).as_bytes());
    note.push(b" refused: cause ");
    push_cause(&mut note, cause);
    note.push(b"\n");
    note
}

fn pattern_note(code: u8, place: u32) -> Note
    ensures { result ≡ fault_line (Status.PatternRefused code place) }
{
    let mut digits = Buffer::new();
    let mut note = Note::new();
    note.push(b"cep: pattern refused: code ");
    note.push(digits.format(code).as_bytes());
    note.push(b" at byte ");
    note.push(digits.format(place).as_bytes());
    note.push(b"\n");
    note
}

fn plain_note(text: &[u8]) -> Note
    requires { length text.now ≤ 128 }
    ensures { result ≡ text.now }
{
    let mut note = Note::new();
    note.push(text);
    note
}

fn note_of(status: &Status) -> Note
    ensures { result ≡ fault_line status.now }
{
    match status {
        Status::Done => Note::new(),
        Status::NoMemory => plain_note(b"cep: no memory\n"),
        Status::BadWords => plain_note(USAGE),
        Status::PatternFault => plain_note(b"cep: cannot read the pattern\n"),
        Status::PatternRefused { code, place } => pattern_note(*code, *place),
        Status::BadRow { row, cause } => row_note(*row, *cause),
        Status::TooManyRows => plain_note(b"cep: more rows than allowed\n"),
        Status::ReadFault => plain_note(b"cep: cannot read the input\n"),
        Status::WriteFault => plain_note(b"cep: cannot write the output\n"),
    }
}

/// Writes the line that tells of a status, without taking memory. Done has none. That a write fails changes nothing else.
pub fn tell<N: Sink>(notes: &mut N, status: &Status)
    ensures noted { AppendsPart (N.taken notes.old) (N.taken notes.new) (fault_line status.now) }
    ensures noted_whole { (Rose (N.faults notes.old) (N.faults notes.new) → ⊥) → Appends (N.taken notes.old) (N.taken notes.new) (fault_line status.now) }
    ensures later { N.faults notes.old ≤ N.faults notes.new }
{
    let note = note_of(status);
    let _ = write_all(notes, note.as_slice());
}
