// Adapters over std's readers, writers and files. They tell no bytes, and are seen as the counts of their faults.
ghost use Rattle.std.specs.Prelude.{◌≡◌, ℕ, ◌≤◌, None, IfOk, length};

use crate::{Failed, Files, FilesFault, Sink, Source, Take};
use std::fs::File;
use std::io::{ErrorKind, Read, Write};
use std::marker::Model;

/// Reads from a reader. Each of its errors is a fault.
#[derive(Drop)]
pub struct StdSource<R> {
    reader: R,
    faults: u64,
}

impl<R> Model for StdSource<R> {
    ghost use Rattle.std.specs.Prelude.{ℕ};

    ghost Value = { ℕ };

    ghost view = { λ s. s.faults };
}

impl<R: Read> StdSource<R> {
    pub fn new(reader: R) -> StdSource<R>
        ensures { result ≡ 0 }
    {
        StdSource { reader, faults: 0 }
    }
}

impl<R: Read> Source for StdSource<R> {
    ghost left = { λ _. None };

    ghost faults = { λ s. s };

    fn read(&mut self, room: &mut [u8]) -> Take {
        match self.reader.read(room) {
            Ok(0) => Take::End,
            Ok(count) => Take::Got(count),
            Err(_) => {
                self.faults = self.faults.saturating_add(1);
                Take::Failed
            }
        }
    }
}

/// Writes to a writer. Each of its errors is a fault, and so is a write that takes nothing.
#[derive(Drop)]
pub struct StdSink<W> {
    writer: W,
    faults: u64,
}

impl<W> Model for StdSink<W> {
    ghost use Rattle.std.specs.Prelude.{ℕ};

    ghost Value = { ℕ };

    ghost view = { λ s. s.faults };
}

impl<W: Write> StdSink<W> {
    pub fn new(writer: W) -> StdSink<W>
        ensures { result ≡ 0 }
    {
        StdSink { writer, faults: 0 }
    }
}

impl<W: Write> Sink for StdSink<W> {
    ghost taken = { λ _. None };

    ghost faults = { λ s. s };

    fn write(&mut self, bytes: &[u8]) -> Result<usize, Failed> {
        match self.writer.write(bytes) {
            Ok(count) if count > 0 => Ok(count),
            _ => {
                self.faults = self.faults.saturating_add(1);
                Err(Failed)
            }
        }
    }
}

/// The files of the system. One count serves all names, and want of memory isn't counted.
#[derive(Drop)]
pub struct DiskFiles<'r> {
    rt: &'r HostRuntime,
    faults: u64,
}

impl<'r> Model for DiskFiles<'r> {
    ghost use Rattle.std.specs.Prelude.{ℕ};

    ghost Value = { ℕ };

    ghost view = { λ s. s.faults };
}

impl<'r> DiskFiles<'r> {
    pub fn new(rt: &'r HostRuntime) -> DiskFiles<'r>
        ensures { result ≡ 0 }
    {
        DiskFiles { rt, faults: 0 }
    }
}

impl Files for DiskFiles<'_> {
    ghost contents = { λ _ _. None };

    ghost faults = { λ s _. s };

    fn load(&mut self, name: &str, room: &mut [u8]) -> Result<usize, FilesFault> {
        match load_file(self.rt, name, room) {
            Err(FilesFault::Failed) => {
                self.faults = self.faults.saturating_add(1);
                Err(FilesFault::Failed)
            }
            other => other,
        }
    }
}

// Fills the room from a file, as far as both reach.
fn load_file(rt: &HostRuntime, name: &str, room: &mut [u8]) -> Result<usize, FilesFault>
    ensures { IfOk result (λ count. count ≤ length room.new) }
{
    let mut file = File::open(rt, name).map_err(|e| fault_of(e.kind()))?;
    let mut filled = 0;
    while filled < room.len() {
        match file.read(&mut room[filled..]) {
            Ok(0) => break,
            Ok(count) => filled += count,
            Err(e) => return Err(fault_of(e.kind())),
        }
    }
    Ok(filled)
}

fn fault_of(kind: ErrorKind) -> FilesFault {
    match kind {
        ErrorKind::OutOfMemory => FilesFault::NoMemory,
        _ => FilesFault::Failed,
    }
}
