use cep_event::{ByteList, CallList, NoMemory, Text};
use cep_outside::*;
use std::alloc::Global;
use std::io::{self, ErrorKind, Read, Write};
use std::test::Fail;

fn calls(alloc: Global, call: u64) -> Result<CallList, NoMemory> {
    CallList::from_slice(alloc, &[call])
}

#[test]
fn a_source_gives_its_bytes_in_pieces(rt: HostRuntime) -> Result<(), Fail> {
    let bytes = ByteList::from_slice(rt.alloc(), b"abcde")?;
    let mut source = MemorySource::new(bytes, 3, calls(rt.alloc(), 2)?);
    let mut room = [0u8; 8];
    assert!(rt; source.read(&mut room) == Take::Got(3));
    assert!(rt; &room[..3] == b"abc".as_slice());
    assert!(rt; source.read(&mut room) == Take::Failed);
    assert!(rt; source.left() == b"de".as_slice());
    assert!(rt; source.read(&mut room[..1]) == Take::Got(1));
    assert!(rt; source.read(&mut room) == Take::Got(1));
    assert!(rt; source.read(&mut room) == Take::End);
    Ok(())
}

#[test]
fn a_sink_takes_what_it_has_room_for(rt: HostRuntime) -> Result<(), Fail> {
    let mut sink = MemorySink::new(rt.alloc(), 5, 2, calls(rt.alloc(), 2)?)?;
    assert!(rt; sink.write(b"abc") == Ok(2));
    assert!(rt; sink.write(b"c").is_err());
    assert!(rt; write_all(&mut sink, b"cdefg").is_err());
    assert!(rt; sink.taken() == b"abcde".as_slice());
    let mut wide = MemorySink::new(rt.alloc(), 5, 2, CallList::new(rt.alloc()))?;
    assert!(rt; write_all(&mut wide, b"abcde").is_ok());
    assert!(rt; wide.taken() == b"abcde".as_slice());
    Ok(())
}

#[test]
fn files_in_memory_are_loaded_by_name(rt: HostRuntime) -> Result<(), Fail> {
    let mut files = NamedList::new(rt.alloc());
    for (name, bytes) in [("p", "first"), ("q", "other"), ("p", "second")] {
        let name = Text::from_str(rt.alloc(), name)?;
        let bytes = ByteList::from_slice(rt.alloc(), bytes.as_bytes())?;
        files.push(Named { name, bytes })?;
    }
    let mut files = MemoryFiles::new(files, calls(rt.alloc(), 2)?);
    let mut room = [0u8; 8];
    assert!(rt; files.load("p", &mut room) == Ok(5));
    assert!(rt; &room[..5] == b"first".as_slice());
    assert!(rt; files.load("p", &mut room) == Err(FilesFault::Failed));
    assert!(rt; files.load("q", &mut room[..3]) == Ok(3));
    assert!(rt; files.load("r", &mut room) == Err(FilesFault::Failed));
    Ok(())
}

// Gives so many bytes, one at a read, and then fails.
#[derive(Drop)]
struct FailingReader {
    left: usize,
}

impl Read for FailingReader {
    fn read(&mut self, buf: &mut [u8]) -> io::Result<usize> {
        if self.left == 0 {
            return Err(io::Error::from(ErrorKind::BrokenPipe));
        }
        if buf.is_empty() {
            return Ok(0);
        }
        self.left -= 1;
        buf[0] = b'x';
        Ok(1)
    }
}

#[test]
fn a_reader_fails_after_some_bytes(rt: HostRuntime) {
    let mut source = StdSource::new(FailingReader { left: 2 });
    let mut room = [0u8; 4];
    assert!(rt; source.read(&mut room) == Take::Got(1));
    assert!(rt; source.read(&mut room) == Take::Got(1));
    assert!(rt; source.read(&mut room) == Take::Failed);
    assert!(rt; source.read(&mut room) == Take::Failed);
    assert!(rt; room[0] == b'x');
    let mut empty = StdSource::new(io::empty());
    assert!(rt; empty.read(&mut room) == Take::End);
}

// Takes so many bytes and then fails.
#[derive(Drop)]
struct FailingWriter {
    room: usize,
}

impl Write for FailingWriter {
    fn write(&mut self, buf: &[u8]) -> io::Result<usize> {
        if self.room == 0 {
            return Err(io::Error::from(ErrorKind::BrokenPipe));
        }
        let count = buf.len().min(self.room);
        self.room -= count;
        Ok(count)
    }

    fn flush(&mut self) -> io::Result<()> {
        Ok(())
    }
}

#[test]
fn a_writer_takes_a_few_bytes_and_then_fails(rt: HostRuntime) {
    let mut sink = StdSink::new(FailingWriter { room: 3 });
    assert!(rt; sink.write(b"ab") == Ok(2));
    assert!(rt; sink.write(b"cd") == Ok(1));
    assert!(rt; sink.write(b"d").is_err());
    let mut other = StdSink::new(FailingWriter { room: 3 });
    assert!(rt; write_all(&mut other, b"abcd").is_err());
}

#[test]
fn a_file_that_is_absent_fails(rt: HostRuntime) {
    let mut files = DiskFiles::new(&rt);
    let mut room = [0u8; 4];
    assert!(rt; files.load("no/such/file", &mut room) == Err(FilesFault::Failed));
}
