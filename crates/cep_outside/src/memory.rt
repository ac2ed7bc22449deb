// Sources and sinks in memory. They tell their bytes.
ghost use Rattle.std.specs.Prelude.{◌≡◌, ℕ, ◌<◌, ◌≤◌, [], Some, length, take, IfOk, OnErr};
ghost use Rattle.std.specs.Result.{result_ok};
ghost use Rattle.std.specs.Io.KnownBytes.{WriteAppends};
ghost use Rattle.cep_outside.specs.Memory.{answer_to_read, after_read, answer_to_write, after_write};
ghost use Rattle.cep_outside.specs.Outside.{Rose, Takes};

use crate::{Failed, Sink, Source, Take};
use cep_event::{ByteList, CallList, NoMemory};
use std::alloc::Global;
use std::marker::Model;

/// Gives these bytes, at most `piece` at a read. The calls whose numbers are listed fail, and no others.
#[derive(Debug, Drop)]
pub struct MemorySource {
    bytes: ByteList,
    at: usize,
    piece: usize,
    fails: CallList,
    calls: u64,
    faults: u64,
}

impl Model for MemorySource {
    ghost use Rattle.std.specs.Prelude.{◌<◌, ◌≤◌, length, drop};
    ghost use Rattle.cep_outside.specs.Memory.{Giving};

    ghost Value = { Giving };

    ghost view = { λ s. record { left = drop s.at s.bytes; piece = s.piece; fails = s.fails; calls = s.calls; faults = s.faults } };

    ghost invariant = { λ s. (s.at ≤ length s.bytes) × (0 < s.piece) };
}

impl MemorySource {
    pub fn new(bytes: ByteList, piece: usize, fails: CallList) -> MemorySource
        requires { 0 < piece }
        ensures { result ≡ record { left = bytes; piece = piece; fails = fails; calls = 0; faults = 0 } }
    {
        MemorySource {
            bytes,
            at: 0,
            piece,
            fails,
            calls: 0,
            faults: 0,
        }
    }

    pub fn left(&self) -> &[u8]
        ensures { result.now ≡ self.now.left }
    {
        &self.bytes.as_slice()[self.at..]
    }
}

impl Source for MemorySource {
    ghost left = { λ s. Some s.left };

    ghost faults = { λ s. s.faults };

    fn read(&mut self, room: &mut [u8]) -> Take
        requires { 0 < length room.old }
        ensures bytes { Takes (Some self.old.left) (Some self.new.left) result room.new }
        ensures later { self.old.faults ≤ self.new.faults }
        ensures failed { result ≡ Take.Failed → Rose self.old.faults self.new.faults }
        ensures exact { result ≡ answer_to_read self.old (length room.old) }
        ensures after { self.new ≡ after_read self.old result }
    {
        self.calls = self.calls.saturating_add(1);
        if self.fails.as_slice().contains(&self.calls) {
            self.faults = self.faults.saturating_add(1);
            return Take::Failed;
        }
        let left = &self.bytes.as_slice()[self.at..];
        let count = self.piece.min(room.len()).min(left.len());
        if count == 0 {
            return Take::End;
        }
        fill_front(room, &left[..count]);
        self.at += count;
        Take::Got(count)
    }
}

// Writes these bytes over the front of the room.
pub(crate) fn fill_front(room: &mut [u8], bytes: &[u8])
    requires { length bytes.now ≤ length room.old }
    ensures { take (length bytes.now) room.new ≡ bytes.now }
{
    room[..bytes.len()].copy_from_slice(bytes);
}

/// Takes as many bytes as it has room for, at most `piece` at a write. The calls whose numbers are listed fail too.
#[derive(Debug, Drop)]
pub struct MemorySink {
    room: Vec<u8>,
    used: usize,
    piece: usize,
    fails: CallList,
    calls: u64,
    faults: u64,
}

impl Model for MemorySink {
    ghost use Rattle.std.specs.Prelude.{◌<◌, ◌≤◌, length, take};
    ghost use Rattle.cep_outside.specs.Memory.{Taking};

    ghost Value = { Taking };

    ghost view = { λ s. record { taken = take s.used s.room.items; room = length s.room.items; piece = s.piece; fails = s.fails; calls = s.calls; faults = s.faults } };

    ghost invariant = { λ s. (s.used ≤ length s.room.items) × (0 < s.piece) };
}

impl MemorySink {
    /// Takes the memory for `room` bytes, so that its writes take none.
    pub fn new(
        alloc: Global,
        room: usize,
        piece: usize,
        fails: CallList,
    ) -> Result<MemorySink, NoMemory>
        requires { 0 < piece }
        ensures { IfOk result (λ sink. sink ≡ record { taken = []; room = room; piece = piece; fails = fails; calls = 0; faults = 0 }) }
    {
        let room = vec![in alloc; 0u8; room]?;
        Ok(MemorySink {
            room,
            used: 0,
            piece,
            fails,
            calls: 0,
            faults: 0,
        })
    }

    pub fn taken(&self) -> &[u8]
        ensures { result.now ≡ self.now.taken }
    {
        &self.room[..self.used]
    }
}

impl Sink for MemorySink {
    ghost taken = { λ s. Some s.taken };

    ghost faults = { λ s. s.faults };

    fn write(&mut self, bytes: &[u8]) -> Result<usize, Failed>
        requires { 0 < length bytes.now }
        ensures count { IfOk result (λ count. (0 < count) × (count ≤ length bytes.now)) }
        ensures bytes { WriteAppends (Some self.old.taken) (Some self.new.taken) result bytes.now }
        ensures later { self.old.faults ≤ self.new.faults }
        ensures failed { OnErr result (Rose self.old.faults self.new.faults) }
        ensures exact { result_ok result ≡ answer_to_write self.old (length bytes.now) }
        ensures after { self.new ≡ after_write self.old bytes.now (result_ok result) }
    {
        self.calls = self.calls.saturating_add(1);
        let free = self.room.len() - self.used;
        if free == 0 || self.fails.as_slice().contains(&self.calls) {
            self.faults = self.faults.saturating_add(1);
            return Err(Failed);
        }
        let count = self.piece.min(bytes.len()).min(free);
        self.room[self.used..self.used + count].copy_from_slice(&bytes[..count]);
        self.used += count;
        Ok(count)
    }
}
