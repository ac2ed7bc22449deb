// A source and files in memory that never fail. They tell their bytes.
ghost use Rattle.std.specs.Prelude.{◌≡◌, ℕ, ◌<◌, ◌≤◌, List, Some, min, length, IfOk, IsErrOf};
ghost use Rattle.std.specs.Result.{result_ok};
ghost use Rattle.cep_outside.specs.Outside.{Rose, IsLoaded, Takes};
ghost use Rattle.cep_outside.specs.Sure.{flowing_after, sure_content, sure_take};

use crate::memory::fill_front;
use crate::named::{copy_front, first_named};
use crate::{Files, FilesFault, NamedList, Source, Take};
use cep_event::ByteList;
use std::marker::Model;

/// Gives these bytes, at most `piece` at a read. No read fails.
#[derive(Debug, Drop)]
pub struct SureSource {
    bytes: ByteList,
    at: usize,
    piece: usize,
}

impl Model for SureSource {
    ghost use Rattle.std.specs.Prelude.{◌<◌, ◌≤◌, length, drop};
    ghost use Rattle.cep_outside.specs.Sure.{Flowing};

    ghost Value = { Flowing };

    ghost view = { λ s. record { left = drop s.at s.bytes; piece = s.piece } };

    ghost invariant = { λ s. (s.at ≤ length s.bytes) × (0 < s.piece) };
}

impl SureSource {
    pub fn new(bytes: ByteList, piece: usize) -> SureSource
        requires { 0 < piece }
        ensures { result ≡ record { left = bytes; piece = piece } }
    {
        SureSource {
            bytes,
            at: 0,
            piece,
        }
    }
}

impl Source for SureSource {
    ghost left = { λ s. Some s.left };

    ghost faults = { λ _. 0 };

    fn read(&mut self, room: &mut [u8]) -> Take
        requires { 0 < length room.old }
        ensures bytes { Takes (Some self.old.left) (Some self.new.left) result room.new }
        ensures later { 0 ≤ 0 }
        ensures failed { result ≡ Take.Failed → Rose 0 0 }
        ensures sure { result ≡ Take.Failed → ⊥ }
        ensures exact { result ≡ sure_take self.old (length room.old) }
        ensures after { self.new ≡ flowing_after self.old (min (min self.old.piece (length room.old)) (length self.old.left)) }
    {
        let left = &self.bytes.as_slice()[self.at..];
        let count = self.piece.min(room.len()).min(left.len());
        if count == 0 {
            return Take::End;
        }
        fill_front(room, &left[..count]);
        self.at += count;
        Take::Got(count)
    }
}

/// Files in memory. One whose name isn't listed is empty, and no load fails.
#[derive(Debug, Drop)]
pub struct SureFiles {
    files: NamedList,
}

impl Model for SureFiles {
    ghost use Rattle.std.specs.Prelude.{List};
    ghost use Rattle.cep_outside.specs.declared.named.Named.{Named};

    ghost Value = { List Named };

    ghost view = { λ s. s.files };
}

impl SureFiles {
    pub fn new(files: NamedList) -> SureFiles
        ensures { result ≡ files }
    {
        SureFiles { files }
    }
}

impl Files for SureFiles {
    ghost contents = { λ s name. Some (sure_content s name) };

    ghost faults = { λ _ _. 0 };

    fn load(&mut self, name: &str, room: &mut [u8]) -> Result<usize, FilesFault>
        ensures front { IfOk result (λ count. IsLoaded (Some (sure_content self.old name.now)) count room.new) }
        ensures same { (other : List ℕ) → Some (sure_content self.new other) ≡ Some (sure_content self.old other) }
        ensures later { (other : List ℕ) → 0 ≤ 0 }
        ensures failed { IsErrOf result FilesFault.Failed → Rose 0 0 }
        ensures sure { result_ok result ≡ Some (min (length (sure_content self.old name.now)) (length room.old)) }
        ensures unchanged { self.new ≡ self.old }
    {
        let bytes = first_named(self.files.as_slice(), name).map_or(
            &[] as &[u8],
            |bytes| bytes.as_slice(),
        );
        Ok(copy_front(bytes, room))
    }
}
