// Files in memory. They tell their bytes.
ghost use Rattle.std.specs.Prelude.{◌≡◌, ℕ, ◌≤◌, List, length, IfOk, IsErrOf};
ghost use Rattle.std.specs.Result.{result_ok};
ghost use Rattle.cep_outside.specs.Memory.{answer_to_load, after_load};
ghost use Rattle.cep_outside.specs.Named.{content_of};
ghost use Rattle.cep_outside.specs.Outside.{Rose, IsLoaded};

use crate::named::{copy_front, first_named};
use crate::{Files, FilesFault, NamedList};
use cep_event::CallList;
use std::marker::Model;

/// Files in memory. An absent one can't be loaded, the calls whose numbers are listed fail, and no others.
#[derive(Debug, Drop)]
pub struct MemoryFiles {
    files: NamedList,
    fails: CallList,
    calls: u64,
    faults: u64,
}

impl Model for MemoryFiles {
    ghost use Rattle.cep_outside.specs.Memory.{Holding};

    ghost Value = { Holding };

    ghost view = { λ s. record { files = s.files; fails = s.fails; calls = s.calls; faults = s.faults } };
}

impl MemoryFiles {
    pub fn new(files: NamedList, fails: CallList) -> MemoryFiles
        ensures { result ≡ record { files = files; fails = fails; calls = 0; faults = 0 } }
    {
        MemoryFiles {
            files,
            fails,
            calls: 0,
            faults: 0,
        }
    }
}

impl Files for MemoryFiles {
    ghost contents = { λ s name. content_of s.files name };

    ghost faults = { λ s _. s.faults };

    fn load(&mut self, name: &str, room: &mut [u8]) -> Result<usize, FilesFault>
        ensures front { IfOk result (λ count. IsLoaded (content_of self.old.files name.now) count room.new) }
        ensures same { (other : List ℕ) → content_of self.new.files other ≡ content_of self.old.files other }
        ensures later { (other : List ℕ) → self.old.faults ≤ self.new.faults }
        ensures failed { IsErrOf result FilesFault.Failed → Rose self.old.faults self.new.faults }
        ensures exact { result_ok result ≡ answer_to_load self.old name.now (length room.old) }
        ensures after { self.new ≡ after_load self.old (result_ok result) }
        ensures memory { IsErrOf result FilesFault.NoMemory → ⊥ }
    {
        self.calls = self.calls.saturating_add(1);
        if !self.fails.as_slice().contains(&self.calls) {
            if let Some(bytes) = first_named(self.files.as_slice(), name) {
                return Ok(copy_front(bytes.as_slice(), room));
            }
        }
        self.faults = self.faults.saturating_add(1);
        Err(FilesFault::Failed)
    }
}
