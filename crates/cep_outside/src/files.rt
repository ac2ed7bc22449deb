ghost use Rattle.std.specs.Prelude.{◌≡◌, ℕ, ◌≤◌, List, Option, IfOk, IsErrOf};
ghost use Rattle.cep_outside.specs.Outside.{Rose, IsLoaded};

#[derive(Clone, Copy, Debug, PartialEq, Eq)]
pub enum FilesFault {
    NoMemory,
    Failed,
}

/// Files by their names.
pub trait Files {
    /// What the file of a name holds, where it is told.
    ghost contents: { Self → List ℕ → Option (List ℕ) };

    /// How often the outside has refused to load a name. It never falls. One count may serve all names.
    ghost faults: { Self → List ℕ → ℕ };

    /// Fills the front of the room with as much of the file as there is, or as fits, and answers its length.
    /// An absent file is `Failed`.
    fn load(&mut self, name: &str, room: &mut [u8]) -> Result<usize, FilesFault>
        ensures front { IfOk result (λ count. IsLoaded (contents self.old name.now) count room.new) }
        ensures same { (other : List ℕ) → contents self.new other ≡ contents self.old other }
        ensures later { (other : List ℕ) → faults self.old other ≤ faults self.new other }
        ensures failed { IsErrOf result FilesFault.Failed → Rose (faults self.old name.now) (faults self.new name.now) };
}
