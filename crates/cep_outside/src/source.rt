ghost use Rattle.std.specs.Prelude.{◌≡◌, ℕ, ◌<◌, ◌≤◌, List, Option, length};
ghost use Rattle.cep_outside.specs.Outside.{Rose, Takes};

/// The answer of a read: so many bytes, the end, or a fault.
#[derive(Clone, Copy, Debug, PartialEq, Eq)]
pub enum Take {
    Got(usize),
    End,
    Failed,
}

/// Where bytes come from.
pub trait Source {
    /// The bytes left, where they are told.
    ghost left: { Self → Option (List ℕ) };

    /// How often the outside has refused a read. It never falls.
    ghost faults: { Self → ℕ };

    /// Moves bytes to the front of the room. `Failed` leaves the bytes as they are, and a later read may go on.
    fn read(&mut self, room: &mut [u8]) -> Take
        requires { 0 < length room.old }
        ensures bytes { Takes (left self.old) (left self.new) result room.new }
        ensures later { faults self.old ≤ faults self.new }
        ensures failed { result ≡ Take.Failed → Rose (faults self.old) (faults self.new) };
}
