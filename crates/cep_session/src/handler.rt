ghost use Rattle.std.specs.Prelude.{◌≡◌, ℕ, ◌-◌, ◌^◌, ◌<◌, ◌≤◌, List, length, Err, Option};
ghost use Rattle.cep_outside.specs.Outside.{Rose};
ghost use Rattle.cep_session.specs.Handling.{IsHandled, IsEnded, given};
ghost use Rattle.cep_session.specs.Meaning.{Meaning};

use cep_outside::Sink;
use cep_rows::{Line, RowCause};

/// Why a line isn't handled.
#[derive(Clone, Copy, Debug, PartialEq, Eq)]
pub enum LineFault {
    NoMemory,
    /// The output refused some of the text that the line causes.
    Unwritten,
    Refused(RowCause),
}

/// Why the text that is owed at the end isn't all written.
#[derive(Clone, Copy, Debug, PartialEq, Eq)]
pub enum EndFault {
    NoMemory,
    Unwritten,
}

/// Turns lines into text, one after another, and shows `U`s to an `X` besides.
pub trait Handler<X, U>: Drop {
    /// With this meaning, it has handled these lines and no others.
    ghost stands: { Self → Meaning U → List (List ℕ) → Type 0 };

    /// What was shown, where that is told.
    ghost shown: { X → Option (List U) };

    /// The cause for which a line that is too long is refused. Such a line never comes to `line`.
    fn too_long(&self) -> RowCause
        ensures { (m : Meaning U) (lines : List (List ℕ)) → stands self.now m lines → result ≡ m.too_long };

    /// Handles one line more, writes the text that it causes and shows what it causes besides. A line that is refused writes and
    /// shows nothing. After an `Err` it may only be dropped.
    fn line<K: Sink>(
        &mut self,
        line: &Line,
        output: &mut K,
        beside: &mut X,
    ) -> Result<(), LineFault>
        requires short { length line.now ≤ 65536 }
        requires ready { (m : Meaning U) × (lines : List (List ℕ)) × stands self.old m lines × (length lines < 2 ^ 32 - 1) }
        ensures handled { (m : Meaning U) (lines : List (List ℕ)) → stands self.old m lines
            → IsHandled m lines line.now (stands self.new m)
            (given (K.taken output.old) (shown beside.old)) (given (K.taken output.new) (shown beside.new)) result }
        ensures later { K.faults output.old ≤ K.faults output.new }
        ensures cause { result ≡ Err LineFault.Unwritten → Rose (K.faults output.old) (K.faults output.new) };

    /// There are no more lines: writes the text that is owed then, and shows what is owed besides.
    fn end<K: Sink>(self, output: &mut K, beside: &mut X) -> Result<(), EndFault>
        requires { (m : Meaning U) × (lines : List (List ℕ)) × stands self m lines }
        ensures ended { (m : Meaning U) (lines : List (List ℕ)) → stands self m lines
            → IsEnded m lines (given (K.taken output.old) (shown beside.old)) (given (K.taken output.new) (shown beside.new)) result }
        ensures later { K.faults output.old ≤ K.faults output.new }
        ensures cause { result ≡ Err EndFault.Unwritten → Rose (K.faults output.old) (K.faults output.new) };
}
