ghost use Rattle.std.specs.Prelude.{◌≡◌, ◌↔◌, ◌+◌, ◌<◌, ◌≤◌, List, ℕ, length, IsTrue, OnOk};
ghost use Rattle.cep_outside.specs.Outside.{Rose};
ghost use Rattle.cep_session.specs.Handling.{given};
ghost use Rattle.cep_session.specs.Meaning.{Meaning};
ghost use Rattle.cep_session.specs.Rows.{Stands, IsTaken, IsFinished};

use crate::{EndFault, Ending, Handler, LineFault};
use cep_outside::Sink;
use cep_rows::{Line, RowCause};

/// A handler, and how many lines it has handled of how many that are allowed.
#[derive(Drop)]
pub(crate) struct Rows<H> {
    pub(crate) handler: H,
    pub(crate) handled: u32,
    pub(crate) allowed: u32,
}

impl<H: Drop> Rows<H> {
    pub(crate) fn is_full(&self) -> bool
        ensures { IsTrue result ↔ (self.now.handled ≡ self.now.allowed) }
    {
        self.handled == self.allowed
    }

    /// The answer where the next line is too long.
    pub(crate) fn too_long<X, U>(&self) -> Ending
    where
        H: Handler<X, U>,
        requires { self.now.handled < self.now.allowed }
        ensures { (m : Meaning U) (lines : List (List ℕ)) → Stands H.stands m lines self.now → result ≡ Ending.BadRow (self.now.handled + 1) m.too_long }
    {
        let cause = self.handler.too_long();
        self.refused(cause)
    }

    // The answer where the next line is refused.
    fn refused(&self, cause: RowCause) -> Ending
        requires { self.now.handled < self.now.allowed }
        ensures { result ≡ Ending.BadRow (self.now.handled + 1) cause }
    {
        let row = self.handled + 1;
        Ending::BadRow { row, cause }
    }

    /// Handles one line more, writes the text that it causes and shows what it causes besides. After an `Err` the run is over.
    pub(crate) fn take<K: Sink, X, U>(
        &mut self,
        output: &mut K,
        beside: &mut X,
        line: &Line,
    ) -> Result<(), Ending>
    where
        H: Handler<X, U>,
        requires short { length line.now ≤ 65536 }
        requires room { self.old.handled < self.old.allowed }
        requires ready { (m : Meaning U) × (lines : List (List ℕ)) × Stands H.stands m lines self.old }
        ensures taken { (m : Meaning U) (lines : List (List ℕ)) → Stands H.stands m lines self.old
            → IsTaken m lines line.now (λ now. Stands H.stands m now self.new)
            (given (K.taken output.old) (H.shown beside.old)) (given (K.taken output.new) (H.shown beside.new)) result }
        ensures count { OnOk result (self.new.handled ≡ self.old.handled + 1) }
        ensures allowed { self.new.allowed ≡ self.old.allowed }
        ensures later { K.faults output.old ≤ K.faults output.new }
        ensures cause { result ≡ Err Ending.WriteFault → Rose (K.faults output.old) (K.faults output.new) }
    {
        match self.handler.line(line, output, beside) {
            Ok(()) => {
                self.handled += 1;
                Ok(())
            }
            Err(LineFault::NoMemory) => Err(Ending::NoMemory),
            Err(LineFault::Unwritten) => Err(Ending::WriteFault),
            Err(LineFault::Refused(cause)) => Err(self.refused(cause)),
        }
    }

    /// Writes and shows what is owed once the lines are all.
    pub(crate) fn finish<K: Sink, X, U>(self, output: &mut K, beside: &mut X) -> Ending
    where
        H: Handler<X, U>,
        requires { (m : Meaning U) × (lines : List (List ℕ)) × Stands H.stands m lines self }
        ensures finished { (m : Meaning U) (lines : List (List ℕ)) → Stands H.stands m lines self
            → IsFinished m lines (given (K.taken output.old) (H.shown beside.old)) (given (K.taken output.new) (H.shown beside.new)) result }
        ensures later { K.faults output.old ≤ K.faults output.new }
        ensures cause { result ≡ Ending.WriteFault → Rose (K.faults output.old) (K.faults output.new) }
        ensures no_read { result ≡ Ending.ReadFault → ⊥ }
    {
        let Rows {
            handler,
            handled: _,
            allowed: _,
        } = self;
        match handler.end(output, beside) {
            Ok(()) => Ending::Done,
            Err(EndFault::NoMemory) => Ending::NoMemory,
            Err(EndFault::Unwritten) => Ending::WriteFault,
        }
    }
}
