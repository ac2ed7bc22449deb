ghost use Rattle.std.specs.Prelude.{◌≡◌, ◌+◌, ◌*◌, ◌<◌, ◌≤◌, List, ℕ, Option, length, IfOk, IsErrOf, OnOk, IsTrue, IsFalse};
ghost use Rattle.std.specs.Io.KnownBytes.{IsAtEnd};
ghost use Rattle.cep_outside.specs.Outside.{Rose};
ghost use Rattle.cep_session.specs.Ending.{status_of};
ghost use Rattle.cep_session.specs.Handling.{Given, given};
ghost use Rattle.cep_session.specs.Meaning.{Meaning};
ghost use Rattle.cep_session.specs.Progress.{Ends};
ghost use Rattle.cep_session.specs.Session.{Going, CanGo, Waits, GoesOn, Closes, weight};

use crate::rows::Rows;
use crate::{Ending, Handler};
use cep_outside::{Sink, Source, Take};
use cep_rows::{Lines, Next};

/// The rows that were handled, and the bytes that came behind them.
#[derive(Drop)]
pub(crate) struct Session<H> {
    pub(crate) rows: Rows<H>,
    pub(crate) lines: Lines,
}

impl<H: Drop> Session<H> {
    /// Handles the next line, if all of it has come. It answers whether there was one.
    fn take_next<K: Sink, X, U>(&mut self, output: &mut K, beside: &mut X) -> Result<bool, Ending>
    where
        H: Handler<X, U>,
        requires ready { CanGo H.stands self.old }
        ensures goes { (m : Meaning U) (start left : Option (List ℕ)) (base : Given U)
            → Going H.stands m start left base (given (K.taken output.old) (H.shown beside.old)) self.old
            → GoesOn H.stands m self.old.rows.allowed start left base (given (K.taken output.new) (H.shown beside.new)) self.new result }
        ensures waits { IfOk result (λ more. IsFalse more → Waits self.new) }
        ensures shrinks { IfOk result (λ more. IsTrue more → length self.new.lines < length self.old.lines) }
        ensures weight { OnOk result (weight self.old ≤ weight self.new) }
        ensures allowed { self.new.rows.allowed ≡ self.old.rows.allowed }
        ensures later { K.faults output.old ≤ K.faults output.new }
        ensures cause { result ≡ Err Ending.WriteFault → Rose (K.faults output.old) (K.faults output.new) }
        ensures no_read { result ≡ Err Ending.ReadFault → ⊥ }
    {
        if self.rows.is_full() {
            return if self.lines.is_empty() {
                Ok(false)
            } else {
                Err(Ending::TooManyRows)
            };
        }
        match self.lines.next_line() {
            Ok(Next::Line(line)) => {
                self.rows.take(output, beside, &line)?;
                Ok(true)
            }
            Ok(Next::NotYet) => Ok(false),
            Ok(Next::TooLong) => Err(self.rows.too_long()),
            Err(_) => Err(Ending::NoMemory),
        }
    }

    /// Handles the lines that have come.
    fn take_lines<K: Sink, X, U>(&mut self, output: &mut K, beside: &mut X) -> Result<(), Ending>
    where
        H: Handler<X, U>,
        requires ready { CanGo H.stands self.old }
        ensures goes { (m : Meaning U) (start left : Option (List ℕ)) (base : Given U)
            → Going H.stands m start left base (given (K.taken output.old) (H.shown beside.old)) self.old
            → GoesOn H.stands m self.old.rows.allowed start left base (given (K.taken output.new) (H.shown beside.new)) self.new result }
        ensures waits { OnOk result (Waits self.new) }
        ensures weight { OnOk result (weight self.old ≤ weight self.new) }
        ensures allowed { self.new.rows.allowed ≡ self.old.rows.allowed }
        ensures later { K.faults output.old ≤ K.faults output.new }
        ensures cause { result ≡ Err Ending.WriteFault → Rose (K.faults output.old) (K.faults output.new) }
        ensures no_read { result ≡ Err Ending.ReadFault → ⊥ }
    {
        'lines: loop {
            if !self.take_next(output, beside)? {
                return Ok(());
            }
        }
    }

    /// Reads a piece and handles the lines that end in it. It answers whether there was one.
    fn turn<S: Source, K: Sink, X, U>(
        &mut self,
        input: &mut S,
        output: &mut K,
        beside: &mut X,
        room: &mut [u8],
    ) -> Result<bool, Ending>
    where
        H: Handler<X, U>,
        requires room { 0 < length room.old }
        requires ready { CanGo H.stands self.old }
        requires waits { Waits self.old }
        ensures goes { (m : Meaning U) (start : Option (List ℕ)) (base : Given U)
            → Going H.stands m start (S.left input.old) base (given (K.taken output.old) (H.shown beside.old)) self.old
            → GoesOn H.stands m self.old.rows.allowed start (S.left input.new) base (given (K.taken output.new) (H.shown beside.new)) self.new result }
        ensures waits { OnOk result (Waits self.new) }
        ensures end { IfOk result (λ more. IsFalse more → IsAtEnd (S.left input.new)) }
        ensures weight { IfOk result (λ more. IsTrue more → weight self.old < weight self.new) }
        ensures allowed { self.new.rows.allowed ≡ self.old.rows.allowed }
        ensures later_input { S.faults input.old ≤ S.faults input.new }
        ensures later_output { K.faults output.old ≤ K.faults output.new }
        ensures read { result ≡ Err Ending.ReadFault → Rose (S.faults input.old) (S.faults input.new) }
        ensures write { result ≡ Err Ending.WriteFault → Rose (K.faults output.old) (K.faults output.new) }
    {
        match input.read(room) {
            Take::Got(count) => {
                if self.lines.feed(&room[..count]).is_err() {
                    return Err(Ending::NoMemory);
                }
                self.take_lines(output, beside)?;
                Ok(true)
            }
            Take::End => Ok(false),
            Take::Failed => Err(Ending::ReadFault),
        }
    }

    /// Reads to the end of the input and handles each line that ends in it.
    fn drive<S: Source, K: Sink, X, U>(
        &mut self,
        input: &mut S,
        output: &mut K,
        beside: &mut X,
        room: &mut [u8],
    ) -> Result<(), Ending>
    where
        H: Handler<X, U>,
        requires room { 0 < length room.old }
        requires ready { CanGo H.stands self.old }
        requires waits { Waits self.old }
        ensures goes { (m : Meaning U) (start : Option (List ℕ)) (base : Given U)
            → Going H.stands m start (S.left input.old) base (given (K.taken output.old) (H.shown beside.old)) self.old
            → GoesOn H.stands m self.old.rows.allowed start (S.left input.new) base (given (K.taken output.new) (H.shown beside.new)) self.new result }
        ensures waits { OnOk result (Waits self.new) }
        ensures end { OnOk result (IsAtEnd (S.left input.new)) }
        ensures allowed { self.new.rows.allowed ≡ self.old.rows.allowed }
        ensures later_input { S.faults input.old ≤ S.faults input.new }
        ensures later_output { K.faults output.old ≤ K.faults output.new }
        ensures read { result ≡ Err Ending.ReadFault → Rose (S.faults input.old) (S.faults input.new) }
        ensures write { result ≡ Err Ending.WriteFault → Rose (K.faults output.old) (K.faults output.new) }
    {
        'pieces: loop {
            if !self.turn(input, output, beside, room)? {
                return Ok(());
            }
        }
    }

    /// Handles what stands behind the last line feed, if anything does.
    fn close<K: Sink, X, U>(self, output: &mut K, beside: &mut X) -> Result<Rows<H>, Ending>
    where
        H: Handler<X, U>,
        requires ready { CanGo H.stands self }
        requires waits { Waits self }
        ensures closes { (m : Meaning U) (start left : Option (List ℕ)) (base : Given U) → IsAtEnd left
            → Going H.stands m start left base (given (K.taken output.old) (H.shown beside.old)) self
            → Closes H.stands m self.rows.allowed start left base (given (K.taken output.new) (H.shown beside.new)) result }
        ensures later { K.faults output.old ≤ K.faults output.new }
        ensures cause { IsErrOf result Ending.WriteFault → Rose (K.faults output.old) (K.faults output.new) }
        ensures no_read { IsErrOf result Ending.ReadFault → ⊥ }
    {
        let Session { mut rows, lines } = self;
        match lines.rest() {
            None => Ok(rows),
            Some(line) => {
                rows.take(output, beside, &line)?;
                Ok(rows)
            }
        }
    }

    /// Handles what stands behind the last line feed, and ends.
    fn finish<K: Sink, X, U>(self, output: &mut K, beside: &mut X) -> Ending
    where
        H: Handler<X, U>,
        requires ready { CanGo H.stands self }
        requires waits { Waits self }
        ensures ends { (m : Meaning U) (start left : Option (List ℕ)) (base : Given U) → IsAtEnd left
            → Going H.stands m start left base (given (K.taken output.old) (H.shown beside.old)) self
            → Ends m self.rows.allowed (status_of result) start left base (given (K.taken output.new) (H.shown beside.new)) }
        ensures later { K.faults output.old ≤ K.faults output.new }
        ensures cause { result ≡ Ending.WriteFault → Rose (K.faults output.old) (K.faults output.new) }
        ensures no_read { result ≡ Ending.ReadFault → ⊥ }
    {
        match self.close(output, beside) {
            Ok(rows) => rows.finish(output, beside),
            Err(ending) => ending,
        }
    }

    /// Runs to an answer.
    pub(crate) fn run<S: Source, K: Sink, X, U>(
        mut self,
        input: &mut S,
        output: &mut K,
        beside: &mut X,
        room: &mut [u8],
    ) -> Ending
    where
        H: Handler<X, U>,
        requires room { 0 < length room.old }
        requires ready { CanGo H.stands self }
        requires waits { Waits self }
        ensures ends { (m : Meaning U) (start : Option (List ℕ)) (base : Given U)
            → Going H.stands m start (S.left input.old) base (given (K.taken output.old) (H.shown beside.old)) self
            → Ends m self.rows.allowed (status_of result) start (S.left input.new) base (given (K.taken output.new) (H.shown beside.new)) }
        ensures later_input { S.faults input.old ≤ S.faults input.new }
        ensures later_output { K.faults output.old ≤ K.faults output.new }
        ensures read { result ≡ Ending.ReadFault → Rose (S.faults input.old) (S.faults input.new) }
        ensures write { result ≡ Ending.WriteFault → Rose (K.faults output.old) (K.faults output.new) }
    {
        match self.drive(input, output, beside, room) {
            Ok(()) => self.finish(output, beside),
            Err(ending) => ending,
        }
    }
}
