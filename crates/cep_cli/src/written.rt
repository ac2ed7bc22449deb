ghost use Rattle.std.specs.Prelude.{◌≡◌, ◌≤◌, ◌++◌, [], length, IfOk, OnOk, OnErr, Err};
ghost use Rattle.std.specs.Io.KnownBytes.{Appends};
ghost use Rattle.cep_outside.specs.Outside.{Rose, AppendsPart};
ghost use Rattle.cep_select.specs.Output.{row_of};
ghost use Rattle.cep_select.specs.Pieces.{IsShort};
ghost use Rattle.cep_cli.specs.Written.{IsAdded, Gathers, IsCut, row_told};

use cep_event::ByteList;
use cep_outside::{Sink, write_all};
use cep_plan::{Item, Plan};
use cep_select::{late_row, push_item};
use event_pipeline::{Outputs, TellFault};
use std::alloc::Global;
use std::mem;

// How many bytes are gathered at most before they are written.
const PIECE: usize = 65_536;

/// Writes rows to a sink, as many at once as fit 64 KiB.
#[derive(Drop)]
pub(crate) struct RowWriter {
    alloc: Global,
    // The rows that aren't written yet.
    gathered: ByteList,
    // Room for one row; what it holds means nothing.
    spare: ByteList,
}

// The list without its bytes. It keeps its memory.
fn cleared(list: ByteList) -> ByteList
    ensures { result ≡ [] }
{
    let mut bytes = list.into_vec();
    bytes.clear();
    ByteList::from_vec(bytes)
}

fn write<K: Sink>(output: &mut K, bytes: &[u8]) -> Result<(), TellFault>
    ensures whole { OnOk result (Appends (K.taken output.old) (K.taken output.new) bytes.now) }
    ensures part { AppendsPart (K.taken output.old) (K.taken output.new) bytes.now }
    ensures later { K.faults output.old ≤ K.faults output.new }
    ensures cause { result ≡ Err TellFault.Failed → Rose (K.faults output.old) (K.faults output.new) }
{
    match write_all(output, bytes) {
        Ok(()) => Ok(()),
        Err(_) => Err(TellFault::Failed),
    }
}

impl RowWriter {
    /// A writer that has gathered nothing.
    pub(crate) fn new(alloc: Global) -> RowWriter
        ensures { result.gathered ≡ [] }
    {
        RowWriter {
            alloc,
            gathered: ByteList::new(alloc),
            spare: ByteList::new(alloc),
        }
    }

    /// Writes what is gathered.
    pub(crate) fn flush<K: Sink>(&mut self, output: &mut K) -> Result<(), TellFault>
        ensures whole { OnOk result (Appends (K.taken output.old) (K.taken output.new) self.old.gathered) }
        ensures part { AppendsPart (K.taken output.old) (K.taken output.new) self.old.gathered }
        ensures empty { OnOk result (self.new.gathered ≡ []) }
        ensures later { K.faults output.old ≤ K.faults output.new }
        ensures cause { result ≡ Err TellFault.Failed → Rose (K.faults output.old) (K.faults output.new) }
    {
        let empty = self.gathered.emptied();
        let bytes = mem::replace(&mut self.gathered, empty);
        write(output, bytes.as_slice())?;
        self.gathered = cleared(bytes);
        Ok(())
    }

    // Gathers a row behind the others.
    fn gather(&mut self, row: &[u8]) -> Result<(), TellFault>
        ensures ok { OnOk result (self.new.gathered ≡ self.old.gathered ++ row.now) }
        ensures err { OnErr result (result ≡ Err TellFault.NoMemory) }
    {
        match self.gathered.extend(row) {
            Ok(()) => Ok(()),
            Err(_) => Err(TellFault::NoMemory),
        }
    }

    // Gathers a row where nothing is gathered, or writes it where it is too long for that.
    fn put<K: Sink>(&mut self, row: &[u8], output: &mut K) -> Result<(), TellFault>
        requires { self.old.gathered ≡ [] }
        ensures { IsAdded K.taken K.faults (self.old, output.old) (self.new, output.new) row.now result }
    {
        if row.len() > PIECE {
            return write(output, row);
        }
        self.gather(row)
    }

    // Gathers a row. Where it doesn't fit behind the others they are written first.
    fn add<K: Sink>(&mut self, row: &[u8], output: &mut K) -> Result<(), TellFault>
        ensures { IsAdded K.taken K.faults (self.old, output.old) (self.new, output.new) row.now result }
    {
        if row.len() <= PIECE.saturating_sub(self.gathered.len()) {
            return self.gather(row);
        }
        self.flush(output)?;
        self.put(row, output)
    }

    // The row of an item, in the spare room.
    fn row_of(&mut self, plan: &Plan, item: &Item) -> Result<ByteList, TellFault>
        requires few { length plan.now.stages ≤ 65536 }
        requires short { IsShort item.now }
        ensures row { IfOk result (λ row. row ≡ row_of plan.now item.now) }
        ensures fault { OnErr result (result ≡ Err TellFault.NoMemory) }
        ensures gathered { self.new.gathered ≡ self.old.gathered }
    {
        let empty = self.spare.emptied();
        let mut row = cleared(mem::replace(&mut self.spare, empty));
        match push_item(&mut row, plan, item) {
            Ok(()) => Ok(row),
            Err(_) => Err(TellFault::NoMemory),
        }
    }
}

impl<K: Sink> Outputs<K> for RowWriter {
    ghost tells = { λ plan a b one. Gathers K.taken K.faults a b (row_told plan one) };

    ghost stops = { λ plan fault a b one. IsCut K.taken K.faults fault a b (row_told plan one) };

    fn late(&mut self, output: &mut K, row: u32) -> Result<(), TellFault> {
        match late_row(self.alloc, row) {
            Ok(text) => self.add(text.as_slice(), output),
            Err(_) => Err(TellFault::NoMemory),
        }
    }

    fn item(&mut self, output: &mut K, plan: &Plan, item: &Item) -> Result<(), TellFault> {
        let row = self.row_of(plan, item)?;
        let outcome = self.add(row.as_slice(), output);
        self.spare = row;
        outcome
    }
}
