ghost use Rattle.std.specs.Prelude.{◌≡◌, ◌≢◌, ◌<◌, ◌≤◌, [], List, ℕ, Some, length, IfOk};
ghost use Rattle.cep_rows.specs.Lines.{raw_lines};
ghost use Rattle.cep_outside.specs.Outside.{DidNotRise, Rose};
ghost use Rattle.cep_session.specs.Ending.{status_of};
ghost use Rattle.cep_session.specs.Meaning.{Meaning, verdict};
ghost use Rattle.cep_session.specs.Handling.{given};
ghost use Rattle.cep_session.specs.Progress.{Ended};

use crate::rows::Rows;
use crate::session::Session;
use crate::{Ending, Handler};
use cep_event::NoMemory;
use cep_outside::{Sink, Source};
use cep_rows::Lines;
use std::alloc::Global;

/// How many bytes a read asks for at most.
const PIECE: usize = 65536;

/// Hands each line of the input to the handler, at most so many, writes the text that they cause and shows what they cause
/// besides. The text of a line is written before the next line is handled, and before any read that follows the one that gave
/// the end of the line.
pub fn run<H: Handler<X, U>, S: Source, K: Sink, X, U>(
    alloc: Global,
    handler: H,
    allowed: u32,
    input: &mut S,
    output: &mut K,
    beside: &mut X,
) -> Ending
    requires { (m : Meaning U) × H.stands handler m [] }

    // What holds at each answer, where the input tells its bytes. Only what it says of the bytes written and of what was shown asks
    // that these are told.
    ensures outcome { (m : Meaning U) (all : List ℕ) → H.stands handler m [] → S.left input.old ≡ Some all
        → Ended m allowed (status_of result) all (S.left input.new)
        (given (K.taken output.old) (H.shown beside.old)) (given (K.taken output.new) (H.shown beside.new)) }

    // No fault comes by itself.
    ensures read { result ≡ Ending.ReadFault → Rose (S.faults input.old) (S.faults input.new) }
    ensures write { result ≡ Ending.WriteFault → Rose (K.faults output.old) (K.faults output.new) }

    // Where there is none, and there is memory, the answer is the verdict.
    ensures complete { (m : Meaning U) (all : List ℕ) → H.stands handler m [] → S.left input.old ≡ Some all
        → DidNotRise (S.faults input.old) (S.faults input.new) → DidNotRise (K.faults output.old) (K.faults output.new)
        → result ≢ Ending.NoMemory → status_of result ≡ verdict m allowed (raw_lines all) }

    // No count of faults falls.
    ensures later_input { S.faults input.old ≤ S.faults input.new }
    ensures later_output { K.faults output.old ≤ K.faults output.new }
{
    let rows = Rows {
        handler,
        handled: 0,
        allowed,
    };
    let session = Session {
        rows,
        lines: Lines::new(alloc),
    };
    match new_room(alloc) {
        Ok(mut room) => session.run(input, output, beside, &mut room),
        Err(_) => Ending::NoMemory,
    }
}

// A piece is large, so its room stands on the heap.
fn new_room(alloc: Global) -> Result<Vec<u8>, NoMemory>
    ensures { IfOk result (λ room. 0 < length room.items) }
{
    let room = vec![in alloc; 0u8; PIECE]?;
    Ok(room)
}
