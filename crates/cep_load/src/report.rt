ghost use Rattle.std.specs.Prelude.{◌≡◌, ◌++◌, OnOk, IfOk};
ghost use Rattle.cep_load.specs.Summary.{counted, summary_of};

use crate::text::push_number;
use cep_event::{ByteList, NoMemory};
use std::alloc::Global;

fn push_count(text: &mut ByteList, name: &str, number: u64) -> Result<(), NoMemory>
    ensures { OnOk result (text.new ≡ text.old ++ counted name.now number) }
{
    text.extend(name.as_bytes())?;
    text.push(b' ')?;
    push_number(text, number)?;
    text.push(b'\n')
}

/// What a load run writes: how many rows it had, how many late rows, matches and timeouts they came to, and the greatest number
/// of events that were held after a tick.
pub fn summary(
    alloc: Global,
    rows: u64,
    late: u64,
    matches: u64,
    timeouts: u64,
    greatest: u64,
) -> Result<ByteList, NoMemory>
    ensures { IfOk result (λ text. text ≡ summary_of rows late matches timeouts greatest) }
{
    let mut text = ByteList::new(alloc);
    push_count(&mut text, "rows", rows)?;
    push_count(&mut text, "late", late)?;
    push_count(&mut text, "matches", matches)?;
    push_count(&mut text, "timeouts", timeouts)?;
    push_count(&mut text, "greatest held", greatest)?;
    Ok(text)
}
