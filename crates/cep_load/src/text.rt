ghost use Rattle.std.specs.Prelude.{◌≡◌, ◌++◌, ◌∷◌, length, codes, decimal, OnOk, IfOk};
ghost use Rattle.cep_load.specs.Draw.{behind};
ghost use Rattle.cep_load.specs.Records.{left_by, record_by, value_by, values_by};
ghost use Rattle.cep_load.specs.Lines.{event_text, line_of, text_of, values_text};

use crate::draw::{drawn, step};
use cep_event::{ByteList, EventType, Field, Kind, NoMemory};
use itoa::Buffer;

pub(crate) fn push_number(text: &mut ByteList, number: u64) -> Result<(), NoMemory>
    ensures { OnOk result (text.new ≡ text.old ++ decimal number) }
{
    let mut digits = Buffer::new();
    text.extend(digits.format(number).as_bytes())
}

// What a field of this kind holds by a draw.
fn push_value(text: &mut ByteList, kind: Kind, draw: u64) -> Result<(), NoMemory>
    ensures { OnOk result (text.new ≡ text.old ++ text_of (value_by kind draw)) }
{
    match kind {
        Kind::Int => push_number(text, draw % 1000),
        Kind::Text => {
            text.push(b'k')?;
            push_number(text, draw % 8)
        }
    }
}

fn push_next_value(text: &mut ByteList, kind: Kind, draw: u64) -> Result<(), NoMemory>
    ensures { OnOk result (text.new ≡ text.old ++ 44 ∷ text_of (value_by kind draw)) }
{
    text.push(b',')?;
    push_value(text, kind, draw)
}

// The values of these fields, each behind a comma, and the state that their draws leave.
fn push_values(text: &mut ByteList, fields: &[Field], state: u64) -> Result<u64, NoMemory>
    ensures text { OnOk result (text.new ≡ text.old ++ values_text (values_by fields.now state)) }
    ensures state { IfOk result (λ left. left ≡ behind (length fields.now) state) }
{
    let mut left = state;
    for field in fields {
        push_next_value(text, field.kind, drawn(left))?;
        left = step(left);
    }
    Ok(left)
}

// An event of this type at the time of its number, and the state that its draws leave.
fn push_event(
    text: &mut ByteList,
    declared: &EventType,
    number: u32,
    state: u64,
) -> Result<u64, NoMemory>
    ensures text { OnOk result (text.new ≡ text.old ++ event_text declared.now.name number (values_by declared.now.fields state)) }
    ensures state { IfOk result (λ left. left ≡ behind (length declared.now.fields) state) }
{
    text.extend(declared.name.as_str().as_bytes())?;
    text.push(b',')?;
    push_number(text, u64::from(number))?;
    push_values(text, declared.fields.as_slice(), state)
}

fn push_mark(text: &mut ByteList, number: u32) -> Result<(), NoMemory>
    ensures { OnOk result (text.new ≡ text.old ++ (codes "@," ++ decimal number)) }
{
    text.extend(b"@,")?;
    push_number(text, u64::from(number))
}

/// The line of the record with this number, and the state that its draws leave.
pub(crate) fn push_line(
    text: &mut ByteList,
    types: &[EventType],
    number: u32,
    state: u64,
) -> Result<u64, NoMemory>
    ensures text { OnOk result (text.new ≡ text.old ++ line_of types.now (record_by types.now number state)) }
    ensures state { IfOk result (λ left. left ≡ left_by types.now state) }
{
    if types.is_empty() {
        push_mark(text, number)?;
        return Ok(state);
    }
    let chosen = (drawn(state) % types.len() as u64) as usize;
    let behind = step(state);
    push_event(text, &types[chosen], number, behind)
}
