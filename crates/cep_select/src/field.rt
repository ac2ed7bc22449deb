ghost use Rattle.std.specs.Prelude.{◌≡◌, ◌∷◌, ◌++◌, [], OnOk, decimal};
ghost use Rattle.std.specs.Fmt.{signed_decimal};
ghost use Rattle.csv.specs.Writing.{default_writer, escaped, field_text, quoted};
ghost use Rattle.cep_select.specs.Pieces.{next_field, opened};

use cep_event::{ByteList, NoMemory};
use itoa::Buffer;
use line_fields::needs_quotes;

pub(crate) fn push_number(text: &mut ByteList, number: u32) -> Result<(), NoMemory>
    ensures { OnOk result (text.new ≡ text.old ++ decimal number) }
{
    let mut digits = Buffer::new();
    text.extend(digits.format(number).as_bytes())
}

pub(crate) fn push_signed(text: &mut ByteList, number: i64) -> Result<(), NoMemory>
    ensures { OnOk result (text.new ≡ text.old ++ signed_decimal number) }
{
    let mut digits = Buffer::new();
    text.extend(digits.format(number).as_bytes())
}

// A byte of a field in quotes.
#[tactic(auto, unfolding(csv::specs::Writing::escaped))]
fn push_byte(text: &mut ByteList, byte: u8) -> Result<(), NoMemory>
    ensures { OnOk result (text.new ≡ text.old ++ escaped default_writer (byte ∷ [])) }
{
    if byte == b'"' {
        return text.extend(b"\"\"");
    }
    text.push(byte)
}

fn push_escaped(text: &mut ByteList, bytes: &[u8]) -> Result<(), NoMemory>
    ensures { OnOk result (text.new ≡ text.old ++ escaped default_writer bytes.now) }
{
    for byte in bytes {
        push_byte(text, *byte)?;
    }
    Ok(())
}

/// A comma, and the front of a field that begins with this name.
pub(crate) fn push_opened(text: &mut ByteList, quoted: bool, name: &[u8]) -> Result<(), NoMemory>
    ensures { OnOk result (text.new ≡ text.old ++ opened quoted name.now) }
{
    text.push(b',')?;
    if !quoted {
        return text.extend(name);
    }
    text.push(b'"')?;
    push_escaped(text, name)
}

/// A comma and a field.
pub(crate) fn push_field(text: &mut ByteList, field: &[u8]) -> Result<(), NoMemory>
    ensures { OnOk result (text.new ≡ text.old ++ next_field field.now) }
{
    let quoted = needs_quotes(field);
    push_opened(text, quoted, field)?;
    if quoted { text.push(b'"') } else { Ok(()) }
}
