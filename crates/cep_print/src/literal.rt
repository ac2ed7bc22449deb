//! Literals, with their escapes.

ghost use Rattle.std.specs.Prelude.{◌≡◌, ◌++◌, string_bytes, IfOk, OnOk};
ghost use Rattle.cep_print.specs.Literal as spec;

use cep_event::{NoMemory, Text};
use std::alloc::Global;

/// Adds the byte, behind a backslash if it is `"` or `\`.
fn push_escaped(found: &mut Vec<u8>, byte: u8) -> Result<(), NoMemory>
    ensures { OnOk result (found.new.items ≡ found.old.items ++ spec.escaped_byte byte) }
{
    if byte == b'"' || byte == b'\\' {
        found.push(b'\\')?;
    }
    found.push(byte)?;
    Ok(())
}

/// The bytes with a backslash before each `"` and `\`.
fn escaped(alloc: Global, text: &[u8]) -> Result<Vec<u8>, NoMemory>
    ensures { IfOk result (λ found. found.items ≡ spec.escaped text.now) }
{
    let mut found = Vec::new(alloc);
    for byte in text {
        push_escaped(&mut found, *byte)?;
    }
    Ok(found)
}

/// Adds the literal that says this text.
pub fn put_literal(alloc: Global, out: &mut String, text: &Text) -> Result<(), NoMemory>
    ensures { OnOk result (string_bytes out.new ≡ string_bytes out.old ++ spec.literal text.now) }
{
    let bytes = escaped(alloc, text.as_str().as_bytes())?;
    let content = String::from_utf8(bytes).unwrap();
    out.push_str("\"")?;
    out.push_str(content.as_str())?;
    out.push_str("\"")?;
    Ok(())
}
