//! What a literal says.

ghost use Rattle.std.specs.Prelude.{◌≡◌, true, false, IfOk};
ghost use Rattle.cep_token.specs.Form.{is_literal};
ghost use Rattle.cep_token.specs.Content as spec;

use cep_event::{NoMemory, Text};
use std::alloc::Global;

/// What stands between the quotes of a literal.
pub fn inside(literal: &str) -> &str
    requires { is_literal literal.now ≡ true }
    ensures { result.now ≡ spec.inside literal.now }
{
    &literal[1..literal.len() - 1]
}

/// The bytes without the backslashes that escape.
fn unescaped(alloc: Global, text: &[u8]) -> Result<Vec<u8>, NoMemory>
    ensures { IfOk result (λ found. found.items ≡ spec.unescaped_from false text.now) }
{
    let mut found = Vec::new(alloc);
    let mut is_escaped = false;
    for byte in text {
        if *byte == b'\\' && !is_escaped {
            is_escaped = true;
        } else {
            found.push(*byte)?;
            is_escaped = false;
        }
    }
    Ok(found)
}

/// The content of a literal: `\"` and `\\` stand for the second of their characters.
pub fn content_of(alloc: Global, literal: &str) -> Result<Text, NoMemory>
    requires { is_literal literal.now ≡ true }
    ensures { IfOk result (λ text. text ≡ spec.content_of literal.now) }
{
    let bytes = unescaped(alloc, inside(literal).as_bytes())?;
    let text = String::from_utf8(bytes).unwrap();
    Text::from_str(alloc, text.as_str())
}
