//! What names stand for.

ghost use Rattle.std.specs.Prelude.{◌≡◌};
ghost use Rattle.std.specs.Str.{bytes_eq};
ghost use Rattle.pattern_rules.specs.Named as spec;

use cep_event::Text;
use cep_syntax::{Opener, TypeDecl};

fn is_same(text: &Text, other: &Text) -> bool
    ensures { result ≡ bytes_eq text.now other.now }
{
    text.as_str() == other.as_str()
}

/// The number of the type, or how many types there are.
pub fn type_number(types: &[TypeDecl], name: &Text) -> usize
    ensures { result ≡ spec.type_number types.now name.now }
{
    for (number, declared) in types.iter().enumerate() {
        if is_same(&declared.name.text, name) {
            return number;
        }
    }
    types.len()
}

/// The place of the stage among all openers, or how many there are.
pub fn opener_number(openers: &[Opener], name: &Text) -> usize
    ensures { result ≡ spec.opener_number openers.now name.now }
{
    for (number, opener) in openers.iter().enumerate() {
        if is_same(&opener.name.text, name) {
            return number;
        }
    }
    openers.len()
}
