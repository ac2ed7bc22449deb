ghost use Rattle.std.specs.Prelude.{◌≡◌};
ghost use Rattle.cep_syntax.specs.Depth.{too_deep_from};

use cep_reading::Cursor;

/// How many parentheses may be open.
pub const DEEPEST: u32 = 32;

/// The place of the first parenthesis that opens too deep.
pub fn too_deep(cursor: &mut Cursor<'_>) -> Option<u32>
    ensures { result ≡ too_deep_from 0 cursor.old }
{
    let mut depth = 0;
    while !cursor.is_empty() {
        if cursor.sees_symbol("(") {
            if depth == DEEPEST {
                return Some(cursor.place());
            }
            depth += 1;
        } else if cursor.sees_symbol(")") && depth > 0 {
            depth -= 1;
        }
        cursor.skip();
    }
    None
}
