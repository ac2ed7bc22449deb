ghost use Rattle.std.specs.Prelude.{◌≡◌, [], false, length, IfOk, IsTrue};
ghost use Rattle.std.specs.List.{list_any, slice_split};
ghost use Rattle.line_fields.specs.Pieces.{Within, pieces};
ghost use Rattle.line_fields.specs.Plain.{is_comma, sets_apart};

use crate::piece::Ends;
use cep_event::NoMemory;

/// Fills in where the pieces of a line end, and says whether no byte is a quote or ends a record.
pub(crate) fn split_at_commas(ends: &mut Ends, line: &[u8]) -> Result<bool, NoMemory>
    requires { ends.old.items ≡ [] }
    ensures plain { IfOk result (λ plain. IsTrue plain → list_any sets_apart line.now ≡ false) }
    ensures cut { IfOk result (λ plain. IsTrue plain → pieces 0 ends.new.items line.now ≡ slice_split is_comma line.now) }
    ensures within { IfOk result (λ plain. IsTrue plain → Within 0 ends.new.items (length line.now)) }
{
    for (place, byte) in line.iter().enumerate() {
        match *byte {
            b',' => ends.push(place)?,
            b'"' | b'\r' | b'\n' => return Ok(false),
            _ => {}
        }
    }
    ends.push(line.len())?;
    Ok(true)
}
