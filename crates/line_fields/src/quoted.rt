ghost use Rattle.std.specs.Prelude.{◌≡◌, [], length, map, IfOk, IsTrue};
ghost use Rattle.line_fields.specs.Line.{fields_from_field};
ghost use Rattle.line_fields.specs.Pieces.{Within, unquoted, pieces};
ghost use Rattle.line_fields.specs.Quoted.{next_state};

use crate::piece::Ends;
use cep_event::NoMemory;

// Where a reader of CSV is in a line.
#[derive(Clone, Copy)]
enum State {
    StartField,
    InField,
    InQuoted,
    AfterQuote,
}

// The state after a byte, or none where a field may be other bytes than those of its piece.
fn next_state(state: State, byte: u8) -> Option<State>
    ensures { result ≡ next_state state byte }
{
    match state {
        State::StartField => match byte {
            b',' => Some(State::StartField),
            b'"' => Some(State::InQuoted),
            b'\r' | b'\n' => None,
            _ => Some(State::InField),
        },
        State::InField => match byte {
            b',' => Some(State::StartField),
            b'"' | b'\r' | b'\n' => None,
            _ => Some(State::InField),
        },
        State::InQuoted => match byte {
            b'"' => Some(State::AfterQuote),
            _ => Some(State::InQuoted),
        },
        State::AfterQuote => match byte {
            b',' => Some(State::StartField),
            _ => None,
        },
    }
}

/// Fills in where the pieces of a line end, and says whether each piece is its field, or its field in quotes.
pub(crate) fn split_quoted(ends: &mut Ends, line: &[u8]) -> Result<bool, NoMemory>
    requires { ends.old.items ≡ [] }
    ensures read { IfOk result (λ lent. IsTrue lent → map unquoted (pieces 0 ends.new.items line.now) ≡ fields_from_field line.now) }
    ensures within { IfOk result (λ lent. IsTrue lent → Within 0 ends.new.items (length line.now)) }
{
    let mut state = State::StartField;
    for (place, byte) in line.iter().enumerate() {
        state = match next_state(state, *byte) {
            Some(next) => next,
            None => return Ok(false),
        };
        if matches!(state, State::StartField) {
            ends.push(place)?;
        }
    }
    if matches!(state, State::InQuoted) {
        return Ok(false);
    }
    ends.push(line.len())?;
    Ok(true)
}
