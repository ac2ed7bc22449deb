ghost use Rattle.std.specs.Prelude.{◌≡◌, ◌≤◌, ◌<◌, map, length, All, IfOk};
ghost use Rattle.std.specs.Str.{IsUtf8};
ghost use Rattle.std.specs.Str.Lossy.{utf8_valid_len};
ghost use Rattle.cep_token.specs.Within.{IsWithin, AreInOrder};
ghost use Rattle.cep_reading.specs.Lexeme.{lexeme_of};
ghost use Rattle.cep_reading.specs.Reading.{Reads};
ghost use Rattle.cep_syntax.specs.Reads.{AreRead};
ghost use Rattle.cep_syntax.specs.Reader as spec;
ghost use Rattle.cep_syntax.specs.Answer as answer;
ghost use Rattle.cep_syntax.specs.WellFormed.{IsWellFormed};
ghost use Rattle.cep_syntax.specs.Whole.{IsRead, IsReadBy, IsRefused};

use crate::declaration::declarations;
use crate::depth::too_deep;
use crate::fault::{EXPECTED, GREEDY, NOT_UTF8, SyntaxFault, TOO_DEEP, TOO_LONG};
use crate::file::File;
use crate::pattern::pattern;
use crate::tail::{maybe_select, maybe_skip};
use cep_reading::{Cursor, Stop};
use cep_token::{Token, TokenFault, tokens};
use std::alloc::Global;

/// How many bytes a pattern file may have.
pub const LONGEST_FILE: usize = 65_536;

#[tactic(auto, unfolding(crate::specs::Reader::file))]
fn file(alloc: Global, cursor: &mut Cursor<'_>, room: usize) -> Result<File, Stop>
    ensures { Reads (spec.file room cursor.old) result cursor.new }
{
    let types = declarations(alloc, cursor, room)?;
    let (openers, limits) = pattern(alloc, cursor, room)?;
    let skip = maybe_skip(alloc, cursor)?;
    let select = maybe_select(alloc, cursor, room)?;
    Ok(File {
        types,
        openers,
        within: limits.within,
        within_gap: limits.within_gap,
        skip,
        select,
    })
}

fn fault_of(stop: Stop, cursor: &Cursor<'_>, end: u32) -> SyntaxFault
    ensures { result ≡ answer.fault_of stop cursor.now end }
{
    let place = if cursor.is_empty() {
        end
    } else {
        cursor.place()
    };
    match stop {
        Stop::NoMemory => SyntaxFault::NoMemory,
        Stop::Greedy => SyntaxFault::Bad {
            place,
            code: GREEDY,
        },
        Stop::Expected | Stop::Spent => SyntaxFault::Bad {
            place,
            code: EXPECTED,
        },
    }
}

/// The file that the tokens of a text denote.
fn read_tokens(alloc: Global, source: &str, tokens: &[Token]) -> Result<File, SyntaxFault>
    requires within { All (IsWithin source.now) tokens.now }
    requires order { AreInOrder 0 tokens.now }
    requires short { length source.now ≤ 65536 }
    ensures read { AreRead (map (lexeme_of source.now) tokens.now) (length source.now) result }
    ensures formed { IfOk result IsWellFormed }
{
    let mut cursor = Cursor::new(source, tokens);
    let end = source.len() as u32;
    match file(alloc, &mut cursor, tokens.len() + 1) {
        Ok(file) => {
            if cursor.is_empty() {
                Ok(file)
            } else {
                Err(fault_of(Stop::Expected, &cursor, end))
            }
        }
        Err(stop) => Err(fault_of(stop, &cursor, end)),
    }
}

/// The same, once it is known that no parenthesis opens too deep.
fn read_within(alloc: Global, source: &str, tokens: &[Token]) -> Result<File, SyntaxFault>
    requires within { All (IsWithin source.now) tokens.now }
    requires order { AreInOrder 0 tokens.now }
    requires short { length source.now ≤ 65536 }
    ensures read { IsReadBy (Ok tokens.now) source.now result }
    ensures formed { IfOk result IsWellFormed }
{
    let mut cursor = Cursor::new(source, tokens);
    match too_deep(&mut cursor) {
        Some(place) => Err(SyntaxFault::Bad {
            place,
            code: TOO_DEEP,
        }),
        None => read_tokens(alloc, source, tokens),
    }
}

/// The file that a text denotes.
fn read_text(alloc: Global, text: &str) -> Result<File, SyntaxFault>
    requires { length text.now ≤ 65536 }
    ensures read { IsRead text.now result }
    ensures formed { IfOk result IsWellFormed }
{
    match tokens(alloc, text) {
        Ok(tokens) => read_within(alloc, text, tokens.as_slice()),
        Err(TokenFault::NoMemory) => Err(SyntaxFault::NoMemory),
        Err(TokenFault::Bad { place, code }) => Err(SyntaxFault::Bad { place, code }),
    }
}

/// The pattern file that the bytes denote: exactly the files of the grammar are accepted, and each denotes one file.
///
/// What is refused is told by a code and a place, in this order: `TOO_LONG`, `NOT_UTF8`, the codes of the tokens, `TOO_DEEP`, and then the first place of `GREEDY` or `EXPECTED`. The grammar is this project's own; its words are those of the FlinkCEP chapter of the Flink manual.
pub fn read(alloc: Global, bytes: &[u8]) -> Result<File, SyntaxFault>
    ensures long { 65536 < length bytes.now → IsRefused 65536 TOO_LONG result }
    ensures not_text { length bytes.now ≤ 65536
        → ¬ (IsUtf8 bytes.now)
        → IsRefused (utf8_valid_len bytes.now) NOT_UTF8 result }
    ensures text { length bytes.now ≤ 65536 → IsUtf8 bytes.now → IsRead bytes.now result }
    ensures formed { IfOk result IsWellFormed }
{
    if bytes.len() > LONGEST_FILE {
        return Err(SyntaxFault::Bad {
            place: LONGEST_FILE as u32,
            code: TOO_LONG,
        });
    }
    match std::str::from_utf8(bytes) {
        Ok(text) => read_text(alloc, text),
        Err(error) => Err(SyntaxFault::Bad {
            place: error.valid_up_to() as u32,
            code: NOT_UTF8,
        }),
    }
}
