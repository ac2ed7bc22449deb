//! Names and numbers.

ghost use Rattle.std.specs.Prelude.{◌≡◌, true, slice_index};
ghost use Rattle.std.specs.List.{list_all};
ghost use Rattle.cep_token.specs.Piece as piece;
ghost use Rattle.cep_token.specs.Form.{is_word_byte, is_number};
ghost use Rattle.cep_reading.specs.Terminal as terminal;
ghost use Rattle.cep_reading.specs.Reading.{Reads, one};

use crate::cursor::Cursor;
use crate::stop::Stop;
use cep_event::Text;
use cep_token::{TokenKind, content_of, value_of};
use std::alloc::Global;

/// A name and the place where it stands, a byte offset from 0.
#[derive(Debug, Drop)]
pub struct Name {
    pub text: Text,
    pub place: u32,
}

/// How many bytes the name of a stage may have.
pub const LONGEST_NAME: usize = 64;

fn may_follow_in_word(byte: u8) -> bool
    ensures { result ≡ is_word_byte byte }
{
    byte.is_ascii_alphanumeric() || byte == b'_'
}

fn has_word_bytes(text: &[u8]) -> bool
    ensures { result ≡ list_all is_word_byte text.now }
{
    text.iter().all(|byte| may_follow_in_word(*byte))
}

fn begins_word(text: &[u8]) -> bool
    ensures { result ≡ piece.begins_word (slice_index text.now 0) }
{
    match text {
        [] => false,
        [first, ..] => first.is_ascii_alphabetic() || *first == b'_',
    }
}

fn is_name(text: &[u8]) -> bool
    ensures { result ≡ terminal.is_name text.now }
{
    begins_word(text) && has_word_bytes(text) && text.len() <= LONGEST_NAME
}

/// The value of a Number.
pub fn number_value(digits: &str) -> u64
    requires { is_number digits.now ≡ true }
    ensures { result ≡ piece.value_of digits.now }
{
    value_of(digits.as_bytes())
}

/// A Word.
#[tactic(auto, unfolding(crate::specs::Reading::one, crate::specs::Terminal::any_word))]
pub fn any_word(alloc: Global, cursor: &mut Cursor<'_>) -> Result<Name, Stop>
    ensures { Reads (one terminal.any_word cursor.old) result cursor.new }
{
    match cursor.next() {
        Some((TokenKind::Word, text, place)) => {
            let text = Text::from_str(alloc, text)?;
            cursor.skip();
            Ok(Name { text, place })
        }
        _ => Err(Stop::Expected),
    }
}

/// A Number.
#[tactic(auto, unfolding(crate::specs::Reading::one, crate::specs::Terminal::number))]
pub fn number(cursor: &mut Cursor<'_>) -> Result<u64, Stop>
    ensures { Reads (one terminal.number cursor.old) result cursor.new }
{
    match cursor.next() {
        Some((TokenKind::Number, text, _)) => {
            let value = number_value(text);
            cursor.skip();
            Ok(value)
        }
        _ => Err(Stop::Expected),
    }
}

/// A Name: a Literal whose content has the form of a Word and at most 64 bytes.
#[tactic(auto, unfolding(crate::specs::Reading::one, crate::specs::Terminal::stage_name))]
pub fn stage_name(alloc: Global, cursor: &mut Cursor<'_>) -> Result<Name, Stop>
    ensures { Reads (one terminal.stage_name cursor.old) result cursor.new }
{
    match cursor.next() {
        Some((TokenKind::Literal, text, place)) => {
            let text = content_of(alloc, text)?;
            if !is_name(text.as_str().as_bytes()) {
                return Err(Stop::Expected);
            }
            cursor.skip();
            Ok(Name { text, place })
        }
        _ => Err(Stop::Expected),
    }
}
