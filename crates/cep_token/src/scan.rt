ghost use Rattle.std.specs.Prelude.{◌≡◌, ◌≢◌, ◌≤◌, length, IfOk, All};
ghost use Rattle.cep_token.specs.Within.{IsWithin, AreInOrder};
ghost use Rattle.cep_token.specs.Tokens.{tokens_of};

use crate::piece::{Piece, first_piece};
use crate::token::{Token, TokenFault, TokenList};
use std::alloc::Global;

/// The tokens of a pattern's text, from the left; the first fault ends the reading.
///
/// Spaces, tabs, CR, LF and comments stand between tokens: `//` begins a comment that lasts to before the next LF. The rules are this project's own.
pub fn tokens(alloc: Global, text: &str) -> Result<TokenList, TokenFault>
    requires { length text.now ≤ 65536 }
    ensures exact { result ≢ Err TokenFault.NoMemory → result ≡ tokens_of text.now }
    ensures within { IfOk result (All (IsWithin text.now)) }
    ensures order { IfOk result (AreInOrder 0) }
{
    let text = text.as_bytes();
    let mut found = TokenList::new(alloc);
    let mut place = 0;
    while place < text.len() {
        match first_piece(&text[place..]) {
            Piece::Gap(len) => place += len,
            Piece::Token(kind, len) => {
                found.push(Token {
                    kind,
                    start: place as u32,
                    end: (place + len) as u32,
                })?;
                place += len;
            }
            Piece::Fault(code, offset) => {
                return Err(TokenFault::Bad {
                    place: (place + offset) as u32,
                    code,
                });
            }
        }
    }
    Ok(found)
}

#[cfg(test)]
mod tests {
    use super::*;
    use crate::content::content_of;
    use crate::token::TokenKind;
    use std::test::Fail;

    /// The kind and the span of each token, or the fault.
    fn shown(alloc: Global, text: &str) -> Result<String, Fail>
        requires { length text.now ≤ 65536 }
    {
        let mut line = String::new(alloc);
        match tokens(alloc, text) {
            Ok(found) => {
                for token in found.as_slice() {
                    let kind = match token.kind {
                        TokenKind::Word => "W",
                        TokenKind::Number => "N",
                        TokenKind::Literal => "L",
                        TokenKind::Symbol => "S",
                    };
                    let word = format!(in alloc; "{kind}{}-{} ", token.start, token.end)?;
                    line.push_str(&word)?;
                }
            }
            Err(TokenFault::NoMemory) => line.push_str("no memory")?,
            Err(TokenFault::Bad { place, code }) => {
                let word = format!(in alloc; "code {code} at {place}")?;
                line.push_str(&word)?;
            }
        }
        Ok(line)
    }

    #[test]
    fn texts_have_these_tokens(rt: HostRuntime) -> Result<(), Fail> {
        let table = [
            ("", ""),
            (" \t\r\n", ""),
            ("// a", ""),
            ("a// b\r\nc//", "W0-1 W7-8 "),
            ("_a1 9b", "W0-3 N4-5 W5-6 "),
            ("<=!===>=>", "S0-2 S2-4 S4-6 S6-8 S8-9 "),
            ("&&||!<", "S0-2 S2-4 S4-5 S5-6 "),
            (
                "(),;.+-*/%",
                "S0-1 S1-2 S2-3 S3-4 S4-5 S5-6 S6-7 S7-8 S8-9 S9-10 ",
            ),
            ("\"a // (\" b", "L0-8 W9-10 "),
            ("\"\\\"\\\\\"x", "L0-6 W6-7 "),
            ("\"é\"é", "code 1 at 4"),
            ("9223372036854775807", "N0-19 "),
            ("a 0009223372036854775808", "code 3 at 2"),
            ("99999999999999999999999999999999999999999", "code 3 at 0"),
            ("a # b", "code 1 at 2"),
            ("a & b", "code 1 at 2"),
            ("=", "code 1 at 0"),
            ("\"a\\n\"", "code 1 at 2"),
            ("x \"a\\\"", "code 2 at 2"),
            ("x \"a\\", "code 2 at 2"),
            ("\"a # \"\"b", "code 2 at 6"),
            ("\u{0}", "code 1 at 0"),
        ];
        for (text, want) in table {
            assert!(rt; text.len() <= 65536);
            let found = shown(rt.alloc(), text)?;
            assert_eq!(rt; found.as_str(), want, "the tokens of {text}");
        }
        Ok(())
    }

    #[test]
    fn escapes_are_replaced(rt: HostRuntime) -> Result<(), Fail> {
        let content = content_of(rt.alloc(), "\"é\\\"(\\\\\"")?;
        assert_eq!(rt; content.as_str(), "é\"(\\");
        Ok(())
    }
}
