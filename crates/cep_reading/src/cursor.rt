//! The tokens that are left to read.

ghost use Rattle.std.specs.Prelude.{◌≡◌, ◌↔◌, [], IsTrue, ◌<◌, map, length, drop, All};
ghost use Rattle.cep_token.specs.Within.{IsWithin};
ghost use Rattle.cep_reading.specs.Lexeme as spec;
ghost use Rattle.cep_reading.specs.Cursor.{Shows, IsFormed};
ghost use Rattle.cep_reading.specs.Terminal.{symbol, word, is_any_word};
ghost use Rattle.cep_reading.specs.Reading.{Reads, next_is, after, sign, keyword, place_of};

use crate::stop::Stop;
use cep_token::{Token, TokenKind};
use std::marker::Model;

#[derive(Drop)]
pub struct Cursor<'a> {
    source: &'a str,
    left: &'a [Token],
}

impl<'a> Model for Cursor<'a> {
    ghost use Rattle.std.specs.Prelude.{List};
    ghost use Rattle.cep_reading.specs.Lexeme.{Lexeme};

    ghost Value = { List Lexeme };

    ghost use Rattle.cep_reading.specs.Cursor.{lexemes_of, IsReady};

    ghost view = { lexemes_of };

    ghost invariant = { IsReady };
}

impl<'a> Cursor<'a> {
    pub fn new(source: &'a str, left: &'a [Token]) -> Cursor<'a>
        requires { All (IsWithin source.now) left.now }
        ensures { result ≡ map (spec.lexeme_of source.now) left.now }
    {
        Cursor { source, left }
    }

    /// The next token's kind, text and place.
    pub fn next(&self) -> Option<(TokenKind, &'a str, u32)>
        ensures shown { Shows self.now result }
        ensures formed { IsFormed result }
    {
        match self.left {
            [token, ..] => Some((
                token.kind,
                &self.source[token.start as usize..token.end as usize],
                token.start,
            )),
            [] => None,
        }
    }

    pub fn skip(&mut self)
        requires { 0 < length self.old }
        ensures { self.new ≡ drop 1 self.old }
    {
        self.left = &self.left[1..];
    }

    /// The place of the next token, or 0.
    pub fn place(&self) -> u32
        ensures { result ≡ place_of self.now }
    {
        match self.left {
            [token, ..] => token.start,
            [] => 0,
        }
    }

    pub fn is_empty(&self) -> bool
        ensures { IsTrue result ↔ (self.now ≡ []) }
    {
        self.left.is_empty()
    }

    pub fn sees_symbol(&self, text: &str) -> bool
        ensures { result ≡ next_is (symbol text.now) self.now }
    {
        match self.next() {
            Some((TokenKind::Symbol, found, _)) => found.as_bytes() == text.as_bytes(),
            _ => false,
        }
    }

    pub fn sees_word(&self, text: &str) -> bool
        ensures { result ≡ next_is (word text.now) self.now }
    {
        match self.next() {
            Some((TokenKind::Word, found, _)) => found.as_bytes() == text.as_bytes(),
            _ => false,
        }
    }

    pub fn sees_any_word(&self) -> bool
        ensures { result ≡ next_is is_any_word self.now }
    {
        matches!(self.next(), Some((TokenKind::Word, _, _)))
    }

    /// Takes the next token, if it is this symbol.
    pub fn eat_symbol(&mut self, text: &str) -> bool
        ensures seen { result ≡ next_is (symbol text.now) self.old }
        ensures rest { self.new ≡ after (symbol text.now) self.old }
    {
        let found = self.sees_symbol(text);
        if found {
            self.skip();
        }
        found
    }

    /// Takes the next token, if it is this word.
    pub fn eat_word(&mut self, text: &str) -> bool
        ensures seen { result ≡ next_is (word text.now) self.old }
        ensures rest { self.new ≡ after (word text.now) self.old }
    {
        let found = self.sees_word(text);
        if found {
            self.skip();
        }
        found
    }

    #[tactic(auto, unfolding(crate::specs::Reading::one))]
    pub fn expect_symbol(&mut self, text: &str) -> Result<(), Stop>
        ensures { Reads (sign text.now self.old) result self.new }
    {
        if self.eat_symbol(text) {
            Ok(())
        } else {
            Err(Stop::Expected)
        }
    }

    #[tactic(auto, unfolding(crate::specs::Reading::one))]
    pub fn expect_word(&mut self, text: &str) -> Result<(), Stop>
        ensures { Reads (keyword text.now self.old) result self.new }
    {
        if self.eat_word(text) {
            Ok(())
        } else {
            Err(Stop::Expected)
        }
    }
}
