//! The signs of expressions.

ghost use Rattle.std.specs.Prelude.{◌≡◌};
ghost use Rattle.cep_reading.specs.Reading.{Reads, next_is, one};
ghost use Rattle.cep_expression.specs.Terminal as terminal;

use crate::expr::{Cmp, How};
use cep_reading::{Cursor, Stop};

/// `!` and `-` before an operand.
#[derive(Clone, Copy, Debug)]
pub enum Prefix {
    Not,
    Neg,
}

pub fn sees_prefix_sign(cursor: &Cursor<'_>) -> bool
    ensures { result ≡ next_is terminal.is_prefix_sign cursor.now }
{
    cursor.sees_symbol("!") || cursor.sees_symbol("-")
}

#[tactic(auto, unfolding(cep_reading::specs::Reading::one, crate::specs::Terminal::prefix_sign))]
pub fn prefix_sign(cursor: &mut Cursor<'_>) -> Result<Prefix, Stop>
    ensures { Reads (one terminal.prefix_sign cursor.old) result cursor.new }
{
    if cursor.eat_symbol("!") {
        Ok(Prefix::Not)
    } else if cursor.eat_symbol("-") {
        Ok(Prefix::Neg)
    } else {
        Err(Stop::Expected)
    }
}

pub fn sees_factor_sign(cursor: &Cursor<'_>) -> bool
    ensures { result ≡ next_is terminal.is_factor_sign cursor.now }
{
    cursor.sees_symbol("*") || cursor.sees_symbol("/") || cursor.sees_symbol("%")
}

#[tactic(auto, unfolding(cep_reading::specs::Reading::one, crate::specs::Terminal::factor_sign))]
pub fn factor_sign(cursor: &mut Cursor<'_>) -> Result<How, Stop>
    ensures { Reads (one terminal.factor_sign cursor.old) result cursor.new }
{
    if cursor.eat_symbol("*") {
        Ok(How::Times)
    } else if cursor.eat_symbol("/") {
        Ok(How::Over)
    } else if cursor.eat_symbol("%") {
        Ok(How::Rest)
    } else {
        Err(Stop::Expected)
    }
}

pub fn sees_term_sign(cursor: &Cursor<'_>) -> bool
    ensures { result ≡ next_is terminal.is_term_sign cursor.now }
{
    cursor.sees_symbol("+") || cursor.sees_symbol("-")
}

/// Whether the sign is a minus.
#[tactic(auto, unfolding(cep_reading::specs::Reading::one, crate::specs::Terminal::term_sign))]
pub fn term_sign(cursor: &mut Cursor<'_>) -> Result<bool, Stop>
    ensures { Reads (one terminal.term_sign cursor.old) result cursor.new }
{
    if cursor.eat_symbol("+") {
        Ok(false)
    } else if cursor.eat_symbol("-") {
        Ok(true)
    } else {
        Err(Stop::Expected)
    }
}

pub fn sees_comparator(cursor: &Cursor<'_>) -> bool
    ensures { result ≡ next_is terminal.is_comparator cursor.now }
{
    cursor.sees_symbol("==")
        || cursor.sees_symbol("!=")
        || cursor.sees_symbol("<")
        || cursor.sees_symbol("<=")
        || cursor.sees_symbol(">")
        || cursor.sees_symbol(">=")
}

#[tactic(auto, unfolding(cep_reading::specs::Reading::one, crate::specs::Terminal::comparator))]
pub fn comparator(cursor: &mut Cursor<'_>) -> Result<Cmp, Stop>
    ensures { Reads (one terminal.comparator cursor.old) result cursor.new }
{
    if cursor.eat_symbol("==") {
        Ok(Cmp::Eq)
    } else if cursor.eat_symbol("!=") {
        Ok(Cmp::Ne)
    } else if cursor.eat_symbol("<") {
        Ok(Cmp::Lt)
    } else if cursor.eat_symbol("<=") {
        Ok(Cmp::Le)
    } else if cursor.eat_symbol(">") {
        Ok(Cmp::Gt)
    } else if cursor.eat_symbol(">=") {
        Ok(Cmp::Ge)
    } else {
        Err(Stop::Expected)
    }
}
