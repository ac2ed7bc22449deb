//! The numbers that stand for names.

ghost use Rattle.std.specs.Prelude.{◌≡◌, ◌≤◌, length};
ghost use Rattle.std.specs.List.{count_by};
ghost use Rattle.pattern_check.specs.Numbers as spec;

use cep_event::{Kind, Text};
use cep_syntax::{Name, Opener, TypeDecl};
use cep_token::GREATEST_NUMBER;
use pattern_rules::{KnownFields, MOST_TIMES, is_negated, opener_number, type_number};

/// A number of an expression. Those of a file are below 2^63.
pub fn whole(number: u64) -> i64
    ensures { result ≡ spec.whole number }
{
    number.min(GREATEST_NUMBER) as i64
}

/// A number of a loop. Those of an accepted file are at most 256.
pub fn times(number: u64) -> u32
    ensures { result ≡ spec.times number }
{
    number.min(MOST_TIMES) as u32
}

pub fn is_positive(opener: &Opener) -> bool
    ensures { result ≡ spec.is_positive opener.now }
{
    !is_negated(opener.how)
}

fn positive_ones(openers: &[Opener]) -> u16
    requires { length openers.now ≤ 64 }
    ensures { result ≡ count_by spec.is_positive openers.now }
{
    let mut count = 0;
    for opener in openers {
        if is_positive(opener) {
            count += 1;
        }
    }
    count
}

/// How many positive stages stand before the one of this name.
pub fn stages_before(openers: &[Opener], name: &Text) -> u16
    requires { length openers.now ≤ 64 }
    ensures { result ≡ spec.stages_before openers.now name.now }
{
    positive_ones(&openers[..opener_number(openers, name)])
}

fn number_in(found: Option<(u16, Kind)>) -> u16
    ensures { result ≡ spec.number_in found }
{
    match found {
        None => 0,
        Some((number, _)) => number,
    }
}

pub fn field_number(fields: &KnownFields, name: &Text) -> u16
    ensures { result ≡ spec.field_number fields.now name.now }
{
    number_in(fields.meaning(name))
}

pub fn of_number(types: &[TypeDecl], of: &Option<Name>) -> Option<u16>
    requires { length types.now ≤ 65535 }
    ensures { result ≡ spec.of_number types.now of.now }
{
    match of {
        None => None,
        Some(name) => Some(type_number(types, &name.text) as u16),
    }
}
