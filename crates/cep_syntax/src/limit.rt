//! The limits of time at the end of a pattern.

ghost use Rattle.std.specs.Prelude.{◌≡◌};
ghost use Rattle.cep_reading.specs.Reading.{Reads, next_is};
ghost use Rattle.cep_syntax.specs.Terminal.{is_limit};
ghost use Rattle.cep_syntax.specs.Links as links;
ghost use Rattle.cep_syntax.specs.Reader as spec;

use crate::file::PlacedNumber;
use cep_reading::{Cursor, Stop, number};

/// The limits that a pattern has.
#[derive(Clone, Copy, Debug, PartialEq, Eq)]
pub struct Limits {
    pub within: Option<PlacedNumber>,
    pub within_gap: Option<PlacedNumber>,
}

pub fn sees_limit(cursor: &Cursor<'_>) -> bool
    ensures { result ≡ next_is is_limit cursor.now }
{
    cursor.sees_word("within") || cursor.sees_word("withinGap")
}

#[tactic(auto, unfolding(crate::specs::Reader::limited))]
fn limited(cursor: &mut Cursor<'_>, word: &str) -> Result<PlacedNumber, Stop>
    ensures { Reads (spec.limited word.now cursor.old) result cursor.new }
{
    cursor.expect_word(word)?;
    cursor.expect_symbol("(")?;
    let place = cursor.place();
    let value = number(cursor)?;
    cursor.expect_symbol(")")?;
    Ok(PlacedNumber { value, place })
}

#[tactic(auto, unfolding(crate::specs::Reader::gap_behind))]
fn gap_behind(cursor: &mut Cursor<'_>) -> Result<Option<PlacedNumber>, Stop>
    ensures { Reads (spec.gap_behind cursor.old) result cursor.new }
{
    if cursor.sees_symbol(".") {
        cursor.expect_symbol(".")?;
        let gap = limited(cursor, "withinGap")?;
        Ok(Some(gap))
    } else {
        Ok(None)
    }
}

/// The limits behind a dot: both, or one of them. `withinGap` comes last.
#[tactic(auto, unfolding(crate::specs::Reader::ending))]
pub fn ending(cursor: &mut Cursor<'_>) -> Result<Limits, Stop>
    ensures { Reads (spec.ending cursor.old) result cursor.new }
{
    if cursor.sees_word("within") {
        let within = limited(cursor, "within")?;
        let gap = gap_behind(cursor)?;
        Ok(Limits {
            within: Some(within),
            within_gap: gap,
        })
    } else {
        let gap = limited(cursor, "withinGap")?;
        Ok(Limits {
            within: None,
            within_gap: Some(gap),
        })
    }
}

pub fn limits_of(ended: Option<Limits>) -> Limits
    ensures { result ≡ links.limits_of ended }
{
    match ended {
        None => Limits {
            within: None,
            within_gap: None,
        },
        Some(limits) => limits,
    }
}
