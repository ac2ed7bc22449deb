//! Numbers in words.

ghost use Rattle.std.specs.Prelude.{◌≡◌};
ghost use Rattle.cep_words.specs.Number as spec;

// The number that one or more ASCII digits write, within 64 bits.
fn number_in(text: &str) -> Option<u64>
    ensures { result ≡ spec.number_within 0 18446744073709551615 text.now }
{
    if text.starts_with('+') {
        return None;
    }
    text.parse::<u64>().ok()
}

/// The number that the text writes, if it is within the bounds, both included.
pub(crate) fn number_within(least: u64, most: u64, text: &str) -> Option<u64>
    ensures { result ≡ spec.number_within least most text.now }
{
    let number = number_in(text)?;
    if least <= number && number <= most {
        Some(number)
    } else {
        None
    }
}

/// The same within 32 bits.
pub(crate) fn small_within(least: u32, most: u32, text: &str) -> Option<u32>
    ensures { result ≡ spec.number_within least most text.now }
{
    let number = number_within(u64::from(least), u64::from(most), text)?;
    Some(number as u32)
}
