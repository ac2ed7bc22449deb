ghost use Rattle.std.specs.Prelude.{◌≡◌, ◌≤◌, ◌^◌, pos, neg_ℤ, IfSome};
ghost use Rattle.cep_records.specs.Number.{number_in, size_in, word_if};

/// How far the least number of 64 bits is from 0.
const FURTHEST: u64 = 1 << 63;

/// A size to which no digit can be put without passing `FURTHEST`.
const FULL: u64 = FURTHEST / 10;

/// The number that a text writes: an optional sign and then one or more ASCII digits, within 64 bits.
pub(crate) fn number_in(text: &[u8]) -> Option<i64>
    ensures { result ≡ number_in text.now }
{
    match text {
        [b'-', digits @ ..] => negative(size_in(digits)?),
        [b'+', digits @ ..] => positive(size_in(digits)?),
        _ => positive(size_in(text)?),
    }
}

fn positive(size: u64) -> Option<i64>
    ensures { result ≡ word_if (pos size) }
{
    if size < FURTHEST {
        Some(size as i64)
    } else {
        None
    }
}

fn negative(size: u64) -> Option<i64>
    requires { size ≤ 2 ^ 63 }
    ensures { result ≡ word_if (neg_ℤ (pos size)) }
{
    if size < FURTHEST {
        Some(-(size as i64))
    } else {
        Some(i64::MIN)
    }
}

// The number that digits write, up to the furthest that a word can be from 0.
fn size_in(digits: &[u8]) -> Option<u64>
    ensures value { result ≡ size_in digits.now }
    ensures bound { IfSome result (λ size. size ≤ 2 ^ 63) }
{
    if digits.is_empty() {
        return None;
    }
    let mut size: u64 = 0;
    for digit in digits {
        if *digit < b'0' || *digit > b'9' || size > FULL {
            return None;
        }
        size = size * 10 + u64::from(*digit - b'0');
    }
    if size > FURTHEST { None } else { Some(size) }
}
