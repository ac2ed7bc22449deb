ghost use Rattle.std.specs.Prelude.{◌≡◌, IsTrue, IsUtf8};
ghost use Rattle.std.specs.List.{list_any, count_by};
ghost use Rattle.std.specs.Str.{is_utf8};
ghost use Rattle.cep_records.specs.Bare.{begins_with_mark, without_mark, without_return, bare_line, is_text, is_return, is_quote, has_open_quote};

use std::str;

/// U+FEFF in UTF-8.
const BYTE_ORDER_MARK: [u8; 3] = [0xEF, 0xBB, 0xBF];

/// What is read of a line: not the byte order mark before the first row, and not the CR behind a row.
pub(crate) fn bare_line(row: u32, line: &[u8]) -> &[u8]
    ensures { result.now ≡ bare_line row line.now }
{
    without_return(without_mark(row, line))
}

fn without_mark(row: u32, line: &[u8]) -> &[u8]
    ensures { result.now ≡ without_mark row line.now }
{
    if row != 1 {
        return line;
    }
    match line.strip_prefix(&BYTE_ORDER_MARK) {
        Some(rest) => rest,
        None => line,
    }
}

fn without_return(line: &[u8]) -> &[u8]
    ensures { result.now ≡ without_return line.now }
{
    match line.strip_suffix(b"\r") {
        Some(front) => front,
        None => line,
    }
}

fn begins_with_mark(line: &[u8]) -> bool
    ensures { result ≡ begins_with_mark line.now }
{
    line.strip_prefix(&BYTE_ORDER_MARK).is_some()
}

fn is_utf8(line: &[u8]) -> bool
    ensures value { result ≡ is_utf8 line.now }
    ensures utf8 { IsTrue result → IsUtf8 line.now }
{
    match str::from_utf8(line) {
        Ok(_) => true,
        Err(_) => false,
    }
}

fn holds_return(line: &[u8]) -> bool
    ensures { result ≡ list_any is_return line.now }
{
    line.contains(&b'\r')
}

/// Whether a line can be read as fields, but for its quotes.
pub(crate) fn is_text(line: &[u8]) -> bool
    ensures value { result ≡ is_text line.now }
    ensures utf8 { IsTrue result → IsUtf8 line.now }
{
    is_utf8(line) && !holds_return(line) && !begins_with_mark(line)
}

fn quotes_in(line: &[u8]) -> usize
    ensures { result ≡ count_by is_quote line.now }
{
    let mut quotes = 0;
    for byte in line {
        if *byte == b'"' {
            quotes += 1;
        }
    }
    quotes
}

pub(crate) fn has_open_quote(line: &[u8]) -> bool
    ensures { result ≡ has_open_quote line.now }
{
    quotes_in(line) % 2 == 1
}
