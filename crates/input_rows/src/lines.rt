ghost use Rattle.std.specs.Prelude.{◌<◌};

use cep_event::{ByteList, NoMemory};
use cep_rows::*;
use std::alloc::Global;
use std::test::Fail;

// Writes each line that has come, and then a bar.
fn take_lines(lines: &mut Lines, text: &mut ByteList) -> Result<(), NoMemory> {
    for _ in 0..9 {
        match lines.next_line()? {
            Next::Line(line) => {
                text.extend(line.as_slice())?;
                text.push(b'|')?;
            }
            Next::NotYet => return Ok(()),
            Next::TooLong => return text.push(b'!'),
        }
    }
    Ok(())
}

fn rest_of(mut lines: Lines) -> Result<Option<Line>, NoMemory> {
    match lines.next_line()? {
        Next::NotYet => Ok(lines.rest()),
        _ => Ok(None),
    }
}

// The lines of these bytes, each with a bar, and then the rest.
fn cut(alloc: Global, bytes: &[u8], piece: usize) -> Result<ByteList, NoMemory>
    requires { 0 < piece }
{
    let mut lines = Lines::new(alloc);
    let mut text = ByteList::new(alloc);
    for part in bytes.chunks(piece) {
        lines.feed(part)?;
        take_lines(&mut lines, &mut text)?;
    }
    if let Some(rest) = rest_of(lines)? {
        text.extend(rest.as_slice())?;
        text.push(b'.')?;
    }
    Ok(text)
}

const CASES: [(&str, &str); 8] = [
    ("", ""),
    ("\n", "|"),
    ("a", "a."),
    ("a\n", "a|"),
    ("a\nbc", "a|bc."),
    ("a\n\nbc\n", "a||bc|"),
    ("\n\n\n", "|||"),
    ("a\r\nb\r", "a\r|b\r."),
];

#[test]
fn lines_are_the_same_for_pieces_of_any_size(rt: HostRuntime) -> Result<(), Fail> {
    for (bytes, want) in CASES {
        for piece in [1usize, 2, 3, 4096] {
            let text = cut(rt.alloc(), bytes.as_bytes(), piece)?;
            assert!(rt; text.as_slice() == want.as_bytes(), "{bytes} by {piece}");
        }
    }
    Ok(())
}

fn letters(alloc: Global, count: usize) -> Result<Line, NoMemory> {
    Ok(Line::from_vec(vec![in alloc; b'A'; count]?))
}

#[test]
fn a_line_has_at_most_its_limit(rt: HostRuntime) -> Result<(), Fail> {
    let most = letters(rt.alloc(), 65536)?;
    let more = letters(rt.alloc(), 65537)?;
    for piece in [7usize, 4096, 70000] {
        let rest = cut(rt.alloc(), most.as_slice(), piece)?;
        assert!(rt; rest.len() == 65537);
        let refused = cut(rt.alloc(), more.as_slice(), piece)?;
        assert!(rt; refused.as_slice().first() == Some(&b'!'));
    }
    assert!(rt; RowCause::LineTooLong.number() == 1);
    assert!(rt; RowCause::BadTime.number() == 6);
    assert!(rt; RowCause::BadNumber(3).number() == 7);
    lines_from_the_front();
    Ok(())
}
