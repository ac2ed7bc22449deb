//! Tables of files and what they are read as.

use cep_syntax::{SyntaxFault, read};
use std::alloc::Global;
use std::test::Fail;

/// `ok` with the number of types and stages, or the fault.
fn answer(alloc: Global, bytes: &[u8]) -> Result<String, Fail> {
    let line = match read(alloc, bytes) {
        Ok(file) => {
            let types = file.types.len();
            let openers = file.openers.len();
            format!(in alloc; "ok {types} {openers}")?
        }
        Err(SyntaxFault::NoMemory) => format!(in alloc; "no memory")?,
        Err(SyntaxFault::Bad { place, code }) => format!(in alloc; "code {code} at {place}")?,
    };
    Ok(line)
}

fn repeated(alloc: Global, part: &str, times: usize) -> Result<String, Fail> {
    let mut text = String::new(alloc);
    for _turn in 0..times {
        text.push_str(part)?;
    }
    Ok(text)
}

#[test]
fn each_production_is_read(rt: HostRuntime) -> Result<(), Fail> {
    let table = [
        ("pattern begin(\"a\");", "ok 0 1"),
        ("event A(); pattern begin(\"a\").of(A);", "ok 1 1"),
        (
            "event A(v int);event B(event text, pattern int);\tpattern\r\nbegin(\"a\");// end",
            "ok 2 1",
        ),
        (
            "pattern begin(\"a\").next(\"b\").followedBy(\"c\").followedByAny(\"d\").notNext(\"e\").notFollowedBy(\"f\");",
            "ok 0 6",
        ),
        (
            "pattern begin(\"a\").of(of).where(a==1).or(b!=2).times(2).times(1,3).timesOrMore(4).oneOrMore().optional().consecutive().allowCombinations().until(c<3).within(10);",
            "ok 0 1",
        ),
        (
            "pattern begin(\"a\").next(\"b\").of(B).where(true).within(9223372036854775807);",
            "ok 0 2",
        ),
        ("pattern begin(\"a\").withinGap(5);", "ok 0 1"),
        ("pattern begin(\"a\").within(8).withinGap(5);", "ok 0 1"),
        (
            "event within(withinGap int);pattern begin(\"within\").of(within).where(withinGap<within).withinGap(5);",
            "ok 1 1",
        ),
        ("pattern begin(\"a\"); skip none;", "ok 0 1"),
        ("pattern begin(\"a\"); skip to_next;", "ok 0 1"),
        ("pattern begin(\"a\"); skip past_last;", "ok 0 1"),
        ("pattern begin(\"a\"); skip to_first(\"a\");", "ok 0 1"),
        (
            "pattern begin(\"a\"); skip to_last(\"a\"); select 1;",
            "ok 0 1",
        ),
        (
            "pattern begin(\"a\"); select count(\"a\"), first(\"a\").first, last(\"a\").true, sum(\"a\".v), min(\"a\".v), max(\"a\".max);",
            "ok 0 1",
        ),
        (
            "pattern begin(\"a\").where(count == sum && (last < max || !(min >= 1)) && -a + b - 2 * c / d % -(3) <= \"x\\\"(\\\\\");",
            "ok 0 1",
        ),
        (
            "event where(select int);pattern begin(\"a\").where(where == true || false != event);",
            "ok 1 1",
        ),
        (
            "event greedy();pattern begin(\"greedy\").of(greedy).where(greedy == last(\"a\").greedy);",
            "ok 1 1",
        ),
    ];
    for (text, want) in table {
        let found = answer(rt.alloc(), text.as_bytes())?;
        assert_eq!(rt; found.as_str(), want, "{text}");
    }
    Ok(())
}

#[test]
fn the_first_fault_is_told(rt: HostRuntime) -> Result<(), Fail> {
    let table = [
        ("", "code 4 at 0"),
        ("event A(v int); pattern # begin", "code 1 at 24"),
        ("event A(); pattern begin(\"a", "code 2 at 25"),
        (
            "pattern begin(\"a\").times(9223372036854775808);",
            "code 3 at 25",
        ),
        ("pattern begin(\"a\"); x \"", "code 2 at 22"),
        ("patt", "code 4 at 0"),
        ("event A(", "code 4 at 8"),
        ("event A(v", "code 4 at 9"),
        ("event A(v int,);", "code 4 at 14"),
        ("event A() pattern", "code 4 at 10"),
        ("pattern begin(\"1a\");", "code 4 at 14"),
        ("pattern begin(\"\");", "code 4 at 14"),
        ("pattern begin(a);", "code 4 at 14"),
        ("pattern begin(\"a\").times(1).of(A);", "code 4 at 28"),
        ("pattern begin(\"a\").of(A).of(A);", "code 4 at 25"),
        ("pattern begin(\"a\").where(v == 1 == 2);", "code 4 at 32"),
        ("pattern begin(\"a\").where(--v);", "code 4 at 26"),
        ("pattern begin(\"a\").where(v(1));", "code 4 at 26"),
        ("pattern begin(\"a\").where(true(\"a\"));", "code 4 at 29"),
        ("pattern begin(\"a\").where(count(a));", "code 4 at 31"),
        ("pattern begin(\"a\").where(sum(\"a\"));", "code 4 at 32"),
        ("pattern begin(\"a\").where();", "code 4 at 25"),
        (
            "pattern begin(\"a\").within(1).next(\"b\");",
            "code 4 at 29",
        ),
        ("pattern begin(\"a\").within(1).within(2);", "code 4 at 29"),
        (
            "pattern begin(\"a\").withinGap(1).next(\"b\");",
            "code 4 at 31",
        ),
        (
            "pattern begin(\"a\").withinGap(5).within(8);",
            "code 4 at 31",
        ),
        (
            "pattern begin(\"a\").withinGap(5).withinGap(8);",
            "code 4 at 31",
        ),
        (
            "pattern begin(\"a\").within(5).withinGap(8).within(9);",
            "code 4 at 41",
        ),
        ("pattern begin(\"a\").withinGap();", "code 4 at 29"),
        ("pattern begin(\"a\").withingap(1);", "code 4 at 19"),
        ("pattern begin(\"a\").oneOrMore(1);", "code 4 at 29"),
        ("pattern begin(\"a\").skip none;", "code 4 at 19"),
        ("pattern begin(\"a\"); skip first;", "code 4 at 25"),
        ("pattern begin(\"a\"); select;", "code 4 at 26"),
        ("pattern begin(\"a\"); select 1; skip none;", "code 4 at 30"),
        (
            "pattern begin(\"a\"); skip none; skip none;",
            "code 4 at 31",
        ),
        ("pattern begin(\"a\"); x", "code 4 at 20"),
        ("pattern begin(\"a\"); event A();", "code 4 at 20"),
        ("pattern begin(\"a\")", "code 4 at 18"),
        (
            "event A(); pattern begin(\"a\").of(A).oneOrMore().greedy();",
            "code 7 at 48",
        ),
        ("pattern begin(\"a\").greedy", "code 7 at 19"),
        ("pattern begin(\"a\").next(\"b\").greedy();", "code 7 at 29"),
        (
            "pattern begin(\"a\").notNext(\"b\").of(B).where(a).greedy();",
            "code 7 at 47",
        ),
        ("pattern begin(\"a\").greedy() #", "code 1 at 28"),
        ("greedy", "code 4 at 0"),
        ("pattern begin(\"a\") greedy", "code 4 at 19"),
        ("pattern begin(\"a\").of(A) greedy();", "code 4 at 25"),
        ("pattern begin(\"a\").within(1).greedy();", "code 4 at 29"),
        (
            "pattern begin(\"a\").withinGap(1).greedy();",
            "code 4 at 31",
        ),
        ("pattern begin(\"a\"); greedy", "code 4 at 20"),
        ("pattern greedy", "code 4 at 8"),
        ("pattern begin(greedy", "code 4 at 14"),
        ("pattern begin(\"a\").times(greedy", "code 4 at 25"),
    ];
    for (text, want) in table {
        let found = answer(rt.alloc(), text.as_bytes())?;
        assert_eq!(rt; found.as_str(), want, "{text}");
    }
    Ok(())
}

#[test]
fn bytes_that_are_no_text_are_told(rt: HostRuntime) -> Result<(), Fail> {
    let table = [
        (b"\xffevent A();".as_slice(), "code 8 at 0"),
        (b"event A(); \xc3( #".as_slice(), "code 8 at 11"),
        (
            b"pattern begin(\"a\"); # \xe2\x82".as_slice(),
            "code 8 at 22",
        ),
    ];
    for (bytes, want) in table {
        let found = answer(rt.alloc(), bytes)?;
        assert_eq!(rt; found.as_str(), want);
    }
    Ok(())
}

/// A file with so many parentheses inside those of its condition.
fn nested(alloc: Global, deep: usize) -> Result<String, Fail> {
    let mut text = String::from_str(alloc, "event A(v int); pattern begin(\"a\").of(A).where(")?;
    for _turn in 0..deep {
        text.push_str("(")?;
    }
    text.push_str("v > 0")?;
    for _turn in 0..deep {
        text.push_str(")")?;
    }
    text.push_str(");")?;
    Ok(text)
}

/// A file whose stage has a name of so many bytes.
fn named(alloc: Global, len: usize) -> Result<String, Fail> {
    let mut text = String::from_str(alloc, "pattern begin(\"")?;
    for _turn in 0..len {
        text.push_str("n")?;
    }
    text.push_str("\");")?;
    Ok(text)
}

/// A file behind so many line ends.
fn padded(alloc: Global, len: usize) -> Result<String, Fail> {
    let mut text = repeated(alloc, "\n", len)?;
    text.push_str("pattern begin(\"a\");")?;
    Ok(text)
}

#[test]
fn parentheses_are_counted(rt: HostRuntime) -> Result<(), Fail> {
    for (deep, want) in [(31, "ok 1 1"), (32, "code 5 at 78"), (40, "code 5 at 78")] {
        let text = nested(rt.alloc(), deep)?;
        let found = answer(rt.alloc(), text.as_bytes())?;
        assert_eq!(rt; found.as_str(), want, "{deep} parentheses");
    }
    let mut text = String::from_str(rt.alloc(), "x \"(\" ) ")?;
    for _turn in 0..33 {
        text.push_str("(")?;
    }
    let found = answer(rt.alloc(), text.as_bytes())?;
    assert_eq!(rt; found.as_str(), "code 5 at 40");
    Ok(())
}

#[test]
fn names_have_at_most_64_bytes(rt: HostRuntime) -> Result<(), Fail> {
    for (len, want) in [(64, "ok 0 1"), (65, "code 4 at 14")] {
        let text = named(rt.alloc(), len)?;
        let found = answer(rt.alloc(), text.as_bytes())?;
        assert_eq!(rt; found.as_str(), want, "a name of {len} bytes");
    }
    Ok(())
}

#[test]
fn files_have_at_most_65536_bytes(rt: HostRuntime) -> Result<(), Fail> {
    for (len, want) in [(65_517, "ok 0 1"), (65_518, "code 6 at 65536")] {
        let text = padded(rt.alloc(), len)?;
        let found = answer(rt.alloc(), text.as_bytes())?;
        assert_eq!(rt; found.as_str(), want, "{len} line ends before");
    }
    let mut bytes = Vec::from_slice(rt.alloc(), b"\xff")?;
    for _turn in 0..65_536 {
        bytes.push(b' ')?;
    }
    let found = answer(rt.alloc(), bytes.as_slice())?;
    assert_eq!(rt; found.as_str(), "code 6 at 65536");
    Ok(())
}

/// Each front of a file is refused where it ends, or at the last word, which the cut left, or in a literal.
#[test]
fn each_front_is_refused(rt: HostRuntime) -> Result<(), Fail> {
    let alloc = rt.alloc();
    let text =
        "event A(v int, t text);pattern begin(\"a\").of(A).where(t<\"x\\\\\").next(\"b\").times(1,2).within(9).withinGap(3);skip to_last(\"a\");select sum(\"a\".v)+1,t;";
    let bytes = text.as_bytes();
    let ends = [107, 125];
    for len in 0..bytes.len() {
        let found = answer(alloc, &bytes[..len])?;
        let is_file = ends.iter().any(|end| *end == len);
        let found = found.as_str();
        let is_refused = found.starts_with("code 4 at ") || found.starts_with("code 2 at ");
        assert_eq!(rt; is_refused, !is_file, "{found} of the first {len} bytes");
    }
    Ok(())
}
