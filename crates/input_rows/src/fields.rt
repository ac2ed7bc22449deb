use line_fields::{needs_quotes, read_fields, record_by_csv};
use std::test::Fail;

// A line, how many fields it has, and these joined by bars.
const LINES: [(&[u8], usize, &[u8]); 39] = [
    (b"Trade,123,SYM7,456", 4, b"Trade|123|SYM7|456"),
    (b"A,1", 2, b"A|1"),
    (b"one", 1, b"one"),
    (b",", 2, b"|"),
    (b",,", 3, b"||"),
    (b"a,,b,", 4, b"a||b|"),
    (b" a , b ", 2, b" a | b "),
    (b"a;b\tc,#d", 2, b"a;b\tc|#d"),
    (b"\"a,b\",c", 2, b"a,b|c"),
    (b"a,\"b\"", 2, b"a|b"),
    (b"\"a\",\"b\",\"c\"", 3, b"a|b|c"),
    (b"\"a\nb\",c", 2, b"a\nb|c"),
    (b"a,\"b\r\nc\"", 2, b"a|b\r\nc"),
    (b"\" a \",b", 2, b" a |b"),
    (b"\",\"", 1, b","),
    (b"\"\",\"\"", 2, b"|"),
    (b"\"\"", 1, b""),
    (b",\"\",", 3, b"||"),
    (
        b"\"a\",b,c,d,e,f,g,h,\"i,j\",k",
        10,
        b"a|b|c|d|e|f|g|h|i,j|k",
    ),
    (b"\"\xEF\xBB\xBFa\",b", 2, b"\xEF\xBB\xBFa|b"),
    (b"\"a\"\"b\",c", 2, b"a\"b|c"),
    (b"\"a\"\"\",b", 2, b"a\"|b"),
    (b"\"\"\"\"", 1, b"\""),
    (b"a\"b,c\"", 2, b"a\"b|c\""),
    (b"a,b\"\"", 2, b"a|b\"\""),
    (b"\"a\"b,c", 2, b"ab|c"),
    (b"\"a\" ,b", 2, b"a |b"),
    (b"\"a,b", 1, b"a,b"),
    (b"a,\"", 2, b"a|"),
    (b"\"a\"\n", 1, b"a"),
    (b"\"a\",b\nc", 2, b"a|b"),
    (b"\"a\",\rb", 2, b"a|"),
    (b"\n\"a\",b", 2, b"a|b"),
    (b"\r\"a\",b", 2, b"a|b"),
    (b"\xEF\xBB\xBFa,b", 2, b"a|b"),
    (b"\xEF\xBB\xBF\"a,b\",c", 2, b"a,b|c"),
    (b"\xEF\xBB\"a,b\"", 2, b"\xEF\xBB\"a|b\""),
    (b"\r\n", 0, b""),
    (b"", 0, b""),
];

#[test]
fn lines_read_the_same_both_ways(rt: HostRuntime) -> Result<(), Fail> {
    for (line, count, joined) in LINES.iter() {
        let fields = read_fields(rt.alloc(), line)?;
        let record = record_by_csv(rt.alloc(), line)?;
        assert_eq!(rt; fields.len(), *count);
        assert_eq!(rt; record.len(), *count);
        let mut text = Vec::new(rt.alloc());
        for place in 0..fields.len() {
            if place > 0 {
                text.push(b'|')?;
            }
            let field = fields.get(place).ok_or("a field")?;
            assert!(rt; record.get(place) == Some(field));
            text.extend_from_slice(field)?;
        }
        assert_eq!(rt; text.as_slice(), *joined);
        assert!(rt; fields.get(*count).is_none());
    }
    Ok(())
}

// A field, and whether it is written in quotes.
const FIELDS: [(&[u8], bool); 9] = [
    (b"a=1 2", false),
    (b"", false),
    (b" a", false),
    (b"#a;b\\\t", false),
    (b"\xEF\xBB\xBFa", false),
    (b"a,b", true),
    (b"\"", true),
    (b"a\n", true),
    (b"\rb", true),
];

#[test]
fn fields_that_need_quotes(rt: HostRuntime) -> Result<(), Fail> {
    for (field, quoted) in FIELDS.iter() {
        assert_eq!(rt; needs_quotes(field), *quoted);
    }
    Ok(())
}

#[test]
fn fields_of_a_text_are_texts(rt: HostRuntime) -> Result<(), Fail> {
    let line = "Trade,é,\"x,ü\"";
    let fields = read_fields(rt.alloc(), line.as_bytes())?;
    assert!(rt; fields.get_text(1) == Some("é"));
    assert!(rt; fields.get_text(2) == Some("x,ü"));
    assert!(rt; fields.get_text(3).is_none());
    Ok(())
}
