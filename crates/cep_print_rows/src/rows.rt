//! Tables of files, and the texts that they are printed as.

use cep_print::{print, read_back, same_file};
use cep_syntax::{File, SyntaxFault, read};
use std::alloc::Global;
use std::test::Fail;

/// What the text of a file and its print have in common.
fn compared(alloc: Global, file: &File, text: &str) -> Result<String, Fail> {
    let line = match read(alloc, text.as_bytes()) {
        Ok(other) => {
            if same_file(file, &other) {
                format!(in alloc; "{text}")?
            } else {
                format!(in alloc; "another file: {text}")?
            }
        }
        Err(SyntaxFault::NoMemory) => format!(in alloc; "no memory")?,
        Err(SyntaxFault::Bad { place, code }) => {
            format!(in alloc; "code {code} at {place} of {text}")?
        }
    };
    Ok(line)
}

/// What a text of a file is printed as.
fn answer(alloc: Global, text: &str) -> Result<String, Fail> {
    match read(alloc, text.as_bytes()) {
        Ok(file) => {
            let printed = print(alloc, &file)?;
            compared(alloc, &file, printed.as_str())
        }
        Err(_) => Ok(format!(in alloc; "no file")?),
    }
}

/// A file with this condition.
fn with_condition(alloc: Global, text: &str) -> Result<String, Fail> {
    Ok(format!(in alloc; "pattern begin(\"a\").where({text});\n")?)
}

/// Whether the first condition is printed as the second, and the second as itself.
fn is_printed_as(alloc: Global, text: &str, want: &str) -> Result<bool, Fail> {
    let text = with_condition(alloc, text)?;
    let want = with_condition(alloc, want)?;
    let found = answer(alloc, text.as_str())?;
    let again = answer(alloc, want.as_str())?;
    Ok(found.as_str() == want.as_str() && again.as_str() == want.as_str())
}

#[test]
fn parentheses_that_are_not_needed_go(rt: HostRuntime) -> Result<(), Fail> {
    let table = [
        ("((a))", "a"),
        ("(a && b) || (c && d)", "a && b || c && d"),
        ("(a == 1) && (b != 2)", "a == 1 && b != 2"),
        ("(a + 1) < (b - 2)", "a + 1 < b - 2"),
        ("(a * 2) + (b / 3) - (c % 4)", "a * 2 + b / 3 - c % 4"),
        ("(-a) * (-b)", "-a * -b"),
        ("(!a) && (!b)", "!a && !b"),
        ("(!a) || (b <= 1)", "!a || b <= 1"),
        ("(a * b) > (c)", "a * b > c"),
        ("(-a) + (-1)", "-a + -1"),
        ("!(true)", "!true"),
        ("-(count(\"s\"))", "-count(\"s\")"),
    ];
    for (text, want) in table {
        let holds = is_printed_as(rt.alloc(), text, want)?;
        assert!(rt; holds, "{text} is not printed as {want}");
    }
    Ok(())
}

#[test]
fn parentheses_that_are_needed_stay(rt: HostRuntime) -> Result<(), Fail> {
    let table = [
        ("(a || b) || c", "(a || b) || c"),
        ("a || (b || c)", "a || (b || c)"),
        ("(a || b) && c", "(a || b) && c"),
        ("(a && b) && c", "(a && b) && c"),
        ("(a || b) == (c && d)", "(a || b) == (c && d)"),
        ("(a == b) == c", "(a == b) == c"),
        ("(a == b) + (c || d)", "(a == b) + (c || d)"),
        ("(a + b) + c - (d - e)", "(a + b) + c - (d - e)"),
        ("(a + b) * (c < d)", "(a + b) * (c < d)"),
        ("(a * b) / (c % d)", "(a * b) / (c % d)"),
        ("!(a && b)", "!(a && b)"),
        ("!(!a)", "!(!a)"),
        ("-(-a)", "-(-a)"),
        ("-(!a)", "-(!a)"),
        ("!(a >= b)", "!(a >= b)"),
        ("-(a + b)", "-(a + b)"),
        ("-(a * b)", "-(a * b)"),
        ("!(a || b)", "!(a || b)"),
    ];
    for (text, want) in table {
        let holds = is_printed_as(rt.alloc(), text, want)?;
        assert!(rt; holds, "{text} is not printed as {want}");
    }
    Ok(())
}

#[test]
fn single_words_have_one_form(rt: HostRuntime) -> Result<(), Fail> {
    let table = [
        ("007", "7"),
        ("9223372036854775807", "9223372036854775807"),
        ("\"\"", "\"\""),
        ("\"a\\\"b\\\\c // (é\"", "\"a\\\"b\\\\c // (é\""),
        ("true==false", "true == false"),
        ("last == first", "last == first"),
        ("count ( \"s\" )", "count(\"s\")"),
        ("first(\"s\") . v", "first(\"s\").v"),
        ("last(\"s\").v", "last(\"s\").v"),
        ("sum(\"s\".v)", "sum(\"s\".v)"),
        ("min(\"s\".v)", "min(\"s\".v)"),
        ("max(\"s\" . v)", "max(\"s\".v)"),
    ];
    for (text, want) in table {
        let holds = is_printed_as(rt.alloc(), text, want)?;
        assert!(rt; holds, "{text} is not printed as {want}");
    }
    Ok(())
}

#[test]
fn files_have_one_form(rt: HostRuntime) -> Result<(), Fail> {
    let table = [
        ("pattern begin(\"a\");", "pattern begin(\"a\");\n"),
        (
            "event  A( v int ) ;pattern begin(\"a\").of(A).where((v>1)&&v<5).oneOrMore();",
            "event A(v int);\npattern begin(\"a\").of(A).where(v > 1 && v < 5).oneOrMore();\n",
        ),
        (
            "event A(); pattern begin(\"a\").of(A) ;// end",
            "event A();\npattern begin(\"a\").of(A);\n",
        ),
        (
            "event A();event B ( v int,t text ) ; pattern begin(\"a\").of(A);",
            "event A();\nevent B(v int, t text);\npattern begin(\"a\").of(A);\n",
        ),
        (
            "pattern begin(\"a\").next(\"b\") .followedBy(\"c\").followedByAny(\"d\")\n.notNext(\"e\").notFollowedBy(\"f\").of(F).within( 10 );",
            "pattern begin(\"a\").next(\"b\").followedBy(\"c\").followedByAny(\"d\").notNext(\"e\").notFollowedBy(\"f\").of(F).within(10);\n",
        ),
        (
            "pattern begin(\"a\").where(a==1).or((b)).times(2).times(1,3).timesOrMore(4).oneOrMore().optional().consecutive().allowCombinations().until(c<3);",
            "pattern begin(\"a\").where(a == 1).or(b).times(2).times(1, 3).timesOrMore(4).oneOrMore().optional().consecutive().allowCombinations().until(c < 3);\n",
        ),
        (
            "pattern begin(\"a\") . withinGap( 05 );",
            "pattern begin(\"a\").withinGap(5);\n",
        ),
        (
            "pattern begin(\"a\").notFollowedBy(\"b\").within(8)\n.withinGap(5);",
            "pattern begin(\"a\").notFollowedBy(\"b\").within(8).withinGap(5);\n",
        ),
        (
            "pattern begin(\"a\");skip none;",
            "pattern begin(\"a\");\nskip none;\n",
        ),
        (
            "pattern begin(\"a\");skip to_next;",
            "pattern begin(\"a\");\nskip to_next;\n",
        ),
        (
            "pattern begin(\"a\");skip past_last;",
            "pattern begin(\"a\");\nskip past_last;\n",
        ),
        (
            "pattern begin(\"a\");skip to_first (\"a\");",
            "pattern begin(\"a\");\nskip to_first(\"a\");\n",
        ),
        (
            "pattern begin(\"a\");skip to_last(\"a\");select 1,(v)+2;",
            "pattern begin(\"a\");\nskip to_last(\"a\");\nselect 1, v + 2;\n",
        ),
    ];
    for (text, want) in table {
        let found = answer(rt.alloc(), text)?;
        assert_eq!(rt; found.as_str(), want, "{text}");
        let again = answer(rt.alloc(), want)?;
        assert_eq!(rt; again.as_str(), want, "{want}");
    }
    Ok(())
}

/// Whether the file of a text is read back from its print.
fn is_read_back(alloc: Global, text: &str) -> Result<bool, Fail> {
    match read(alloc, text.as_bytes()) {
        Ok(file) => match read_back(alloc, &file) {
            Ok(other) => Ok(same_file(&file, &other)),
            Err(_) => Ok(false),
        },
        Err(_) => Ok(false),
    }
}

#[test]
fn printed_files_are_read_back(rt: HostRuntime) -> Result<(), Fail> {
    let table = [
        "pattern begin(\"a\");",
        "pattern begin(\"a\").withinGap(5);",
        "pattern begin(\"a\").within(8).withinGap(5);",
        "event A(v int); pattern begin(\"a\").of(A).where(!(v*(2+v)<3)).next(\"b\").within(9); skip none; select -v, \"\\\"\";",
    ];
    for text in table {
        let holds = is_read_back(rt.alloc(), text)?;
        assert!(rt; holds, "{text}");
    }
    Ok(())
}

fn are_same(alloc: Global, one: &str, other: &str) -> Result<bool, Fail> {
    match read(alloc, one.as_bytes()) {
        Ok(file) => match read(alloc, other.as_bytes()) {
            Ok(other) => Ok(same_file(&file, &other)),
            Err(_) => Ok(false),
        },
        Err(_) => Ok(false),
    }
}

#[test]
fn files_that_differ_are_told_apart(rt: HostRuntime) -> Result<(), Fail> {
    let table = [
        (
            "pattern begin(\"a\");",
            " pattern  begin ( \"a\" ) ; ",
            true,
        ),
        ("pattern begin(\"a\");", "pattern begin(\"b\");", false),
        (
            "pattern begin(\"a\").where(v);",
            "pattern begin(\"a\").where((v));",
            true,
        ),
        (
            "pattern begin(\"a\").where(v);",
            "pattern begin(\"a\").or(v);",
            false,
        ),
        (
            "pattern begin(\"a\").where(v + 1 + 2);",
            "pattern begin(\"a\").where(v + (1 + 2));",
            false,
        ),
        (
            "pattern begin(\"a\").where(v + 1);",
            "pattern begin(\"a\").where(v - 1);",
            false,
        ),
        (
            "pattern begin(\"a\");",
            "pattern begin(\"a\");skip none;",
            false,
        ),
        (
            "pattern begin(\"a\").within(1);",
            "pattern begin(\"a\").within(2);",
            false,
        ),
        (
            "pattern begin(\"a\").within(1);",
            "pattern begin(\"a\").withinGap(1);",
            false,
        ),
        (
            "pattern begin(\"a\").within(1).withinGap(1);",
            "pattern begin(\"a\").within(1).withinGap(2);",
            false,
        ),
        (
            "pattern begin(\"a\");select 1;",
            "pattern begin(\"a\");select 1,1;",
            false,
        ),
    ];
    for (one, other, want) in table {
        let found = are_same(rt.alloc(), one, other)?;
        assert_eq!(rt; found, want, "{one} and {other}");
    }
    Ok(())
}

/// The operators of two operands, each with its level.
const OPERATORS: [(&str, u8); 13] = [
    ("||", 1),
    ("&&", 2),
    ("==", 3),
    ("!=", 3),
    ("<", 3),
    ("<=", 3),
    (">", 3),
    (">=", 3),
    ("+", 4),
    ("-", 4),
    ("*", 5),
    ("/", 5),
    ("%", 5),
];

/// Whether one operator inside another one, on the left and on the right, has its parentheses exactly where they are needed.
fn is_nested(alloc: Global, outer: &str, inner: &str, needed: bool) -> Result<bool, Fail> {
    let left = format!(in alloc; "(a {inner} b) {outer} c")?;
    let right = format!(in alloc; "a {outer} (b {inner} c)")?;
    if needed {
        let stay = is_printed_as(alloc, left.as_str(), left.as_str())?;
        return Ok(stay && is_printed_as(alloc, right.as_str(), right.as_str())?);
    }
    let bare_left = format!(in alloc; "a {inner} b {outer} c")?;
    let bare_right = format!(in alloc; "a {outer} b {inner} c")?;
    let go = is_printed_as(alloc, left.as_str(), bare_left.as_str())?;
    Ok(go && is_printed_as(alloc, right.as_str(), bare_right.as_str())?)
}

#[test]
fn each_operator_stands_in_each_other_one(rt: HostRuntime) -> Result<(), Fail> {
    for (outer, level) in OPERATORS {
        for (inner, other) in OPERATORS {
            let holds = is_nested(rt.alloc(), outer, inner, other <= level)?;
            assert!(rt; holds, "{inner} in {outer}");
        }
    }
    Ok(())
}

/// Whether a sign keeps the parentheses of an operator inside it, and needs none inside that operator.
fn is_signed(alloc: Global, sign: &str, operator: &str) -> Result<bool, Fail> {
    let around = format!(in alloc; "{sign}(a {operator} b)")?;
    let inside = format!(in alloc; "({sign}a) {operator} ({sign}b)")?;
    let bare = format!(in alloc; "{sign}a {operator} {sign}b")?;
    let stay = is_printed_as(alloc, around.as_str(), around.as_str())?;
    Ok(stay && is_printed_as(alloc, inside.as_str(), bare.as_str())?)
}

#[test]
fn signs_stand_in_operators_and_around_them(rt: HostRuntime) -> Result<(), Fail> {
    for sign in ["!", "-"] {
        for (operator, _) in OPERATORS {
            let holds = is_signed(rt.alloc(), sign, operator)?;
            assert!(rt; holds, "{sign} and {operator}");
        }
    }
    for text in ["!(!a)", "!(-a)", "-(!a)", "-(-a)"] {
        let holds = is_printed_as(rt.alloc(), text, text)?;
        assert!(rt; holds, "{text}");
    }
    Ok(())
}
