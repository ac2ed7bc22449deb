//! Words that are read, and words that are refused.

use cep_words::{Mode, Options, WordsFault, command};
use std::alloc::{AllocError, Global};
use std::test::Fail;

struct Case {
    name: &'static str,
    words: &'static [&'static str],
    file: &'static str,
    options: Options,
}

const PLAIN: Options = Options {
    mode: Mode::Run,
    lag: None,
    rows: 4294967295,
    header: false,
    seed: 0,
    count: 1000,
};

const CASES: [Case; 31] = [
    Case {
        name: "run and a file",
        words: &["run", "p"],
        file: "p",
        options: PLAIN,
    },
    Case {
        name: "check",
        words: &["check", "p"],
        file: "p",
        options: Options {
            mode: Mode::Check,
            lag: None,
            rows: 4294967295,
            header: false,
            seed: 0,
            count: 1000,
        },
    },
    Case {
        name: "explain",
        words: &["explain", "p"],
        file: "p",
        options: Options {
            mode: Mode::Explain,
            lag: None,
            rows: 4294967295,
            header: false,
            seed: 0,
            count: 1000,
        },
    },
    Case {
        name: "load",
        words: &["load", "p"],
        file: "p",
        options: Options {
            mode: Mode::Load,
            lag: None,
            rows: 4294967295,
            header: false,
            seed: 0,
            count: 1000,
        },
    },
    Case {
        name: "a lag by `=`",
        words: &["run", "p", "--lag=2"],
        file: "p",
        options: Options {
            mode: Mode::Run,
            lag: Some(2),
            rows: 4294967295,
            header: false,
            seed: 0,
            count: 1000,
        },
    },
    Case {
        name: "a lag in two words",
        words: &["run", "p", "--lag", "2"],
        file: "p",
        options: Options {
            mode: Mode::Run,
            lag: Some(2),
            rows: 4294967295,
            header: false,
            seed: 0,
            count: 1000,
        },
    },
    Case {
        name: "rows by `=`",
        words: &["run", "p", "--rows=5"],
        file: "p",
        options: Options {
            mode: Mode::Run,
            lag: None,
            rows: 5,
            header: false,
            seed: 0,
            count: 1000,
        },
    },
    Case {
        name: "rows in two words",
        words: &["run", "p", "--rows", "5"],
        file: "p",
        options: Options {
            mode: Mode::Run,
            lag: None,
            rows: 5,
            header: false,
            seed: 0,
            count: 1000,
        },
    },
    Case {
        name: "a seed by `=`",
        words: &["load", "p", "--seed=7"],
        file: "p",
        options: Options {
            mode: Mode::Load,
            lag: None,
            rows: 4294967295,
            header: false,
            seed: 7,
            count: 1000,
        },
    },
    Case {
        name: "a seed in two words",
        words: &["load", "p", "--seed", "7"],
        file: "p",
        options: Options {
            mode: Mode::Load,
            lag: None,
            rows: 4294967295,
            header: false,
            seed: 7,
            count: 1000,
        },
    },
    Case {
        name: "a count by `=`",
        words: &["load", "p", "--count=9"],
        file: "p",
        options: Options {
            mode: Mode::Load,
            lag: None,
            rows: 4294967295,
            header: false,
            seed: 0,
            count: 9,
        },
    },
    Case {
        name: "a count in two words",
        words: &["load", "p", "--count", "9"],
        file: "p",
        options: Options {
            mode: Mode::Load,
            lag: None,
            rows: 4294967295,
            header: false,
            seed: 0,
            count: 9,
        },
    },
    Case {
        name: "a header",
        words: &["run", "p", "--header"],
        file: "p",
        options: Options {
            mode: Mode::Run,
            lag: None,
            rows: 4294967295,
            header: true,
            seed: 0,
            count: 1000,
        },
    },
    Case {
        name: "options before the positions",
        words: &["--header", "--lag", "2", "run", "p"],
        file: "p",
        options: Options {
            mode: Mode::Run,
            lag: Some(2),
            rows: 4294967295,
            header: true,
            seed: 0,
            count: 1000,
        },
    },
    Case {
        name: "options between and after the positions",
        words: &["--rows=3", "run", "--lag", "0", "p", "--header"],
        file: "p",
        options: Options {
            mode: Mode::Run,
            lag: Some(0),
            rows: 3,
            header: true,
            seed: 0,
            count: 1000,
        },
    },
    Case {
        name: "all options",
        words: &[
            "run", "--lag", "1", "--rows", "2", "--header", "--seed", "3", "--count", "4", "p",
        ],
        file: "p",
        options: Options {
            mode: Mode::Run,
            lag: Some(1),
            rows: 2,
            header: true,
            seed: 3,
            count: 4,
        },
    },
    Case {
        name: "an option that doesn't count in the mode",
        words: &["check", "p", "--seed", "3"],
        file: "p",
        options: Options {
            mode: Mode::Check,
            lag: None,
            rows: 4294967295,
            header: false,
            seed: 3,
            count: 1000,
        },
    },
    Case {
        name: "the greatest lag",
        words: &["run", "p", "--lag", "4611686018427387904"],
        file: "p",
        options: Options {
            mode: Mode::Run,
            lag: Some(4611686018427387904),
            rows: 4294967295,
            header: false,
            seed: 0,
            count: 1000,
        },
    },
    Case {
        name: "the greatest rows",
        words: &["run", "p", "--rows", "4294967295"],
        file: "p",
        options: Options {
            mode: Mode::Run,
            lag: None,
            rows: 4294967295,
            header: false,
            seed: 0,
            count: 1000,
        },
    },
    Case {
        name: "the greatest seed",
        words: &["run", "p", "--seed", "18446744073709551615"],
        file: "p",
        options: Options {
            mode: Mode::Run,
            lag: None,
            rows: 4294967295,
            header: false,
            seed: 18446744073709551615,
            count: 1000,
        },
    },
    Case {
        name: "the greatest count",
        words: &["run", "p", "--count", "4294967295"],
        file: "p",
        options: Options {
            mode: Mode::Run,
            lag: None,
            rows: 4294967295,
            header: false,
            seed: 0,
            count: 4294967295,
        },
    },
    Case {
        name: "the least numbers",
        words: &[
            "run", "p", "--lag", "0", "--rows", "1", "--seed", "0", "--count", "1",
        ],
        file: "p",
        options: Options {
            mode: Mode::Run,
            lag: Some(0),
            rows: 1,
            header: false,
            seed: 0,
            count: 1,
        },
    },
    Case {
        name: "leading zeros",
        words: &["run", "p", "--rows", "0000000000000000000000000000007"],
        file: "p",
        options: Options {
            mode: Mode::Run,
            lag: None,
            rows: 7,
            header: false,
            seed: 0,
            count: 1000,
        },
    },
    Case {
        name: "a file named as an option",
        words: &["run", "--", "--lag"],
        file: "--lag",
        options: PLAIN,
    },
    Case {
        name: "`--` before both positions",
        words: &["--lag=2", "--", "run", "--header"],
        file: "--header",
        options: Options {
            mode: Mode::Run,
            lag: Some(2),
            rows: 4294967295,
            header: false,
            seed: 0,
            count: 1000,
        },
    },
    Case {
        name: "`--` after both positions",
        words: &["run", "p", "--"],
        file: "p",
        options: PLAIN,
    },
    Case {
        name: "a file named `--`",
        words: &["run", "--", "--"],
        file: "--",
        options: PLAIN,
    },
    Case {
        name: "a file named `-`",
        words: &["run", "-"],
        file: "-",
        options: PLAIN,
    },
    Case {
        name: "a file with no name",
        words: &["run", ""],
        file: "",
        options: PLAIN,
    },
    Case {
        name: "a file with `=` in its name",
        words: &["run", "a=b"],
        file: "a=b",
        options: PLAIN,
    },
    Case {
        name: "a file named as a mode",
        words: &["run", "run"],
        file: "run",
        options: PLAIN,
    },
];

struct Refused {
    name: &'static str,
    words: &'static [&'static str],
}

const REFUSED: [Refused; 52] = [
    Refused {
        name: "no words",
        words: &[],
    },
    Refused {
        name: "a mode alone",
        words: &["run"],
    },
    Refused {
        name: "a file alone",
        words: &["p"],
    },
    Refused {
        name: "another mode",
        words: &["walk", "p"],
    },
    Refused {
        name: "a mode in capitals",
        words: &["RUN", "p"],
    },
    Refused {
        name: "a mode and a blank",
        words: &["run ", "p"],
    },
    Refused {
        name: "`-` as the mode",
        words: &["-", "p"],
    },
    Refused {
        name: "an empty word as the mode",
        words: &["", "p"],
    },
    Refused {
        name: "three positions",
        words: &["run", "p", "q"],
    },
    Refused {
        name: "three positions after `--`",
        words: &["run", "--", "p", "q"],
    },
    Refused {
        name: "an option after `--` is a position",
        words: &["run", "p", "--", "--header"],
    },
    Refused {
        name: "no rows",
        words: &["run", "p", "--rows", "0"],
    },
    Refused {
        name: "a count of none",
        words: &["load", "p", "--count", "0"],
    },
    Refused {
        name: "a lag below zero",
        words: &["run", "p", "--lag", "-1"],
    },
    Refused {
        name: "a lag below zero, by `=`",
        words: &["run", "p", "--lag=-1"],
    },
    Refused {
        name: "a lag with a plus",
        words: &["run", "p", "--lag", "+1"],
    },
    Refused {
        name: "rows with a plus, by `=`",
        words: &["run", "p", "--rows=+1"],
    },
    Refused {
        name: "a value `-`",
        words: &["run", "p", "--lag", "-"],
    },
    Refused {
        name: "a value `--`",
        words: &["run", "p", "--lag", "--"],
    },
    Refused {
        name: "an option as a value",
        words: &["run", "p", "--lag", "--header"],
    },
    Refused {
        name: "a lag without a value",
        words: &["run", "p", "--lag"],
    },
    Refused {
        name: "rows without a value",
        words: &["run", "p", "--rows"],
    },
    Refused {
        name: "a seed without a value",
        words: &["run", "p", "--seed"],
    },
    Refused {
        name: "a count without a value",
        words: &["run", "p", "--count"],
    },
    Refused {
        name: "an empty value",
        words: &["run", "p", "--lag="],
    },
    Refused {
        name: "an empty word as a value",
        words: &["run", "p", "--lag", ""],
    },
    Refused {
        name: "a value that is no number",
        words: &["run", "p", "--seed", "x1"],
    },
    Refused {
        name: "a value with a blank",
        words: &["run", "p", "--seed", "1 "],
    },
    Refused {
        name: "a value with a second `=`",
        words: &["run", "p", "--seed=1=2"],
    },
    Refused {
        name: "a digit that isn't ASCII",
        words: &["run", "p", "--seed", "٣"],
    },
    Refused {
        name: "a lag past the greatest",
        words: &["run", "p", "--lag", "4611686018427387905"],
    },
    Refused {
        name: "rows past the greatest",
        words: &["run", "p", "--rows", "4294967296"],
    },
    Refused {
        name: "a seed past the greatest",
        words: &["run", "p", "--seed", "18446744073709551616"],
    },
    Refused {
        name: "a count past the greatest",
        words: &["load", "p", "--count", "4294967296"],
    },
    Refused {
        name: "two headers",
        words: &["run", "p", "--header", "--header"],
    },
    Refused {
        name: "two lags",
        words: &["run", "p", "--lag", "1", "--lag", "1"],
    },
    Refused {
        name: "two lags, by `=`",
        words: &["run", "p", "--lag=1", "--lag=1"],
    },
    Refused {
        name: "two rows",
        words: &["run", "p", "--rows=1", "--rows", "1"],
    },
    Refused {
        name: "two seeds",
        words: &["run", "p", "--seed", "1", "--seed=1"],
    },
    Refused {
        name: "two counts",
        words: &["run", "p", "--count", "1", "--count", "2"],
    },
    Refused {
        name: "a header with a value",
        words: &["run", "p", "--header=x"],
    },
    Refused {
        name: "a header with an empty value",
        words: &["run", "p", "--header="],
    },
    Refused {
        name: "another option",
        words: &["run", "p", "--help"],
    },
    Refused {
        name: "a version",
        words: &["--version"],
    },
    Refused {
        name: "a short option",
        words: &["run", "p", "-h"],
    },
    Refused {
        name: "a short option with a value",
        words: &["run", "p", "-l", "2"],
    },
    Refused {
        name: "an option not in full",
        words: &["run", "p", "--head"],
    },
    Refused {
        name: "an option with one letter more",
        words: &["run", "p", "--lags=2"],
    },
    Refused {
        name: "an option with one dash",
        words: &["run", "p", "-lag=2"],
    },
    Refused {
        name: "an option with three dashes",
        words: &["run", "p", "---lag=2"],
    },
    Refused {
        name: "an option with no name",
        words: &["run", "p", "--=2"],
    },
    Refused {
        name: "`-` and a blank",
        words: &["run", "- "],
    },
];

fn words_of(alloc: Global, words: &[&str]) -> Result<Vec<String>, AllocError> {
    let mut list = Vec::new(alloc);
    for word in words {
        list.push(String::from_str(alloc, word)?)?;
    }
    Ok(list)
}

fn is_read(alloc: Global, case: &Case) -> Result<bool, AllocError> {
    let words = words_of(alloc, case.words)?;
    match command(alloc, &words) {
        Ok((options, file)) => Ok(options == case.options && file == case.file),
        Err(_) => Ok(false),
    }
}

fn is_refused(alloc: Global, case: &Refused) -> Result<bool, AllocError> {
    let words = words_of(alloc, case.words)?;
    Ok(command(alloc, &words) == Err(WordsFault::Bad))
}

#[test]
fn words_are_read(rt: HostRuntime) -> Result<(), Fail> {
    for case in &CASES {
        let name = case.name;
        assert!(rt; is_read(rt.alloc(), case)?, "{name}");
    }
    Ok(())
}

#[test]
fn words_are_refused(rt: HostRuntime) -> Result<(), Fail> {
    for case in &REFUSED {
        let name = case.name;
        assert!(rt; is_refused(rt.alloc(), case)?, "{name}");
    }
    Ok(())
}
