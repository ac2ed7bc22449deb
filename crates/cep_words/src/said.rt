//! What the words say, by the matches that clap makes of them.

ghost use Rattle.std.specs.Prelude.{◌≡◌, false, codes, option_map};
ghost use Rattle.std.specs.Option.{option_map_or};
ghost use Rattle.std.specs.Str.{bytes_eq};
ghost use Rattle.clap.specs.Words.{found_of, rows_of};
ghost use Rattle.cep_words.specs.App.{said_of_rows};
ghost use Rattle.cep_words.specs.Read.{said_of};

use clap::ArgMatches;

/// The texts of the options' values, and the positions.
#[derive(Clone, Copy, Debug)]
pub(crate) struct Said<'a> {
    pub(crate) lag: Option<&'a str>,
    pub(crate) rows: Option<&'a str>,
    pub(crate) seed: Option<&'a str>,
    pub(crate) count: Option<&'a str>,
    pub(crate) header: bool,
    pub(crate) mode: Option<&'a str>,
    pub(crate) file: Option<&'a str>,
}

fn is_true(text: Option<&str>) -> bool
    ensures { result ≡ option_map_or (λ t. bytes_eq t (codes "true")) (option_map (λ t. t.now) text.entry) false }
{
    match text {
        Some(text) => text == "true",
        None => false,
    }
}

pub(crate) fn said_in<'a>(matches: &ArgMatches<'a>) -> Said<'a>
    ensures { said_of result ≡ said_of_rows (rows_of (found_of matches.now)) }
{
    Said {
        lag: matches.get_str("lag"),
        rows: matches.get_str("rows"),
        seed: matches.get_str("seed"),
        count: matches.get_str("count"),
        header: is_true(matches.get_str("header")),
        mode: matches.get_str("mode"),
        file: matches.get_str("file"),
    }
}
