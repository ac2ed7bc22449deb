//! The call that reads the words.

ghost use Rattle.std.specs.Prelude.{◌≡◌, ◌≢◌, ◌⊎◌, IfOk, Err, List, [], map, option_map, option_and_then, string_bytes, Some, None};
ghost use Rattle.clap.specs.Words.{fault_of, found_of, matches_of, rows_of};
ghost use Rattle.cep_words.specs.App.{cep_app};
ghost use Rattle.cep_words.specs.Words.{command_of};
ghost use Rattle.cep_words.specs.Words as spec;
ghost use Rattle.cep_words.specs.declared.words.WordsFault.TheVariants.{NoMemory, Bad};
ghost use Rattle.cep_words.specs.Read.{said_of};

use crate::app::app;
use crate::number::{number_within, small_within};
use crate::options::{Mode, Options};
use crate::said::{Said, said_in};
use clap::ArgMatches;
use clap::error::ErrorKind;
use std::alloc::Global;

/// Why words come to no command.
#[derive(Clone, Copy, Debug, PartialEq, Eq)]
pub enum WordsFault {
    NoMemory,
    /// The words are refused.
    Bad,
}

/// The greatest lag, 2^62 milliseconds.
const MOST_LAG: u64 = 1 << 62;

const MOST_ROWS: u32 = u32::MAX;

const MOST_COUNT: u32 = u32::MAX;

const DEFAULT_COUNT: u32 = 1000;

fn mode_named(word: &str) -> Option<Mode>
    ensures { result ≡ spec.mode_named word.now }
{
    if word == "run" {
        Some(Mode::Run)
    } else if word == "check" {
        Some(Mode::Check)
    } else if word == "explain" {
        Some(Mode::Explain)
    } else if word == "load" {
        Some(Mode::Load)
    } else {
        None
    }
}

fn lag_of(text: Option<&str>) -> Option<Option<u64>>
    ensures { result ≡ spec.lag_of (option_map (λ t. t.now) text.entry) }
{
    match text {
        None => Some(None),
        Some(text) => match number_within(0, MOST_LAG, text) {
            Some(lag) => Some(Some(lag)),
            None => None,
        },
    }
}

// The lines that may be read, all by default.
fn rows_of(text: Option<&str>) -> Option<u32>
    ensures { result ≡ spec.rows_of (option_map (λ t. t.now) text.entry) }
{
    match text {
        None => Some(MOST_ROWS),
        Some(text) => small_within(1, MOST_ROWS, text),
    }
}

fn seed_of(text: Option<&str>) -> Option<u64>
    ensures { result ≡ spec.seed_of (option_map (λ t. t.now) text.entry) }
{
    match text {
        None => Some(0),
        Some(text) => number_within(0, u64::MAX, text),
    }
}

fn count_of(text: Option<&str>) -> Option<u32>
    ensures { result ≡ spec.count_of (option_map (λ t. t.now) text.entry) }
{
    match text {
        None => Some(DEFAULT_COUNT),
        Some(text) => small_within(1, MOST_COUNT, text),
    }
}

fn mode_in(word: Option<&str>) -> Option<Mode>
    ensures { result ≡ option_and_then spec.mode_named (option_map (λ w. w.now) word.entry) }
{
    match word {
        None => None,
        Some(word) => mode_named(word),
    }
}

fn options_in(said: &Said<'_>) -> Option<Options>
    ensures { result ≡ spec.options_in (said_of said.now) }
{
    let mode = mode_in(said.mode)?;
    let lag = lag_of(said.lag)?;
    let rows = rows_of(said.rows)?;
    let seed = seed_of(said.seed)?;
    let count = count_of(said.count)?;
    Some(Options {
        mode,
        lag,
        rows,
        header: said.header,
        seed,
        count,
    })
}

fn command_in<'a>(said: Said<'a>) -> Option<(Options, &'a str)>
    ensures { option_map (λ read. (read.0, read.1.now)) result ≡ spec.command_in (said_of said.entry) }
{
    let name = said.file?;
    let options = options_in(&said)?;
    Some((options, name))
}

// The matches of the words, which clap finds where the words are in order.
fn matches<'a>(alloc: Global, words: &'a [String]) -> Result<ArgMatches<'a>, WordsFault>
    ensures ok { IfOk result (λ m. fault_of cep_app (map string_bytes words.entry.now) ≡ []) }
    ensures rows { IfOk result (λ m. rows_of (found_of m) ≡ matches_of cep_app (map string_bytes words.entry.now)) }
    ensures bad { result ≡ Err Bad → fault_of cep_app (map string_bytes words.entry.now) ≢ [] }
{
    let command = match app(alloc) {
        Ok(command) => command,
        Err(_) => return Err(WordsFault::NoMemory),
    };
    match command.try_get_matches_from(words) {
        Ok(matches) => Ok(matches),
        Err(error) => match error.kind() {
            ErrorKind::OutOfMemory => Err(WordsFault::NoMemory),
            _ => Err(WordsFault::Bad),
        },
    }
}

/// The options that the words name, and the name of the pattern file.
pub fn command(alloc: Global, words: &[String]) -> Result<(Options, &str), WordsFault>
    ensures named { IfOk result (λ read. command_of (map string_bytes words.now) ≡ Some (read.0, read.1.now)) }
    ensures bad { result ≡ Err Bad → command_of (map string_bytes words.now) ≡ None }
    ensures refused { command_of (map string_bytes words.now) ≡ None → (result ≡ Err Bad) ⊎ (result ≡ Err NoMemory) }
{
    let found = match matches(alloc, words) {
        Ok(found) => found,
        Err(fault) => return Err(fault),
    };
    match command_in(said_in(&found)) {
        Some(read) => Ok(read),
        None => Err(WordsFault::Bad),
    }
}
