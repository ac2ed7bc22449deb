//! What clap is told of the words.

ghost use Rattle.std.specs.Prelude.{◌≡◌, false, IfOk};
ghost use Rattle.clap.specs.Words.{app_of, rule_of};
ghost use Rattle.cep_words.specs.App.{valued_arg, header_arg, position_arg, cep_app};

use clap::{Arg, ArgAction, Command};
use std::alloc::{AllocError, Global};

fn option_arg<'a>(alloc: Global, id: &'a str) -> Arg<'a>
    ensures rule { rule_of result ≡ valued_arg id.entry.now }
    ensures local { result.global ≡ false }
{
    Arg::new(alloc, id).long(id).action(ArgAction::Set)
}

fn flag_arg<'a>(alloc: Global) -> Arg<'a>
    ensures rule { rule_of result ≡ header_arg }
    ensures local { result.global ≡ false }
{
    Arg::new(alloc, "header")
        .long("header")
        .action(ArgAction::SetTrue)
}

fn word_arg<'a>(alloc: Global, id: &'a str) -> Arg<'a>
    ensures rule { rule_of result ≡ position_arg id.entry.now }
    ensures local { result.global ≡ false }
{
    Arg::new(alloc, id).required(true)
}

/// One simple command, whose arguments take any text: ranges and modes are read from the texts.
pub(crate) fn app<'a>(alloc: Global) -> Result<Command<'a>, AllocError>
    ensures { IfOk result (λ command. app_of command ≡ cep_app) }
{
    let bare = Command::new(alloc, "cep")
        .no_binary_name(true)
        .disable_help_flag(true)
        .disable_version_flag(true);
    let with_lag = bare.arg(option_arg(alloc, "lag"))?;
    let with_rows = with_lag.arg(option_arg(alloc, "rows"))?;
    let with_header = with_rows.arg(flag_arg(alloc))?;
    let with_seed = with_header.arg(option_arg(alloc, "seed"))?;
    let with_count = with_seed.arg(option_arg(alloc, "count"))?;
    let with_mode = with_count.arg(word_arg(alloc, "mode"))?;
    let with_file = with_mode.arg(word_arg(alloc, "file"))?;
    Ok(with_file)
}
