//! The program: the real files and streams, and the call that does the work.
#![tactic(auto)]

use cep_cli::{NoGauge, Status, cep, number, tell};
use cep_outside::{DiskFiles, StdSink, StdSource};
use std::env;
use std::io::ErrorKind;
use std::process::ExitCode;

// The words after the program's name. A word that isn't UTF-8 names no file.
fn words_after_name(rt: &HostRuntime) -> Result<Vec<String>, Status> {
    let all = match env::args(rt) {
        Ok(all) => all,
        Err(error) => {
            return Err(if error.kind() == ErrorKind::OutOfMemory {
                Status::NoMemory
            } else {
                Status::BadWords
            });
        }
    };
    let mut words = Vec::new(rt.alloc());
    for word in all.skip(1) {
        if words.push(word).is_err() {
            return Err(Status::NoMemory);
        }
    }
    Ok(words)
}

fn main(rt: HostRuntime) -> ExitCode {
    let mut notes = StdSink::new(rt.stderr());
    let words = match words_after_name(&rt) {
        Ok(words) => words,
        Err(status) => {
            tell(&mut notes, &status);
            return ExitCode::from(number(&status));
        }
    };
    let mut files = DiskFiles::new(&rt);
    let mut input = StdSource::new(rt.stdin());
    let mut output = StdSink::new(rt.stdout());
    let status = cep(
        rt.alloc(),
        &words,
        &mut files,
        &mut input,
        &mut output,
        &mut notes,
        &mut NoGauge,
    );
    ExitCode::from(number(&status))
}
