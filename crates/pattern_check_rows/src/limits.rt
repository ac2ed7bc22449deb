//! Patterns at the limits of stages and states, and past them.

use crate::rows::answer;
use std::alloc::Global;
use std::test::Fail;

/// A pattern of so many stages, each with so many events.
fn long_pattern(alloc: Global, stages: usize, times: usize) -> Result<String, Fail> {
    let mut text = String::new(alloc);
    text.push_str("pattern begin(\"s0\")")?;
    for number in 1..stages {
        let stage = format!(in alloc; ".next(\"s{number}\").times({times})")?;
        text.push_str(stage.as_str())?;
    }
    text.push_str(";")?;
    Ok(text)
}

fn answer_to(alloc: Global, stages: usize, times: usize) -> Result<String, Fail> {
    let text = long_pattern(alloc, stages, times)?;
    answer(alloc, text.as_str())
}

#[test]
fn the_limits_of_stages_and_states(rt: HostRuntime) -> Result<(), Fail> {
    let table = [
        (64, 1, "ok 64 0"),
        (65, 1, "code 29 at 1339"),
        (4, 256, "ok 4 0"),
        (5, 255, "ok 5 0"),
        (5, 256, "code 30 at 91"),
        (34, 31, "ok 34 0"),
    ];
    for (stages, times, want) in table {
        let found = answer_to(rt.alloc(), stages, times)?;
        assert_eq!(rt; found.as_str(), want);
    }
    Ok(())
}
