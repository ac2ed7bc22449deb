//! Puts a chain of edges, then puts and releases edges beside it, then releases the chain from its end. The two words
//! are how many edges the chain has besides its first, and how many come and go beside it. A third word asks for the
//! time of each step.
#![tactic(auto)]

mod load;

use load::{Stop, beside, chain, path_version};
use shared_buffer::{Buffer, Held};
use std::env;
use std::time::Instant;

fn number(word: Option<String>) -> Option<u32> {
    match word {
        Some(word) => word.as_str().parse::<u32>().ok(),
        None => None,
    }
}

// Says how much stands after a step, and where it is asked for how long the step took.
fn report(
    rt: &HostRuntime,
    step: &str,
    buffer: &Buffer,
    timer: Option<Instant>,
) -> anyhow::Result<()> {
    let Held {
        events,
        nodes,
        edges,
    } = buffer.held();
    println!(rt; "{step}: {events} {nodes} {edges}")?;
    if let Some(start) = timer {
        let millis = start.elapsed(rt)?.as_millis();
        eprintln!(rt; "{step}: {millis} ms")?;
    }
    Ok(())
}

fn timer(rt: &HostRuntime, timed: bool) -> anyhow::Result<Option<Instant>> {
    if timed {
        Ok(Some(Instant::now(rt)?))
    } else {
        Ok(None)
    }
}

fn run(rt: &HostRuntime, more: u32, pairs: u32, timed: bool) -> anyhow::Result<()> {
    let alloc = rt.alloc();
    let label = path_version(alloc)?;
    let mut buffer = Buffer::new(alloc);
    let start = timer(rt, timed)?;
    let last = chain(alloc, &mut buffer, &label, more)?;
    report(rt, "chain", &buffer, start)?;
    let start = timer(rt, timed)?;
    beside(alloc, &mut buffer, &label, last, u32::MAX, pairs)?;
    report(rt, "beside", &buffer, start)?;
    let start = timer(rt, timed)?;
    buffer.release(last, &label);
    report(rt, "released", &buffer, start)
}

fn main(rt: HostRuntime) -> anyhow::Result<()> {
    let mut words = env::args(&rt)?;
    let _program = words.next();
    let more = number(words.next());
    let pairs = number(words.next());
    let timed = words.next().is_some();
    match (more, pairs) {
        (Some(more), Some(pairs)) => run(&rt, more, pairs, timed),
        _ => Err(Stop::Words.into()),
    }
}
