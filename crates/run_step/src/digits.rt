//! The labels of lists that take an event.
ghost use Rattle.std.specs.Prelude.{◌≡◌, ◌≤◌, ◌<◌, ◌^◌, ◌+◌, ◌++◌, [], ◌∷◌, if◌then◌else◌, IfOk, length, take, slice_get, slice_index_or, Some, count_by};
ghost use Rattle.nfa_compile.specs.declared.nfa.Wait.{Wait as WaitRow};
ghost use Rattle.nfa_compile.specs.Automaton.{is_chaining, waits_in};
ghost use Rattle.match_labels.specs.Label.{branches};
ghost use Rattle.run_step.specs.Taking.{label_after, digit_after};

use cep_event::NoMemory;
use cep_plan::Contiguity;
use dewey_version::Version;
use nfa_compile::{Nfa, Wait};

/// What the automaton waits for in the state with this number, or at the start.
pub fn waits_at(nfa: &Nfa, number: u16) -> &[Wait]
    ensures { result.now ≡ waits_in nfa.now number }
{
    match number.checked_sub(1) {
        None => nfa.start.as_slice(),
        Some(before) => match nfa.took.get(before as usize) {
            None => &[],
            Some(took) => took.proceed.as_slice(),
        },
    }
}

/// Whether not all events are let pass.
pub fn is_chaining(mode: Contiguity) -> bool
    ensures { result ≡ is_chaining mode }
{
    match mode {
        Contiguity::Strict => true,
        Contiguity::Relaxed => true,
        Contiguity::Any => false,
    }
}

/// How many of the waits branch off.
pub fn branches_in(waits: &[Wait]) -> u64
    requires { length waits.now ≤ 65 }
    ensures exact { result ≡ count_by branches waits.now }
    ensures few { result ≤ 65 }
{
    waits.iter().filter(|wait| !wait.same_chain).count() as u64
}

/// The label of a list that takes an event for the wait with this number.
pub fn label_after(
    waits: &[Wait],
    number: usize,
    wait: &Wait,
    version: &Version,
    next_digit: u64,
    bump: u64,
) -> Result<Version, NoMemory>
    requires waits { length waits.now ≤ 65 }
    requires number { number ≤ length waits.now }
    requires digit { next_digit < 2 ^ 63 }
    ensures { IfOk result (λ label. label ≡ label_after waits.now number wait.now version.now next_digit bump) }
{
    if wait.same_chain {
        return version.copy();
    }
    let branch = version.child(next_digit + branches_in(&waits[..number]))?;
    if is_chaining(wait.mode) {
        return Ok(branch);
    }
    branch.child(bump)
}

/// The first digit that the list then hasn't given away.
pub fn digit_after(waits: &[Wait], wait: &Wait, next_digit: u64) -> u64
    requires waits { length waits.now ≤ 65 }
    requires digit { next_digit < 2 ^ 63 }
    ensures { result ≡ digit_after waits.now wait.now next_digit }
{
    if wait.same_chain {
        next_digit + branches_in(waits)
    } else {
        0
    }
}
