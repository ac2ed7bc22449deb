//! The text that explains an automaton.
ghost use Rattle.std.specs.Prelude.{◌≡◌, ◌++◌, ◌+◌, string_bytes, decimal, flat_map, codes, IfOk, OnOk};
ghost use Rattle.nfa_compile.specs.Automaton.{automaton_of};
ghost use Rattle.nfa_compile.specs.Explained as spec;

use crate::nfa::{Nfa, Took, Wait};
use crate::state::is_open_ended;
use cep_event::{NoMemory, Text};
use cep_plan::{Contiguity, Negation, Plan};
use itoa::Buffer;
use std::alloc::Global;

/// Adds the number in tens.
fn put_number(out: &mut String, number: u64) -> Result<(), NoMemory>
    ensures { OnOk result (string_bytes out.new ≡ string_bytes out.old ++ decimal number) }
{
    let mut buffer = Buffer::new();
    out.push_str(buffer.format(number))?;
    Ok(())
}

/// Adds the text where it is wanted.
fn put_if(out: &mut String, wanted: bool, text: &str) -> Result<(), NoMemory>
    ensures { OnOk result (string_bytes out.new ≡ string_bytes out.old ++ spec.text_if wanted text.now) }
{
    if wanted {
        out.push_str(text)?;
    }
    Ok(())
}

fn put_name(out: &mut String, plan: &Plan, stage: u16) -> Result<(), NoMemory>
    ensures { OnOk result (string_bytes out.new ≡ string_bytes out.old ++ spec.name_at plan.now stage) }
{
    match plan.stages.get(stage as usize) {
        None => Ok(()),
        Some(declared) => {
            out.push_str(declared.name.as_str())?;
            Ok(())
        }
    }
}

/// Adds the stage's name and the count.
fn put_state(
    out: &mut String,
    plan: &Plan,
    stage: u16,
    count: u32,
    open_ended: bool,
) -> Result<(), NoMemory>
    ensures { OnOk result (string_bytes out.new ≡ string_bytes out.old ++ spec.state_text plan.now stage count open_ended) }
{
    put_name(out, plan, stage)?;
    out.push_str("#")?;
    put_number(out, count as u64)?;
    put_if(out, open_ended, "+")?;
    Ok(())
}

fn mode_text(mode: Contiguity) -> &'static str
    ensures { result.now ≡ spec.mode_text mode }
{
    match mode {
        Contiguity::Strict => " ignore none",
        Contiguity::Relaxed => " ignore other",
        Contiguity::Any => " ignore all",
    }
}

fn negation_opening(next_only: bool) -> &'static str
    ensures { result.now ≡ spec.negation_opening next_only }
{
    if next_only { " notnext " } else { " not " }
}

fn put_negation(out: &mut String, negation: &Negation) -> Result<(), NoMemory>
    ensures { OnOk result (string_bytes out.new ≡ string_bytes out.old ++ spec.negation_text negation.now) }
{
    out.push_str(negation_opening(negation.next_only))?;
    out.push_str(negation.name.as_str())?;
    Ok(())
}

/// Adds the negation with this number.
fn put_negation_at(out: &mut String, plan: &Plan, number: u16) -> Result<(), NoMemory>
    ensures { OnOk result (string_bytes out.new ≡ string_bytes out.old ++ spec.negation_at plan.now number) }
{
    match plan.negations.get(number as usize) {
        None => Ok(()),
        Some(negation) => put_negation(out, negation),
    }
}

fn put_negations(out: &mut String, plan: &Plan, numbers: &[u16]) -> Result<(), NoMemory>
    ensures { OnOk result (string_bytes out.new ≡ string_bytes out.old ++ flat_map (spec.negation_at plan.now) numbers.now) }
{
    for number in numbers {
        put_negation_at(out, plan, *number)?;
    }
    Ok(())
}

/// Adds the state that a take leads to.
fn put_target(out: &mut String, plan: &Plan, wait: &Wait) -> Result<(), NoMemory>
    ensures { OnOk result (string_bytes out.new ≡ string_bytes out.old ++ spec.target_text plan.now wait.now) }
{
    let open_ended = is_open_ended(plan, wait.stage, wait.count);
    put_state(out, plan, wait.stage, wait.count, open_ended)
}

/// Adds which events are passed over, and whether the wait is a step of a chain.
fn put_how(out: &mut String, wait: &Wait) -> Result<(), NoMemory>
    ensures { OnOk result (string_bytes out.new ≡ string_bytes out.old ++ spec.how_text wait.now) }
{
    out.push_str(mode_text(wait.mode))?;
    put_if(out, wait.same_chain, " chain")
}

/// Adds what is waited for: a take or the end.
fn put_aim(out: &mut String, plan: &Plan, wait: &Wait) -> Result<(), NoMemory>
    ensures { OnOk result (string_bytes out.new ≡ string_bytes out.old ++ spec.aim_text plan.now wait.now) }
{
    if wait.stage as usize == plan.stages.len() {
        out.push_str("close")?;
        return Ok(());
    }
    out.push_str("take ")?;
    put_target(out, plan, wait)?;
    put_how(out, wait)
}

/// Adds the line of a wait.
#[tactic(auto, unfolding(crate::specs::Explained::wait_line))]
fn put_wait(out: &mut String, plan: &Plan, wait: &Wait) -> Result<(), NoMemory>
    ensures { OnOk result (string_bytes out.new ≡ string_bytes out.old ++ spec.wait_line plan.now wait.now) }
{
    out.push_str("  proceed ")?;
    put_aim(out, plan, wait)?;
    put_negations(out, plan, wait.negations.as_slice())?;
    out.push_str("\n")?;
    Ok(())
}

fn put_waits(out: &mut String, plan: &Plan, waits: &[Wait]) -> Result<(), NoMemory>
    ensures { OnOk result (string_bytes out.new ≡ string_bytes out.old ++ spec.wait_lines plan.now waits.now) }
{
    for wait in waits {
        put_wait(out, plan, wait)?;
    }
    Ok(())
}

/// Adds the line of a state and those of its waits.
#[tactic(auto, unfolding(crate::specs::Explained::took_lines))]
fn put_took(out: &mut String, plan: &Plan, number: u64, took: &Took) -> Result<(), NoMemory>
    ensures { OnOk result (string_bytes out.new ≡ string_bytes out.old ++ spec.took_lines plan.now number took.now) }
{
    out.push_str("state ")?;
    put_number(out, number)?;
    out.push_str(" ")?;
    put_state(out, plan, took.stage, took.count, took.open_ended)?;
    put_if(out, took.full, " full")?;
    out.push_str("\n")?;
    put_waits(out, plan, took.proceed.as_slice())
}

/// Adds the lines of the state at the place.
#[tactic(auto, unfolding(crate::specs::Explained::lines_at))]
fn put_took_at(out: &mut String, plan: &Plan, took: &[Took], place: usize) -> Result<(), NoMemory>
    ensures { OnOk result (string_bytes out.new ≡ string_bytes out.old ++ spec.lines_at plan.now took.now place) }
{
    match took.get(place) {
        None => Ok(()),
        Some(here) => put_took(out, plan, place as u64 + 1, here),
    }
}

fn put_states(out: &mut String, plan: &Plan, took: &[Took]) -> Result<(), NoMemory>
    ensures { OnOk result (string_bytes out.new ≡ string_bytes out.old ++ spec.all_lines plan.now took.now) }
{
    for place in 0..took.len() {
        put_took_at(out, plan, took, place)?;
    }
    Ok(())
}

fn put_table(out: &mut String, nfa: &Nfa, plan: &Plan) -> Result<(), NoMemory>
    ensures { OnOk result (string_bytes out.new ≡ string_bytes out.old ++ spec.table_of plan.now nfa.now) }
{
    out.push_str("states ")?;
    put_number(out, nfa.took.len() as u64)?;
    out.push_str("\nstart\n")?;
    put_waits(out, plan, nfa.start.as_slice())?;
    put_states(out, plan, nfa.took.as_slice())
}

/// The text that explains the automaton of the plan.
///
/// The first line has the number of states. The waits of the start follow, and then each state with its waits, one a line:
/// the state that a take leads to, with `+` where it has no end, and which events are passed over; or that it is the end that is waited for;
/// and then the negations between.
#[tactic(auto, unfolding(crate::specs::Explained::explained))]
pub fn explain(alloc: Global, nfa: &Nfa, plan: &Plan) -> Result<Text, NoMemory>
    requires { nfa.now ≡ automaton_of plan.now }
    ensures { IfOk result (λ text. text ≡ spec.explained plan.now) }
{
    let mut out = String::new(alloc);
    put_table(&mut out, nfa, plan)?;
    Text::from_str(alloc, out.as_str())
}
