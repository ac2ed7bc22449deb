//! Plans with the text that explains their automata.
ghost use Rattle.std.specs.Prelude.{◌≡◌, IfOk};
ghost use Rattle.nfa_compile.specs.Automaton.{automaton_of};

use cep_event::{EventTypeList, NoMemory, Text};
use cep_plan::{Cond, Contiguity, Negation, NegationList, PartList, Plan, Skip, Stage, StageList};
use nfa_compile::{Nfa, compile, explain, is_compilable};
use std::alloc::Global;
use std::process::Abort;
use std::test::Fail;

/// A stage of a plan: how many events it needs, how many it takes at most, and whether it is optional.
#[derive(Clone, Copy)]
struct StageRow {
    min: u32,
    max: Option<u32>,
    optional: bool,
    first: Contiguity,
    inner: Contiguity,
}

/// A negation: the stage that it stands behind, and whether it is a `notNext`.
#[derive(Clone, Copy)]
struct NegationRow {
    after: u16,
    next_only: bool,
}

fn any_event(alloc: Global) -> Cond {
    Cond {
        parts: PartList::new(alloc),
    }
}

fn stage_of(alloc: Global, row: StageRow, name: &str) -> Result<Stage, NoMemory> {
    let name = Text::from_str(alloc, name)?;
    Ok(Stage {
        name,
        of: None,
        cond: any_event(alloc),
        until: None,
        first: row.first,
        inner: row.inner,
        min: row.min,
        max: row.max,
        optional: row.optional,
    })
}

fn negation_of(alloc: Global, row: NegationRow, name: &str) -> Result<Negation, NoMemory> {
    let name = Text::from_str(alloc, name)?;
    Ok(Negation {
        name,
        after: row.after,
        next_only: row.next_only,
        of: None,
        cond: any_event(alloc),
    })
}

fn stages_of(alloc: Global, rows: &[StageRow]) -> Result<StageList, NoMemory> {
    let names = ["a", "b", "c"];
    let mut stages = StageList::new(alloc);
    for (row, name) in rows.iter().zip(names) {
        stages.push(stage_of(alloc, *row, name)?)?;
    }
    Ok(stages)
}

fn negations_of(alloc: Global, rows: &[NegationRow]) -> Result<NegationList, NoMemory> {
    let names = ["x", "y", "z"];
    let mut negations = NegationList::new(alloc);
    for (row, name) in rows.iter().zip(names) {
        negations.push(negation_of(alloc, *row, name)?)?;
    }
    Ok(negations)
}

fn plan_of(alloc: Global, stages: StageList, negations: NegationList) -> Plan {
    Plan {
        types: EventTypeList::new(alloc),
        stages,
        negations,
        within: None,
        within_gap: None,
        by: None,
        skip: Skip::No,
        select: None,
    }
}

fn compiled(rt: &impl Abort, alloc: Global, plan: &Plan) -> Result<Nfa, NoMemory>
    ensures { IfOk result (λ nfa. nfa ≡ automaton_of plan.now) }
{
    let fits = is_compilable(plan);
    assert!(rt; fits);
    compile(alloc, plan)
}

fn explained(rt: &impl Abort, alloc: Global, plan: &Plan) -> Result<Text, NoMemory> {
    let nfa = compiled(rt, alloc, plan)?;
    explain(alloc, &nfa, plan)
}

fn is_explained(
    rt: &impl Abort,
    alloc: Global,
    stages: &[StageRow],
    negations: &[NegationRow],
    expected: &str,
) -> Result<bool, NoMemory> {
    let stages = stages_of(alloc, stages)?;
    let negations = negations_of(alloc, negations)?;
    let plan = plan_of(alloc, stages, negations);
    let text = explained(rt, alloc, &plan)?;
    Ok(text.as_str() == expected)
}

const fn one(first: Contiguity) -> StageRow {
    StageRow {
        min: 1,
        max: Some(1),
        optional: false,
        first,
        inner: Contiguity::Relaxed,
    }
}

/// One event, one or more, and one event.
const LOOP: &str = "states 3
start
  proceed take a#1 ignore all
state 1 a#1
  proceed take b#1+ ignore other
state 2 b#1+
  proceed take b#1+ ignore other chain
  proceed take c#1 ignore other
state 3 c#1 full
";

#[test]
fn a_loop_is_explained(rt: HostRuntime) -> Result<(), Fail> {
    let looped = StageRow {
        max: None,
        ..one(Contiguity::Relaxed)
    };
    let stages = [one(Contiguity::Any), looped, one(Contiguity::Relaxed)];
    assert!(rt; is_explained(&rt, rt.alloc(), &stages, &[], LOOP)?);
    Ok(())
}

/// A stage that may be left out, two events without another between, and a stage that may be left out.
const OPTIONAL: &str = "states 4
start
  proceed take a#1 ignore all
  proceed take b#1 ignore all
state 1 a#1
  proceed take b#1 ignore none
state 2 b#1
  proceed take b#2 ignore none chain
state 3 b#2 full
  proceed take c#1 ignore all
state 4 c#1 full
";

#[test]
fn optional_stages_are_explained(rt: HostRuntime) -> Result<(), Fail> {
    let optional = StageRow {
        optional: true,
        ..one(Contiguity::Any)
    };
    let twice = StageRow {
        min: 2,
        max: Some(2),
        inner: Contiguity::Strict,
        ..one(Contiguity::Strict)
    };
    let stages = [optional, twice, optional];
    assert!(rt; is_explained(&rt, rt.alloc(), &stages, &[], OPTIONAL)?);
    Ok(())
}

/// Two negations before a loop in all combinations, and one behind it.
const NEGATED: &str = "states 4
start
  proceed take a#1 ignore all
state 1 a#1
  proceed take b#1 ignore other notnext x not y
state 2 b#1
  proceed take b#2+ ignore all
state 3 b#2+
  proceed take b#2+ ignore all
  proceed take c#1 ignore none not z
state 4 c#1 full
";

#[test]
fn negations_are_explained(rt: HostRuntime) -> Result<(), Fail> {
    let looped = StageRow {
        min: 2,
        max: None,
        inner: Contiguity::Any,
        ..one(Contiguity::Relaxed)
    };
    let stages = [one(Contiguity::Any), looped, one(Contiguity::Strict)];
    let negations = [(0, true), (0, false), (1, false)].map(|(after, next_only)| NegationRow {
        after,
        next_only,
    });
    assert!(rt; is_explained(&rt, rt.alloc(), &stages, &negations, NEGATED)?);
    Ok(())
}

/// A loop that may be followed by the end, where none of the negations behind it stands.
const CLOSING: &str = "states 3
start
  proceed take a#1 ignore all
state 1 a#1
  proceed take b#1 ignore other
state 2 b#1
  proceed take b#2+ ignore other chain
state 3 b#2+
  proceed take b#2+ ignore other chain
  proceed close notnext x not y
";

#[test]
fn the_end_is_explained(rt: HostRuntime) -> Result<(), Fail> {
    let looped = StageRow {
        min: 2,
        max: None,
        ..one(Contiguity::Relaxed)
    };
    let stages = [one(Contiguity::Any), looped];
    let negations = [(1, true), (1, false)].map(|(after, next_only)| NegationRow {
        after,
        next_only,
    });
    assert!(rt; is_explained(&rt, rt.alloc(), &stages, &negations, CLOSING)?);
    Ok(())
}

fn many_stages(alloc: Global, count: usize, row: StageRow) -> Result<StageList, NoMemory> {
    let mut stages = StageList::new(alloc);
    for _ in 0..count {
        stages.push(stage_of(alloc, row, "s")?)?;
    }
    Ok(stages)
}

/// Stages that may be left out, each with up to sixteen events: how many states there are, how many waits at the start, and how many in the first state.
fn sizes(rt: &impl Abort, alloc: Global, count: usize) -> Result<[usize; 3], NoMemory> {
    let row = StageRow {
        max: Some(16),
        optional: true,
        ..one(Contiguity::Relaxed)
    };
    let plan = plan_of(
        alloc,
        many_stages(alloc, count, row)?,
        NegationList::new(alloc),
    );
    let nfa = compiled(rt, alloc, &plan)?;
    let first = match nfa.took.get(0) {
        None => 0,
        Some(took) => took.proceed.len(),
    };
    Ok([nfa.took.len(), nfa.start.len(), first])
}

#[test]
fn the_largest_plan_is_compiled(rt: HostRuntime) -> Result<(), Fail> {
    assert!(rt; sizes(&rt, rt.alloc(), 64)? == [1024, 64, 64]);
    Ok(())
}
