ghost use Rattle.std.specs.Prelude.{◌≡◌, ◌≤◌, ◌<◌, ◌-◌, ◌^◌, ◌+◌, ◌++◌, ◌∷◌, [], List, ℕ, length, max, IsOk, IfOk, OnOk, OnErr, Ok, Err, Option, false};
ghost use Rattle.cep_load.specs.Lines.{generated_lines};
ghost use Rattle.cep_load.specs.Summary.{summary_of};
ghost use Rattle.cep_plan.specs.declared.plan.Plan.{Plan};
ghost use Rattle.cep_records.specs.Numbered.{AreNumbered};
ghost use Rattle.pattern_file.specs.Usable.{IsUsable};
ghost use Rattle.cep_session.specs.Meaning.{sofar, whole};
ghost use Rattle.sharing_laws.specs.Sizes.{greatest_held};
ghost use Rattle.cep_cli.specs.Counted.{HasCounted, ShowsMost, counted_more};
ghost use Rattle.cep_cli.specs.Load.{load_sizes, load_summary, whole_counts};
ghost use Rattle.cep_cli.specs.Meaning.{sizes_of_lines};
ghost use Rattle.cep_cli.specs.Run.{IsShown};
ghost use Rattle.cep_cli.specs.Records.{record_in, records_of};

use crate::run::{pipeline_for, record_in};
use cep_event::{EventType, EventTypeList, Field, FieldList, LineRecord, NoMemory, Text};
use cep_load::{Generated, summary};
use cep_plan::{Item, NegationList, Plan, Skip, StageList};
use cep_records::RowFault;
use cep_rows::Line;
use cep_words::Options;
use event_pipeline::{Gauge, Outputs, Pipeline, TellFault};
use std::alloc::Global;

/// How many late events, matches and timeouts a run told.
#[derive(Clone, Copy, Debug, PartialEq, Eq)]
pub(crate) struct Counts {
    pub(crate) late: u64,
    pub(crate) matches: u64,
    pub(crate) timeouts: u64,
}

const NONE: Counts = Counts {
    late: 0,
    matches: 0,
    timeouts: 0,
};

fn sum(count: u64, more: u64) -> Result<u64, TellFault>
    ensures all { IfOk result (λ all. all ≡ count + more) }
    ensures fault { OnErr result (result ≡ Err TellFault.NoMemory) }
{
    match count.checked_add(more) {
        Some(all) => Ok(all),
        None => Err(TellFault::NoMemory),
    }
}

/// Counts what it is told.
#[derive(Drop)]
struct Counting;

impl Outputs<Counts> for Counting {
    ghost tells = { λ plan a b one. b.1 ≡ counted_more a.1 one };

    ghost stops = { λ plan fault a b one. Unit {0} };

    fn late(&mut self, counts: &mut Counts, row: u32) -> Result<(), TellFault> {
        counts.late = sum(counts.late, 1)?;
        Ok(())
    }

    fn item(&mut self, counts: &mut Counts, plan: &Plan, item: &Item) -> Result<(), TellFault> {
        match item {
            Item::Match(_) => counts.matches = sum(counts.matches, 1)?,
            Item::Timeout(_) => counts.timeouts = sum(counts.timeouts, 1)?,
        }
        Ok(())
    }
}

fn greater(one: u64, other: u64) -> u64
    ensures { result ≡ max one other }
{
    if one < other { other } else { one }
}

// The record of the next line, which isn't refused.
fn read_next(alloc: Global, plan: &Plan, line: &Line, row: u32) -> Result<LineRecord, NoMemory>
    requires numbered { AreNumbered plan.now.types }
    requires accepted { IsOk (record_in false plan.now.types row line.now) }
    ensures { IfOk result (λ next. record_in false plan.now.types row line.now ≡ Ok next) }
{
    match record_in(alloc, false, plan, line, row) {
        Ok(next) => Ok(next),
        Err(RowFault::NoMemory) => Err(NoMemory),
        Err(RowFault::Bad(_)) => unreachable!(),
    }
}

// Handles one line more, counts what it causes, and shows the gauge what is held meanwhile. Here and below the answer is the
// greatest number of events that were held.
fn count_line<G: Gauge>(
    alloc: Global,
    pipeline: &mut Pipeline,
    line: &Line,
    row: u32,
    counts: &mut Counts,
    gauge: &mut G,
) -> Result<u64, NoMemory>
    requires ready { (lag : Option ℕ) × (plan : Plan) × (lines : List (List ℕ)) × HasCounted lag plan pipeline.old counts.old lines
        × IsUsable plan × (row ≡ length lines + 1) × IsOk (record_in false plan.types row line.now) }
    ensures counted { (lag : Option ℕ) (plan : Plan) (lines : List (List ℕ)) → HasCounted lag plan pipeline.old counts.old lines → row ≡ length lines + 1
        → OnOk result (HasCounted lag plan pipeline.new counts.new (lines ++ line.now ∷ [])) }
    ensures shown { (lag : Option ℕ) (plan : Plan) (lines : List (List ℕ)) → HasCounted lag plan pipeline.old counts.old lines → row ≡ length lines + 1
        → ShowsMost (G.seen gauge.old) (G.seen gauge.new) ((sizes_of_lines false lag plan).caused lines line.now) result }
{
    let next = read_next(alloc, pipeline.plan(), line, row)?;
    match pipeline.take(next, &mut Counting, counts, gauge) {
        Ok(held) => Ok(held),
        Err(_) => Err(NoMemory),
    }
}

// Handles all lines, and counts what they cause before the end.
fn count_lines<G: Gauge>(
    alloc: Global,
    pipeline: &mut Pipeline,
    lines: &mut Generated,
    counts: &mut Counts,
    gauge: &mut G,
) -> Result<u64, NoMemory>
    requires ready { (lag : Option ℕ) × (plan : Plan) × HasCounted lag plan pipeline.old counts.old [] × IsUsable plan
        × ((before after : List (List ℕ)) (line : List ℕ) → lines.old ≡ before ++ line ∷ after → IsOk (record_in false plan.types (length before + 1) line)) }
    requires few { length lines.old < 2 ^ 32 }
    ensures counted { (lag : Option ℕ) (plan : Plan) → HasCounted lag plan pipeline.old counts.old []
        → OnOk result (HasCounted lag plan pipeline.new counts.new lines.old) }
    ensures shown { (lag : Option ℕ) (plan : Plan) → HasCounted lag plan pipeline.old counts.old []
        → ShowsMost (G.seen gauge.old) (G.seen gauge.new) (sofar (sizes_of_lines false lag plan) lines.old) result }
{
    let mut row = 0;
    let mut greatest = 0;
    while let Some(line) = lines.next_line()? {
        row += 1;
        let held = count_line(alloc, pipeline, &line, row, counts, gauge)?;
        greatest = greater(greatest, held);
    }
    Ok(greatest)
}

// Counts what the end causes.
fn count_end<G: Gauge>(
    pipeline: Pipeline,
    counts: &mut Counts,
    gauge: &mut G,
) -> Result<u64, NoMemory>
    requires { (lag : Option ℕ) × (plan : Plan) × (lines : List (List ℕ)) × HasCounted lag plan pipeline counts.old lines × (length lines < 2 ^ 32) }
    ensures counted { (lag : Option ℕ) (plan : Plan) (lines : List (List ℕ)) → HasCounted lag plan pipeline counts.old lines
        → OnOk result (counts.new ≡ whole_counts lag plan (records_of false plan.types lines)) }
    ensures shown { (lag : Option ℕ) (plan : Plan) (lines : List (List ℕ)) → HasCounted lag plan pipeline counts.old lines
        → ShowsMost (G.seen gauge.old) (G.seen gauge.new) ((sizes_of_lines false lag plan).owed lines) result }
{
    match pipeline.end(&mut Counting, counts, gauge) {
        Ok(held) => Ok(held),
        Err(_) => Err(NoMemory),
    }
}

// What a run over some lines told, and the greatest number of events that were held after a tick.
#[derive(Clone, Copy, Debug, PartialEq, Eq)]
pub(crate) struct Tally {
    pub(crate) counts: Counts,
    pub(crate) greatest: u64,
}

// What a run over these lines tells.
fn count_run<G: Gauge>(
    alloc: Global,
    lag: Option<u64>,
    plan: Plan,
    lines: &mut Generated,
    gauge: &mut G,
) -> Result<Tally, NoMemory>
    requires usable { IsUsable plan }
    requires few { length lines.old < 2 ^ 32 }
    requires accepted { (before after : List (List ℕ)) (line : List ℕ) → lines.old ≡ before ++ line ∷ after
        → IsOk (record_in false plan.types (length before + 1) line) }
    ensures counts { IfOk result (λ made. made.counts ≡ whole_counts lag plan (records_of false plan.types lines.old)) }
    ensures greatest { IfOk result (λ made. made.greatest ≡ greatest_held (whole (sizes_of_lines false lag plan) lines.old)) }
    ensures shown { IsShown (G.seen gauge.old) (G.seen gauge.new) (whole (sizes_of_lines false lag plan) lines.old) result }
{
    let mut pipeline = pipeline_for(alloc, lag, plan)?;
    let mut counts = NONE;
    let before = count_lines(alloc, &mut pipeline, lines, &mut counts, gauge)?;
    let at_end = count_end(pipeline, &mut counts, gauge)?;
    Ok(Tally {
        counts,
        greatest: greater(before, at_end),
    })
}

fn copy_field(field: &Field) -> Result<Field, NoMemory>
    ensures { IfOk result (λ made. made ≡ field.now) }
{
    let name = field.name.copy()?;
    Ok(Field {
        name,
        number: field.number,
        kind: field.kind,
    })
}

fn copy_fields(fields: &FieldList) -> Result<FieldList, NoMemory>
    ensures { IfOk result (λ made. made ≡ fields.now) }
{
    let mut made = fields.emptied();
    for field in fields.as_slice() {
        made.push(copy_field(field)?)?;
    }
    Ok(made)
}

fn copy_type(declared: &EventType) -> Result<EventType, NoMemory>
    ensures { IfOk result (λ made. made ≡ declared.now) }
{
    let name = declared.name.copy()?;
    let fields = copy_fields(&declared.fields)?;
    Ok(EventType { name, fields })
}

fn copy_types(types: &EventTypeList) -> Result<EventTypeList, NoMemory>
    ensures { IfOk result (λ made. made ≡ types.now) }
{
    let mut made = types.emptied();
    for declared in types.as_slice() {
        made.push(copy_type(declared)?)?;
    }
    Ok(made)
}

// A plan of the same types alone, for the generator: the engine owns the plan that it runs.
fn types_alone(alloc: Global, plan: &Plan) -> Result<Plan, NoMemory>
    ensures { IfOk result (λ made. made.types ≡ plan.now.types) }
{
    let types = copy_types(&plan.types)?;
    Ok(Plan {
        types,
        stages: StageList::new(alloc),
        negations: NegationList::new(alloc),
        within: None,
        within_gap: None,
        by: None,
        skip: Skip::No,
        select: None,
    })
}

// What a run over the lines tells that these options ask for.
fn count_generated<G: Gauge>(
    alloc: Global,
    options: Options,
    plan: Plan,
    gauge: &mut G,
) -> Result<Tally, NoMemory>
    requires { IsUsable plan }
    ensures counts { IfOk result (λ made. made.counts
        ≡ whole_counts options.lag plan (records_of false plan.types (generated_lines plan.types options.seed options.count))) }
    ensures greatest { IfOk result (λ made. made.greatest ≡ greatest_held (load_sizes options plan)) }
    ensures shown { IsShown (G.seen gauge.old) (G.seen gauge.new) (load_sizes options plan) result }
{
    let declared = types_alone(alloc, &plan)?;
    let mut lines = Generated::new(alloc, &declared, options.seed, options.count);
    let made = count_run(alloc, options.lag, plan, &mut lines, gauge)?;
    Ok(made)
}

fn summary_text(
    alloc: Global,
    rows: u64,
    late: u64,
    matches: u64,
    timeouts: u64,
    greatest: u64,
) -> Result<Text, NoMemory>
    ensures { IfOk result (λ text. text ≡ summary_of rows late matches timeouts greatest) }
{
    let bytes = summary(alloc, rows, late, matches, timeouts, greatest)?;
    let text = String::from_utf8(bytes.into_vec()).unwrap();
    Text::from_str(alloc, text.as_str())
}

/// The summary of a run of the plan over the lines that these options ask for. The gauge is shown what is held meanwhile.
pub(crate) fn load_summary<G: Gauge>(
    alloc: Global,
    options: Options,
    plan: Plan,
    gauge: &mut G,
) -> Result<Text, NoMemory>
    requires { IsUsable plan }
    ensures text { IfOk result (λ text. text ≡ load_summary options plan) }
    ensures shown { IsShown (G.seen gauge.old) (G.seen gauge.new) (load_sizes options plan) result }
{
    let tally = count_generated(alloc, options, plan, gauge)?;
    let text = summary_text(
        alloc,
        u64::from(options.count),
        tally.counts.late,
        tally.counts.matches,
        tally.counts.timeouts,
        tally.greatest,
    )?;
    Ok(text)
}
