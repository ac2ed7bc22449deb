ghost use Rattle.std.specs.Prelude.{◌≡◌, ◌≤◌, ◌<◌, ◌^◌, ◌-◌, [], List, ℕ, length, IfOk, OnOk, Option, Err};
ghost use Rattle.cep_event.specs.declared.record.LineRecord.{LineRecord};
ghost use Rattle.cep_outside.specs.Outside.{Rose};
ghost use Rattle.cep_plan.specs.declared.plan.Plan.{Plan};
ghost use Rattle.cep_records.specs.Causes.{Answers};
ghost use Rattle.cep_records.specs.Numbered.{AreNumbered};
ghost use Rattle.event_pipeline.specs.Handled.{HasHandled};
ghost use Rattle.event_pipeline.specs.Running.{ComesBehind};
ghost use Rattle.event_pipeline.specs.Shown.{sizes_added, sizes_at_end};
ghost use Rattle.pattern_file.specs.Usable.{IsUsable};
ghost use Rattle.cep_cli.specs.Meaning.{meaning_of, owed_text};
ghost use Rattle.cep_cli.specs.Records.{record_in};
ghost use Rattle.cep_cli.specs.Run.{HasRun, IsCaused, IsShown, IsWritten};

use crate::written::RowWriter;
use cep_event::{LineRecord, NoMemory};
use cep_outside::Sink;
use cep_plan::Plan;
use cep_records::{RowFault, record_of};
use cep_rows::Line;
use cep_session::{EndFault, Handler, LineFault, RowCause};
use event_pipeline::{Gauge, Pipeline, TellFault};
use shared_buffer::Held;
use std::alloc::Global;

/// The record of a line. A heading says nothing, whatever it holds.
pub(crate) fn record_in(
    alloc: Global,
    header: bool,
    plan: &Plan,
    line: &Line,
    row: u32,
) -> Result<LineRecord, RowFault>
    requires { AreNumbered plan.now.types }
    ensures { Answers result (record_in header plan.now.types row line.now) }
{
    if header && row == 1 {
        return Ok(LineRecord::Blank);
    }
    record_of(alloc, plan, line, row)
}

/// A pipeline for a plan that can be used.
#[tactic(auto, using(crate::proofs::TableLaws::compilable))]
pub(crate) fn pipeline_for(
    alloc: Global,
    lag: Option<u64>,
    plan: Plan,
) -> Result<Pipeline, NoMemory>
    requires { IsUsable plan }
    ensures { IfOk result (λ made. HasHandled lag plan [] made) }
{
    Pipeline::new(alloc, lag, plan)
}

// Takes a record, writes the text that it causes, and shows the gauge what is held meanwhile.
fn cause<K: Sink, G: Gauge>(
    pipeline: &mut Pipeline,
    rows: &mut RowWriter,
    next: LineRecord,
    output: &mut K,
    gauge: &mut G,
) -> Result<(), TellFault>
    requires ready { (lag : Option ℕ) × (plan : Plan) × (records : List LineRecord) × HasHandled lag plan records pipeline.old
        × ComesBehind records next × (length records < 2 ^ 32 - 1) }
    requires empty { rows.old.gathered ≡ [] }
    ensures caused { (lag : Option ℕ) (plan : Plan) (records : List LineRecord) → HasHandled lag plan records pipeline.old
        → IsCaused lag plan records next pipeline.new (K.taken output.old) (K.taken output.new) result }
    ensures shown { (lag : Option ℕ) (plan : Plan) (records : List LineRecord) → HasHandled lag plan records pipeline.old
        → IsShown (G.seen gauge.old) (G.seen gauge.new) (sizes_added lag plan records next) result }
    ensures empty { OnOk result (rows.new.gathered ≡ []) }
    ensures later { K.faults output.old ≤ K.faults output.new }
    ensures fault { result ≡ Err TellFault.Failed → Rose (K.faults output.old) (K.faults output.new) }
{
    pipeline.take(next, rows, output, gauge)?;
    rows.flush(output)
}

// The same at the end, with the text that is owed then.
fn owe<K: Sink, G: Gauge>(
    pipeline: Pipeline,
    rows: &mut RowWriter,
    output: &mut K,
    gauge: &mut G,
) -> Result<(), TellFault>
    requires ready { (lag : Option ℕ) × (plan : Plan) × (records : List LineRecord) × HasHandled lag plan records pipeline × (length records < 2 ^ 32) }
    requires empty { rows.old.gathered ≡ [] }
    ensures owed { (lag : Option ℕ) (plan : Plan) (records : List LineRecord) → HasHandled lag plan records pipeline
        → IsWritten (owed_text lag plan records) (K.taken output.old) (K.taken output.new) result }
    ensures shown { (lag : Option ℕ) (plan : Plan) (records : List LineRecord) → HasHandled lag plan records pipeline
        → IsShown (G.seen gauge.old) (G.seen gauge.new) (sizes_at_end lag plan records) result }
    ensures later { K.faults output.old ≤ K.faults output.new }
    ensures fault { result ≡ Err TellFault.Failed → Rose (K.faults output.old) (K.faults output.new) }
{
    pipeline.end(rows, output, gauge)?;
    rows.flush(output)
}

/// A run under a plan.
#[derive(Drop)]
pub(crate) struct EngineRun {
    alloc: Global,
    pipeline: Pipeline,
    rows: RowWriter,
    // Whether the first line is a heading.
    header: bool,
    handled: u32,
}

impl EngineRun {
    ghost use Rattle.std.specs.Prelude.{[], IfOk};
    ghost use Rattle.pattern_file.specs.Usable.{IsUsable};
    ghost use Rattle.cep_cli.specs.Meaning.{meaning_of};
    ghost use Rattle.cep_cli.specs.Run.{HasRun};

    /// A run that has handled no line.
    pub(crate) fn new(
        alloc: Global,
        header: bool,
        lag: Option<u64>,
        plan: Plan,
    ) -> Result<EngineRun, NoMemory>
        requires { IsUsable plan }
        ensures run { IfOk result (λ run. HasRun (meaning_of header lag plan) run.header run.pipeline run.rows.gathered run.handled []) }
    {
        Ok(EngineRun {
            alloc,
            pipeline: pipeline_for(alloc, lag, plan)?,
            rows: RowWriter::new(alloc),
            header,
            handled: 0,
        })
    }
}

impl<G: Gauge> Handler<G, Held> for EngineRun {
    ghost use Rattle.cep_cli.specs.Run.{HasRun};

    ghost stands = { λ s m lines. HasRun m s.header s.pipeline s.rows.gathered s.handled lines };

    ghost shown = { λ gauge. G.seen gauge };

    fn too_long(&self) -> RowCause {
        RowCause::LineTooLong
    }

    fn line<K: Sink>(
        &mut self,
        line: &Line,
        output: &mut K,
        gauge: &mut G,
    ) -> Result<(), LineFault> {
        let row = self.handled + 1;
        let next = match record_in(self.alloc, self.header, self.pipeline.plan(), line, row) {
            Ok(next) => next,
            Err(RowFault::NoMemory) => return Err(LineFault::NoMemory),
            Err(RowFault::Bad(cause)) => return Err(LineFault::Refused(cause)),
        };
        match cause(&mut self.pipeline, &mut self.rows, next, output, gauge) {
            Ok(()) => {
                self.handled = row;
                Ok(())
            }
            Err(TellFault::NoMemory) => Err(LineFault::NoMemory),
            Err(TellFault::Failed) => Err(LineFault::Unwritten),
        }
    }

    fn end<K: Sink>(self, output: &mut K, gauge: &mut G) -> Result<(), EndFault> {
        let EngineRun {
            alloc: _,
            pipeline,
            mut rows,
            header: _,
            handled: _,
        } = self;
        match owe(pipeline, &mut rows, output, gauge) {
            Ok(()) => Ok(()),
            Err(TellFault::NoMemory) => Err(EndFault::NoMemory),
            Err(TellFault::Failed) => Err(EndFault::Unwritten),
        }
    }
}
