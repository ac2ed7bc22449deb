ghost use Rattle.std.specs.Prelude.{◌≡◌, ◌≤◌, ◌++◌, OnOk, IfOk, length, decimal};
ghost use Rattle.csv.specs.Writing.{default_writer, fields_text};
ghost use Rattle.cep_plan.specs.Aggregate.{taken_for};
ghost use Rattle.cep_select.specs.Output.{named_rows, stages_from};
ghost use Rattle.cep_select.specs.Pieces.{has_events, lead_text, stage_back, stage_front};

use crate::field::{push_number, push_opened};
use cep_event::{ByteList, NoMemory};
use cep_plan::{Stage, Taken};
use line_fields::needs_quotes;

// What stands before a row's number: a space behind another one, and else the name of the stage.
fn push_lead(text: &mut ByteList, behind: bool, quoted: bool, name: &[u8]) -> Result<(), NoMemory>
    ensures { OnOk result (text.new ≡ text.old ++ lead_text behind quoted name.now) }
{
    if behind {
        return text.push(b' ');
    }
    push_opened(text, quoted, name)?;
    text.push(b'=')
}

fn push_row(
    text: &mut ByteList,
    behind: bool,
    quoted: bool,
    name: &[u8],
    row: u32,
) -> Result<(), NoMemory>
    ensures { OnOk result (text.new ≡ text.old ++ (lead_text behind quoted name.now ++ decimal row)) }
{
    push_lead(text, behind, quoted, name)?;
    push_number(text, row)
}

// A stage without the quote behind it, and whether it has an event.
fn push_front(
    text: &mut ByteList,
    quoted: bool,
    name: &[u8],
    stage: u16,
    list: &[Taken],
) -> Result<bool, NoMemory>
    ensures text { OnOk result (text.new ≡ text.old ++ stage_front quoted name.now (taken_for stage list.now)) }
    ensures some { IfOk result (λ some. some ≡ has_events (taken_for stage list.now)) }
{
    let mut behind = false;
    for taken in list {
        if taken.stage == stage {
            push_row(text, behind, quoted, name, taken.event.row)?;
            behind = true;
        }
    }
    Ok(behind)
}

fn push_back(text: &mut ByteList, behind: bool, quoted: bool) -> Result<(), NoMemory>
    ensures { OnOk result (text.new ≡ text.old ++ stage_back behind quoted) }
{
    if behind && quoted {
        return text.push(b'"');
    }
    Ok(())
}

// A stage as `,name=rows`, where it has an event.
fn push_stage(text: &mut ByteList, name: &[u8], stage: u16, list: &[Taken]) -> Result<(), NoMemory>
    ensures { OnOk result (text.new ≡ text.old ++ fields_text default_writer (named_rows name.now (taken_for stage list.now))) }
{
    let quoted = needs_quotes(name);
    let behind = push_front(text, quoted, name, stage, list)?;
    push_back(text, behind, quoted)?;
    Ok(())
}

/// The stages that have an event, each with the rows of its events.
pub(crate) fn push_stages(
    text: &mut ByteList,
    stages: &[Stage],
    list: &[Taken],
) -> Result<(), NoMemory>
    requires { length stages.now ≤ 65536 }
    ensures { OnOk result (text.new ≡ text.old ++ fields_text default_writer (stages_from 0 stages.now list.now)) }
{
    for (number, stage) in stages.iter().enumerate() {
        push_stage(text, stage.name.as_str().as_bytes(), number as u16, list)?;
    }
    Ok(())
}
