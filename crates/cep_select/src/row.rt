ghost use Rattle.std.specs.Prelude.{◌≡◌, ◌≤◌, ◌<◌, ◌^◌, ◌∷◌, ◌++◌, OnOk, IfOk, length};
ghost use Rattle.std.specs.List.{All};
ghost use Rattle.csv.specs.Writing.{default_writer, fields_text};
ghost use Rattle.cep_select.specs.Output.{fields_of, match_fields, stages_from, row_of, rows_of, late_row};
ghost use Rattle.cep_plan.specs.declared.item.Item.TheVariants.{Match, Timeout};
ghost use Rattle.cep_select.specs.Pieces.{IsShort};

use crate::field::push_number;
use crate::named::push_stages;
use crate::selected::push_selected;
use cep_event::{ByteList, NoMemory};
use cep_plan::{Item, ItemList, Plan, TakenList};
use std::alloc::Global;

fn push_named(text: &mut ByteList, plan: &Plan, list: &TakenList) -> Result<(), NoMemory>
    requires { length plan.now.stages ≤ 65536 }
    ensures { OnOk result (text.new ≡ text.old ++ fields_text default_writer (stages_from 0 plan.now.stages list.now)) }
{
    push_stages(text, plan.stages.as_slice(), list.as_slice())
}

// What the pattern shows of a match.
fn push_shown(text: &mut ByteList, plan: &Plan, list: &TakenList) -> Result<(), NoMemory>
    requires stages { length plan.now.stages ≤ 65536 }
    requires short { length list.now < 2 ^ 32 }
    ensures { OnOk result (text.new ≡ text.old ++ fields_text default_writer (match_fields plan.now list.now plan.now.select)) }
{
    match &plan.select {
        Some(exprs) => push_selected(text, plan, exprs.as_slice(), list),
        None => push_named(text, plan, list),
    }
}

fn push_match(text: &mut ByteList, plan: &Plan, list: &TakenList) -> Result<(), NoMemory>
    requires stages { length plan.now.stages ≤ 65536 }
    requires short { length list.now < 2 ^ 32 }
    ensures { OnOk result (text.new ≡ text.old ++ row_of plan.now (Match list.now)) }
{
    text.extend(b"match")?;
    push_shown(text, plan, list)?;
    text.push(b'\n')?;
    Ok(())
}

fn push_timeout(text: &mut ByteList, plan: &Plan, list: &TakenList) -> Result<(), NoMemory>
    requires { length plan.now.stages ≤ 65536 }
    ensures { OnOk result (text.new ≡ text.old ++ row_of plan.now (Timeout list.now)) }
{
    text.extend(b"timeout")?;
    push_named(text, plan, list)?;
    text.push(b'\n')?;
    Ok(())
}

/// Adds the row of a match or a timeout, as `row_of` gives it, behind a text. Where memory is wanted a part of the row may stand there.
pub fn push_item(text: &mut ByteList, plan: &Plan, item: &Item) -> Result<(), NoMemory>
    requires stages { length plan.now.stages ≤ 65536 }
    requires short { IsShort item.now }
    ensures { OnOk result (text.new ≡ text.old ++ row_of plan.now item.now) }
{
    match item {
        Item::Match(list) => push_match(text, plan, list),
        Item::Timeout(list) => push_timeout(text, plan, list),
    }
}

/// The row of a match or a timeout, with its line feed.
///
/// A match shows `match` and then each stage that has an event, as `name=rows` with a space between two rows, or the values that the
/// pattern selects: a number in decimal digits, a text as it is, and a missing value as an empty field. A timeout shows `timeout` and
/// its stages.
pub fn row_of(alloc: Global, plan: &Plan, item: &Item) -> Result<ByteList, NoMemory>
    requires stages { length plan.now.stages ≤ 65536 }
    requires short { IsShort item.now }
    ensures { IfOk result (λ row. row ≡ row_of plan.now item.now) }
{
    let mut row = ByteList::new(alloc);
    push_item(&mut row, plan, item)?;
    Ok(row)
}

/// The rows of the items, in order.
pub fn rows_of(alloc: Global, plan: &Plan, items: &ItemList) -> Result<ByteList, NoMemory>
    requires stages { length plan.now.stages ≤ 65536 }
    requires short { All IsShort items.now }
    ensures { IfOk result (λ rows. rows ≡ rows_of plan.now items.now) }
{
    let mut rows = ByteList::new(alloc);
    for item in items.as_slice() {
        push_item(&mut rows, plan, item)?;
    }
    Ok(rows)
}

/// The row that tells of a late event, by the number of its line.
pub fn late_row(alloc: Global, row: u32) -> Result<ByteList, NoMemory>
    ensures { IfOk result (λ text. text ≡ late_row row) }
{
    let mut text = ByteList::new(alloc);
    text.extend(b"late,")?;
    push_number(&mut text, row)?;
    text.push(b'\n')?;
    Ok(text)
}
