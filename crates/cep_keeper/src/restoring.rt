ghost use Rattle.std.specs.Prelude.{◌≡◌, ◌≤◌, take, drop, bytes_eq, Ok, Err, IfOk};
ghost use Rattle.cep_keeper.specs.Restored.{Answers, restored, read_on, refused};
ghost use Rattle.cep_keeper.specs.Said.{text_of};
ghost use Rattle.cep_keeper.specs.declared.saved.LoadFault.TheVariants.{OtherPlan};
ghost use Rattle.cep_keeper.specs.declared.saved.Saved.{Saved};
ghost use Rattle.cep_keeper.specs.Contents.{CanRestore, again};
ghost use Rattle.cep_keeper.specs.Rows.{saved_rows};
ghost use Rattle.cep_keeper.specs.Counted.{event_count};
ghost use Rattle.cep_keeper.specs.Tallies.{Tallies};

use crate::counts::Counts;
use crate::reading::{Reading, no_lines, no_rows, take_row};
use crate::row::{SavedRow, SavedRowList};
use crate::said::text_at;
use crate::saved::{LoadFault, Saved};
use cep_event::{NoMemory, Text};
use cep_plan::Plan;
use std::alloc::Global;

/// The contents that the rows state. The first row is judged first, then the text of the plan, then the other rows. No rows state the contents of no lines.
/// What was saved is restored: where the contents keep the rules that those of a run keep, their rows state them again, with the positions of their ticks counted from 0.
pub fn restore(
    alloc: Global,
    plan: &Plan,
    text: &Text,
    rows: &SavedRowList,
) -> Result<Saved, LoadFault>
    ensures states { Answers (restored plan.now text.now rows.now) result }
    ensures again { (saved : Saved) → CanRestore plan.now saved → rows.now ≡ saved_rows text.now saved → Answers (Ok (again plan.now saved)) result }
{
    restore_rows(alloc, plan, text, rows)
}

fn restore_rows(
    alloc: Global,
    plan: &Plan,
    text: &Text,
    rows: &SavedRowList,
) -> Result<Saved, LoadFault>
    ensures { Answers (restored plan.now text.now rows.now) result }
{
    let rows = rows.as_slice();
    let Some(first) = rows.first() else {
        return Ok(no_lines(alloc));
    };
    let mut reading = no_rows(alloc);
    let mut counts = Counts::new(alloc);
    if !take_row(alloc, plan, &mut reading, &mut counts, first)? {
        return Err(refused(&rows[..0], first));
    }
    if !has_text(first, text) {
        return Err(other_plan(alloc, first, text));
    }
    read_on(alloc, plan, reading, counts, rows)
}

// Reads all rows behind the first.
fn read_on(
    alloc: Global,
    plan: &Plan,
    reading: Reading,
    counts: Counts,
    rows: &[SavedRow],
) -> Result<Saved, LoadFault>
    requires tallies { Tallies plan.now counts reading.saved.keys reading.saved.recent }
    requires counted { event_count reading.saved.recent ≤ reading.events }
    ensures { Answers (read_on plan.now (take 1 rows.now) reading (drop 1 rows.now)) result }
{
    let mut reading = reading;
    let mut counts = counts;
    for place in 1..rows.len() {
        let row = &rows[place];
        if !take_row(alloc, plan, &mut reading, &mut counts, row)? {
            return Err(refused(&rows[..place], row));
        }
    }
    Ok(reading.saved)
}

fn has_text(row: &SavedRow, text: &Text) -> bool
    ensures { result ≡ bytes_eq (text_of row.now) text.now }
{
    match text_at(row.cells.as_slice(), 0) {
        Some(saved) => saved.as_str() == text.as_str(),
        None => "" == text.as_str(),
    }
}

fn other_plan(alloc: Global, row: &SavedRow, text: &Text) -> LoadFault
    ensures { Answers (Err (OtherPlan (text_of row.now) text.now)) (Err result) }
{
    let Ok(saved) = copied_text(alloc, row) else {
        return LoadFault::NoMemory;
    };
    match text.copy() {
        Ok(now) => LoadFault::OtherPlan { saved, now },
        Err(NoMemory) => LoadFault::NoMemory,
    }
}

fn copied_text(alloc: Global, row: &SavedRow) -> Result<Text, NoMemory>
    ensures { IfOk result (λ text. text ≡ text_of row.now) }
{
    match text_at(row.cells.as_slice(), 0) {
        Some(saved) => saved.copy(),
        None => Text::from_str(alloc, ""),
    }
}

// A row that breaks a rule, by its table and its number in that table.
fn refused(before: &[SavedRow], row: &SavedRow) -> LoadFault
    ensures { result ≡ refused before.now row.now }
{
    let mut number = 1;
    for earlier in before {
        if earlier.table == row.table {
            number += 1;
        }
    }
    LoadFault::Unreadable {
        table: row.table,
        row: number,
    }
}
