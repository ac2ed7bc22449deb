// Rows as they are written in a table: `/` between rows, blanks between cells. The first word of a row is its table.
use cep_event::{EventType, EventTypeList, Field, FieldList, Kind, NoMemory, Text};
use cep_keeper::{Cell, CellList, SavedRow, SavedRowList};
use cep_plan::{NegationList, Plan, Skip, StageList};
use std::alloc::Global;

// A number, `-` for nothing, `!` for what is damaged, else a text.
fn cell_of(alloc: Global, word: &str) -> Result<Cell, NoMemory> {
    if word == "-" {
        return Ok(Cell::Nothing);
    }
    if word == "!" {
        return Ok(Cell::Broken);
    }
    match word.parse::<i64>() {
        Ok(number) => Ok(Cell::Int(number)),
        Err(_) => Ok(Cell::Text(Text::from_str(alloc, word)?)),
    }
}

fn row_of(alloc: Global, words: &str) -> Result<SavedRow, NoMemory> {
    let mut table = None;
    let mut cells = CellList::new(alloc);
    for word in words.split(' ') {
        if table.is_none() {
            table = Some(word.parse::<u8>().unwrap_or(0));
        } else {
            cells.push(cell_of(alloc, word)?)?;
        }
    }
    Ok(SavedRow {
        table: table.unwrap_or(0),
        cells,
    })
}

pub fn rows_of(alloc: Global, rows: &str) -> Result<SavedRowList, NoMemory> {
    let mut made = SavedRowList::new(alloc);
    if rows.is_empty() {
        return Ok(made);
    }
    for row in rows.split('/') {
        made.push(row_of(alloc, row)?)?;
    }
    Ok(made)
}

fn same_cell(cell: &Cell, other: &Cell) -> bool {
    match (cell, other) {
        (Cell::Int(number), Cell::Int(other)) => *number == *other,
        (Cell::Text(text), Cell::Text(other)) => text.same(other),
        (Cell::Nothing, Cell::Nothing) => true,
        _ => false,
    }
}

fn same_row(row: &SavedRow, other: &SavedRow) -> bool {
    let cells = row.cells.as_slice();
    let others = other.cells.as_slice();
    row.table == other.table
        && cells.len() == others.len()
        && cells
            .iter()
            .zip(others)
            .all(|(cell, other)| same_cell(cell, other))
}

pub fn same_rows(rows: &SavedRowList, others: &SavedRowList) -> bool {
    let rows = rows.as_slice();
    let others = others.as_slice();
    rows.len() == others.len()
        && rows
            .iter()
            .zip(others)
            .all(|(row, other)| same_row(row, other))
}

// Two types without fields, or with one field of numbers, which is the key.
pub fn plan_of(alloc: Global, keyed: bool) -> Result<Plan, NoMemory> {
    let mut types = EventTypeList::new(alloc);
    for name in ["A", "B"] {
        let mut fields = FieldList::new(alloc);
        if keyed {
            fields.push(Field {
                name: Text::from_str(alloc, "k")?,
                number: 0,
                kind: Kind::Int,
            })?;
        }
        types.push(EventType {
            name: Text::from_str(alloc, name)?,
            fields,
        })?;
    }
    Ok(Plan {
        types,
        stages: StageList::new(alloc),
        negations: NegationList::new(alloc),
        within: None,
        within_gap: None,
        by: if keyed { Some(0) } else { None },
        skip: Skip::No,
        select: None,
    })
}
