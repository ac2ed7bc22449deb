ghost use Rattle.std.specs.Prelude.{◌≡◌, [], IfOk, option_map};
ghost use Rattle.csv.specs.Machine.{next_record};
ghost use Rattle.csv.specs.Reading.{default_config, strip_bom};
ghost use Rattle.csv.specs.Records.{fields_of};
ghost use Rattle.csv.specs.declared.parser.State.TheVariants as st;
ghost use Rattle.line_fields.specs.Line.{fields_of_line};

use cep_event::NoMemory;
use csv::{ByteRecord, ReaderBuilder};
use std::alloc::Global;

// The first record of a text that has no header row, if it has one.
fn first_record(alloc: Global, text: &[u8]) -> Result<Option<ByteRecord>, NoMemory>
    ensures { IfOk result (λ o. option_map fields_of o ≡ option_map (λ p. p.0) (next_record default_config st.StartRecord [] [] (strip_bom text.now))) }
{
    let mut reader = ReaderBuilder::new()
        .has_headers(false)
        .flexible(true)
        .from_reader(alloc, text);
    let mut row = ByteRecord::new(alloc);
    match reader.read_byte_record(&mut row) {
        Ok(true) => Ok(Some(row)),
        Ok(false) => Ok(None),
        Err(_) => Err(NoMemory),
    }
}

/// The record that `csv` reads from a line, with no field where there is none.
pub fn record_by_csv(alloc: Global, line: &[u8]) -> Result<ByteRecord, NoMemory>
    ensures { IfOk result (λ row. fields_of row ≡ fields_of_line line.now) }
{
    match first_record(alloc, line)? {
        Some(row) => Ok(row),
        None => Ok(ByteRecord::new(alloc)),
    }
}
