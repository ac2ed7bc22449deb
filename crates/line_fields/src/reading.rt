ghost use Rattle.std.specs.Prelude.{◌≡◌, [], IfOk, IsTrue, IsUtf8, length, option_map, slice_get};
ghost use Rattle.csv.specs.Records.{AllText};
ghost use Rattle.line_fields.specs.Held.{PlacesFit, fields_held};
ghost use Rattle.line_fields.specs.Line.{fields_from_field, fields_of_line};

use crate::piece::{Ends, piece_at, unquoted};
use crate::quoted::split_quoted;
use crate::record::record_by_csv;
use crate::split::split_at_commas;
use cep_event::NoMemory;
use csv::ByteRecord;
use smallvec::SmallVec;
use std::alloc::Global;
use std::marker::Model;
use std::str;

// Where the bytes of the fields stand.
#[derive(Drop)]
enum Held<'line> {
    // The line, where each piece is its field.
    Line(&'line [u8]),
    // The line, where some pieces are fields in quotes.
    Quoted(&'line [u8]),
    Record(ByteRecord),
}

/// The fields of a line, seen as the list of them. Those of a line that needs no `csv` are lent from the line.
#[derive(Drop)]
pub struct Fields<'line> {
    held: Held<'line>,
    ends: Ends,
}

impl<'line> Model for Fields<'line> {
    ghost use Rattle.std.specs.Prelude.{ℕ, List};
    ghost use Rattle.line_fields.specs.Held.{fields_held, PlacesFit};

    ghost Value = { List (List ℕ) };

    ghost view = { λ f. fields_held f.held f.ends.items };

    ghost invariant = { λ f. PlacesFit f.held f.ends.items };
}

impl<'line> Fields<'line> {
    pub fn len(&self) -> usize
        ensures { result ≡ length self.now }
    {
        match &self.held {
            Held::Line(_) | Held::Quoted(_) => self.ends.as_slice().len(),
            Held::Record(row) => row.len(),
        }
    }

    pub fn get(&self, place: usize) -> Option<&[u8]>
        ensures { option_map (λ s. s.now) result ≡ slice_get self.now place }
    {
        match &self.held {
            Held::Line(line) => piece_at(line, self.ends.as_slice(), place),
            Held::Quoted(line) => Some(unquoted(piece_at(line, self.ends.as_slice(), place)?)),
            Held::Record(row) => row.get(place),
        }
    }

    /// The field at a place, of a line of text.
    pub fn get_text(&self, place: usize) -> Option<&str>
        requires { AllText self.now }
        ensures { option_map (λ s. s.now) result ≡ slice_get self.now place }
    {
        let field = self.get(place)?;
        Some(unsafe { str::from_utf8_unchecked(field) })
    }
}

// Whether a line begins with a field: with a byte that neither begins a byte order mark nor ends a record.
fn starts_field(line: &[u8]) -> bool
    ensures { IsTrue result → fields_of_line line.now ≡ fields_from_field line.now }
{
    match line.first() {
        None | Some(0xEF | b'\r' | b'\n') => false,
        Some(_) => true,
    }
}

// Fills in where the pieces of a line end, and says where the bytes of its fields stand.
fn find_fields<'line>(
    alloc: Global,
    ends: &mut Ends,
    line: &'line [u8],
) -> Result<Held<'line>, NoMemory>
    requires { ends.old.items ≡ [] }
    ensures fields { IfOk result (λ held. fields_held held ends.new.items ≡ fields_of_line line.now) }
    ensures fit { IfOk result (λ held. PlacesFit held ends.new.items) }
{
    if starts_field(line) {
        if split_at_commas(ends, line)? {
            return Ok(Held::Line(line));
        }
        ends.clear();
        if split_quoted(ends, line)? {
            return Ok(Held::Quoted(line));
        }
    }
    let row = record_by_csv(alloc, line)?;
    Ok(Held::Record(row))
}

/// The fields that `csv` reads from a line.
pub fn read_fields<'line>(alloc: Global, line: &'line [u8]) -> Result<Fields<'line>, NoMemory>
    ensures fields { IfOk result (λ made. made ≡ fields_of_line line.now) }
    ensures text { IfOk result (λ made. IsUtf8 line.now → AllText made) }
{
    let mut ends = SmallVec::new(alloc);
    let held = find_fields(alloc, &mut ends, line)?;
    Ok(Fields { held, ends })
}
