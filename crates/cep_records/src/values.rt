ghost use Rattle.std.specs.Prelude.{◌≡◌, ◌≤◌, [], IfOk, drop, length};
ghost use Rattle.cep_event.specs.declared.value.Kind.TheVariants as kind;
ghost use Rattle.csv.specs.Records.{AllText};
ghost use Rattle.cep_records.specs.Causes.{Answers};
ghost use Rattle.cep_records.specs.Record.{field_at, value_in, values_in};

use crate::cause::RowFault;
use crate::number::number_in;
use cep_event::{Field, Kind, NoMemory, Text, Value, ValueList};
use cep_rows::RowCause;
use line_fields::Fields;
use std::alloc::Global;

/// The bytes of the field at a place, from 0.
pub(crate) fn field_at<'row>(fields: &'row Fields<'_>, place: usize) -> &'row [u8]
    ensures { result.now ≡ field_at fields.now place }
{
    match fields.get(place) {
        Some(field) => field,
        None => b"",
    }
}

fn text_at<'row>(fields: &'row Fields<'_>, place: usize) -> &'row str
    requires { AllText fields.now }
    ensures { result.now ≡ field_at fields.now place }
{
    match fields.get_text(place) {
        Some(field) => field,
        None => "",
    }
}

fn int_at(fields: &Fields<'_>, place: usize) -> Option<Value>
    ensures { result ≡ value_in kind.Int (field_at fields.now place) }
{
    let number = number_in(field_at(fields, place))?;
    Some(Value::Int(number))
}

fn value_at(
    alloc: Global,
    kind: Kind,
    fields: &Fields<'_>,
    place: usize,
) -> Result<Option<Value>, NoMemory>
    requires { AllText fields.now }
    ensures { IfOk result (λ value. value ≡ value_in kind (field_at fields.now place)) }
{
    match kind {
        Kind::Int => Ok(int_at(fields, place)),
        Kind::Text => {
            let text = Text::from_str(alloc, text_at(fields, place))?;
            Ok(Some(Value::Text(text)))
        }
    }
}

fn room_for(alloc: Global, count: usize) -> Result<ValueList, NoMemory>
    ensures { IfOk result (λ values. values ≡ []) }
{
    let room = Vec::with_capacity(alloc, count)?;
    Ok(ValueList::from_vec(room))
}

/// The values of the declared fields, in order. They stand behind the type and the time.
pub(crate) fn values_of(
    alloc: Global,
    declared: &[Field],
    fields: &Fields<'_>,
) -> Result<ValueList, RowFault>
    requires text { AllText fields.now }
    requires few { length declared.now ≤ 65535 }
    ensures { Answers result (values_in 1 declared.now (drop 2 fields.now)) }
{
    let mut values = room_for(alloc, declared.len())?;
    for (place, field) in declared.iter().enumerate() {
        match value_at(alloc, field.kind, fields, place + 2)? {
            Some(value) => values.push(value)?,
            None => return Err(RowFault::Bad(RowCause::BadNumber((place + 1) as u16))),
        }
    }
    Ok(values)
}
