//! Event types of a plan.

ghost use Rattle.std.specs.Prelude.{◌≡◌, map, IfOk};
ghost use Rattle.pattern_check.specs.Plan as spec;

use crate::number::field_number;
use cep_event::{EventType, EventTypeList, Field, FieldList, NoMemory};
use cep_syntax::{FieldDecl, TypeDecl};
use pattern_rules::KnownFields;
use std::alloc::Global;

fn field_of(fields: &KnownFields, declared: &FieldDecl) -> Result<Field, NoMemory>
    ensures { IfOk result (λ made. made ≡ spec.field_of fields.now declared.now) }
{
    let name = declared.name.text.copy()?;
    Ok(Field {
        name,
        number: field_number(fields, &declared.name.text),
        kind: declared.kind,
    })
}

fn fields_of(
    alloc: Global,
    fields: &KnownFields,
    declared: &[FieldDecl],
) -> Result<FieldList, NoMemory>
    ensures { IfOk result (λ made. made ≡ spec.fields_of fields.now declared.now) }
{
    let mut made = FieldList::new(alloc);
    for field in declared {
        let field = field_of(fields, field)?;
        made.push(field)?;
    }
    Ok(made)
}

fn type_of(alloc: Global, fields: &KnownFields, declared: &TypeDecl) -> Result<EventType, NoMemory>
    ensures { IfOk result (λ made. made ≡ spec.type_of fields.now declared.now) }
{
    let name = declared.name.text.copy()?;
    let fields = fields_of(alloc, fields, declared.fields.as_slice())?;
    Ok(EventType { name, fields })
}

pub fn types_of(
    alloc: Global,
    fields: &KnownFields,
    types: &[TypeDecl],
) -> Result<EventTypeList, NoMemory>
    ensures { IfOk result (λ made. made ≡ spec.types_of fields.now types.now) }
{
    let mut made = EventTypeList::new(alloc);
    for declared in types {
        let event_type = type_of(alloc, fields, declared)?;
        made.push(event_type)?;
    }
    Ok(made)
}
