//! Types, each on a line.

ghost use Rattle.std.specs.Prelude.{◌≡◌, ◌++◌, string_bytes, map, OnOk};
ghost use Rattle.cep_print.specs.Expression.{chained};
ghost use Rattle.cep_print.specs.File as spec;

use crate::expression::put_sign;
use cep_event::{Kind, NoMemory};
use cep_syntax::{FieldDecl, TypeDecl};

fn kind_text(kind: Kind) -> &'static str
    ensures { result.now ≡ spec.kind_text kind }
{
    match kind {
        Kind::Int => "int",
        Kind::Text => "text",
    }
}

fn put_field(out: &mut String, field: &FieldDecl) -> Result<(), NoMemory>
    ensures { OnOk result (string_bytes out.new ≡ string_bytes out.old ++ spec.field_text field.now) }
{
    out.push_str(field.name.text.as_str())?;
    out.push_str(" ")?;
    out.push_str(kind_text(field.kind))?;
    Ok(())
}

fn put_fields(out: &mut String, fields: &[FieldDecl]) -> Result<(), NoMemory>
    ensures { OnOk result (string_bytes out.new ≡ string_bytes out.old ++ chained (map spec.field_part fields.now)) }
{
    let mut is_first = true;
    for field in fields {
        put_sign(out, is_first, ", ")?;
        put_field(out, field)?;
        is_first = false;
    }
    Ok(())
}

fn put_type(out: &mut String, declared: &TypeDecl) -> Result<(), NoMemory>
    ensures { OnOk result (string_bytes out.new ≡ string_bytes out.old ++ spec.type_text declared.now) }
{
    out.push_str("event ")?;
    out.push_str(declared.name.text.as_str())?;
    out.push_str("(")?;
    put_fields(out, declared.fields.as_slice())?;
    out.push_str(");\n")?;
    Ok(())
}

/// Adds each type on a line.
pub fn put_types(out: &mut String, types: &[TypeDecl]) -> Result<(), NoMemory>
    ensures { OnOk result (string_bytes out.new ≡ string_bytes out.old ++ spec.types_text types.now) }
{
    for declared in types {
        put_type(out, declared)?;
    }
    Ok(())
}
