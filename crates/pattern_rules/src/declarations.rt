//! Rules of declarations.

ghost use Rattle.std.specs.Prelude.{◌≡◌, map, take, IfOk};
ghost use Rattle.pattern_rules.specs.Declarations as spec;
ghost use Rattle.pattern_rules.specs.Named.{is_declared};
ghost use Rattle.pattern_rules.specs.Names.{IsIndexOf};

use crate::fields::KnownFields;
use crate::indexed::IndexedFile;
use crate::names::{Names, names_of_fields};
use cep_event::{Kind, NoMemory, Text};
use cep_syntax::{FieldDecl, TypeDecl};
use std::alloc::Global;

/// A type's name was declared before.
#[tactic(auto, unfolding(crate::specs::Declarations::twice_type))]
pub fn twice_type(file: &IndexedFile) -> Option<u32>
    ensures { result ≡ spec.twice_type file.now.types }
{
    for (number, declared) in file.types().iter().enumerate() {
        if file.is_type_before(number, &declared.name.text) {
            return Some(declared.name.place);
        }
    }
    None
}

fn is_same_kind(kind: Kind, other: Kind) -> bool
    ensures { result ≡ spec.same_kind kind other }
{
    match (kind, other) {
        (Kind::Int, Kind::Int) | (Kind::Text, Kind::Text) => true,
        _ => false,
    }
}

fn is_other(first: Option<(u16, Kind)>, kind: Kind) -> bool
    ensures { result ≡ spec.is_other first kind }
{
    match first {
        None => false,
        Some((_, first)) => !is_same_kind(first, kind),
    }
}

/// Whether one of the first fields has the name. The clauses alone read the fields.
fn is_declared_before(names: &Names, fields: &[FieldDecl], number: usize, name: &Text) -> bool
    requires { IsIndexOf names.now (map (λ f. f.name.text) fields.now) }
    ensures { result ≡ is_declared (take number fields.now) name.now }
{
    let _ = fields;
    names.is_before(number, name)
}

fn first_clash(known: &KnownFields, names: &Names, fields: &[FieldDecl]) -> Option<u32>
    requires { IsIndexOf names.now (map (λ f. f.name.text) fields.now) }
    ensures { result ≡ spec.clash_in_type known.now fields.now }
{
    for (number, field) in fields.iter().enumerate() {
        let name = &field.name.text;
        if is_declared_before(names, fields, number, name)
            || is_other(known.meaning(name), field.kind)
        {
            return Some(field.name.place);
        }
    }
    None
}

fn clash_in_type(
    alloc: Global,
    known: &KnownFields,
    fields: &[FieldDecl],
) -> Result<Option<u32>, NoMemory>
    ensures { IfOk result (λ place. place ≡ spec.clash_in_type known.now fields.now) }
{
    let names = names_of_fields(alloc, fields)?;
    Ok(first_clash(known, &names, fields))
}

/// A field's name stands twice in one type, or has another kind than before.
#[tactic(auto, unfolding(crate::specs::Declarations::field_kinds))]
pub fn field_kinds(
    alloc: Global,
    known: &KnownFields,
    types: &[TypeDecl],
) -> Result<Option<u32>, NoMemory>
    ensures { IfOk result (λ place. place ≡ spec.field_kinds known.now types.now) }
{
    for declared in types {
        if let Some(place) = clash_in_type(alloc, known, declared.fields.as_slice())? {
            return Ok(Some(place));
        }
    }
    Ok(None)
}
