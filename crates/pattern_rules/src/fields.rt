//! The distinct names of fields.

ghost use Rattle.std.specs.Prelude.{◌≡◌, ◌+◌, ◌≤◌, [], length, IfOk};
ghost use Rattle.std.specs.List.{sum_by};
ghost use Rattle.pattern_rules.specs.Fields as spec;
ghost use Rattle.pattern_rules.specs.Named as named;

use cep_event::{Field, FieldList, Kind, NoMemory, Text};
use cep_syntax::{FieldDecl, TypeDecl};
use std::alloc::Global;
use std::collections::BTreeMap;
use std::marker::Model;

/// The distinct names of fields in the order of first declaration, each with its number in that order and the kind that it was first declared with, and an index of them by name.
#[derive(Drop)]
pub struct KnownFields {
    list: FieldList,
    index: BTreeMap<String, (u16, Kind)>,
}

impl Model for KnownFields {
    ghost use Rattle.std.specs.Prelude.{List};
    ghost use Rattle.cep_event.specs.declared.event.Field.{Field};

    ghost Value = { List Field };

    ghost use Rattle.pattern_rules.specs.Index.{fields_in, IsIndexed};

    ghost view = { fields_in };

    ghost invariant = { IsIndexed };
}

impl KnownFields {
    fn new(alloc: Global) -> KnownFields
        ensures { result ≡ [] }
    {
        KnownFields {
            list: FieldList::new(alloc),
            index: BTreeMap::new(alloc),
        }
    }

    /// The number and the kind of a field.
    pub fn meaning(&self, name: &Text) -> Option<(u16, Kind)>
        ensures { result ≡ named.meaning self.now name.now }
    {
        self.index.get(name.as_str()).copied()
    }

    /// Adds the field, if its name is new.
    fn with(self, alloc: Global, declared: &FieldDecl) -> Result<KnownFields, NoMemory>
        requires { length self ≤ 65534 }
        ensures ok { IfOk result (λ made. made ≡ spec.with_field self declared.now) }
        ensures length { IfOk result (λ made. length made ≤ length self + 1) }
    {
        if self.meaning(&declared.name.text).is_some() {
            return Ok(self);
        }
        let KnownFields {
            mut list,
            mut index,
        } = self;
        let name = declared.name.text.copy()?;
        let key = String::from_str(alloc, declared.name.text.as_str())?;
        let number = list.len() as u16;
        list.push(Field {
            name,
            number,
            kind: declared.kind,
        })?;
        index.insert(key, (number, declared.kind))?;
        Ok(KnownFields { list, index })
    }
}

pub fn is_known(fields: &KnownFields, name: &Text) -> bool
    ensures { result ≡ spec.is_known fields.now name.now }
{
    fields.meaning(name).is_some()
}

/// Adds those of the fields whose names are new.
fn add_fields(
    alloc: Global,
    fields: KnownFields,
    more: &[FieldDecl],
) -> Result<KnownFields, NoMemory>
    requires { length fields + length more.now ≤ 65535 }
    ensures ok { IfOk result (λ made. made ≡ spec.with_fields fields more.now) }
    ensures length { IfOk result (λ made. length made ≤ length fields + length more.now) }
{
    let mut made = fields;
    for declared in more {
        made = made.with(alloc, declared)?;
    }
    Ok(made)
}

/// The distinct names of fields, in the order of first declaration.
#[tactic(auto, unfolding(crate::specs::Fields::known_fields))]
pub fn known_fields(alloc: Global, types: &[TypeDecl]) -> Result<KnownFields, NoMemory>
    requires { sum_by (λ d. length d.fields) types.now ≤ 65535 }
    ensures { IfOk result (λ fields. fields ≡ spec.known_fields types.now) }
{
    let mut fields = KnownFields::new(alloc);
    for declared in types {
        fields = add_fields(alloc, fields, declared.fields.as_slice())?;
    }
    Ok(fields)
}
