//! Which fields the types of a name have.

ghost use Rattle.std.specs.Prelude.{◌≡◌, ◌||◌, ◌++◌, ◌∷◌, [], List, ℕ, IfOk};
ghost use Rattle.std.specs.BTreeMap.{get_by_text};
ghost use Rattle.std.specs.BTreeSet.{contains_text};
ghost use Rattle.std.specs.Str.{bytes_eq};
ghost use Rattle.cep_syntax.specs.declared.file.TypeDecl.{TypeDecl as Declared};
ghost use Rattle.pattern_rules.specs.Mentioned.{has_field};
ghost use Rattle.pattern_rules.specs.Named.{is_declared};
ghost use Rattle.pattern_rules.specs.TypeFields.{AreFieldsOf, holds};

use cep_event::{NoMemory, Text};
use cep_syntax::{FieldDecl, TypeDecl};
use std::alloc::Global;
use std::collections::{BTreeMap, BTreeSet};

/// An index of types by name: the names of the fields that the types of this name have.
#[derive(Drop)]
pub struct TypeFields {
    types: BTreeMap<String, BTreeSet<String>>,
}

fn with_name(
    alloc: Global,
    names: BTreeSet<String>,
    name: &Text,
) -> Result<BTreeSet<String>, NoMemory>
    ensures { IfOk result (λ made. (q : List ℕ) → contains_text made q ≡ (contains_text names q || bytes_eq name.now q)) }
{
    let key = String::from_str(alloc, name.as_str())?;
    let mut names = names;
    names.insert(key)?;
    Ok(names)
}

fn with_names(
    alloc: Global,
    names: BTreeSet<String>,
    fields: &[FieldDecl],
) -> Result<BTreeSet<String>, NoMemory>
    ensures { IfOk result (λ made. (q : List ℕ) → contains_text made q ≡ (contains_text names q || is_declared fields.now q)) }
{
    let mut made = names;
    for field in fields {
        made = with_name(alloc, made, &field.name.text)?;
    }
    Ok(made)
}

fn names_in(alloc: Global, found: Option<BTreeSet<String>>) -> BTreeSet<String>
    ensures { (q : List ℕ) → contains_text result q ≡ holds found q }
{
    match found {
        Some(names) => names,
        None => BTreeSet::new(alloc),
    }
}

impl TypeFields {
    fn new(alloc: Global) -> TypeFields
        ensures { AreFieldsOf result [] }
    {
        TypeFields {
            types: BTreeMap::new(alloc),
        }
    }

    /// Whether a type of the one name has a field of the other.
    pub fn has(&self, of: &Text, name: &Text) -> bool
        ensures { result ≡ holds (get_by_text self.now.types of.now) name.now }
    {
        match self.types.get(of.as_str()) {
            None => false,
            Some(names) => names.contains(name.as_str()),
        }
    }

    fn with_type(self, alloc: Global, declared: &TypeDecl) -> Result<TypeFields, NoMemory>
        ensures { IfOk result (λ made. (types : List Declared) → AreFieldsOf self types → AreFieldsOf made (types ++ declared.now ∷ [])) }
    {
        let TypeFields { mut types } = self;
        let found = types.remove(declared.name.text.as_str());
        let names = with_names(alloc, names_in(alloc, found), declared.fields.as_slice())?;
        let key = String::from_str(alloc, declared.name.text.as_str())?;
        types.insert(key, names)?;
        Ok(TypeFields { types })
    }
}

/// The index of these types.
pub fn fields_by_type(alloc: Global, types: &[TypeDecl]) -> Result<TypeFields, NoMemory>
    ensures { IfOk result (λ fields. AreFieldsOf fields types.now) }
{
    let mut made = TypeFields::new(alloc);
    for declared in types {
        made = made.with_type(alloc, declared)?;
    }
    Ok(made)
}
