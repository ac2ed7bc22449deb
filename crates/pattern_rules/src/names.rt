//! Where names stand in a list.

ghost use Rattle.std.specs.Prelude.{◌≡◌, ◌++◌, ◌∷◌, [], List, ℕ, length, map, IfOk, OnOk};
ghost use Rattle.pattern_rules.specs.Names as spec;
ghost use Rattle.pattern_rules.specs.Names.{IsIndexOf};

use cep_event::{NoMemory, Text};
use cep_syntax::{FieldDecl, Opener, TypeDecl};
use std::alloc::Global;
use std::collections::BTreeMap;

/// An index of a list of names: each with its number in the list, and the lowest where it stands there more than once.
#[derive(Drop)]
pub struct Names {
    numbers: BTreeMap<String, usize>,
}

fn is_below(number: Option<usize>, bound: usize) -> bool
    ensures { result ≡ spec.is_below number bound }
{
    match number {
        None => false,
        Some(number) => number < bound,
    }
}

impl Names {
    fn new(alloc: Global) -> Names
        ensures { IsIndexOf result [] }
    {
        Names {
            numbers: BTreeMap::new(alloc),
        }
    }

    /// The lowest number of the name.
    pub fn number(&self, name: &Text) -> Option<usize>
        ensures { result ≡ spec.number_in self.now name.now }
    {
        self.numbers.get(name.as_str()).copied()
    }

    /// Whether the lowest number of the name is below the bound.
    pub fn is_before(&self, bound: usize, name: &Text) -> bool
        ensures { result ≡ spec.is_below (spec.number_in self.now name.now) bound }
    {
        is_below(self.number(name), bound)
    }

    /// Adds a name behind the others, which are as many as the number.
    fn add(&mut self, alloc: Global, name: &Text, number: usize) -> Result<(), NoMemory>
        ensures { OnOk result ((names : List (List ℕ)) → number ≡ length names → IsIndexOf self.old names → IsIndexOf self.new (names ++ name.now ∷ [])) }
    {
        if self.number(name).is_some() {
            return Ok(());
        }
        let key = String::from_str(alloc, name.as_str())?;
        self.numbers.insert(key, number)?;
        Ok(())
    }
}

pub fn names_of_types(alloc: Global, types: &[TypeDecl]) -> Result<Names, NoMemory>
    ensures { IfOk result (λ names. IsIndexOf names (map (λ d. d.name.text) types.now)) }
{
    let mut names = Names::new(alloc);
    for (number, declared) in types.iter().enumerate() {
        names.add(alloc, &declared.name.text, number)?;
    }
    Ok(names)
}

pub fn names_of_fields(alloc: Global, fields: &[FieldDecl]) -> Result<Names, NoMemory>
    ensures { IfOk result (λ names. IsIndexOf names (map (λ f. f.name.text) fields.now)) }
{
    let mut names = Names::new(alloc);
    for (number, field) in fields.iter().enumerate() {
        names.add(alloc, &field.name.text, number)?;
    }
    Ok(names)
}

pub fn names_of_stages(alloc: Global, openers: &[Opener]) -> Result<Names, NoMemory>
    ensures { IfOk result (λ names. IsIndexOf names (map (λ o. o.name.text) openers.now)) }
{
    let mut names = Names::new(alloc);
    for (number, opener) in openers.iter().enumerate() {
        names.add(alloc, &opener.name.text, number)?;
    }
    Ok(names)
}
