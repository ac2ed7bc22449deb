//! A file with indexes of its names.

ghost use Rattle.std.specs.Prelude.{◌≡◌, take, IfOk};
ghost use Rattle.pattern_rules.specs.Mentioned as mentioned;
ghost use Rattle.pattern_rules.specs.Named as spec;

use crate::names::{Names, names_of_stages, names_of_types};
use crate::type_fields::{TypeFields, fields_by_type};
use cep_event::{NoMemory, Text};
use cep_syntax::{File, Opener, TypeDecl};
use std::alloc::Global;
use std::marker::Model;

/// A file with indexes of its types, of its stages and of the fields of its types, by name: a file has thousands of them, and asks for them thousands of times.
#[derive(Drop)]
pub struct IndexedFile<'file> {
    file: &'file File,
    types: Names,
    stages: Names,
    fields: TypeFields,
}

impl<'file> Model for IndexedFile<'file> {
    ghost use Rattle.cep_syntax.specs.declared.file.File.{File};

    ghost Value = { File };

    ghost use Rattle.cep_expression.specs.contracts.expr.SynNode as node;
    ghost use Rattle.std.specs.Coded.{codes};

    ghost coded = { Prim.hlevel (codes, node.the_row.coded) };

    ghost use Rattle.pattern_rules.specs.Indexed.{file_in, IsIndexed};

    ghost view = { file_in };

    ghost invariant = { IsIndexed };
}

impl<'file> IndexedFile<'file> {
    pub fn new(alloc: Global, file: &'file File) -> Result<IndexedFile<'file>, NoMemory>
        ensures { IfOk result (λ made. made ≡ file.now) }
    {
        let types = names_of_types(alloc, file.types.as_slice())?;
        let stages = names_of_stages(alloc, file.openers.as_slice())?;
        let fields = fields_by_type(alloc, file.types.as_slice())?;
        Ok(IndexedFile {
            file,
            types,
            stages,
            fields,
        })
    }

    pub fn file(&self) -> &File
        ensures { result.now ≡ self.now }
    {
        self.file
    }

    pub fn types(&self) -> &[TypeDecl]
        ensures { result.now ≡ self.now.types }
    {
        self.file.types.as_slice()
    }

    pub fn openers(&self) -> &[Opener]
        ensures { result.now ≡ self.now.openers }
    {
        self.file.openers.as_slice()
    }

    pub fn is_type(&self, name: &Text) -> bool
        ensures { result ≡ spec.is_type self.now.types name.now }
    {
        self.types.number(name).is_some()
    }

    /// Whether one of the first types has the name.
    pub fn is_type_before(&self, number: usize, name: &Text) -> bool
        ensures { result ≡ spec.is_type (take number self.now.types) name.now }
    {
        self.types.is_before(number, name)
    }

    /// Whether one of the first stages, negated or not, has the name.
    pub fn is_stage_before(&self, number: usize, name: &Text) -> bool
        ensures { result ≡ spec.is_stage (take number self.now.openers) name.now }
    {
        self.stages.is_before(number, name)
    }

    /// Whether a type of the one name has a field of the other.
    pub fn has_field(&self, of: &Text, name: &Text) -> bool
        ensures { result ≡ mentioned.has_field self.now.types of.now name.now }
    {
        self.fields.has(of, name)
    }

    /// The place of the stage among all openers, or how many there are.
    pub fn opener_number(&self, name: &Text) -> usize
        ensures { result ≡ spec.opener_number self.now.openers name.now }
    {
        match self.stages.number(name) {
            Some(number) => number,
            None => self.file.openers.as_slice().len(),
        }
    }
}
