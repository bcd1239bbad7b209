//! The look-up of a name.

ghost use Rattle.std.specs.Prelude.{◌≡◌, ◌++◌, None, reverse, if◌then◌else◌, IfOk};
ghost use Rattle.ctl_scope.specs.Names.{meaning_in, first_found, number_of, library_names, library_definitions, library_structs};
ghost use Rattle.ctl_scope.specs.Scope.{look_up, is_plain, written, in_blocks, in_spaces, variable_named, definition_named};

use crate::{Block, Meaning, NameTable, Scope};
use ctl_base::{ByteText, Memory};
use ctl_stdlib::{LibraryConstant, find, find_constant};
use ctl_tree::QualifiedName;
use std::alloc::Global;

impl Scope {
    /// What a name stands for: a variable, else a definition, else what the library has under it.
    pub fn look_up(&self, alloc: Global, name: &QualifiedName) -> Result<Option<Meaning>, Memory>
        ensures { IfOk result (λ m. m ≡ look_up self.now name.now) }
    {
        match self.variable_named(name) {
            Some(meaning) => Ok(Some(meaning)),
            None => self.definition_or_library(alloc, name),
        }
    }

    // A plain name among the variables.
    fn variable_named(&self, name: &QualifiedName) -> Option<Meaning>
        ensures { result ≡ variable_named self.now name.now }
    {
        if self.sees_variables && is_plain(name) {
            match self.inner.names.get(name.name.as_slice()) {
                Some(meaning) => Some(meaning),
                None => in_blocks(name.name.as_slice(), self.outer.as_slice()),
            }
        } else {
            None
        }
    }

    // A name among the definitions, else in the library.
    fn definition_or_library(
        &self,
        alloc: Global,
        name: &QualifiedName,
    ) -> Result<Option<Meaning>, Memory>
        ensures { IfOk result (λ m. m ≡ first_found (definition_named self.now name.now) (meaning_in (written name.now) library_names)) }
    {
        let text = written(alloc, name)?;
        match self.definition_named(alloc, name.is_global, text.as_slice())? {
            Some(meaning) => Ok(Some(meaning)),
            None => Ok(in_library(text.as_slice())),
        }
    }

    // A name among the definitions, from the innermost namespace outwards.
    fn definition_named(
        &self,
        alloc: Global,
        is_global: bool,
        text: &[u8],
    ) -> Result<Option<Meaning>, Memory>
        ensures { IfOk result (λ m. m ≡ first_found (if is_global then None else in_spaces text.now self.now.spaces self.now.names) (meaning_in text.now self.now.names)) }
    {
        if is_global {
            return Ok(self.names.get(text));
        }
        match in_spaces(alloc, text, self.spaces.as_slice(), &self.names)? {
            Some(meaning) => Ok(Some(meaning)),
            None => Ok(self.names.get(text)),
        }
    }
}

/// Whether a name has nothing in front.
pub(crate) fn is_plain(name: &QualifiedName) -> bool
    ensures { result ≡ is_plain name.now }
{
    !name.is_global && name.spaces.is_empty()
}

// A name as it is written, without a `::` in front.
fn written(alloc: Global, name: &QualifiedName) -> Result<ByteText, Memory>
    ensures { IfOk result (λ text. text ≡ written name.now) }
{
    let mut text: Vec<u8> = Vec::new(alloc);
    for space in name.spaces.as_slice() {
        text.extend_from_slice(space.as_slice())?;
        text.extend_from_slice(b"::")?;
    }
    text.extend_from_slice(name.name.as_slice())?;
    Ok(ByteText::from_vec(text))
}

// A name in blocks, of which the last is the innermost.
fn in_blocks(name: &[u8], blocks: &[Block]) -> Option<Meaning>
    ensures { result ≡ in_blocks name.now (reverse blocks.now) }
{
    match blocks.split_last() {
        Some((block, outer)) => match block.names.get(name) {
            Some(meaning) => Some(meaning),
            None => in_blocks(name, outer),
        },
        None => None,
    }
}

// A name in namespaces, of which the last is the innermost.
fn in_spaces(
    alloc: Global,
    name: &[u8],
    spaces: &[ByteText],
    names: &NameTable,
) -> Result<Option<Meaning>, Memory>
    ensures { IfOk result (λ m. m ≡ in_spaces name.now spaces.now names.now) }
{
    match spaces.split_first() {
        Some((space, inner)) => match in_spaces(alloc, name, inner, names)? {
            Some(meaning) => Ok(Some(meaning)),
            None => in_space(alloc, name, space.as_slice(), names),
        },
        None => Ok(None),
    }
}

// A name behind what stands in front of it.
fn in_space(
    alloc: Global,
    name: &[u8],
    space: &[u8],
    names: &NameTable,
) -> Result<Option<Meaning>, Memory>
    ensures { IfOk result (λ m. m ≡ meaning_in (space.now ++ name.now) names.now) }
{
    let mut text = Vec::from_slice(alloc, space)?;
    text.extend_from_slice(name)?;
    Ok(names.get(text.as_slice()))
}

// A name of the library.
fn in_library(name: &[u8]) -> Option<Meaning>
    ensures { result ≡ meaning_in name.now library_names }
{
    match find(name) {
        Some(function) => Some(Meaning::Library(function)),
        None => constant_or_struct(name),
    }
}

// A constant or the struct of the library.
fn constant_or_struct(name: &[u8]) -> Option<Meaning>
    ensures { result ≡ meaning_in name.now library_definitions }
{
    match find_constant(name) {
        Some(constant) => Some(Meaning::Constant(number_of(constant))),
        None => struct_named(name),
    }
}

// The number of a constant of the library.
fn number_of(constant: LibraryConstant) -> u32
    ensures { result ≡ number_of constant }
{
    match constant {
        LibraryConstant::Pi => 0,
        LibraryConstant::Euler => 1,
        LibraryConstant::HalfMax => 2,
        LibraryConstant::FloatMax => 3,
        LibraryConstant::IntMax => 4,
        LibraryConstant::IntMin => 5,
        LibraryConstant::UnsignedMax => 6,
    }
}

// The struct of the library.
fn struct_named(name: &[u8]) -> Option<Meaning>
    ensures { result ≡ meaning_in name.now library_structs }
{
    if name == b"Chromaticities".as_slice() {
        Some(Meaning::Struct(0))
    } else {
        None
    }
}
