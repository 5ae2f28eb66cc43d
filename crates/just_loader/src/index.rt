//! What a scan has found: files under their places, and names under their numbers.

ghost use Rattle.std.specs.Prelude.{◌≡◌, ◌++◌, ◌∷◌, [], IsSome, Some, length, IfOk, OnOk, slice_get};
ghost use Rattle.just_table.specs.Entries.{find};
ghost use Rattle.just_loader.specs.loops.Numbering.{AreFound, AreNumbered, HasAlso, IsNamed, paths_found};
ghost use Rattle.just_loader.specs.Sources.{Files};

use crate::sources::{SourceFile, Sources};
use just_data::BorrowedText;
use just_parts::layers::Name;
use std::alloc::{AllocError, Global};
use std::collections::HashMap;

/// Files in the order in which they are found, and the place of each path.
#[derive(Drop)]
pub(crate) struct Found<'src> {
    pub(crate) files: Vec<SourceFile<'src>>,
    places: HashMap<BorrowedText<'src>, usize>,
}

/// Names in the order in which they are met, and the number of each text: the place of the first name that has it.
#[derive(Drop)]
pub(crate) struct NameNumbers<'src> {
    pub(crate) names: Vec<Name<'src>>,
    numbers: HashMap<BorrowedText<'src>, usize>,
}

impl<'src> Found<'src> {
    // No files.
    pub(crate) fn new(alloc: Global) -> Found<'src>
        ensures none { result.files.items ≡ [] }
        ensures found { (files : Files) → AreFound files result }
    {
        Found {
            files: Vec::new(alloc),
            places: HashMap::new(alloc),
        }
    }

    // The place of the file at a path. Where it is not there it is put last.
    pub(crate) fn place(&mut self, sources: &Sources<'src>, path: &str) -> Result<usize, AllocError>
        requires there { IsSome (find path.now sources.now) }
        requires found { AreFound sources.now self.old }
        ensures place { IfOk result (λ place. slice_get (paths_found self.new) place ≡ Some path.now) }
        ensures files { OnOk result (HasAlso (paths_found self.old) path.now (paths_found self.new)) }
        ensures found { OnOk result (AreFound sources.now self.new) }
    {
        let Some(file) = sources.file(path) else {
            unreachable!()
        };
        if let Some(place) = self.places.get(&file.path) {
            return Ok(*place);
        }
        let place = self.files.len();
        self.places.insert(file.path.copied(), place)?;
        self.files.push(file.copied())?;
        Ok(place)
    }
}

impl<'src> NameNumbers<'src> {
    // No names.
    pub(crate) fn new(alloc: Global) -> NameNumbers<'src>
        ensures none { result.names.items ≡ [] }
        ensures numbered { AreNumbered result }
    {
        NameNumbers {
            names: Vec::new(alloc),
            numbers: HashMap::new(alloc),
        }
    }

    // Puts a name last. It answers the number of its text.
    pub(crate) fn number(&mut self, name: &Name<'src>) -> Result<usize, AllocError>
        requires { AreNumbered self.old }
        ensures named { IfOk result (λ number. IsNamed self.new.names.items number (length self.old.names.items) name.now) }
        ensures last { OnOk result (self.new.names.items ≡ self.old.names.items ++ name.now ∷ []) }
        ensures numbered { OnOk result (AreNumbered self.new) }
    {
        let place = self.names.len();
        self.names.push(name.copied())?;
        let text = BorrowedText::new(name.lexeme());
        if let Some(number) = self.numbers.get(&text) {
            return Ok(*number);
        }
        self.numbers.insert(text, place)?;
        Ok(place)
    }
}
