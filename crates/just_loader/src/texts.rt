//! Texts that are read in a scan, and taken where the first node of their file comes.

ghost use Rattle.std.specs.Prelude.{◌≡◌, ◌≢◌, ◌^◌, ◌≤◌, [], None, Some, Ok, map, false, set, slice_get, IfErr, IfNone, IfOk, IfSome, IsErrOf, OnOk};
ghost use Rattle.just_parts.specs.Syntax.{Refuses, components_of, numbers_of_items};
ghost use Rattle.just_parts.specs.Items.{Ast};
ghost use Rattle.just_loader.specs.loops.Reading.{IsBroughtIn, IsAstRead, IsAstReadBy, TakesText, brought_in, takes_numbers};

use crate::scan_result::ScannedFile;
use just_data::Sequence;
use just_parts::Source;
use just_parts::layers::{Ast, Error, Item, Namepath, Numerator, Syntax};
use just_paths::Modulepath;
use std::alloc::{AllocError, Global};

/// What the texts of files say, each under the place of its file until it is taken.
#[derive(Drop)]
pub(crate) struct ReadTexts<'src> {
    pub(crate) asts: Vec<Option<Ast<'src>>>,
    /// Gives the numbers that are not given yet.
    pub(crate) numerator: Numerator,
}

impl<'src> ReadTexts<'src> {
    // Nothing is read, and no number is given.
    pub(crate) fn new(alloc: Global) -> ReadTexts<'src>
        ensures none { result.asts.items ≡ [] }
        ensures given { result.numerator ≡ 0 }
    {
        ReadTexts {
            asts: Vec::new(alloc),
            numerator: Numerator::new(),
        }
    }

    // What was read of the file at a place, where it is not taken yet.
    fn take(&mut self, place: usize) -> Option<Ast<'src>>
        ensures taken { IfSome result (λ ast. slice_get self.old.asts.items place ≡ Some (Some ast)) }
        ensures left { IfSome result (λ _. self.new.asts.items ≡ set self.old.asts.items place None) }
        ensures same { IfNone result (self.new.asts.items ≡ self.old.asts.items) }
        ensures given { self.new.numerator ≡ self.old.numerator }
    {
        if place < self.asts.len() {
            self.asts[place].take()
        } else {
            None
        }
    }
}

// An answer, or none where there were not as many numbers as it takes.
pub(crate) fn unless_exhausted<'src, T>(
    answer: Result<T, Error<'src>>,
) -> Result<Option<T>, Error<'src>>
    ensures value { IfOk result (λ found. IfSome found (λ value. answer.entry ≡ Ok value)) }
    ensures none { IfOk result (λ found. IfNone found (IsErrOf answer.entry Error.Exhausted)) }
    ensures error { IfErr result (λ e. IsErrOf answer.entry e × (e ≢ Error.Exhausted)) }
{
    match answer {
        Ok(value) => Ok(Some(value)),
        Err(error) => {
            if let Error::Exhausted = &error {
                return Ok(None);
            }
            Err(error)
        }
    }
}

// The path of a module, from its names.
fn module_path<'src>(
    alloc: Global,
    namepath: &Option<Namepath<'src>>,
) -> Result<Modulepath, AllocError>
    ensures { IfOk result (λ path. (path.components ≡ components_of namepath.now) × (path.spaced ≡ false)) }
{
    match namepath {
        None => Ok(Modulepath::root(alloc)),
        Some(names) => Modulepath::from_namepath(alloc, names),
    }
}

// Gives an item what another source says of it.
fn bring_in_item<'src>(source: &Source<'src>, item: &mut Item<'src>) -> Result<(), AllocError>
    ensures { OnOk result (item.new ≡ brought_in source.now item.old) }
{
    if let Item::Recipe(recipe) = item {
        recipe.file_depth = source.file_depth;
        recipe.import_offsets = source.import_offsets.clone()?;
        return Ok(());
    }
    if let Item::Assignment(assignment) = item {
        assignment.file_depth = source.file_depth;
    }
    Ok(())
}

// Gives each item what another source says of it.
fn bring_in_items<'src>(
    source: &Source<'src>,
    items: &mut Vec<Item<'src>>,
) -> Result<(), AllocError>
    ensures { OnOk result (items.new.items ≡ map (brought_in source.now) items.old.items) }
{
    for place in 0..items.len() {
        bring_in_item(source, &mut items[place])?;
    }
    Ok(())
}

// What a text says, as another source tells.
fn bring_in<'src>(
    alloc: Global,
    source: &Source<'src>,
    ast: Ast<'src>,
) -> Result<Ast<'src>, AllocError>
    ensures { IfOk result (IsBroughtIn source.now ast.entry) }
{
    let Ast {
        items,
        unstable_features,
        list_features,
        warnings,
        ..
    } = ast;
    let mut items = items.into_vec();
    bring_in_items(source, &mut items)?;
    Ok(Ast {
        items: Sequence::from_vec(items),
        module_path: module_path(alloc, &source.namepath)?,
        working_directory: source.working_directory.clone()?,
        unstable_features,
        list_features,
        warnings,
    })
}

// What the text of a scanned file says, where the file came in like that: it was read before, or is parsed now.
pub(crate) fn read_text<'src, S: Syntax>(
    alloc: Global,
    syntax: &S,
    file: &ScannedFile<'src>,
    place: usize,
    source: &Source<'src>,
    texts: &mut ReadTexts<'src>,
) -> Result<Ast<'src>, Error<'src>>
    requires read { (ast : Ast) → slice_get texts.old.asts.items place ≡ Some (Some ast) →
        IsAstRead (S.answers syntax.now) file.now.relative file.now.text ast }
    requires few { texts.old.numerator ≤ 2 ^ 64 }
    ensures read { IfOk result (IsAstReadBy (S.answers syntax.now) file.now.relative file.now.text source.now) }
    ensures takes { IfOk result (λ ast. TakesText place (takes_numbers (S.answers syntax.now) file.now) texts.old texts.new (numbers_of_items ast.items)) }
    ensures fits { OnOk result (texts.new.numerator ≤ 2 ^ 64) }
    ensures stopped { IfErr result (Refuses (S.answers syntax.now) file.now.relative file.now.text texts.old.numerator) }
{
    match texts.take(place) {
        Some(ast) => Ok(bring_in(alloc, source, ast)?),
        None => syntax.parse_source(
            alloc,
            &mut texts.numerator,
            file.relative.as_str(),
            source,
            file.text.as_str(),
        ),
    }
}
