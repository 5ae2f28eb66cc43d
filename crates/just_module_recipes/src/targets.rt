//! What the dependencies of a module's recipes lead to.
ghost use Rattle.std.specs.Prelude.{◌≡◌, ◌<◌, IfOk, IfErr, length};
ghost use Rattle.std.specs.HashMap.{get};
ghost use Rattle.std.specs.Str.{bytes_eq};
ghost use Rattle.just_errors.specs.Causes.{Reports};
ghost use Rattle.just_justfile.specs.Walks.{AreOrdered};
ghost use Rattle.just_module_contents.specs.Definitions.{recipes_in};
ghost use Rattle.just_module_contents.specs.Recipes.{names_of, recipe_at};
ghost use Rattle.just_module_recipes.specs.Links.{found_by};
ghost use Rattle.just_module_recipes.specs.loops.Rows.{AreRecipeRows, AreTargets, IsTargetAt, Lost, around_by, far_of, target_by};
ghost use Rattle.just_names.specs.Index.{IsIndex};
ghost use Rattle.just_names.specs.loops.Index.{place_in};
ghost use Rattle.just_names.specs.Name.{texts_of_path};

use just_data::{BorrowedText, Sequence};
use just_justfile::{Justfile, Resolution};
use just_module_contents::definitions::Definitions;
use just_parts::layers::{CompileError, CompileErrorKind, Error, Namepath, Number};
use just_paths::Modulepath;
use just_recipes::Recipes;
use just_table::Table;
use std::alloc::{AllocError, Global};
use std::collections::{BTreeSet, HashMap};

/// What a dependency is.
#[derive(Drop)]
pub enum Target {
    /// A recipe of the module, by its place.
    Near(usize),
    /// A recipe of another module, by its number.
    Far(Number),
    /// A recipe that is not there, since these modules have no file.
    Gone(BTreeSet<Modulepath>),
}

/// What the paths of a module lead through beside its own recipes.
#[derive(Drop)]
pub struct Surroundings<'s, 'src> {
    /// Its optional modules without a file.
    pub absent: &'s Table<'src, BorrowedText<'src>>,
    /// The modules in it.
    pub modules: &'s [Justfile<'src>],
    /// The recipes that are resolved so far.
    pub recipes: &'s Recipes<'src>,
}

// The place of the recipe that a path names.
fn place_of_path<'src>(
    index: &HashMap<BorrowedText<'src>, usize>,
    path: &Namepath<'src>,
) -> Option<usize>
    ensures { result ≡ place_in (get bytes_eq index.now) (texts_of_path path.now) }
{
    if !path.front.is_empty() {
        return None;
    }
    index.get(&BorrowedText::new(path.last.lexeme())).copied()
}

// What a path leads to through the modules.
fn far<'s, 'src>(
    alloc: Global,
    it: &Surroundings<'s, 'src>,
    path: &Namepath<'src>,
) -> Result<Option<Target>, AllocError>
    requires { AreOrdered it.now.modules.now }
    ensures { IfOk result (λ found. found ≡ far_of (found_by (around_by it.now) path.now)) }
{
    let disabled = Table::new(alloc);
    let recipes = Table::new(alloc);
    match Resolution::resolve_recipe(alloc, path, it.absent, &disabled, it.modules, &recipes)? {
        Some(Resolution::Resolved(number)) => Ok(Some(Target::Far(number))),
        Some(Resolution::Disabled(modules)) => Ok(Some(Target::Gone(modules))),
        None => Ok(None),
    }
}

// What a path leads to: to the recipe of the module that it names, or through the modules.
fn find_target<'s, 'src>(
    alloc: Global,
    index: &HashMap<BorrowedText<'src>, usize>,
    it: &Surroundings<'s, 'src>,
    path: &Namepath<'src>,
) -> Result<Option<Target>, AllocError>
    requires { AreOrdered it.now.modules.now }
    ensures { let place = place_in (get bytes_eq index.now) (texts_of_path path.now) in
        IfOk result (λ found. found ≡ target_by place (found_by (around_by it.now) path.now)) }
{
    match place_of_path(index, path) {
        Some(place) => Ok(Some(Target::Near(place))),
        None => far(alloc, it, path),
    }
}

// What the dependency of a recipe leads to.
fn lead<'a, 's, 'src>(
    alloc: Global,
    kept: &Definitions<'src, 'a>,
    index: &HashMap<BorrowedText<'src>, usize>,
    it: &Surroundings<'s, 'src>,
    place: usize,
    at: usize,
) -> Result<Target, Error<'src>>
    requires index { IsIndex (names_of (recipes_in kept.now)) (get bytes_eq index.now) }
    requires ordered { AreOrdered it.now.modules.now }
    requires place { place < length kept.now.recipes.items }
    requires at { at < length (recipe_at (recipes_in kept.now) place).dependencies }
    ensures target { IfOk result (IsTargetAt (recipes_in kept.now) (around_by it.now) (recipe_at (recipes_in kept.now) place).dependencies at) }
    ensures named { IfErr result (Reports (Lost (recipes_in kept.now) (around_by it.now))) }
{
    let recipe = kept.recipe_at(place);
    let dependency = &recipe.dependencies.as_slice()[at];
    match find_target(alloc, index, it, &dependency.recipe)? {
        Some(target) => Ok(target),
        None => Err(Error::Compile(CompileError {
            token: dependency.recipe.last.token.copied(),
            kind: CompileErrorKind::UnknownDependency {
                recipe: BorrowedText::new(recipe.name.lexeme()),
                unknown: dependency.recipe.clone()?,
            },
        })),
    }
}

// What the dependencies of a recipe lead to, in their order.
fn row<'a, 's, 'src>(
    alloc: Global,
    kept: &Definitions<'src, 'a>,
    index: &HashMap<BorrowedText<'src>, usize>,
    it: &Surroundings<'s, 'src>,
    place: usize,
) -> Result<Sequence<Target>, Error<'src>>
    requires index { IsIndex (names_of (recipes_in kept.now)) (get bytes_eq index.now) }
    requires ordered { AreOrdered it.now.modules.now }
    requires place { place < length kept.now.recipes.items }
    ensures row { IfOk result (AreTargets (recipes_in kept.now) (around_by it.now) (recipe_at (recipes_in kept.now) place).dependencies) }
    ensures named { IfErr result (Reports (Lost (recipes_in kept.now) (around_by it.now))) }
{
    let mut row = Sequence::new(alloc);
    for at in 0..kept.recipe_at(place).dependencies.len() {
        row.push(lead(alloc, kept, index, it, place, at)?)?;
    }
    Ok(row)
}

/// What the dependencies of each recipe lead to. An error names one that leads nowhere.
pub fn rows<'a, 's, 'src>(
    alloc: Global,
    kept: &Definitions<'src, 'a>,
    index: &HashMap<BorrowedText<'src>, usize>,
    it: &Surroundings<'s, 'src>,
) -> Result<Vec<Sequence<Target>>, Error<'src>>
    requires index { IsIndex (names_of (recipes_in kept.now)) (get bytes_eq index.now) }
    requires ordered { AreOrdered it.now.modules.now }
    ensures rows { IfOk result (λ rows. AreRecipeRows (recipes_in kept.now) (around_by it.now) (length kept.now.recipes.items) rows.items) }
    ensures named { IfErr result (Reports (Lost (recipes_in kept.now) (around_by it.now))) }
{
    let mut rows = Vec::new(alloc);
    for place in 0..kept.recipes.len() {
        rows.push(row(alloc, kept, index, it, place)?)?;
    }
    Ok(rows)
}
