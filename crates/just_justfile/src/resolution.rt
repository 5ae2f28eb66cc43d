//! What paths lead to from a module, through the modules in it.
ghost use Rattle.std.specs.Prelude.{◌≡◌, ◌∷◌, [], false, is_some, IfOk, Some, map};
ghost use Rattle.std.specs.Option.{option_copied};
ghost use Rattle.just_names.specs.Name.{text_of_name};
ghost use Rattle.just_table.specs.Entries.{find};
ghost use Rattle.just_paths.specs.declared.modulepath.Modulepath.{Modulepath};
ghost use Rattle.just_justfile.specs.Walks.{AreOrdered, AreModulesOrdered, end_of_names, inner_along, module_at, module_named, only, path_along, recipe_under, resolved_module, resolved_recipe};
ghost use Rattle.just_justfile.specs.loops.Walks.{IsReached, absent_there};

use crate::disabled::Disabled;
use crate::justfile::{Justfile, RecipeKey};
use just_data::{BorrowedText, Sequence, Text};
use just_parts::layers::{Name, Namepath, Number};
use just_paths::Modulepath;
use just_table::Table;
use std::alloc::{AllocError, Global};
use std::collections::BTreeSet;

/// What a path resolves to.
#[derive(Drop)]
pub enum Resolution<T> {
    /// It leads to something that is not there, since these optional modules have no file.
    Disabled(BTreeSet<Modulepath>),
    /// It leads to this.
    Resolved(T),
}

// Where names lead.
enum Reached<'run, 'src> {
    // There are no names.
    Here,
    // To a module.
    Inside(&'run Justfile<'src>),
    // To a module without a file, by so many names.
    Absent(usize),
    // To no module.
    Nowhere,
}

/// The module of a name, among modules in byte order of their names.
pub fn find_module<'run, 'src>(
    modules: &'run [Justfile<'src>],
    name: &str,
) -> Option<&'run Justfile<'src>>
    requires { AreOrdered modules.now }
    ensures { option_copied result ≡ module_named name.now modules.now }
{
    match modules.binary_search_by(|module| module.name().cmp(name)) {
        Ok(at) => Some(&modules[at]),
        Err(_) => None,
    }
}

/// The module to which names lead from a module.
pub(crate) fn module_along<'run, 'src>(
    root: &'run Justfile<'src>,
    names: &[Text],
) -> Option<&'run Justfile<'src>>
    requires { AreModulesOrdered root.now }
    ensures { option_copied result ≡ inner_along root.now names.now }
{
    let mut found = Some(root);
    for name in names {
        let Some(module) = found else {
            return None;
        };
        found = find_module(module.modules.as_slice(), name.as_str());
    }
    found
}

// Whether a name is that of a module without a file, in the module where a walk is, or where it began.
fn is_absent<'run, 'src>(
    absent: &'run Table<'src, BorrowedText<'src>>,
    inside: Option<&'run Justfile<'src>>,
    name: &str,
) -> bool
    ensures { result ≡ is_some (find name.now (absent_there absent.now (option_copied inside.entry))) }
{
    match inside {
        Some(module) => module.absent_modules.contains_key(name),
        None => absent.contains_key(name),
    }
}

// Where names lead from a module with these absent modules and these in it.
fn walk<'run, 'src>(
    absent: &'run Table<'src, BorrowedText<'src>>,
    modules: &'run [Justfile<'src>],
    front: &[Name<'src>],
) -> Reached<'run, 'src>
    requires { AreOrdered modules.now }
    ensures { IsReached (map text_of_name front.now) (end_of_names absent.now modules.now (map text_of_name front.now)) result }
{
    let mut modules = modules;
    let mut inside = None;
    for at in 0..front.len() {
        let name = front[at].lexeme();
        match find_module(modules, name) {
            Some(module) => {
                modules = module.modules.as_slice();
                inside = Some(module);
            }
            None => {
                if is_absent(absent, inside, name) {
                    return Reached::Absent(at + 1);
                }
                return Reached::Nowhere;
            }
        }
    }
    match inside {
        Some(module) => Reached::Inside(module),
        None => Reached::Here,
    }
}

// The path of names.
fn along<'src>(alloc: Global, names: &[Name<'src>]) -> Result<Modulepath, AllocError>
    ensures { IfOk result (λ path. path ≡ path_along (map text_of_name names.now)) }
{
    let mut components = Vec::with_capacity(alloc, names.len())?;
    for name in names {
        components.push(Text::from_str(alloc, name.lexeme())?)?;
    }
    Ok(Modulepath {
        components: Sequence::from_vec(components),
        spaced: false,
    })
}

// The set of one path.
fn alone(alloc: Global, path: Modulepath) -> Result<BTreeSet<Modulepath>, AllocError>
    ensures { IfOk result (λ set. set ≡ only path) }
{
    let mut set = BTreeSet::new(alloc);
    set.insert(path)?;
    Ok(set)
}

// What a name leads to in a module with these recipes, and with these that are disabled.
fn find_recipe<'src>(
    recipes: &Table<'src, RecipeKey<'src>>,
    disabled: &Table<'src, Disabled<'src>>,
    name: &str,
) -> Result<Option<Resolution<Number>>, AllocError>
    ensures { IfOk result (λ found. found ≡ recipe_under recipes.now disabled.now name.now) }
{
    if let Some(key) = recipes.get(name) {
        return Ok(Some(Resolution::Resolved(key.number)));
    }
    match disabled.get(name) {
        Some(it) => Ok(Some(Resolution::Disabled(it.modules.clone()?))),
        None => Ok(None),
    }
}

// What the last name of a path leads to in a module with these absent modules and these in it.
fn find_last<'src>(
    absent: &Table<'src, BorrowedText<'src>>,
    alloc: Global,
    modules: &[Justfile<'src>],
    path: &Namepath<'src>,
) -> Result<Option<Resolution<Modulepath>>, AllocError>
    requires { AreOrdered modules.now }
    ensures { IfOk result (λ found. found ≡ module_at absent.now modules.now path.now) }
{
    let name = path.last.lexeme();
    if let Some(module) = find_module(modules, name) {
        return Ok(Some(Resolution::Resolved(module.module_path.clone()?)));
    }
    if !absent.contains_key(name) {
        return Ok(None);
    }
    let walked = Modulepath::from_namepath(alloc, path)?;
    Ok(Some(Resolution::Disabled(alone(alloc, walked)?)))
}

impl Resolution<Number> {
    /// The number of the recipe to which a path leads from a module, by what this has: its optional modules without a file,
    /// its disabled recipes, the modules in it and its recipes. All names of the path but the last lead through modules, of
    /// which one that is there goes before one of its name without a file, and the last is looked up in the module where they
    /// end, or in the module itself. Aliases are not looked at.
    ///
    /// It is disabled where the path leads through a module without a file, whose path from the module tells it, or to a recipe
    /// that is disabled. None where it leads to no recipe. The error is want of memory.
    ///
    /// The names of the modules rise in byte order, in each module (those of a compiled module do).
    pub fn resolve_recipe<'src>(
        alloc: Global,
        path: &Namepath<'src>,
        absent_modules: &Table<'src, BorrowedText<'src>>,
        disabled_recipes: &Table<'src, Disabled<'src>>,
        modules: &[Justfile<'src>],
        recipes: &Table<'src, RecipeKey<'src>>,
    ) -> Result<Option<Resolution<Number>>, AllocError>
        requires { AreOrdered modules.now }
        ensures { let found = resolved_recipe absent_modules.now disabled_recipes.now modules.now recipes.now path.now in
            IfOk result (λ it. it ≡ found) }
    {
        let (last, front) = path.split_last();
        match walk(absent_modules, modules, front) {
            Reached::Here => find_recipe(recipes, disabled_recipes, last.lexeme()),
            Reached::Inside(module) => find_recipe(
                &module.recipes,
                &module.disabled_recipes,
                last.lexeme(),
            ),
            Reached::Absent(count) => {
                let walked = along(alloc, &front[..count])?;
                Ok(Some(Resolution::Disabled(alone(alloc, walked)?)))
            }
            Reached::Nowhere => Ok(None),
        }
    }
}

impl Resolution<Modulepath> {
    /// The path of the module to which a path leads from a module, by what this has: its optional modules without a file, and
    /// the modules in it. It is disabled where the last name is that of a module without a file, whose path from the module
    /// tells it. None where the path leads to no module, and where a name before the last is that of a module without a file.
    /// The error is want of memory.
    ///
    /// The names of the modules rise in byte order, in each module (those of a compiled module do).
    pub fn resolve_module<'src>(
        alloc: Global,
        path: &Namepath<'src>,
        absent: &Table<'src, BorrowedText<'src>>,
        modules: &[Justfile<'src>],
    ) -> Result<Option<Resolution<Modulepath>>, AllocError>
        requires { AreOrdered modules.now }
        ensures { let found = resolved_module absent.now modules.now path.now in IfOk result (λ it. it ≡ found) }
    {
        match walk(absent, modules, path.front.as_slice()) {
            Reached::Here => find_last(absent, alloc, modules, path),
            Reached::Inside(module) => find_last(
                &module.absent_modules,
                alloc,
                module.modules.as_slice(),
                path,
            ),
            Reached::Absent(_) | Reached::Nowhere => Ok(None),
        }
    }
}
