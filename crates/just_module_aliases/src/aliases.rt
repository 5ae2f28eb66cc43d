//! What the aliases of a module mean.

ghost use Rattle.std.specs.Prelude.{◌≡◌, IfErr, IfOk, OnOk};
ghost use Rattle.just_errors.specs.Causes.{Keeps, Reports};
ghost use Rattle.just_module_contents.specs.Definitions.{aliases_in};
ghost use Rattle.just_module_aliases.specs.Aliased.{UnknownTargets, aliases_of, as_recipe, alias_meant, alias_targets, with_meaning};
ghost use Rattle.just_module_aliases.specs.loops.Aliased.{IsAdded, UnknownTarget};
ghost use Rattle.just_justfile.specs.Walks.{AreOrdered, resolved_recipe};

use just_data::BorrowedText;
use just_justfile::{Aliases, Disabled, Justfile, RecipeKey, Resolution};
use just_module_contents::definitions::Definitions;
use just_parts::layers::{Alias, CompileError, CompileErrorKind, Error, Namepath, Number};
use just_paths::Modulepath;
use just_table::Table;
use std::alloc::{AllocError, Global};
use std::collections::BTreeSet;

/// What an alias is another name for.
#[derive(Drop)]
pub enum AliasMeaning {
    /// What is not there, since these optional modules have no file.
    Disabled(BTreeSet<Modulepath>),
    /// The module at this path from the root.
    Module(Modulepath),
    /// The recipe of this number.
    Recipe(Number),
}

// What is meant by a path that leads to no module.
fn meant_recipe<'src>(
    alloc: Global,
    path: &Namepath<'src>,
    absent: &Table<'src, BorrowedText<'src>>,
    disabled: &Table<'src, Disabled<'src>>,
    modules: &[Justfile<'src>],
    recipes: &Table<'src, RecipeKey<'src>>,
) -> Result<Option<AliasMeaning>, AllocError>
    requires { AreOrdered modules.now }
    ensures { let found = resolved_recipe absent.now disabled.now modules.now recipes.now path.now in
        IfOk result (λ it. it ≡ as_recipe found) }
{
    match Resolution::resolve_recipe(alloc, path, absent, disabled, modules, recipes)? {
        Some(Resolution::Disabled(modules)) => Ok(Some(AliasMeaning::Disabled(modules))),
        Some(Resolution::Resolved(number)) => Ok(Some(AliasMeaning::Recipe(number))),
        None => Ok(None),
    }
}

// What is meant by a path: a module, or where it leads to none a recipe.
fn meant<'src>(
    alloc: Global,
    path: &Namepath<'src>,
    absent: &Table<'src, BorrowedText<'src>>,
    disabled: &Table<'src, Disabled<'src>>,
    modules: &[Justfile<'src>],
    recipes: &Table<'src, RecipeKey<'src>>,
) -> Result<Option<AliasMeaning>, AllocError>
    requires { AreOrdered modules.now }
    ensures { let t = alias_targets absent.now disabled.now modules.now recipes.now in
        IfOk result (λ it. it ≡ alias_meant t path.now) }
{
    match Resolution::resolve_module(alloc, path, absent, modules)? {
        Some(Resolution::Disabled(set)) => Ok(Some(AliasMeaning::Disabled(set))),
        Some(Resolution::Resolved(path)) => Ok(Some(AliasMeaning::Module(path))),
        None => meant_recipe(alloc, path, absent, disabled, modules, recipes),
    }
}

// Adds an alias that means this.
fn add_meaning<'src>(
    aliases: &mut Aliases<'src>,
    alias: &Alias<'src>,
    meaning: AliasMeaning,
) -> Result<(), AllocError>
    ensures { OnOk result (aliases.new ≡ with_meaning aliases.old alias.now meaning) }
{
    let name = alias.name.copied();
    match meaning {
        AliasMeaning::Disabled(modules) => {
            aliases.disabled.insert(Disabled { name, modules })?;
        }
        AliasMeaning::Module(target) => {
            let attributes = alias.attributes.clone()?;
            aliases.modules.insert(Alias {
                attributes,
                name,
                target,
            })?;
        }
        AliasMeaning::Recipe(target) => {
            let attributes = alias.attributes.clone()?;
            aliases.recipes.insert(Alias {
                attributes,
                name,
                target,
            })?;
        }
    }
    Ok(())
}

// Adds an alias, or refuses it where its target is unknown.
fn add_alias<'src>(
    alloc: Global,
    aliases: &mut Aliases<'src>,
    alias: &Alias<'src>,
    absent: &Table<'src, BorrowedText<'src>>,
    disabled: &Table<'src, Disabled<'src>>,
    modules: &[Justfile<'src>],
    recipes: &Table<'src, RecipeKey<'src>>,
) -> Result<(), Error<'src>>
    requires { AreOrdered modules.now }
    ensures added { let t = alias_targets absent.now disabled.now modules.now recipes.now in
        OnOk result (IsAdded t alias.now aliases.old aliases.new) }
    ensures named { let t = alias_targets absent.now disabled.now modules.now recipes.now in
        IfErr result (Reports (UnknownTarget t alias.now)) }
{
    match meant(alloc, &alias.target, absent, disabled, modules, recipes)? {
        Some(meaning) => Ok(add_meaning(aliases, alias, meaning)?),
        None => Err(Error::Compile(CompileError {
            token: alias.name.token.copied(),
            kind: CompileErrorKind::UnknownAliasTarget {
                alias: BorrowedText::new(alias.name.lexeme()),
                target: alias.target.clone()?,
            },
        })),
    }
}

/// The aliases that a module with these definitions has, by what else it has: its optional modules without a file, its
/// disabled recipes, the modules in it and its recipes. Each is another name for the module that its target leads to, or
/// where that leads to none for the recipe, or it is disabled. An alias of an alias is unknown, since aliases are not looked
/// at. An error tells the first alias whose target is unknown, at its name.
///
/// The names of the modules rise in byte order, in each module (those of a compiled module do).
pub fn resolve_aliases<'a, 'src>(
    alloc: Global,
    definitions: &Definitions<'src, 'a>,
    absent: &Table<'src, BorrowedText<'src>>,
    disabled: &Table<'src, Disabled<'src>>,
    modules: &[Justfile<'src>],
    recipes: &Table<'src, RecipeKey<'src>>,
) -> Result<Aliases<'src>, Error<'src>>
    requires { AreOrdered modules.now }
    ensures kept { let t = alias_targets absent.now disabled.now modules.now recipes.now in
        OnOk result (Keeps (UnknownTargets t (aliases_in definitions.now))) }
    ensures aliases { let t = alias_targets absent.now disabled.now modules.now recipes.now in
        IfOk result (λ made. made ≡ aliases_of t (aliases_in definitions.now)) }
    ensures named { let t = alias_targets absent.now disabled.now modules.now recipes.now in
        IfErr result (Reports (UnknownTargets t (aliases_in definitions.now))) }
{
    let mut made = Aliases {
        disabled: Table::new(alloc),
        modules: Table::new(alloc),
        recipes: Table::new(alloc),
    };
    for place in 0..definitions.aliases.len() {
        let alias = &*definitions.aliases[place];
        add_alias(alloc, &mut made, alias, absent, disabled, modules, recipes)?;
    }
    Ok(made)
}
