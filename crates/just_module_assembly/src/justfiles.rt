//! What a module's recipes are compiled to.

ghost use Rattle.std.specs.Prelude.{◌≡◌, IfOk};
ghost use Rattle.just_justfile.specs.declared.justfile.Justfile.{out-Justfile};
ghost use Rattle.just_compiled.specs.Analysis.{HasNoLabel, IsOf, recipe_table};
ghost use Rattle.just_compiled.specs.Labelled.{notes_in};
ghost use Rattle.just_module_contents.specs.Definitions.{contents_in, recipes_in};
ghost use Rattle.just_module_aliases.specs.Aliased.{aliases_of};
ghost use Rattle.just_module_assembly.specs.Targets.{own_targets};

use just_data::{Sequence, Shared, Text};
use just_justfile::{Aliases, Disabled, Justfile, RecipeKey};
use just_module_contents::Notes;
use just_module_contents::definitions::Definitions;
use just_module_variables::{Constants, Variables};
use just_parts::layers::{Ast, Name, Number};
use just_table::Table;
use std::alloc::{AllocError, Global};

// The names once more.
fn copied_names<'src>(
    alloc: Global,
    names: &[Name<'src>],
) -> Result<Sequence<Name<'src>>, AllocError>
    ensures { IfOk result (λ copies. copies ≡ names.now) }
{
    let mut copies = Vec::with_capacity(alloc, names.len())?;
    for name in names {
        copies.push(name.copied())?;
    }
    Ok(Sequence::from_vec(copies))
}

/// What a module has besides its recipes: the shared list of loaded files, the modules that it declares, and what is noted
/// of its files.
#[derive(Drop)]
pub struct Surroundings<'src> {
    /// The relative paths of all loaded files.
    pub loaded: Shared<Sequence<Text>>,
    /// The modules that it declares, in byte order of their names.
    pub modules: Sequence<Justfile<'src>>,
    /// What is noted of its files.
    pub notes: Notes<'src>,
    /// The path of its own file.
    pub source: Text,
}

/// What a module has of its recipes.
#[derive(Drop)]
pub struct OwnRecipes<'src, 'a> {
    /// Other names for them, and for the modules.
    pub aliases: Aliases<'src>,
    /// The one that is run by default.
    pub default: Option<Number>,
    /// Those that something disables, by their names.
    pub disabled: Table<'src, Disabled<'src>>,
    /// The keys of those that stand, by their names.
    pub keys: Table<'src, RecipeKey<'src>>,
    /// Those that stand.
    pub standing: Definitions<'src, 'a>,
}

/// The justfile of a module with these definitions, with these recipes, with its variables and with what is evaluated of it:
/// its settings, and the values that override its variables. It has no label.
pub fn make_justfile<'a, 'src>(
    alloc: Global,
    definitions: &Definitions<'src, 'a>,
    ast: &Ast<'src>,
    own: OwnRecipes<'src, 'a>,
    variables: Variables<'src>,
    constants: Constants<'src>,
    surroundings: Surroundings<'src>,
) -> Result<Justfile<'src>, AllocError>
    requires keys { own.keys ≡ recipe_table (recipes_in own.standing) }
    requires aliases { own.aliases ≡ aliases_of (own_targets surroundings own) (contents_in definitions.now).aliases }
    ensures fields { let is = IsOf (contents_in definitions.now) (recipes_in own.entry.standing) ast.now in
        IfOk result (is surroundings.entry.loaded surroundings.entry.source) }
    ensures label { IfOk result HasNoLabel }
    ensures default { IfOk result (λ j. (out-Justfile j).default ≡ own.entry.default) }
    ensures disabled { IfOk result (λ j. (out-Justfile j).disabled_recipes ≡ own.entry.disabled) }
    ensures assignments { IfOk result (λ j. (out-Justfile j).assignments ≡ variables.entry.assignments) }
    ensures functions { IfOk result (λ j. (out-Justfile j).functions ≡ variables.entry.functions) }
    ensures evaluation_order { IfOk result (λ j. (out-Justfile j).evaluation_order ≡ variables.entry.evaluation_order) }
    ensures settings { IfOk result (λ j. (out-Justfile j).settings ≡ constants.entry.settings) }
    ensures overridden { IfOk result (λ j. (out-Justfile j).overridden ≡ constants.entry.overrides) }
    ensures modules { IfOk result (λ j. (out-Justfile j).modules ≡ surroundings.entry.modules) }
    ensures notes { IfOk result (λ j. notes_in j ≡ surroundings.entry.notes) }
{
    let unexports = copied_names(alloc, definitions.unexports.as_slice())?;
    let module_path = ast.module_path.clone()?;
    let working_directory = ast.working_directory.clone()?;
    let OwnRecipes {
        aliases,
        default,
        disabled,
        keys,
        ..
    } = own;
    let Surroundings {
        loaded,
        modules,
        notes,
        source,
    } = surroundings;
    let Notes {
        absent_modules,
        unstable_features,
        warnings,
    } = notes;
    let Constants {
        settings,
        overrides,
        ..
    } = constants;
    let Variables {
        assignments,
        evaluation_order,
        functions,
        ..
    } = variables;
    Ok(Justfile {
        absent_modules,
        aliases,
        assignments,
        default,
        disabled_recipes: disabled,
        doc: None,
        evaluation_order,
        functions,
        groups: Sequence::new(alloc),
        loaded,
        module_path,
        modules,
        name: None,
        overridden: overrides,
        private: false,
        recipes: keys,
        settings,
        source,
        unstable_features,
        unexports,
        warnings,
        working_directory,
    })
}
