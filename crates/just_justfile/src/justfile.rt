//! Compiled modules.
use crate::aliases::{Aliases, RecipeAlias};
use crate::disabled::Disabled;
use crate::resolution::module_along;
use just_data::{BorrowedText, Exact, Sequence, Shared, Text};
use just_name_resolution::{Tables, assignment_references};
use just_parts::Recipe;
use just_parts::layers::{
    Assignment, FunctionDefinition, Name, Number, Settings, StringLiteral, Warning,
};
use just_paths::Modulepath;
use just_recipes::Recipes;
use just_table::{Keyed, Table};
use std::alloc::{AllocError, Global};
use std::collections::{HashMap, HashSet};

/// The name and the number of a recipe.
#[derive(Clone, Drop)]
pub struct RecipeKey<'src> {
    /// The name that the recipe is found by.
    pub name: Name<'src>,
    /// The number that `Recipes` holds the recipe under.
    pub number: Number,
}

impl<'src> Keyed<'src> for RecipeKey<'src> {
    ghost use Rattle.just_names.specs.Token.{lexeme};

    ghost key_of = { λ key. lexeme key.name.token };

    fn key(&self) -> &'src str {
        self.name.lexeme()
    }
}

impl<'src> Exact for RecipeKey<'src> {
    ghost use Rattle.std.proofs.Common.{rules};

    ghost exact = { Prim.search rules };
}

/// A compiled module.
pub struct Justfile<'src> {
    /// The names of the optional modules that have no file.
    pub absent_modules: Table<'src, BorrowedText<'src>>,
    /// Other names for recipes and modules.
    pub aliases: Aliases<'src>,
    /// The variables of the module, by their names: of several of one name the one that is kept. Each variable in their
    /// values has the number of what it means.
    pub assignments: Table<'src, Assignment<'src>>,
    /// The recipe that is run by default.
    pub default: Option<Number>,
    /// The recipes that are not there, since what they depend on lies in optional modules without a file, by their names.
    pub disabled_recipes: Table<'src, Disabled<'src>>,
    /// What a listing says of it.
    pub doc: Option<Text>,
    /// The names of the variables, each once and after those that its value reads, also through functions.
    pub evaluation_order: Sequence<Name<'src>>,
    /// The functions of the module, by their names, each variable in their bodies with the number of what it means.
    pub functions: Table<'src, FunctionDefinition<'src>>,
    /// The groups that a listing has it in.
    pub groups: Sequence<StringLiteral<'src>>,
    /// The relative paths of the files, each once, in the order of loading.
    pub loaded: Shared<Sequence<Text>>,
    /// Its path; without names of the root's module.
    pub module_path: Modulepath,
    /// The modules of this one, in byte order of their names.
    pub modules: Sequence<Justfile<'src>>,
    /// The name of the module; none of the root's.
    pub name: Option<Name<'src>>,
    /// The values that overrode variables of the module at its analysis, by the numbers of these variables.
    pub overridden: HashMap<Number, Text>,
    /// Whether a listing leaves it out.
    pub private: bool,
    /// The recipes of the module, by their names.
    pub recipes: Table<'src, RecipeKey<'src>>,
    /// What the module's files set, and the other settings by default.
    pub settings: Settings,
    /// The path of the module's own file.
    pub source: Text,
    /// The names of the features that the module's files use and that are not stable.
    pub unstable_features: Table<'src, BorrowedText<'src>>,
    /// The names of the variables that recipes do not have in their environment, each once, in the order of the module's
    /// files.
    pub unexports: Sequence<Name<'src>>,
    /// What the caller is told of the module's files, file after file.
    pub warnings: Sequence<Warning>,
    /// The folder of its own file.
    pub working_directory: Text,
}

impl<'src> Justfile<'src> {
    ghost use Rattle.std.specs.Prelude.{◌≡◌};
    ghost use Rattle.just_justfile.specs.declared.justfile.Justfile.{out-Justfile};

    // The modules in it. All else is dropped.
    fn into_modules(self) -> Vec<Justfile<'src>>
        ensures { result.items ≡ (out-Justfile self.entry).modules }
    {
        let Justfile {
            absent_modules: _,
            aliases: _,
            assignments: _,
            default: _,
            disabled_recipes: _,
            doc: _,
            evaluation_order: _,
            functions: _,
            groups: _,
            loaded: _,
            module_path: _,
            modules,
            name: _,
            overridden: _,
            private: _,
            recipes: _,
            settings: _,
            source: _,
            unstable_features: _,
            unexports: _,
            warnings: _,
            working_directory: _,
        } = self;
        modules.into_vec()
    }
}

// A loop over what is left, so that modules inside each other are dropped in little stack. Where there is no memory for
// the list of what is left, a module is dropped at once.
impl<'src> Drop for Justfile<'src> {
    fn drop(self) {
        let mut inner = self.into_modules();
        let mut pending = Vec::new(*inner.allocator());
        loop {
            if let Some(module) = inner.pop() {
                if let Err(refused) = pending.push(module) {
                    drop(refused.value);
                }
            } else if let Some(next) = pending.pop() {
                inner.destroy_empty();
                inner = next.into_modules();
            } else {
                break;
            }
        }
        inner.destroy_empty();
        pending.destroy_empty();
    }
}

impl<'src> Keyed<'src> for Justfile<'src> {
    ghost use Rattle.just_justfile.specs.Module.{module_name};

    ghost key_of = { module_name };

    fn key(&self) -> &'src str {
        self.name()
    }
}

impl<'src> Justfile<'src> {
    ghost use Rattle.std.specs.Prelude.{◌≡◌, is_some};
    ghost use Rattle.just_justfile.specs.declared.justfile.Justfile.{out-Justfile};
    ghost use Rattle.just_justfile.specs.Module.{module_name};

    /// The name of the module; empty for the root's.
    pub fn name(&self) -> &'src str
        ensures { result.now ≡ module_name self.now }
    {
        match &self.name {
            Some(name) => name.lexeme(),
            None => "",
        }
    }

    /// Whether the module has a name, as all but the root's have.
    pub fn is_submodule(&self) -> bool
        ensures { result ≡ is_some (out-Justfile self.now).name }
    {
        self.name.is_some()
    }
}

impl<'src> Justfile<'src> {
    ghost use Rattle.std.specs.Prelude.{◌≡◌, IfSome};
    ghost use Rattle.std.specs.Option.{option_copied};
    ghost use Rattle.just_justfile.specs.Closed.{IsHeld, recipe_aliased, recipe_called, recipe_named};
    ghost use Rattle.just_justfile.specs.declared.justfile.Justfile.{out-Justfile};
    ghost use Rattle.just_table.specs.Entries.{find};
    ghost use Rattle.just_justfile.specs.Walks.{AreModulesOrdered, inner_along};

    /// The module to which the names of a path lead from this one, each in the module of the one before it; this one where
    /// there are no names. None where there is no such module.
    ///
    /// The names of the modules rise in byte order, in each module (those of a compiled module do).
    pub fn submodule(&self, path: &Modulepath) -> Option<&Justfile<'src>>
        requires { AreModulesOrdered self.now }
        ensures { option_copied result ≡ inner_along self.now path.now.components }
    {
        module_along(self, path.components.as_slice())
    }

    /// The recipe that the module has under a name of its own, of these recipes; none where it has none of the name.
    pub fn own_recipe<'run>(
        &self,
        recipes: &'run Recipes<'src>,
        name: &str,
    ) -> Option<&'run Recipe<'src>>
        ensures found { option_copied result ≡ recipe_named self.now recipes.now name.now }
        ensures held { IfSome result (λ r. IsHeld recipes.now r.now) }
    {
        match self.recipes.get(name) {
            Some(key) => recipes.get(key.number),
            None => None,
        }
    }

    /// The alias of a recipe that has a name in the module.
    pub fn recipe_alias(&self, name: &str) -> Option<&RecipeAlias<'src>>
        ensures { option_copied result ≡ find name.now (out-Justfile self.now).aliases.recipes }
    {
        self.aliases.recipes.get(name)
    }

    /// The recipe for which an alias of a name in the module stands, of these recipes; none where it has no alias of a recipe
    /// of the name.
    pub fn aliased_recipe<'run>(
        &self,
        recipes: &'run Recipes<'src>,
        name: &str,
    ) -> Option<&'run Recipe<'src>>
        ensures found { option_copied result ≡ recipe_aliased self.now recipes.now name.now }
        ensures held { IfSome result (λ r. IsHeld recipes.now r.now) }
    {
        match self.recipe_alias(name) {
            Some(alias) => recipes.get(alias.target),
            None => None,
        }
    }

    /// The recipe of a name in the module, of these recipes: its own, or else the one that an alias of the name stands for;
    /// none where the module has neither.
    pub fn recipe<'run>(
        &self,
        recipes: &'run Recipes<'src>,
        name: &str,
    ) -> Option<&'run Recipe<'src>>
        ensures found { option_copied result ≡ recipe_called self.now recipes.now name.now }
        ensures held { IfSome result (λ r. IsHeld recipes.now r.now) }
    {
        if let Some(recipe) = self.own_recipe(recipes, name) {
            return Some(recipe);
        }
        self.aliased_recipe(recipes, name)
    }
}

impl<'src> Justfile<'src> {
    ghost use Rattle.std.specs.Prelude.{◌≡◌, is_some, IfOk, IfSome};
    ghost use Rattle.std.specs.HashSet.{contains};
    ghost use Rattle.just_justfile.specs.declared.justfile.Justfile.{out-Justfile};
    ghost use Rattle.just_parts.specs.Needs.{AreNeeded, has_number, same_number};
    ghost use Rattle.just_table.specs.Entries.{find};
    ghost use Rattle.just_parts.specs.Known.{sources};

    /// The numbers of the variables that a variable of the module needs: its own, and unless it was overridden at the
    /// analysis those of what its value reads, also through functions, and so on. None where the module has no variable of
    /// the name. The error is want of memory.
    pub fn assignment_references(
        &self,
        alloc: Global,
        name: &str,
    ) -> Result<Option<HashSet<Number>>, AllocError>
        ensures found { IfOk result (λ found. is_some found ≡ is_some (find name.now (out-Justfile self.now).assignments)) }
        ensures needed { let m = sources (out-Justfile self.now).assignments (out-Justfile self.now).functions in
            let overridden = has_number (out-Justfile self.now).overridden in
            IfOk result (λ found. IfSome found (λ set. AreNeeded m overridden name.now (contains same_number set))) }
    {
        let tables = Tables {
            assignments: &self.assignments,
            functions: &self.functions,
        };
        assignment_references(alloc, &tables, &self.overridden, name)
    }
}
