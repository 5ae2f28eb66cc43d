//! The kept recipes of a module, resolved on what its names mean and on what is evaluated of it.

ghost use Rattle.std.specs.Prelude.{◌≡◌, IfErr, IfOk};
ghost use Rattle.std.specs.List.{All};
ghost use Rattle.just_errors.specs.Causes.{Keeps, Reports};
ghost use Rattle.just_graph.specs.Steps.{IsOnce};
ghost use Rattle.just_justfile.specs.Walks.{AreOrdered};
ghost use Rattle.just_module_contents.specs.Definitions.{recipes_in};
ghost use Rattle.just_module_contents.specs.Recipes.{names_of};
ghost use Rattle.just_module_contents.specs.Resolved.{AreNew, HasPriors, unresolved_numbers};
ghost use Rattle.just_module_contents.specs.Standing.{AreStanding, InStanding};
ghost use Rattle.just_module_recipes.specs.Completed.{TellsLinks};
ghost use Rattle.just_module_recipes.specs.Linked.{AddsLinked, AreSettled, HasDisabled};
ghost use Rattle.just_module_recipes.specs.Links.{BreaksLinks, Disables, Stands, around_recipes};
ghost use Rattle.just_names.specs.Index.{AreDifferent};
ghost use Rattle.just_recipe_resolution.specs.Basis.{AreRecipesCovered, BreaksOn, TellsOn, basis_of, completion_on};

use just_data::{BorrowedText, Text};
use just_justfile::Justfile;
use just_module_contents::definitions::Definitions;
use just_module_recipes::{Completing, Linked, link};
use just_name_resolution::Tables;
use just_parts::layers::{ConstantEvaluation, Error, Number, Syntax};
use just_paths::Modulepath;
use just_recipe_names::Meanings;
use just_recipe_needs::references_of_all;
use just_recipe_values::Among;
use just_recipes::Recipes;
use just_table::Table;
use std::alloc::Global;
use std::collections::HashMap;

/// What recipes of a module are resolved on.
#[derive(Drop)]
pub struct Resolving<'m, 'src, S: Syntax, E: ConstantEvaluation> {
    /// What the names in them mean.
    pub meanings: Meanings<'m, 'src, S>,
    /// What their docs, helps and patterns are evaluated among.
    pub among: Among<'m, 'src, E>,
    /// The values that some variables have in place of their own, by their numbers.
    pub overrides: &'m HashMap<Number, Text>,
}

/// Resolves the kept recipes of the module at `module_path`, whose paths lead through these absent modules and these modules in
/// it. Those that nothing disables are completed, linked to what they depend on, and put behind the recipes that are resolved
/// so far. An error names a rule that is broken, of what they depend on or of one of those that nothing disables, or a pattern
/// of such a one that is past the limits of regular expressions; the recipes are dropped then.
pub fn resolve_kept<'a, 'm, 'src, S: Syntax, E: ConstantEvaluation>(
    alloc: Global,
    kept: &Definitions<'src, 'a>,
    resolving: Resolving<'m, 'src, S, E>,
    module_path: &Modulepath,
    absent: &Table<'src, BorrowedText<'src>>,
    modules: &[Justfile<'src>],
    recipes: Recipes<'src>,
) -> Result<Linked<'src, 'a>, Error<'src>>
    requires different { AreDifferent (names_of (recipes_in kept.now)) }
    requires once { IsOnce (unresolved_numbers (recipes_in kept.now)) }
    requires priors { All HasPriors (recipes_in kept.now) }
    requires apart { AreNew recipes (recipes_in kept.now) }
    requires ordered { AreOrdered modules.now }
    requires settled { AreSettled (around_recipes absent.now modules.now recipes) }
    requires covered { AreRecipesCovered (basis_of resolving) (recipes_in kept.now) }
    ensures kept { let it = around_recipes absent.now modules.now recipes.entry in
        IfOk result (λ _. Keeps (BreaksLinks resolving.entry.meanings.settings.now.lists (recipes_in kept.now) it)) }
    ensures own { let by = resolving.entry in
        let rule = BreaksOn (S.answers by.meanings.syntax.now) (E.answers by.among.evaluation.now) (basis_of by) in
        let stands = Stands (recipes_in kept.now) (around_recipes absent.now modules.now recipes.entry) in
        IfOk result (λ _. Keeps (InStanding stands rule (recipes_in kept.now))) }
    ensures standing { let it = around_recipes absent.now modules.now recipes.entry in
        IfOk result (λ made. AreStanding (Stands (recipes_in kept.now) it) (recipes_in kept.now) (recipes_in made.standing)) }
    ensures disabled { let it = around_recipes absent.now modules.now recipes.entry in
        IfOk result (λ made. HasDisabled (Disables (recipes_in kept.now) it) (recipes_in kept.now) made.disabled) }
    ensures linked { let by = resolving.entry in
        let completed = completion_on (S.answers by.meanings.syntax.now) (E.answers by.among.evaluation.now) (basis_of by) in
        let it = around_recipes absent.now modules.now recipes.entry in
        IfOk result (λ made. AddsLinked completed by.meanings.settings.now.lists (recipes_in kept.now) it module_path.now made.all) }
    ensures named { let by = resolving.entry in
        let tells = TellsOn (S.answers by.meanings.syntax.now) (E.answers by.among.evaluation.now) (basis_of by) in
        let it = around_recipes absent.now modules.now recipes.entry in
        IfErr result (Reports (TellsLinks by.meanings.settings.now.lists tells (recipes_in kept.now) it)) }
{
    let Resolving {
        meanings,
        among,
        overrides,
    } = resolving;
    let tables = Tables {
        assignments: among.assignments,
        functions: among.functions,
    };
    let (syntax, settings) = (meanings.syntax, meanings.settings);
    let references = references_of_all(alloc, tables, overrides, syntax, settings, kept)?;
    let completing = Completing {
        meanings,
        among,
        references: references.as_slice(),
    };
    link(
        alloc,
        kept,
        &completing,
        module_path,
        absent,
        modules,
        recipes,
    )
}
