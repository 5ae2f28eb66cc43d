//! What the recipes of a module are linked to: those that they depend on, in the module and in those in it.

ghost use Rattle.std.specs.Prelude.{◌≡◌, ◌++◌, ◌<◌, IfErr, IfOk, OnOk, Some, length, slice_get};
ghost use Rattle.std.specs.List.{All};
ghost use Rattle.just_errors.specs.Causes.{Keeps, Reports};
ghost use Rattle.just_graph.specs.Steps.{IsOnce};
ghost use Rattle.just_justfile.specs.Walks.{AreOrdered};
ghost use Rattle.just_module_contents.specs.Definitions.{recipes_in};
ghost use Rattle.just_module_contents.specs.Recipes.{names_of};
ghost use Rattle.just_module_contents.specs.Resolved.{AreNew, HasPriors, unresolved_numbers};
ghost use Rattle.just_module_contents.specs.Standing.{AreStanding, InStanding};
ghost use Rattle.just_module_recipes.specs.Completed.{BreaksOne, CoversRecipes, TellsLinks, TellsOne, completion_among};
ghost use Rattle.just_module_recipes.specs.Linked.{AddsLinked, AreSettled, HasDisabled};
ghost use Rattle.just_module_recipes.specs.Links.{BreaksLinks, Disables, Stands, around_recipes};
ghost use Rattle.just_module_recipes.specs.Making.{standing, standing_by};
ghost use Rattle.just_module_recipes.specs.loops.Making.{fallen, fallen_by};
ghost use Rattle.just_module_recipes.specs.loops.Planned.{IsPlan};
ghost use Rattle.just_module_recipes.specs.loops.Rows.{around_by};
ghost use Rattle.just_names.specs.Index.{AreDifferent};

use crate::completion::Completing;
use crate::counts::check_counts;
use crate::index::index_recipes;
use crate::merge::merge;
use crate::recipe_order::ordered;
use crate::resolution::resolve;
use crate::targets::{Surroundings, Target, rows};
use just_data::{BorrowedText, Sequence};
use just_justfile::{Disabled, Justfile};
use just_module_contents::definitions::Definitions;
use just_parts::UnresolvedRecipe;
use just_parts::layers::{ConstantEvaluation, Error, Settings, Syntax};
use just_paths::Modulepath;
use just_recipes::Recipes;
use just_table::Table;
use std::alloc::{AllocError, Global};
use std::collections::BTreeSet;

// What is found out of the recipes of a module before they are resolved.
#[derive(Drop)]
struct Plan {
    // what the dependencies of each lead to
    rows: Vec<Sequence<Target>>,
    // their places, each after those that it depends on
    order: Vec<usize>,
    // the paths of the modules that disable each
    sets: Vec<BTreeSet<Modulepath>>,
}

// Finds that out, and refuses the first rule that is broken.
fn make_plan<'a, 's, 'src>(
    alloc: Global,
    kept: &Definitions<'src, 'a>,
    settings: &Settings,
    it: &Surroundings<'s, 'src>,
) -> Result<Plan, Error<'src>>
    requires different { AreDifferent (names_of (recipes_in kept.now)) }
    requires ordered { AreOrdered it.now.modules.now }
    requires settled { AreSettled (around_by it.now) }
    ensures kept { IfOk result (λ _. Keeps (BreaksLinks settings.now.lists (recipes_in kept.now) (around_by it.now))) }
    ensures plan { IfOk result (IsPlan (recipes_in kept.now) (around_by it.now)) }
    ensures named { IfErr result (Reports (BreaksLinks settings.now.lists (recipes_in kept.now) (around_by it.now))) }
{
    let index = index_recipes(alloc, kept)?;
    let rows = rows(alloc, kept, &index, it)?;
    let order = ordered(alloc, kept, rows.as_slice())?;
    let sets = merge(alloc, rows.as_slice(), order.as_slice())?;
    check_counts(kept, settings, it, rows.as_slice(), sets.as_slice())?;
    Ok(Plan { rows, order, sets })
}

// Adds a recipe to those that stand, or to those that are disabled.
fn enter<'a, 'src>(
    recipe: &'a UnresolvedRecipe<'src>,
    set: BTreeSet<Modulepath>,
    standing: &mut Definitions<'src, 'a>,
    disabled: &mut Vec<Disabled<'src>>,
) -> Result<(), AllocError>
    ensures standing { OnOk result (recipes_in standing.new ≡ recipes_in standing.old ++ standing_by set.keys recipe.now) }
    ensures disabled { OnOk result (disabled.new.items ≡ disabled.old.items ++ fallen_by set set.keys recipe.now) }
{
    if set.is_empty() {
        standing.recipes.push(recipe)?;
        return Ok(());
    }
    disabled.push(Disabled {
        name: recipe.name.copied(),
        modules: set,
    })?;
    Ok(())
}

// The recipe that is lent at a place.
fn lent_at<'a, 'src>(kept: &Definitions<'src, 'a>, place: usize) -> &'a UnresolvedRecipe<'src>
    requires { place < length kept.now.recipes.items }
    ensures { slice_get (recipes_in kept.now) place ≡ Some result.now }
{
    kept.recipes[place]
}

// The recipes that stand, and those that are disabled, by what disables each.
fn split<'a, 'src>(
    alloc: Global,
    kept: &Definitions<'src, 'a>,
    sets: Vec<BTreeSet<Modulepath>>,
) -> Result<(Definitions<'src, 'a>, Vec<Disabled<'src>>), AllocError>
    requires { length sets.items ≡ length kept.now.recipes.items }
    ensures standing { IfOk result (λ both. recipes_in both.0 ≡ standing sets.items (recipes_in kept.now)) }
    ensures disabled { IfOk result (λ both. both.1.items ≡ fallen sets.items (recipes_in kept.now)) }
{
    let mut standing = Definitions::new(alloc);
    let mut disabled = Vec::new(alloc);
    let mut place = 0;
    for set in sets {
        enter(lent_at(kept, place), set, &mut standing, &mut disabled)?;
        place += 1;
    }
    Ok((standing, disabled))
}

/// The recipes of a module as they are linked.
#[derive(Drop)]
pub struct Linked<'src, 'a> {
    /// All recipes that are resolved, those of the module after the others.
    pub all: Recipes<'src>,
    /// The recipes of the module that something disables, by their names.
    pub disabled: Table<'src, Disabled<'src>>,
    /// The recipes of the module that stand.
    pub standing: Definitions<'src, 'a>,
}

/// Links the kept recipes of the module at `module_path`, of which the paths lead through these absent modules and these
/// modules in it: those that nothing disables are completed and resolved, and are put behind the recipes that are resolved so
/// far. An error names a rule that is broken, of what they depend on or of one of those that nothing disables, or a pattern
/// of such a one that is past the limits of regular expressions; the recipes are dropped then.
///
/// The names of the modules rise in byte order, in each module (those of a compiled module do). For each kept recipe there
/// are the numbers of the variables that it needs, and what its doc, helps and patterns read has a value.
pub fn link<'a, 'm, 'src, S: Syntax, E: ConstantEvaluation>(
    alloc: Global,
    kept: &Definitions<'src, 'a>,
    completing: &Completing<'m, 'src, S, E>,
    module_path: &Modulepath,
    absent: &Table<'src, BorrowedText<'src>>,
    modules: &[Justfile<'src>],
    recipes: Recipes<'src>,
) -> Result<Linked<'src, 'a>, Error<'src>>
    requires different { AreDifferent (names_of (recipes_in kept.now)) }
    requires once { IsOnce (unresolved_numbers (recipes_in kept.now)) }
    requires priors { All HasPriors (recipes_in kept.now) }
    requires apart { AreNew recipes (recipes_in kept.now) }
    requires ordered { AreOrdered modules.now }
    requires settled { AreSettled (around_recipes absent.now modules.now recipes) }
    requires references { length completing.now.references.now ≡ length kept.now.recipes.items }
    requires covered { CoversRecipes completing.now (recipes_in kept.now) }
    ensures kept { let it = around_recipes absent.now modules.now recipes.entry in
        IfOk result (λ _. Keeps (BreaksLinks completing.now.meanings.settings.now.lists (recipes_in kept.now) it)) }
    ensures own { let it = completing.now in
        let rule = BreaksOne (S.answers it.meanings.syntax.now) (E.answers it.among.evaluation.now) it in
        let stands = Stands (recipes_in kept.now) (around_recipes absent.now modules.now recipes.entry) in
        IfOk result (λ _. Keeps (InStanding stands rule (recipes_in kept.now))) }
    ensures standing { let it = around_recipes absent.now modules.now recipes.entry in
        IfOk result (λ made. AreStanding (Stands (recipes_in kept.now) it) (recipes_in kept.now) (recipes_in made.standing)) }
    ensures disabled { let it = around_recipes absent.now modules.now recipes.entry in
        IfOk result (λ made. HasDisabled (Disables (recipes_in kept.now) it) (recipes_in kept.now) made.disabled) }
    ensures linked { let it = completing.now in
        let done = completion_among (S.answers it.meanings.syntax.now) (E.answers it.among.evaluation.now) it (recipes_in kept.now) in
        let adds = AddsLinked done it.meanings.settings.now.lists (recipes_in kept.now) (around_recipes absent.now modules.now recipes.entry) in
        IfOk result (λ made. adds module_path.now made.all) }
    ensures named { let it = completing.now in
        let tells = TellsOne (S.answers it.meanings.syntax.now) (E.answers it.among.evaluation.now) it in
        let around_recipes = around_recipes absent.now modules.now recipes.entry in
        IfErr result (Reports (TellsLinks it.meanings.settings.now.lists tells (recipes_in kept.now) around_recipes)) }
{
    let it = &Surroundings {
        absent,
        modules,
        recipes: &recipes,
    };
    let Plan { rows, order, sets } = make_plan(alloc, kept, completing.meanings.settings, it)?;
    let all = resolve(
        alloc,
        kept,
        completing,
        module_path,
        rows.as_slice(),
        order.as_slice(),
        sets.as_slice(),
        recipes,
    )?;
    let (standing, disabled) = split(alloc, kept, sets)?;
    let disabled = Table::from_values(alloc, disabled)?;
    Ok(Linked {
        all,
        disabled,
        standing,
    })
}
