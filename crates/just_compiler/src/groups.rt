//! The analysis of the recipes of one module that is checked, which goes by groups of rules, in this order: bodies,
//! dependencies, the recipes that stand, aliases and the default. A group is checked where the ones before it are kept.

ghost use Rattle.std.specs.Prelude.{◌≡◌, IfErr, IfOk, Some};
ghost use Rattle.std.specs.List.{All};
ghost use Rattle.just_compiler.specs.loops.Parts.{AreLinkedIn, BreaksChecked, BreaksOwn, IsCheckedCovered, TellsChecked, around_by};
ghost use Rattle.just_module_assembly.specs.Targets.{own_targets};
ghost use Rattle.just_errors.specs.Causes.{Keeps, Reports};
ghost use Rattle.just_graph.specs.Steps.{IsOnce};
ghost use Rattle.just_justfile.specs.Walks.{AreOrdered};
ghost use Rattle.just_module_contents.specs.Defaults.{IsDefaultAmong};
ghost use Rattle.just_module_contents.specs.Definitions.{contents_in, recipes_in};
ghost use Rattle.just_module_contents.specs.Kept.{kept_recipes};
ghost use Rattle.just_module_contents.specs.Named.{recipes_by};
ghost use Rattle.just_module_contents.specs.Resolved.{AreNew, HasPriors, unresolved_numbers};
ghost use Rattle.just_module_contents.specs.Rules.{BreaksBodies};
ghost use Rattle.just_compiled.specs.Analysis.{recipe_table};
ghost use Rattle.just_module_aliases.specs.Aliased.{aliases_of};
ghost use Rattle.just_module_recipes.specs.Linked.{AreSettled};
ghost use Rattle.just_module_recipes.specs.Links.{BreaksLinks};
ghost use Rattle.just_module_variables.specs.Variables.{AreVariablesOf, HasNumbers};
ghost use Rattle.just_parts.specs.Layers.{given_by, layers_at};

use just_module_aliases::{default_of, resolve_aliases};
use just_module_assembly::{OwnRecipes, Surroundings};
use just_module_bodies::check_bodies;
use just_module_checks::Checked;
use just_module_contents::precedence::keep_recipes;
use just_module_recipes::Linked;
use just_parts::layers::{Ast, ConstantEvaluation, Error, Given, Syntax};
use just_paths::Modulepath;
use just_recipe_names::Meanings;
use just_recipe_resolution::{Resolving, recipe_keys, resolve_kept};
use just_recipe_values::Among;
use just_recipes::Recipes;

// Links the recipes of a checked module at a path that are kept, under its settings, with what names mean in it and with what
// is evaluated of it, over what is around them. An error tells a rule that is broken in its bodies, or where these are kept
// of its dependencies or of one of its recipes that stands.
fn link_recipes<'src, 'a, S: Syntax, E: ConstantEvaluation>(
    given: &Given<S, E>,
    checked: &Checked<'src, 'a>,
    path: &Modulepath,
    around: &Surroundings<'src>,
    recipes: Recipes<'src>,
) -> Result<Linked<'src, 'a>, Error<'src>>
    requires once { IsOnce (unresolved_numbers (recipes_in checked.now.definitions)) }
    requires priors { All HasPriors (recipes_in checked.now.definitions) }
    requires apart { AreNew recipes (recipes_in checked.now.definitions) }
    requires ordered { AreOrdered around.now.modules }
    requires settled { AreSettled (around_by around.now recipes) }
    requires variables { AreVariablesOf (S.answers given.now.syntax.now) (contents_in checked.now.definitions) checked.now.variables }
    requires numbers { HasNumbers checked.now.variables }
    requires covered { IsCheckedCovered checked.now }
    ensures bodies { let it = checked.now in
        IfOk result (λ _. Keeps (BreaksBodies (S.answers given.now.syntax.now) it.constants.settings (contents_in it.definitions))) }
    ensures kept { let kept = kept_recipes (recipes_in checked.now.definitions) in
        IfOk result (λ _. Keeps (BreaksLinks checked.now.constants.settings.lists kept (around_by around.now recipes.entry))) }
    ensures own { let layers = layers_at (given_by S.answers E.answers given.now) path.now in
        IfOk result (λ _. Keeps (BreaksOwn layers checked.now (around_by around.now recipes.entry))) }
    ensures linked { let layers = layers_at (given_by S.answers E.answers given.now) path.now in
        let linked = AreLinkedIn layers checked.now (around_by around.now recipes.entry) path.now in
        IfOk result (λ made. linked (recipes_in made.standing) made.disabled made.all) }
    ensures named { let layers = layers_at (given_by S.answers E.answers given.now) path.now in
        IfErr result (Reports (TellsChecked layers checked.now (around_by around.now recipes.entry))) }
{
    let settings = &checked.constants.settings;
    check_bodies(given.alloc, given.syntax, &checked.definitions, settings)?;
    let kept = keep_recipes(given.alloc, &checked.definitions)?;
    let resolving = Resolving {
        meanings: Meanings {
            bindings: &checked.variables.numbers,
            settings,
            syntax: given.syntax,
        },
        among: Among {
            assignments: &checked.variables.assignments,
            constants: &checked.constants.scope,
            evaluation: given.evaluation,
            functions: &checked.variables.functions,
        },
        overrides: &checked.constants.overrides,
    };
    resolve_kept(
        given.alloc,
        &kept,
        resolving,
        path,
        &around.notes.absent_modules,
        around.modules.as_slice(),
        recipes,
    )
}

/// Checks the recipes of a module that is checked, of which `ast` says its own file, under its settings, and links those
/// that are kept over what is around them: those that stand are completed and put behind the recipes that are resolved so
/// far. It answers what its justfile has of them, with its aliases, and all recipes. An error names a rule that is broken, or
/// a pattern that is past the limits of regular expressions; the recipes are dropped then.
pub fn add_recipes<'src, 'a, S: Syntax, E: ConstantEvaluation>(
    given: &Given<S, E>,
    checked: &Checked<'src, 'a>,
    ast: &Ast<'src>,
    around: &Surroundings<'src>,
    recipes: Recipes<'src>,
) -> Result<(OwnRecipes<'src, 'a>, Recipes<'src>), Error<'src>>
    requires once { IsOnce (unresolved_numbers (recipes_in checked.now.definitions)) }
    requires priors { All HasPriors (recipes_in checked.now.definitions) }
    requires apart { AreNew recipes (recipes_in checked.now.definitions) }
    requires own { AreNew recipes (recipes_by (S.answers given.now.syntax.now).enabled (Some ast.now)) }
    requires ordered { AreOrdered around.now.modules }
    requires settled { AreSettled (around_by around.now recipes) }
    requires variables { AreVariablesOf (S.answers given.now.syntax.now) (contents_in checked.now.definitions) checked.now.variables }
    requires numbers { HasNumbers checked.now.variables }
    requires covered { IsCheckedCovered checked.now }
    ensures kept { let layers = layers_at (given_by S.answers E.answers given.now) ast.now.module_path in
        IfOk result (λ _. Keeps (BreaksChecked layers checked.now (around_by around.now recipes.entry))) }
    ensures linked { let layers = layers_at (given_by S.answers E.answers given.now) ast.now.module_path in
        let linked = AreLinkedIn layers checked.now (around_by around.now recipes.entry) ast.now.module_path in
        IfOk result (λ made. linked (recipes_in made.0.standing) made.0.disabled made.1) }
    ensures keys { IfOk result (λ made. made.0.keys ≡ recipe_table (recipes_in made.0.standing)) }
    ensures aliases { let aliases = (contents_in checked.now.definitions).aliases in
        IfOk result (λ made. made.0.aliases ≡ aliases_of (own_targets around.now made.0) aliases) }
    ensures default { let own = recipes_by (S.answers given.now.syntax.now).enabled (Some ast.now) in
        IfOk result (λ made. IsDefaultAmong (recipes_in made.0.standing) own made.0.default) }
    ensures named { let layers = layers_at (given_by S.answers E.answers given.now) ast.now.module_path in
        IfErr result (Reports (TellsChecked layers checked.now (around_by around.now recipes.entry))) }
{
    let linked = link_recipes(given, checked, &ast.module_path, around, recipes)?;
    let default = default_of(
        given.alloc,
        &linked.standing,
        ast,
        given.syntax,
        &linked.all,
    )?;
    let keys = recipe_keys(given.alloc, &linked.standing)?;
    let aliases = resolve_aliases(
        given.alloc,
        &checked.definitions,
        &around.notes.absent_modules,
        &linked.disabled,
        around.modules.as_slice(),
        &keys,
    )?;
    let Linked {
        all,
        disabled,
        standing,
    } = linked;
    let own = OwnRecipes {
        aliases,
        default,
        disabled,
        keys,
        standing,
    };
    Ok((own, all))
}
