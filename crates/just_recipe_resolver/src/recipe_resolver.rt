//! Resolves the recipes of a module all at once.

ghost use Rattle.std.specs.Prelude.{◌≡◌, IfErr, IfOk};
ghost use Rattle.std.specs.List.{All};
ghost use Rattle.std.specs.Map.{values_of};
ghost use Rattle.just_errors.specs.Causes.{Keeps, Reports};
ghost use Rattle.just_graph.specs.Steps.{IsOnce};
ghost use Rattle.just_justfile.specs.Walks.{AreOrdered};
ghost use Rattle.just_module_contents.specs.Definitions.{recipes_in};
ghost use Rattle.just_module_contents.specs.Resolved.{AreNew, HasPriors, unresolved_numbers};
ghost use Rattle.just_module_contents.specs.Standing.{InStanding};
ghost use Rattle.just_module_recipes.specs.Completed.{TellsLinks};
ghost use Rattle.just_module_recipes.specs.Linked.{AreSettled};
ghost use Rattle.just_module_recipes.specs.Links.{BreaksLinks, Stands, around_recipes};
ghost use Rattle.just_recipe_resolution.specs.Basis.{AreRecipesCovered, BreaksOn, TellsOn, basis_by, basis_of, completion_on};
ghost use Rattle.just_recipe_resolver.specs.Resolved.{AreResolved, kept_in_table};

use just_data::BorrowedText;
use just_justfile::{Disabled, Justfile, RecipeKey};
use just_module_contents::definitions::Definitions;
use just_module_contents::precedence::keep_recipes;
use just_module_recipes::Linked;
use just_module_variables::VariableResolver;
use just_parts::UnresolvedRecipe;
use just_parts::layers::{ConstantEvaluation, Error, Scope, Settings, Syntax};
use just_paths::Modulepath;
use just_recipe_names::Meanings;
use just_recipe_resolution::{Resolving, recipe_keys, resolve_kept};
use just_recipe_values::Among;
use just_recipes::Recipes;
use just_table::Table;
use std::alloc::{AllocError, Global};

// What resolving reads, as a resolver of names and the constants of a module have it.
pub(crate) fn resolving_by<'m, 'v, 'src, S: Syntax, E: ConstantEvaluation>(
    syntax: &'m S,
    evaluation: &'m E,
    constants: &'m Scope<'src>,
    settings: &'m Settings,
    variable_resolver: &'m VariableResolver<'v, 'src, S>,
) -> Resolving<'m, 'src, S, E>
    ensures basis { basis_of result ≡ basis_by variable_resolver.now constants.now settings.now }
    ensures syntax { result.meanings.syntax.now ≡ syntax.now }
    ensures evaluation { result.among.evaluation.now ≡ evaluation.now }
{
    let known = variable_resolver.known();
    Resolving {
        meanings: Meanings {
            bindings: variable_resolver.bindings(),
            settings,
            syntax,
        },
        among: Among {
            assignments: known.assignments,
            constants,
            evaluation,
            functions: known.functions,
        },
        overrides: variable_resolver.overrides(),
    }
}

// The recipes of a table.
fn recipes_of<'a, 'src>(
    alloc: Global,
    table: &'a Table<'src, UnresolvedRecipe<'src>>,
) -> Result<Definitions<'src, 'a>, AllocError>
    ensures { IfOk result (λ definitions. recipes_in definitions ≡ values_of table.now) }
{
    let mut definitions = Definitions::new(alloc);
    for recipe in table.values() {
        definitions.recipes.push(recipe)?;
    }
    Ok(definitions)
}

/// Resolves the recipes of a module.
pub struct RecipeResolver;

impl RecipeResolver {
    /// Resolves the recipes of the module at `module_path`, whose paths lead through these absent modules and these modules in
    /// it, under its settings. What names mean in it `variable_resolver` says, and `constants` what docs, helps and patterns
    /// read. It answers the keys of those that stand, those that something disables, each with the paths of the modules that
    /// do, and all recipes: those that stand are put behind the ones that are resolved so far, each after those that it depends
    /// on. An error names a rule that is broken, of what they depend on or of one of those that stand, or a pattern of such a
    /// one that is past the limits of regular expressions; the recipes are dropped then.
    ///
    /// Conditions: the numbers of the recipes are different, and no recipe that is resolved so far has one of them; of none
    /// more dependencies run before it than it has; the names of the modules rise in byte order, in each module; each recipe to
    /// which a path leads through them is among those that are resolved so far, under its number, or is disabled by a module;
    /// whatever docs, helps and patterns read has a value among the constants. Those of a compiled module keep all of that.
    pub fn resolve_recipes<'v, 'src, S: Syntax, E: ConstantEvaluation>(
        alloc: Global,
        absent_modules: &Table<'src, BorrowedText<'src>>,
        syntax: &S,
        evaluation: &E,
        constants: &Scope<'src>,
        module_path: &Modulepath,
        modules: &[Justfile<'src>],
        recipes: Recipes<'src>,
        settings: &Settings,
        unresolved: Table<'src, UnresolvedRecipe<'src>>,
        variable_resolver: &VariableResolver<'v, 'src, S>,
    ) -> Result<
        (
            Table<'src, RecipeKey<'src>>,
            Table<'src, Disabled<'src>>,
            Recipes<'src>,
        ),
        Error<'src>,
    >
        requires once { IsOnce (unresolved_numbers (values_of unresolved)) }
        requires priors { All HasPriors (values_of unresolved) }
        requires apart { AreNew recipes (values_of unresolved) }
        requires ordered { AreOrdered modules.now }
        requires settled { AreSettled (around_recipes absent_modules.now modules.now recipes) }
        requires covered { AreRecipesCovered (basis_by variable_resolver.now constants.now settings.now) (values_of unresolved) }
        ensures kept { let it = around_recipes absent_modules.now modules.now recipes.entry in
            IfOk result (λ _. Keeps (BreaksLinks settings.now.lists (kept_in_table unresolved.entry) it)) }
        ensures own { let basis = basis_by variable_resolver.now constants.now settings.now in
            let rule = BreaksOn (S.answers syntax.now) (E.answers evaluation.now) basis in
            let stands = Stands (kept_in_table unresolved.entry) (around_recipes absent_modules.now modules.now recipes.entry) in
            IfOk result (λ _. Keeps (InStanding stands rule (kept_in_table unresolved.entry))) }
        ensures resolved { let basis = basis_by variable_resolver.now constants.now settings.now in
            let completed = completion_on (S.answers syntax.now) (E.answers evaluation.now) basis in
            let it = around_recipes absent_modules.now modules.now recipes.entry in
            let are = AreResolved completed settings.now.lists (kept_in_table unresolved.entry) it module_path.now in
            IfOk result (λ made. are made.0 made.1 made.2) }
        ensures named { let basis = basis_by variable_resolver.now constants.now settings.now in
            let tells = TellsOn (S.answers syntax.now) (E.answers evaluation.now) basis in
            let it = around_recipes absent_modules.now modules.now recipes.entry in
            IfErr result (Reports (TellsLinks settings.now.lists tells (kept_in_table unresolved.entry) it)) }
    {
        let definitions = recipes_of(alloc, &unresolved)?;
        let kept = keep_recipes(alloc, &definitions)?;
        let resolving = resolving_by(syntax, evaluation, constants, settings, variable_resolver);
        let linked = resolve_kept(
            alloc,
            &kept,
            resolving,
            module_path,
            absent_modules,
            modules,
            recipes,
        )?;
        let keys = recipe_keys(alloc, &linked.standing)?;
        let Linked { all, disabled, .. } = linked;
        Ok((keys, disabled, all))
    }
}
