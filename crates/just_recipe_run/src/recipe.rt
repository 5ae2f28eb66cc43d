//! The calls of one recipe that a run makes.
ghost use Rattle.std.specs.Prelude.{◌≡◌};
ghost use Rattle.std.specs.List.{list_any};
ghost use Rattle.just_recipe_run.specs.Calls.{says_parallel, says_private};
ghost use Rattle.just_recipe.specs.declared.dependency.Dependency.{Dependency};
ghost use Rattle.just_recipe.specs.declared.recipe.Recipe.{Recipe};

use crate::run::run_recipe;
use just_data::{Sequence, Text};
use just_parts::Recipe;
use just_parts::layers::{Attribute, Halt, NamedAttribute, Scope, Settings, Syntax};
use just_recipe_body::attributes::{changes_directory, takes_positional_arguments};
use just_recipe_body::body::Body;
use just_recipe_body::confirmation::confirm;
use just_run_layers::{Context, EnvironmentPair, Evaluation, Host};
use just_script_body::run_script;
use std::alloc::Global;

fn has_parallel(attributes: &[NamedAttribute]) -> bool
    ensures { result ≡ list_any says_parallel attributes.now }
{
    attributes
        .iter()
        .any(|named| matches!(named.attribute, Attribute::Parallel))
}

fn has_private(attributes: &[NamedAttribute]) -> bool
    ensures { result ≡ list_any says_private attributes.now }
{
    attributes
        .iter()
        .any(|named| matches!(named.attribute, Attribute::Private))
}

/// Recipes that can be run: `Recipe::run` and what it stands on.
pub trait RunRecipe<'src> {
    ghost use Rattle.std.specs.Prelude.{◌≡◌, [], IsSome};
    ghost use Rattle.std.specs.List.{All};
    ghost use Rattle.just_parts.specs.Scopes.{attribute_expressions, in_attributes};
    ghost use Rattle.just_run_layers.specs.Covering.{IsCovered, module_of};
    ghost use Rattle.just_run_layers.specs.Evaluation.{context_contents_of};
    ghost use Rattle.just_run_layers.specs.Host.{KeepsPromises};
    ghost use Rattle.just_run_layers.specs.LineTexts.{AgreesWith};
    ghost use Rattle.just_run_layers.specs.Interactions.{HasTrace, both, log_of};
    ghost use Rattle.just_recipe_body.specs.Attributes.{changes_directory, takes_positional_arguments};
    ghost use Rattle.just_recipe_body.specs.Confirmation.{confirm_steps};
    ghost use Rattle.just_recipe_body.specs.Covering.{IsBodyCovered, IsLineCovered};
    ghost use Rattle.just_script_body.specs.ScriptBody.{script_steps};
    ghost use Rattle.just_recipe_run.specs.Calls.{is_parallel, is_public};
    ghost use Rattle.just_recipe_run.specs.RecipeRun.{body_by, recipe_steps};

    /// The recipe that runs.
    ghost recipe_of: { Self → Recipe Dependency };

    /// Runs the recipe in a context, by the values of the names that it reads, and by what its parameters put into the
    /// environment of programs and hand to them. At loquacious it is shown that it runs, and where that is asked for what it
    /// is for; then its body runs, a script or lines for a shell, up to the first failure. That the recipe begins is told to
    /// the host before, by the run of its task.
    ///
    /// Its path is there, whatever its attributes and lines read is bound in the scope, and the evaluation takes lines as the
    /// grammar does.
    fn run<S: Syntax, E: Evaluation, H: Host>(
        &self,
        alloc: Global,
        context: &Context<'_, 'src>,
        syntax: &S,
        evaluation: &mut E,
        host: &mut H,
        environment: &[EnvironmentPair],
        is_dependency: bool,
        positional: &Sequence<Text>,
        scope: &Scope<'src>,
    ) -> Result<(), Halt<'src>>
        requires same { AgreesWith E.sigils E.continues (S.answers syntax.now) }
        requires path { IsSome (recipe_of self.now).recipe_path }
        requires covered { let covered = IsBodyCovered (S.answers syntax.now) context.now.settings.now in
            covered (module_of context.now) scope.now (recipe_of self.now) }
        ensures keeps { KeepsPromises (E.promised evaluation.old) (E.promised evaluation.new) }
        ensures keeps_host { KeepsPromises (H.promised host.old) (H.promised host.new) }
        ensures took { let first = log_of (H.entries host.old) (E.requests evaluation.old) in
            let last = log_of (H.entries host.new) (E.requests evaluation.new) in
            let by = body_by (S.answers syntax.now) (context_contents_of context.now) (recipe_of self.now) in
            let steps = recipe_steps (by environment.now is_dependency positional.now scope.now) in
            HasTrace (both (E.promised evaluation.old) (H.promised host.old)) steps first last result };

    /// Runs the recipe as a script, likewise, without what is shown before its body: its lines are evaluated one by one, and
    /// handed to what runs it, as its attribute, its first line or the settings name it. The error is that of the first step
    /// that fails, with no line.
    fn run_script<S: Syntax, E: Evaluation, H: Host>(
        &self,
        alloc: Global,
        context: &Context<'_, 'src>,
        syntax: &S,
        evaluation: &mut E,
        host: &mut H,
        environment: &[EnvironmentPair],
        is_dependency: bool,
        positional: &Sequence<Text>,
        scope: &Scope<'src>,
    ) -> Result<(), Halt<'src>>
        requires attributes { All (IsCovered (module_of context.now) scope.now) (in_attributes attribute_expressions (recipe_of self.now)) }
        requires lines { All (IsLineCovered (module_of context.now) scope.now) (recipe_of self.now).body }
        ensures keeps { KeepsPromises (E.promised evaluation.old) (E.promised evaluation.new) }
        ensures keeps_host { KeepsPromises (H.promised host.old) (H.promised host.new) }
        ensures took { let first = log_of (H.entries host.old) (E.requests evaluation.old) in
            let last = log_of (H.entries host.new) (E.requests evaluation.new) in
            let by = body_by (S.answers syntax.now) (context_contents_of context.now) (recipe_of self.now) in
            let steps = script_steps (by environment.now is_dependency positional.now scope.now) in
            HasTrace (both (E.promised evaluation.old) (H.promised host.old)) steps first last result };

    /// Whether the recipe may run: one that wants no confirmation may, and another one where the line that the host reads
    /// after its prompt is `y` or `yes`, whatever its case and the white space around it. The prompt is the text of its
    /// expression and a blank, or asks for the recipe by its name. Programs have no part in it, and nothing of what the
    /// parameters put into their environment.
    fn confirm<S: Syntax, E: Evaluation, H: Host>(
        &self,
        alloc: Global,
        context: &Context<'_, 'src>,
        syntax: &S,
        evaluation: &mut E,
        host: &mut H,
        is_dependency: bool,
        scope: &Scope<'src>,
    ) -> Result<bool, Halt<'src>>
        requires { All (IsCovered (module_of context.now) scope.now) (in_attributes attribute_expressions (recipe_of self.now)) }
        ensures keeps { KeepsPromises (E.promised evaluation.old) (E.promised evaluation.new) }
        ensures keeps_host { KeepsPromises (H.promised host.old) (H.promised host.new) }
        ensures took { let first = log_of (H.entries host.old) (E.requests evaluation.old) in
            let last = log_of (H.entries host.new) (E.requests evaluation.new) in
            let by = body_by (S.answers syntax.now) (context_contents_of context.now) (recipe_of self.now) in
            let steps = confirm_steps (by [] is_dependency [] scope.now) in
            HasTrace (both (E.promised evaluation.old) (H.promised host.old)) steps first last result };

    /// Whether the recipe runs in the folder of its module, or in one that it names.
    fn change_directory(&self, settings: &Settings) -> bool
        ensures { result ≡ changes_directory (recipe_of self.now) settings.now };

    /// Whether the recipe takes its arguments by place too.
    fn takes_positional_arguments(&self, settings: &Settings) -> bool
        ensures { result ≡ takes_positional_arguments (recipe_of self.now) settings.now };

    /// Whether its dependencies may run beside each other. They run in order.
    fn is_parallel(&self) -> bool
        ensures { result ≡ is_parallel (recipe_of self.now) };

    /// Whether the recipe is private neither by its name nor by an attribute.
    fn is_public(&self) -> bool
        ensures { result ≡ is_public (recipe_of self.now) };
}

impl<'src> RunRecipe<'src> for Recipe<'src> {
    ghost recipe_of = { λ r. r };

    fn run<S: Syntax, E: Evaluation, H: Host>(
        &self,
        alloc: Global,
        context: &Context<'_, 'src>,
        syntax: &S,
        evaluation: &mut E,
        host: &mut H,
        environment: &[EnvironmentPair],
        is_dependency: bool,
        positional: &Sequence<Text>,
        scope: &Scope<'src>,
    ) -> Result<(), Halt<'src>> {
        let body = Body {
            recipe: self,
            context,
            syntax,
            scope,
            is_dependency,
            environment,
            positional,
        };
        run_recipe(alloc, &body, evaluation, host)
    }

    fn run_script<S: Syntax, E: Evaluation, H: Host>(
        &self,
        alloc: Global,
        context: &Context<'_, 'src>,
        syntax: &S,
        evaluation: &mut E,
        host: &mut H,
        environment: &[EnvironmentPair],
        is_dependency: bool,
        positional: &Sequence<Text>,
        scope: &Scope<'src>,
    ) -> Result<(), Halt<'src>> {
        let body = Body {
            recipe: self,
            context,
            syntax,
            scope,
            is_dependency,
            environment,
            positional,
        };
        run_script(alloc, &body, evaluation, host)
    }

    fn confirm<S: Syntax, E: Evaluation, H: Host>(
        &self,
        alloc: Global,
        context: &Context<'_, 'src>,
        syntax: &S,
        evaluation: &mut E,
        host: &mut H,
        is_dependency: bool,
        scope: &Scope<'src>,
    ) -> Result<bool, Halt<'src>> {
        let body = Body {
            recipe: self,
            context,
            syntax,
            scope,
            is_dependency,
            environment: &[],
            positional: &Sequence::new(alloc),
        };
        confirm(alloc, &body, evaluation, host)
    }

    fn change_directory(&self, settings: &Settings) -> bool {
        changes_directory(self, settings)
    }

    fn takes_positional_arguments(&self, settings: &Settings) -> bool {
        takes_positional_arguments(self, settings)
    }

    fn is_parallel(&self) -> bool {
        has_parallel(self.attributes.as_slice())
    }

    fn is_public(&self) -> bool {
        !self.private && !has_private(self.attributes.as_slice())
    }
}
