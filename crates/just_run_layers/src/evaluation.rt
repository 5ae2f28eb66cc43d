//! The layer that evaluates expressions in a run.
ghost use Rattle.std.specs.Prelude.{◌≡◌, ◌++◌, true, false, Bool, List, Option, IfOk, length};
ghost use Rattle.std.specs.List.{All};
ghost use Rattle.just_names.specs.Texts.{Text};
ghost use Rattle.just_ast_definitions.specs.declared.line.Line.{Line};
ghost use Rattle.just_ast_expressions.specs.declared.settings.Settings.{Settings};
ghost use Rattle.just_ast_expressions.specs.declared.sigil.Sigil.{Sigil};
ghost use Rattle.just_parts.specs.Evaluator.{Binds};
ghost use Rattle.just_parts.specs.Known.{none_hidden};
ghost use Rattle.just_run_layers.specs.Covering.{AreParametersCovered, BindsParameters, HasEvaluationOrder, IsClosedIn, IsCovered, module_of, wanted_in};
ghost use Rattle.just_parts.specs.Scopes.{line_expressions};
ghost use Rattle.just_run_layers.specs.Evaluation.{Inquiry, ScopeRequest, context_contents_of, requested, set_of, surroundings};
ghost use Rattle.just_run_layers.specs.Host.{Answer, Answers, KeepsPromises, answered, bound_to, changed, given, answer_of_scope, valued};
ghost use Rattle.just_run_layers.specs.LineTexts.{BeginsPlain, EndsWithBackslash};

use crate::context::Context;
use crate::environment::{EnvironmentChange, EnvironmentPair};
use crate::held::Held;
use crate::host::Groups;
use just_ast_definitions::{Line, Parameter};
use just_ast_expressions::{Expression, Scope, Settings};
use just_data::{Chain, Sequence, Shared, Text};
use just_errors::Refusal;
use just_names::{Name, Number};
use just_parts::layers::ConstantEvaluation;
use std::alloc::{AllocError, Global};
use std::collections::HashSet;

/// What evaluates expressions, while compiling and in runs. Each question of a run asks that what is read is bound; it is
/// answered as it was promised, or refused: by a fault of the evaluator, or for want of memory.
pub trait Evaluation: ConstantEvaluation {
    /// For which variables it was asked in runs, in order.
    ghost requests: { Self → List ScopeRequest };

    /// The answer to a question of a run, where that is fixed for good.
    ghost promised: { Self → Inquiry → Option Answer };

    /// The sigils of a line under settings, in order, and whether the line after it goes on with it.
    ghost sigils: { Line → Settings → List Sigil };

    ghost continues: { Line → Bool };

    /// A value as it is shown.
    ghost displayed: { List Text → Text };

    /// The values of the variables of a module: of those whose numbers are in `set`, or of all. `parent` has the values of the
    /// module around it. An overridden variable has the text that overrides it.
    fn assignments<'src>(
        &mut self,
        alloc: Global,
        context: &Context<'_, 'src>,
        parent: &Scope<'src>,
        set: Option<&Shared<HashSet<Number>>>,
    ) -> Result<Scope<'src>, Refusal>
        requires order { HasEvaluationOrder context.now }
        requires closed { IsClosedIn context.now (set_of set) }
        ensures binds { IfOk result (Binds context.now.assignments.now (wanted_in context.now (set_of set.entry))) }
        ensures answers { let question = Inquiry.Assignments (context_contents_of context.now) parent.now (set_of set.entry) in
            Answers (promised self.old question) (answered answer_of_scope result) }
        ensures requested { let question = Inquiry.Assignments (context_contents_of context.now) parent.now (set_of set.entry) in
            requests self.new ≡ requests self.old ++ requested question (answered answer_of_scope result) }
        ensures keeps { KeepsPromises (promised self.old) (promised self.new) };

    /// What the parameters of a recipe come to, each by the texts of its group.
    fn parameters<'src>(
        &mut self,
        alloc: Global,
        context: &Context<'_, 'src>,
        scope: &Scope<'src>,
        groups: &Groups,
        is_dependency: bool,
        parameters: &[Parameter<'src>],
        recipe: &str,
    ) -> Result<Held<'src>, Refusal>
        requires covered { AreParametersCovered (module_of context.now) scope.now none_hidden parameters.now }
        ensures binds { IfOk result (λ bound. BindsParameters parameters.now scope.now bound.scope) }
        ensures answers { let question = Inquiry.Parameters (context_contents_of context.now) scope.now groups.now is_dependency parameters.now recipe.now in
            Answers (promised self.old question) (answered bound_to result) }
        ensures unrequested { requests self.new ≡ requests self.old }
        ensures keeps { KeepsPromises (promised self.old) (promised self.new) };

    /// The value of an expression.
    fn value<'src>(
        &mut self,
        alloc: Global,
        context: &Context<'_, 'src>,
        scope: &Scope<'src>,
        is_dependency: bool,
        environment: &[EnvironmentPair],
        expression: &Expression<'src>,
    ) -> Result<Sequence<Text>, Refusal>
        requires covered { IsCovered (module_of context.now) scope.now expression.now }
        ensures answers { let question = Inquiry.Value (surroundings context.now scope.now is_dependency environment.now) expression.now in
            Answers (promised self.old question) (answered valued result) }
        ensures unrequested { requests self.new ≡ requests self.old }
        ensures keeps { KeepsPromises (promised self.old) (promised self.new) };

    /// The value of an expression as one text.
    fn string<'src>(
        &mut self,
        alloc: Global,
        context: &Context<'_, 'src>,
        scope: &Scope<'src>,
        is_dependency: bool,
        environment: &[EnvironmentPair],
        expression: &Expression<'src>,
    ) -> Result<Text, Refusal>
        requires covered { IsCovered (module_of context.now) scope.now expression.now }
        ensures answers { let question = Inquiry.StringOf (surroundings context.now scope.now is_dependency environment.now) expression.now in
            Answers (promised self.old question) (answered given result) }
        ensures unrequested { requests self.new ≡ requests self.old }
        ensures keeps { KeepsPromises (promised self.old) (promised self.new) };

    /// The text of a line, which goes on with the one before it or not. One that does not begins with its sigils, and one
    /// that is gone on with ends with a backslash.
    fn line<'src>(
        &mut self,
        alloc: Global,
        context: &Context<'_, 'src>,
        scope: &Scope<'src>,
        is_dependency: bool,
        environment: &[EnvironmentPair],
        line: &Line<'src>,
        continued: bool,
    ) -> Result<Text, Refusal>
        requires covered { All (IsCovered (module_of context.now) scope.now) (line_expressions line.now) }
        ensures begins { IfOk result (λ text. continued ≡ false → BeginsPlain (length (sigils line.now context.now.settings.now)) text) }
        ensures ends { IfOk result (λ text. continues line.now ≡ true → EndsWithBackslash text) }
        ensures answers { let question = Inquiry.LineOf (surroundings context.now scope.now is_dependency environment.now) line.now continued in
            Answers (promised self.old question) (answered given result) }
        ensures unrequested { requests self.new ≡ requests self.old }
        ensures keeps { KeepsPromises (promised self.old) (promised self.new) };

    /// What programs have in their environment beside the pairs of parameters: names with their texts, or without one
    /// where they are removed.
    fn environment<'src>(
        &mut self,
        alloc: Global,
        dotenv: &Chain<EnvironmentPair>,
        scope: &Scope<'src>,
        settings: &Settings,
        unexports: &[Name<'src>],
    ) -> Result<Sequence<EnvironmentChange>, Refusal>
        ensures answers { let question = Inquiry.Environment dotenv.now scope.now settings.now unexports.now in
            Answers (promised self.old question) (answered changed result) }
        ensures unrequested { requests self.new ≡ requests self.old }
        ensures keeps { KeepsPromises (promised self.old) (promised self.new) };

    /// A value as it is shown. The error is want of memory.
    fn display(&self, alloc: Global, value: &[Text]) -> Result<Text, AllocError>
        ensures { IfOk result (λ text. text ≡ displayed value.now) };
}
