//! The evaluation.
ghost use Rattle.std.specs.Prelude.{◌≡◌, None, IfOk};
ghost use Rattle.just_bench_failing.specs.Failing.{FailsAt};

use crate::failure::Failure;
use just_ast_definitions::Line;
use just_data::{Chain, Sequence, Shared, Text};
use just_errors::Refusal;
use just_parts::layers::{
    Assignment, ConstantEvaluation, Error, Expression, Fault, FunctionDefinition, Name, Number,
    Parameter, Scope, Set, Settings,
};
use just_run_layers::{Context, EnvironmentChange, EnvironmentPair, Evaluation, Groups, Held};
use just_table::Table;
use std::alloc::{AllocError, Global};
use std::collections::{HashMap, HashSet};

/// An evaluation that answers as another one does, but for one question of a run, which it answers by a fault. It promises
/// nothing until then, and afterwards what the other one does. Compiling it never fails.
#[derive(Drop)]
pub struct FailingEvaluation<E> {
    evaluation: E,
    failure: Failure,
}

impl<E: Evaluation + Drop> FailingEvaluation<E> {
    /// One that answers as this one, but for one question of a run: that of this number, which counts from 1. At 0 none
    /// fails. The error is want of memory.
    pub fn failing_at(
        alloc: Global,
        evaluation: E,
        question: usize,
    ) -> Result<FailingEvaluation<E>, AllocError>
        ensures requests { IfOk result (λ made. ⟦<FailingEvaluation<E> as Evaluation>⟧.requests made ≡ E.requests evaluation) }
        ensures fails { IfOk result (λ made. FailsAt question made.failure) }
    {
        let failure = Failure::at(alloc, question)?;
        Ok(FailingEvaluation {
            evaluation,
            failure,
        })
    }

    /// The evaluation as which it answers.
    pub fn evaluation(&self) -> &E
        ensures requests { ⟦<FailingEvaluation<E> as Evaluation>⟧.requests self.now ≡ E.requests result.now }
        ensures promised { self.now.failure.fault ≡ None → ⟦<FailingEvaluation<E> as Evaluation>⟧.promised self.now ≡ E.promised result.now }
    {
        &self.evaluation
    }
}

impl<E: Evaluation> Evaluation for FailingEvaluation<E> {
    ghost use Rattle.just_bench_failing.specs.Failing.{promised_until};

    ghost requests = { λ it. E.requests it.evaluation };

    ghost promised = { λ it. promised_until it.failure.fault (E.promised it.evaluation) };

    ghost sigils = { E.sigils };

    ghost continues = { E.continues };

    ghost displayed = { E.displayed };

    fn assignments<'src>(
        &mut self,
        alloc: Global,
        context: &Context<'_, 'src>,
        parent: &Scope<'src>,
        set: Option<&Shared<HashSet<Number>>>,
    ) -> Result<Scope<'src>, Refusal> {
        let answer = self.evaluation.assignments(alloc, context, parent, set);
        self.failure.instead(answer)
    }

    fn parameters<'src>(
        &mut self,
        alloc: Global,
        context: &Context<'_, 'src>,
        scope: &Scope<'src>,
        groups: &Groups,
        is_dependency: bool,
        parameters: &[Parameter<'src>],
        recipe: &str,
    ) -> Result<Held<'src>, Refusal> {
        let answer = self.evaluation.parameters(
            alloc,
            context,
            scope,
            groups,
            is_dependency,
            parameters,
            recipe,
        );
        self.failure.instead(answer)
    }

    fn value<'src>(
        &mut self,
        alloc: Global,
        context: &Context<'_, 'src>,
        scope: &Scope<'src>,
        is_dependency: bool,
        environment: &[EnvironmentPair],
        expression: &Expression<'src>,
    ) -> Result<Sequence<Text>, Refusal> {
        let answer = self.evaluation.value(
            alloc,
            context,
            scope,
            is_dependency,
            environment,
            expression,
        );
        self.failure.instead(answer)
    }

    fn string<'src>(
        &mut self,
        alloc: Global,
        context: &Context<'_, 'src>,
        scope: &Scope<'src>,
        is_dependency: bool,
        environment: &[EnvironmentPair],
        expression: &Expression<'src>,
    ) -> Result<Text, Refusal> {
        let answer = self.evaluation.string(
            alloc,
            context,
            scope,
            is_dependency,
            environment,
            expression,
        );
        self.failure.instead(answer)
    }

    fn line<'src>(
        &mut self,
        alloc: Global,
        context: &Context<'_, 'src>,
        scope: &Scope<'src>,
        is_dependency: bool,
        environment: &[EnvironmentPair],
        line: &Line<'src>,
        continued: bool,
    ) -> Result<Text, Refusal> {
        let answer = self.evaluation.line(
            alloc,
            context,
            scope,
            is_dependency,
            environment,
            line,
            continued,
        );
        self.failure.instead(answer)
    }

    fn environment<'src>(
        &mut self,
        alloc: Global,
        dotenv: &Chain<EnvironmentPair>,
        scope: &Scope<'src>,
        settings: &Settings,
        unexports: &[Name<'src>],
    ) -> Result<Sequence<EnvironmentChange>, Refusal> {
        let answer = self
            .evaluation
            .environment(alloc, dotenv, scope, settings, unexports);
        self.failure.instead(answer)
    }

    fn display(&self, alloc: Global, value: &[Text]) -> Result<Text, AllocError> {
        self.evaluation.display(alloc, value)
    }
}

impl<E: Evaluation> ConstantEvaluation for FailingEvaluation<E> {
    ghost answers = { λ it. E.ConstantEvaluation.answers it.evaluation };

    fn assignments_const<'src>(
        &self,
        alloc: Global,
        assignments: &Table<'src, Assignment<'src>>,
        functions: &Table<'src, FunctionDefinition<'src>>,
        order: &[Name<'src>],
        overrides: &HashMap<Number, Text>,
        references: &HashSet<Number>,
        lists: bool,
    ) -> Result<Scope<'src>, Error<'src>> {
        self.evaluation.assignments_const(
            alloc,
            assignments,
            functions,
            order,
            overrides,
            references,
            lists,
        )
    }

    fn value_const<'src>(
        &self,
        alloc: Global,
        constants: &Scope<'src>,
        assignments: &Table<'src, Assignment<'src>>,
        functions: &Table<'src, FunctionDefinition<'src>>,
        expression: &Expression<'src>,
    ) -> Result<Sequence<Text>, Error<'src>> {
        self.evaluation
            .value_const(alloc, constants, assignments, functions, expression)
    }

    fn sets<'src>(
        &self,
        alloc: Global,
        constants: &Scope<'src>,
        assignments: &Table<'src, Assignment<'src>>,
        functions: &Table<'src, FunctionDefinition<'src>>,
        sets: &[Set<'src>],
    ) -> Result<Settings, Error<'src>> {
        self.evaluation
            .sets(alloc, constants, assignments, functions, sets)
    }

    fn check_value_count<'src>(
        &self,
        alloc: Global,
        recipe: &str,
        parameter: &Parameter<'src>,
        group: &[&str],
    ) -> Result<Option<Fault>, AllocError> {
        self.evaluation
            .check_value_count(alloc, recipe, parameter, group)
    }
}
