//! The evaluation that goes with the small grammar.
ghost use Rattle.std.specs.Prelude.{◌≡◌, [], Some, map};
ghost use Rattle.just_run_layers.specs.Evaluation.{Inquiry};
ghost use Rattle.just_bench_evaluation.specs.Answered.{plain_answer, request_of};

use crate::environments::environment_changes;
use crate::expressions::{run_text, run_value};
use crate::lines::{displayed, fragments_text};
use crate::parameters::bind_all;
use crate::requests::Asked;
use crate::variables::{names_of, run_scope};
use just_ast_definitions::Line;
use just_bench_values::{constants_of, count_fault, settings_of, value_of};
use just_data::{Chain, Sequence, Shared, Text};
use just_errors::Refusal;
use just_parts::layers::{
    Assignment, ConstantEvaluation, Error, Expression, Fault, FunctionDefinition, Name, Number,
    Parameter, Scope, Set, Settings,
};
use just_run_layers::{Context, EnvironmentChange, EnvironmentPair, Evaluation, Groups, Held};
use just_table::Table;
use std::alloc::{AllocError, Global};
use std::collections::{HashMap, HashSet};

/// Evaluates expressions as `docs/plain.md` says: values are lists of texts, whether or not the settings say so. It keeps
/// for which variables it was asked, and promises an answer to each question of a run.
#[derive(Drop)]
pub struct PlainEvaluation {
    asked: Vec<Asked>,
}

impl PlainEvaluation {
    /// One that was asked nothing, which takes no memory.
    pub fn new(alloc: Global) -> PlainEvaluation
        ensures { ⟦<PlainEvaluation as Evaluation>⟧.requests result ≡ [] }
    {
        PlainEvaluation {
            asked: Vec::new(alloc),
        }
    }

    /// For which variables it was asked in runs, and which names it bound each time, in order. It promises each answer.
    pub fn asked(&self) -> &[Asked]
        ensures requests { map request_of result.now ≡ ⟦<PlainEvaluation as Evaluation>⟧.requests self.now }
        ensures promised { (inquiry : Inquiry) → ⟦<PlainEvaluation as Evaluation>⟧.promised self.now inquiry ≡ Some (plain_answer inquiry) }
    {
        self.asked.as_slice()
    }
}

impl Evaluation for PlainEvaluation {
    ghost use Rattle.std.specs.Prelude.{Some, map};
    ghost use Rattle.just_bench_evaluation.specs.Answered.{plain_answer, request_of};
    ghost use Rattle.just_bench_evaluation.specs.Lines.{displayed};
    ghost use Rattle.just_bench_syntax.specs.Sigils as grammar;

    ghost requests = { λ evaluation. map request_of evaluation.asked.items };

    ghost promised = { λ evaluation inquiry. Some (plain_answer inquiry) };

    ghost sigils = { λ line settings. grammar.sigils line };

    ghost continues = { grammar.is_continuation };

    ghost displayed = { displayed };

    fn assignments<'src>(
        &mut self,
        alloc: Global,
        context: &Context<'_, 'src>,
        _parent: &Scope<'src>,
        set: Option<&Shared<HashSet<Number>>>,
    ) -> Result<Scope<'src>, Refusal> {
        let path = context.module_path.clone()?;
        let kept = match set {
            Some(set) => Some(set.clone()?),
            None => None,
        };
        match run_scope(alloc, context, set) {
            Ok(scope) => {
                let names = names_of(alloc, &scope)?;
                let set = kept;
                self.asked.push(Asked { path, set, names })?;
                Ok(scope)
            }
            Err(Refusal::Memory) => Err(Refusal::Memory),
            Err(Refusal::Fault(fault)) => {
                let names = Sequence::new(alloc);
                self.asked.push(Asked {
                    path,
                    set: kept,
                    names,
                })?;
                Err(Refusal::Fault(fault))
            }
        }
    }

    fn parameters<'src>(
        &mut self,
        alloc: Global,
        context: &Context<'_, 'src>,
        scope: &Scope<'src>,
        groups: &Groups,
        is_dependency: bool,
        parameters: &[Parameter<'src>],
        _recipe: &str,
    ) -> Result<Held<'src>, Refusal> {
        bind_all(
            alloc,
            context,
            scope,
            is_dependency,
            parameters,
            groups.as_slice(),
        )
    }

    fn value<'src>(
        &mut self,
        alloc: Global,
        context: &Context<'_, 'src>,
        scope: &Scope<'src>,
        is_dependency: bool,
        _environment: &[EnvironmentPair],
        expression: &Expression<'src>,
    ) -> Result<Sequence<Text>, Refusal> {
        run_value(alloc, context, scope, is_dependency, expression)
    }

    fn string<'src>(
        &mut self,
        alloc: Global,
        context: &Context<'_, 'src>,
        scope: &Scope<'src>,
        is_dependency: bool,
        _environment: &[EnvironmentPair],
        expression: &Expression<'src>,
    ) -> Result<Text, Refusal> {
        run_text(alloc, context, scope, is_dependency, expression)
    }

    fn line<'src>(
        &mut self,
        alloc: Global,
        context: &Context<'_, 'src>,
        scope: &Scope<'src>,
        is_dependency: bool,
        _environment: &[EnvironmentPair],
        line: &Line<'src>,
        _continued: bool,
    ) -> Result<Text, Refusal> {
        fragments_text(
            alloc,
            context,
            scope,
            is_dependency,
            line.fragments.as_slice(),
        )
    }

    fn environment<'src>(
        &mut self,
        alloc: Global,
        dotenv: &Chain<EnvironmentPair>,
        scope: &Scope<'src>,
        settings: &Settings,
        unexports: &[Name<'src>],
    ) -> Result<Sequence<EnvironmentChange>, Refusal> {
        Ok(environment_changes(alloc, dotenv, scope, settings, unexports)?)
    }

    fn display(&self, alloc: Global, value: &[Text]) -> Result<Text, AllocError> {
        displayed(alloc, value)
    }
}

impl ConstantEvaluation for PlainEvaluation {
    ghost use Rattle.just_bench_values.specs.Constants.{evaluator};

    ghost answers = { λ evaluation. evaluator };

    fn assignments_const<'src>(
        &self,
        alloc: Global,
        assignments: &Table<'src, Assignment<'src>>,
        functions: &Table<'src, FunctionDefinition<'src>>,
        order: &[Name<'src>],
        overrides: &HashMap<Number, Text>,
        references: &HashSet<Number>,
        lists: bool,
    ) -> Result<Scope<'src>, Error<'src>> {
        constants_of(
            alloc,
            assignments,
            functions,
            order,
            overrides,
            Some(references),
        )
    }

    fn value_const<'src>(
        &self,
        alloc: Global,
        constants: &Scope<'src>,
        assignments: &Table<'src, Assignment<'src>>,
        functions: &Table<'src, FunctionDefinition<'src>>,
        expression: &Expression<'src>,
    ) -> Result<Sequence<Text>, Error<'src>> {
        value_of(alloc, functions, constants, expression)
    }

    fn sets<'src>(
        &self,
        alloc: Global,
        constants: &Scope<'src>,
        assignments: &Table<'src, Assignment<'src>>,
        functions: &Table<'src, FunctionDefinition<'src>>,
        sets: &[Set<'src>],
    ) -> Result<Settings, Error<'src>> {
        settings_of(alloc, functions, constants, sets)
    }

    fn check_value_count<'src>(
        &self,
        alloc: Global,
        recipe: &str,
        parameter: &Parameter<'src>,
        group: &[&str],
    ) -> Result<Option<Fault>, AllocError> {
        count_fault(alloc, parameter.kind, group)
    }
}
