//! The layer that evaluates expressions while compiling.
ghost use Rattle.std.specs.Prelude.{◌≡◌, List, Option, Some, IfOk, IfErr, flat_map, map};
ghost use Rattle.std.specs.HashMap.{get};
ghost use Rattle.std.specs.HashSet.{contains};
ghost use Rattle.std.specs.List.{All};
ghost use Rattle.just_names.specs.Index.{texts_of_names};
ghost use Rattle.just_names.specs.Texts.{texts};
ghost use Rattle.just_parts.specs.Evaluator.{Binds, Covers, Evaluator, FaultsAt, bare_set, count_fault_of, functions_by_name, set_expressions, scope_values, wanted_by};
ghost use Rattle.just_parts.specs.Known.{sources};
ghost use Rattle.just_parts.specs.Needs.{IsClosed, has_number, same_number};
ghost use Rattle.just_parts.specs.Reading.{IsEvaluationOrder};
ghost use Rattle.just_parts.specs.Told.{IsPlaceIn, IsPlaceInOne, IsToldIn, assigned_values};
ghost use Rattle.just_ast_references.specs.Numbers.{bare};

use just_ast_definitions::{Assignment, FunctionDefinition, Parameter, Set};
use just_ast_expressions::{Expression, Scope, Settings};
use just_data::{Sequence, Text};
use just_errors::{Error, Fault};
use just_names::{Name, Number};
use just_table::Table;
use std::alloc::{AllocError, Global};
use std::collections::{HashMap, HashSet};

/// What evaluates constants, and counts texts. What it answers is a function of what it is asked in names: numbers, and the
/// order in which variables are evaluated, make no difference. Each question asks that what is read is bound.
pub trait ConstantEvaluation {
    /// The answers to all questions.
    ghost answers: { Self → Evaluator };

    /// The constants of a module: those of its variables whose numbers are in `references`, an overridden one as it is
    /// overridden, each other one evaluated after all that it reads, as the names in `order` stand. `lists` tells whether
    /// values are lists. Where one has no value a fault is told.
    fn assignments_const<'src>(
        &self,
        alloc: Global,
        assignments: &Table<'src, Assignment<'src>>,
        functions: &Table<'src, FunctionDefinition<'src>>,
        order: &[Name<'src>],
        overrides: &HashMap<Number, Text>,
        references: &HashSet<Number>,
        lists: bool,
    ) -> Result<Scope<'src>, Error<'src>>
        requires order { IsEvaluationOrder (sources assignments.now functions.now) (texts_of_names order.now) }
        requires closed { IsClosed (sources assignments.now functions.now) (has_number overrides.now) (contains same_number references.now) }
        ensures constants { let wanted = wanted_by assignments.now functions.now (get same_number overrides.now) (contains same_number references.now) lists in
            IfOk result (λ scope. (answers self.now).constants wanted ≡ Some (scope_values scope)) }
        ensures binds { let wanted = wanted_by assignments.now functions.now (get same_number overrides.now) (contains same_number references.now) lists in
            IfOk result (Binds assignments.now wanted) }
        ensures refused { let wanted = wanted_by assignments.now functions.now (get same_number overrides.now) (contains same_number references.now) lists in
            IfErr result (FaultsAt ((answers self.now).constants wanted)) }
        ensures told { IfErr result (IsToldIn (IsPlaceInOne functions.now (assigned_values assignments.now))) };

    /// The value of an expression among constants. Where it has none a fault is told.
    fn value_const<'src>(
        &self,
        alloc: Global,
        constants: &Scope<'src>,
        assignments: &Table<'src, Assignment<'src>>,
        functions: &Table<'src, FunctionDefinition<'src>>,
        expression: &Expression<'src>,
    ) -> Result<Sequence<Text>, Error<'src>>
        requires covered { Covers (sources assignments.now functions.now) (scope_values constants.now) expression.now }
        ensures value { let among = (answers self.now).value (functions_by_name functions.now) (scope_values constants.now) in
            IfOk result (λ value. among (bare expression.now) ≡ Some value) }
        ensures refused { let among = (answers self.now).value (functions_by_name functions.now) (scope_values constants.now) in
            IfErr result (FaultsAt (among (bare expression.now))) }
        ensures told { IfErr result (IsToldIn (IsPlaceIn functions.now expression.now)) };

    /// The settings of a module that sets these, and has the others by default. Where one has no value a fault is told.
    fn sets<'src>(
        &self,
        alloc: Global,
        constants: &Scope<'src>,
        assignments: &Table<'src, Assignment<'src>>,
        functions: &Table<'src, FunctionDefinition<'src>>,
        sets: &[Set<'src>],
    ) -> Result<Settings, Error<'src>>
        requires covered { All (Covers (sources assignments.now functions.now) (scope_values constants.now)) (flat_map set_expressions sets.now) }
        ensures settings { let among = (answers self.now).settings (functions_by_name functions.now) (scope_values constants.now) in
            IfOk result (λ made. among (map bare_set sets.now) ≡ Some made) }
        ensures refused { let among = (answers self.now).settings (functions_by_name functions.now) (scope_values constants.now) in
            IfErr result (FaultsAt (among (map bare_set sets.now))) }
        ensures told { IfErr result (IsToldIn (IsPlaceInOne functions.now (flat_map set_expressions sets.now))) };

    /// Why a parameter of a recipe, which is told by its name, may not have these texts, by their count. None where it may.
    /// The error is want of memory.
    fn check_value_count<'src>(
        &self,
        alloc: Global,
        recipe: &str,
        parameter: &Parameter<'src>,
        group: &[&str],
    ) -> Result<Option<Fault>, AllocError>
        ensures { IfOk result (λ found. found ≡ count_fault_of (answers self.now) recipe.now parameter.now (texts group.now)) };
}
