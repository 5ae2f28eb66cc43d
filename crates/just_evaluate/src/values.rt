//! The text of what is evaluated.
ghost use Rattle.std.specs.Prelude.{◌≡◌, IfOk};
ghost use Rattle.std.specs.Option.{option_copied};
ghost use Rattle.just_evaluate.specs.Lines as spec;

use crate::bindings::{bound_among, value_of};
use crate::evaluation_target::EvaluationTarget;
use crate::lines::lines_in;
use crate::variables::public_variables;
use just_data::Text;
use just_parts::layers::{EvaluateFormat, Scope, joined};
use just_run_layers::Evaluation;
use std::alloc::{AllocError, Global};

/// What is written of a target in a scope. Of one variable it is its value, the texts of which have a blank between them, with
/// no line end, and nothing where the scope does not bind it. Of a module it is a line for each variable that is not private and
/// that the scope binds, in byte order of their names: as an assignment of a justfile, where names are filled up with blanks to
/// the longest, or as one of a shell, with `-` in a name as `_`. The error is want of memory.
pub fn evaluated_text<'run, 'src, E: Evaluation>(
    alloc: Global,
    evaluation: &E,
    format: EvaluateFormat,
    target: &EvaluationTarget<'run, 'src>,
    scope: &Scope<'src>,
) -> Result<Text, AllocError>
    ensures { let written = spec.evaluated_text E.displayed format target.now.justfile.now (option_copied target.now.assignment) scope.now in
        IfOk result (λ text. text ≡ written) }
{
    match target.assignment {
        Some(assignment) => match value_of(scope, assignment.name.lexeme()) {
            Some(value) => joined(alloc, value.as_slice()),
            None => Text::from_str(alloc, ""),
        },
        None => {
            let all = target.justfile.settings.export;
            let variables = public_variables(alloc, target.justfile)?;
            let bound = bound_among(alloc, &variables, scope)?;
            Text::from_string(lines_in(alloc, evaluation, format, all, bound.as_slice())?)
        }
    }
}
