//! The docs of the modules that a module declares.

ghost use Rattle.std.specs.Prelude.{◌≡◌, IfOk, IfErr};
ghost use Rattle.just_module_variables.specs.Constants.{CoversAll};
ghost use Rattle.just_module_variables.specs.Documented.{AreDocumentedIn, IsDocumented, doc_expressions};
ghost use Rattle.just_module_variables.specs.loops.Documented.{CoversDoc, DocFault, KeepsDoc, known_by, value_by_tables};
ghost use Rattle.just_module_variables.specs.Variables.{AreVariablesOf};
ghost use Rattle.just_errors.specs.Causes.{Keeps, Reports};
ghost use Rattle.just_module_contents.specs.Constants.{BreaksDocs};
ghost use Rattle.just_module_contents.specs.Definitions.{contents_in, docs_in};
ghost use Rattle.just_parts.specs.Evaluator.{scope_values};

use crate::variables::Variables;
use just_data::copied;
use just_module_contents::definitions::Definitions;
use just_module_contents::{Label, text_of_value};
use just_name_resolution::{Known, check_expression};
use just_parts::layers::{ConstantEvaluation, Error, Expression, Given, Scope, Syntax};
use std::collections::HashSet;

// A label with the doc evaluated.
fn documented<'k, 'src, S: Syntax, E: ConstantEvaluation>(
    given: &Given<'k, S, E>,
    label: &Label<'src>,
    variables: &'k Variables<'src>,
    constants: &Scope<'src>,
) -> Result<Label<'src>, Error<'src>>
    requires { CoversDoc variables.now (scope_values constants.now) label.now }
    ensures kept { IfOk result (λ _. KeepsDoc (S.answers given.now.syntax.now) variables.now label.now) }
    ensures label { IfOk result (IsDocumented (value_by_tables (E.answers given.now.evaluation.now) variables.now (scope_values constants.now)) label.now) }
    ensures named { let value = value_by_tables (E.answers given.now.evaluation.now) variables.now (scope_values constants.now) in
        IfErr result (Reports (DocFault (known_by (S.answers given.now.syntax.now) variables.now) value label.now.doc_expression)) }
{
    let mut made = copied(label)?;
    let Some(expression) = &label.doc_expression else {
        return Ok(made);
    };
    let known = Known {
        assignments: &variables.assignments,
        functions: &variables.functions,
        syntax: given.syntax,
    };
    let hidden = HashSet::new(given.alloc);
    check_expression(given.alloc, &known, &hidden, expression)?;
    let value = given.evaluation.value_const(
        given.alloc,
        constants,
        &variables.assignments,
        &variables.functions,
        expression,
    )?;
    made.doc = text_of_value(given.alloc, value.as_slice())?;
    Ok(made)
}

/// The labels of the modules that a module declares, with their docs evaluated among its constants. An error names a fault
/// of the evaluation, or what is at fault with a name in a doc.
pub fn document<'k, 'a, 'src, S: Syntax, E: ConstantEvaluation>(
    given: &Given<'k, S, E>,
    definitions: &Definitions<'src, 'a>,
    labels: &[Label<'src>],
    variables: &'k Variables<'src>,
    constants: &Scope<'src>,
) -> Result<Vec<Label<'src>>, Error<'src>>
    requires docs { docs_in definitions.now ≡ doc_expressions labels.now }
    requires variables { AreVariablesOf (S.answers given.now.syntax.now) (contents_in definitions.now) variables.now }
    requires covered { CoversAll variables.now (scope_values constants.now) (docs_in definitions.now) }
    ensures kept { let docs = BreaksDocs (S.answers given.now.syntax.now) (E.answers given.now.evaluation.now) in
        IfOk result (λ _. Keeps (docs (contents_in definitions.now) (scope_values constants.now))) }
    ensures labels { let m = contents_in definitions.now in
        IfOk result (λ made. AreDocumentedIn (E.answers given.now.evaluation.now) m (scope_values constants.now) labels.now made.items) }
    ensures named { let docs = BreaksDocs (S.answers given.now.syntax.now) (E.answers given.now.evaluation.now) in
        IfErr result (Reports (docs (contents_in definitions.now) (scope_values constants.now))) }
{
    let mut made = Vec::with_capacity(given.alloc, labels.len())?;
    for label in labels {
        made.push(documented(given, label, variables, constants)?)?;
    }
    Ok(made)
}
