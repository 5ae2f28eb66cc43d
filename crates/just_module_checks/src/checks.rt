//! What is checked of one module before its recipes, which goes by groups of rules, in this order: headers, names, variables,
//! constants, docs. A group is checked where the ones before it are kept.

ghost use Rattle.std.specs.Prelude.{◌≡◌, ◌<◌, IfErr, IfOk, length};
ghost use Rattle.std.specs.List.{All};
ghost use Rattle.just_module_checks.specs.Checked.{HasConstants, IsChecked, no_links};
ghost use Rattle.just_errors.specs.Causes.{Keeps, Reports};
ghost use Rattle.just_graph.specs.Steps.{IsOnce};
ghost use Rattle.just_module_contents.specs.Constants.{BreaksDocs, constant_expressions};
ghost use Rattle.just_module_contents.specs.Contents.{texts_of_named};
ghost use Rattle.just_module_contents.specs.Definitions.{contents_in, variables_in};
ghost use Rattle.just_module_contents.specs.Groups.{BreaksContents, KeepsBefore, OfBodies};
ghost use Rattle.just_module_contents.specs.Labels.{label_by};
ghost use Rattle.just_module_contents.specs.Named.{contents_from, naming_by, said_from, variable_by};
ghost use Rattle.just_module_headers.specs.Analyzable.{assignment_numbers};
ghost use Rattle.just_module_headers.specs.Files.{asts_in};
ghost use Rattle.just_module_variables.specs.Constants.{CoversAll};
ghost use Rattle.just_module_variables.specs.Documented.{AreDocumentedIn};
ghost use Rattle.just_module_variables.specs.Variables.{AreVariablesOf};
ghost use Rattle.just_names.specs.Index.{AreDifferent};
ghost use Rattle.just_parts.specs.Evaluator.{scope_values};
ghost use Rattle.just_parts.specs.Layers.{given_by, layers_at};

use just_module_assembly::labels_at;
use just_module_contents::Label;
use just_module_contents::definitions::Definitions;
use just_module_headers::files::Files;
use just_module_headers::headers::check_headers;
use just_module_headers::variables::check_names;
use just_module_variables::{
    Constants, Variables, document, evaluate_constants, resolve_variables,
};
use just_parts::layers::{ConstantEvaluation, Error, Given, Syntax};
use just_paths::Modulepath;
use std::alloc::{AllocError, Global};

/// What is found of a module before its recipes are resolved.
#[derive(Drop)]
pub struct Checked<'src, 'a> {
    /// What its files say.
    pub definitions: Definitions<'src, 'a>,
    /// Its variables and functions.
    pub variables: Variables<'src>,
    /// What is evaluated of it.
    pub constants: Constants<'src>,
    /// The labels of the modules that it declares, with their docs evaluated.
    pub labels: Vec<Label<'src>>,
}

// What the files at places say of a module, file after file.
fn definitions_at<'b, 'a, 'src, S: Syntax>(
    alloc: Global,
    files: &'b Files<'src, 'a>,
    syntax: &S,
    places: &[usize],
) -> Result<Definitions<'src, 'b>, AllocError>
    requires { All (λ p. p < length files.now.asts.items) places.now }
    ensures { IfOk result (λ definitions. contents_in definitions ≡ contents_from (S.answers syntax.now).enabled (asts_in files.now) places.now) }
{
    let mut definitions = Definitions::new(alloc);
    for place in places {
        let ast = files.ast_at(*place);
        definitions.add(ast.items.as_slice(), syntax)?;
        definitions.add_lists(ast.list_features.as_slice())?;
    }
    Ok(definitions)
}

// The variables and the functions, and the constants and the settings, of the module at a path. An error names a rule
// that is broken in its headers, its names, its expressions or its constants.
fn check_module<'src, 'a, S: Syntax, E: ConstantEvaluation>(
    given: &Given<S, E>,
    definitions: &Definitions<'src, 'a>,
    path: &Modulepath,
) -> Result<(Variables<'src>, Constants<'src>), Error<'src>>
    requires named { AreDifferent (texts_of_named definitions.now.named.items) }
    requires numbers { IsOnce (assignment_numbers (variables_in definitions.now)) }
    ensures kept { let given = given_by S.answers E.answers given.now in
        IfOk result (λ _. KeepsBefore (layers_at given path.now) no_links OfBodies (contents_in definitions.now)) }
    ensures constants { let given = given_by S.answers E.answers given.now in
        IfOk result (λ it. HasConstants (layers_at given path.now) (contents_in definitions.now) it.0 it.1) }
    ensures named { let given = given_by S.answers E.answers given.now in
        IfErr result (Reports (BreaksContents (layers_at given path.now) no_links no_links (contents_in definitions.now))) }
{
    check_headers(given.alloc, definitions, given.syntax)?;
    check_names(given.alloc, definitions)?;
    let variables = resolve_variables(given.alloc, definitions, given.syntax)?;
    // The same, for as long as the variables are lent.
    let near = Given {
        alloc: given.alloc,
        syntax: given.syntax,
        evaluation: given.evaluation,
        config: given.config,
    };
    let constants = evaluate_constants(&near, definitions, &variables, path)?;
    Ok((variables, constants))
}

// The labels of the modules that the files at places declare, with their docs evaluated.
fn documented_at<'a, 'b, 'src, S: Syntax, E: ConstantEvaluation>(
    given: &Given<S, E>,
    files: &Files<'src, 'a>,
    places: &[usize],
    definitions: &Definitions<'src, 'b>,
    variables: &Variables<'src>,
    constants: &Constants<'src>,
) -> Result<Vec<Label<'src>>, Error<'src>>
    requires places { All (λ p. p < length files.now.asts.items) places.now }
    requires said { contents_in definitions.now ≡ contents_from (S.answers given.now.syntax.now).enabled (asts_in files.now) places.now }
    requires variables { AreVariablesOf (S.answers given.now.syntax.now) (contents_in definitions.now) variables.now }
    requires covered { CoversAll variables.now (scope_values constants.now.scope) (constant_expressions (contents_in definitions.now)) }
    ensures kept { let m = contents_in definitions.now in
        IfOk result (λ _. Keeps (BreaksDocs (S.answers given.now.syntax.now) (E.answers given.now.evaluation.now) m (scope_values constants.now.scope))) }
    ensures labels { let said = said_from label_by (S.answers given.now.syntax.now).enabled (asts_in files.now) places.now in
        let m = contents_in definitions.now in
        IfOk result (λ made. AreDocumentedIn (E.answers given.now.evaluation.now) m (scope_values constants.now.scope) said made.items) }
    ensures named { let m = contents_in definitions.now in
        IfErr result (Reports (BreaksDocs (S.answers given.now.syntax.now) (E.answers given.now.evaluation.now) m (scope_values constants.now.scope))) }
{
    let labels = labels_at(given.alloc, files, given.syntax, places)?;
    document(
        given,
        definitions,
        labels.as_slice(),
        variables,
        &constants.scope,
    )
}

/// Checks the module of these files at a path, up to the docs of the modules that it declares, and evaluates its
/// constants and its settings, as the configuration overrides its variables. An error names a rule that is broken.
pub fn check_files<'b, 'a, 'src, S: Syntax, E: ConstantEvaluation>(
    given: &Given<S, E>,
    files: &'b Files<'src, 'a>,
    path: &Modulepath,
    places: &[usize],
) -> Result<Checked<'src, 'b>, Error<'src>>
    requires places { All (λ p. p < length files.now.asts.items) places.now }
    requires names { AreDifferent (texts_of_named (said_from naming_by (S.answers given.now.syntax.now).enabled (asts_in files.now) places.now)) }
    requires numbers { IsOnce (assignment_numbers (said_from variable_by (S.answers given.now.syntax.now).enabled (asts_in files.now) places.now)) }
    ensures kept { let given = given_by S.answers E.answers given.now in
        let m = contents_from given.syntax.enabled (asts_in files.now) places.now in
        IfOk result (λ _. KeepsBefore (layers_at given path.now) no_links OfBodies m) }
    ensures checked { let given = given_by S.answers E.answers given.now in
        let m = contents_from given.syntax.enabled (asts_in files.now) places.now in
        let said = said_from label_by given.syntax.enabled (asts_in files.now) places.now in
        IfOk result (IsChecked (layers_at given path.now) m said) }
    ensures named { let given = given_by S.answers E.answers given.now in
        let m = contents_from given.syntax.enabled (asts_in files.now) places.now in
        IfErr result (Reports (BreaksContents (layers_at given path.now) no_links no_links m)) }
{
    let definitions = definitions_at(given.alloc, files, given.syntax, places)?;
    let checked = check_module(given, &definitions, path)?;
    let (variables, constants) = checked;
    let labels = documented_at(given, files, places, &definitions, &variables, &constants)?;
    Ok(Checked {
        definitions,
        variables,
        constants,
        labels,
    })
}
