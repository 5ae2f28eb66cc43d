//! Where components lead.
ghost use Rattle.std.specs.Prelude.{◌≡◌, ◌≤◌, [], ◌∷◌, IfErr, IfOk, drop, length};
ghost use Rattle.std.specs.Option.{option_copied};
ghost use Rattle.just_justfile.specs.Walks.{AreModulesOrdered};
ghost use Rattle.just_evaluate.specs.Destination as spec;
ghost use Rattle.just_evaluate.specs.loops.Steps.{IsStepOrdered, destination_by};

use crate::evaluation_target::EvaluationTarget;
use just_data::Text;
use just_justfile::{Justfile, find_module};
use just_parts::layers::{Assignment, Error, InvocationError, RunError};
use std::alloc::{AllocError, Global};

/// The module for which an alias of a module stands: that to which the alias's path leads from the root; none where it has no
/// alias of the name.
pub fn submodule_aliased<'run, 'src>(
    root: &'run Justfile<'src>,
    here: &Justfile<'src>,
    name: &str,
) -> Option<&'run Justfile<'src>>
    requires { AreModulesOrdered root.now }
    ensures { option_copied result ≡ spec.submodule_aliased root.now here.now name.now }
{
    match here.aliases.modules.get(name) {
        Some(alias) => root.submodule(&alias.target),
        None => None,
    }
}

// The module to which a component leads from a module.
fn submodule_named<'run, 'src>(
    root: &'run Justfile<'src>,
    here: &'run Justfile<'src>,
    name: &str,
) -> Option<&'run Justfile<'src>>
    requires root { AreModulesOrdered root.now }
    requires here { AreModulesOrdered here.now }
    ensures { option_copied result ≡ spec.submodule_named root.now here.now name.now }
{
    if let Some(module) = find_module(here.modules.as_slice(), name) {
        return Some(module);
    }
    submodule_aliased(root, here, name)
}

// The variable of a module that a component means which these follow.
fn last_variable<'run, 'src>(
    here: &'run Justfile<'src>,
    name: &str,
    names: &[Text],
) -> Option<&'run Assignment<'src>>
    ensures { option_copied result ≡ spec.last_variable here.now name.now names.now }
{
    match names {
        [] => here.assignments.get(name),
        _ => None,
    }
}

// The path from the root of a name in a module.
fn path_below<'src>(alloc: Global, here: &Justfile<'src>, name: &str) -> Result<Text, AllocError>
    ensures { IfOk result (λ text. text ≡ spec.path_below here.now name.now) }
{
    let path = here.module_path.join(name)?;
    Text::from_string(format!(in alloc; "{path}")?)
}

// Why a component that these follow leads nowhere from a module.
fn lack<'src>(
    alloc: Global,
    here: &Justfile<'src>,
    name: &str,
    names: &[Text],
) -> Result<Error<'src>, AllocError>
    ensures { IfOk result (spec.TellsLack (spec.lacks_in here.now name.now names.now)) }
{
    if here.absent_modules.contains_key(name) {
        return Ok(Error::Invocation(InvocationError::ModuleAbsent {
            module: path_below(alloc, here, name)?,
        }));
    }
    let component = Text::from_str(alloc, name)?;
    match names {
        [] => Ok(Error::Run(RunError::EvalUnknownSubmoduleOrVariable { component })),
        _ => Ok(Error::Run(RunError::EvalUnknownSubmodule { component })),
    }
}

// Where a component leads.
enum Step<'run, 'src> {
    // To a module.
    Module(&'run Justfile<'src>),
    // To a variable of a module, where a path ends.
    Variable(&'run Justfile<'src>, &'run Assignment<'src>),
}

// Where a component leads from a module that these follow.
fn next_step<'run, 'src>(
    alloc: Global,
    root: &'run Justfile<'src>,
    here: &'run Justfile<'src>,
    name: &str,
    names: &[Text],
) -> Result<Step<'run, 'src>, Error<'src>>
    requires root { AreModulesOrdered root.now }
    requires here { AreModulesOrdered here.now }
    ensures led { let found = spec.destination_from root.now here.now (name.now ∷ names.now) in
        IfOk result (λ step. found ≡ destination_by root.now names.now step) }
    ensures ordered { IfOk result IsStepOrdered }
    ensures refused { IfErr result (spec.TellsLack (spec.destination_from root.now here.now (name.now ∷ names.now))) }
{
    if let Some(variable) = last_variable(here, name, names) {
        return Ok(Step::Variable(here, variable));
    }
    match submodule_named(root, here, name) {
        Some(inner) => Ok(Step::Module(inner)),
        None => Err(lack(alloc, here, name, names)?),
    }
}

// The components after so many.
fn after(components: &[Text], count: usize) -> &[Text]
    requires { count ≤ length components.now }
    ensures { result.now ≡ drop count components.now }
{
    &components[count..]
}

// What is evaluated where a step ends a path.
fn target_of<'run, 'src>(step: Step<'run, 'src>) -> EvaluationTarget<'run, 'src>
    ensures { (root : _) → destination_by root [] step.entry ≡ spec.leads_to result.justfile.now (option_copied result.assignment) }
{
    match step {
        Step::Module(module) => EvaluationTarget {
            justfile: module,
            assignment: None,
        },
        Step::Variable(module, variable) => EvaluationTarget {
            justfile: module,
            assignment: Some(variable),
        },
    }
}

/// What is evaluated, by the components of a path from the root.
pub(crate) fn walk<'run, 'src>(
    alloc: Global,
    root: &'run Justfile<'src>,
    components: &[Text],
) -> Result<EvaluationTarget<'run, 'src>, Error<'src>>
    requires { AreModulesOrdered root.now }
    ensures led { let found = spec.destination_from root.now root.now components.now in
        IfOk result (λ target. found ≡ spec.leads_to target.justfile.now (option_copied target.assignment)) }
    ensures refused { IfErr result (spec.TellsLack (spec.destination_from root.now root.now components.now)) }
{
    let mut place = Step::Module(root);
    for at in 0..components.len() {
        match place {
            Step::Module(here) => {
                let names = after(components, at + 1);
                match next_step(alloc, root, here, components[at].as_str(), names) {
                    Ok(step) => place = step,
                    Err(error) => return Err(error),
                }
            }
            Step::Variable(..) => return Ok(target_of(place)),
        }
    }
    Ok(target_of(place))
}
