//! Where the names of a path lead among compiled modules, through their aliases too.
ghost use Rattle.std.specs.Prelude.{◌≡◌};
ghost use Rattle.std.specs.Option.{option_copied};
ghost use Rattle.just_justfile.specs.Walks.{AreModulesOrdered};
ghost use Rattle.just_overrides.specs.Reached.{aliased, reached, module_step, variable_of};

use just_data::Text;
use just_justfile::{Justfile, find_module};
use just_parts::layers::Number;
use just_paths::Modulepath;

// The module that an alias of a name in a module stands for.
fn aliased<'run, 'src>(
    root: &'run Justfile<'src>,
    module: &'run Justfile<'src>,
    name: &str,
) -> Option<&'run Justfile<'src>>
    requires { AreModulesOrdered root.now }
    ensures { option_copied result ≡ aliased root.now «module».now name.now }
{
    match module.aliases.modules.get(name) {
        Some(alias) => root.submodule(&alias.target),
        None => None,
    }
}

// The module that a name leads to from a module: the one of the name in it, or else that of an alias.
fn step<'run, 'src>(
    root: &'run Justfile<'src>,
    module: &'run Justfile<'src>,
    name: &str,
) -> Option<&'run Justfile<'src>>
    requires root { AreModulesOrdered root.now }
    requires inner { AreModulesOrdered «module».now }
    ensures { option_copied result ≡ module_step root.now «module».now name.now }
{
    match find_module(module.modules.as_slice(), name) {
        Some(inner) => Some(inner),
        None => aliased(root, module, name),
    }
}

// The module that names lead to from the root's.
fn reached<'run, 'src>(root: &'run Justfile<'src>, names: &[Text]) -> Option<&'run Justfile<'src>>
    requires { AreModulesOrdered root.now }
    ensures { option_copied result ≡ reached root.now names.now }
{
    let mut found = Some(root);
    for name in names {
        let Some(module) = found else {
            return None;
        };
        found = step(root, module, name.as_str());
    }
    found
}

/// The number of the variable that a key means: the one of its name in the module that the names of its path lead to.
pub(crate) fn variable_of<'src>(root: &Justfile<'src>, key: &(Modulepath, Text)) -> Option<Number>
    requires { AreModulesOrdered root.now }
    ensures { result ≡ variable_of root.now key.now }
{
    let (path, name) = key;
    let Some(module) = reached(root, path.components.as_slice()) else {
        return None;
    };
    match module.assignments.get(name.as_str()) {
        Some(assignment) => Some(assignment.number),
        None => None,
    }
}
