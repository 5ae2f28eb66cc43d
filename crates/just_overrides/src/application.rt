//! The values that the caller gives, by the numbers of their variables.
ghost use Rattle.std.specs.Prelude.{◌≡◌, IfErr, IfOk, OnErr, OnOk};
ghost use Rattle.just_errors.specs.Causes.{Reports};
ghost use Rattle.just_justfile.specs.Walks.{AreModulesOrdered};
ghost use Rattle.just_overrides.specs.Applied.{AreApplied, TellsUnknown};
ghost use Rattle.just_overrides.specs.Inserted.{AreAsBefore};
ghost use Rattle.just_module_tree.specs.Overrides.{shown_key};
ghost use Rattle.just_overrides.specs.Reached.{overrides_meant, unknown};

use crate::insertion::insert_all;
use crate::walk::variable_of;
use just_data::{Sequence, Text};
use just_errors::{Error, LoadError};
use just_justfile::Justfile;
use just_parts::layers::Number;
use just_paths::Modulepath;
use std::alloc::{AllocError, Global};
use std::collections::{BTreeMap, HashMap};

// A key as it is shown: as the path that leads from the module's one name on, to the variable.
fn shown(alloc: Global, key: &(Modulepath, Text)) -> Result<Text, AllocError>
    ensures { IfOk result (λ text. text ≡ shown_key key.now) }
{
    let (path, name) = key;
    let path = path.join(name.as_str())?;
    Text::from_string(format!(in alloc; "{path}")?)
}

// What keys mean: the numbers of their variables, with the values that are given, and the keys that mean none, as they are shown.
struct Judged {
    meant: Vec<(Number, Text)>,
    unknown: Vec<Text>,
}

fn judge<'src>(
    alloc: Global,
    root: &Justfile<'src>,
    given: &BTreeMap<(Modulepath, Text), Text>,
) -> Result<Judged, AllocError>
    requires { AreModulesOrdered root.now }
    ensures overrides_meant { IfOk result (λ it. it.meant.items ≡ overrides_meant root.now given.now.entries) }
    ensures unknown { IfOk result (λ it. it.unknown.items ≡ unknown root.now given.now.entries) }
{
    let mut meant = Vec::new(alloc);
    let mut unknown = Vec::new(alloc);
    for (key, value) in given {
        match variable_of(root, key) {
            Some(number) => meant.push((number, value.clone()?))?,
            None => unknown.push(shown(alloc, key)?)?,
        }
    }
    Ok(Judged { meant, unknown })
}

/// Puts the values in that are given for variables of a root's module and of the modules in it, each under the number of the
/// variable that its key means; of several for one variable the last. The names of a key's path lead through modules, and
/// where a module has none of a name through the module that its alias of the name stands for; the last of these has the
/// variable.
///
/// Where keys mean no variable all of them are told, in their order, and nothing is put in.
///
/// The names of the modules rise in byte order, in each module (those of a compiled module do).
pub fn apply_overrides<'src>(
    alloc: Global,
    root: &Justfile<'src>,
    given: &BTreeMap<(Modulepath, Text), Text>,
    overrides: &mut HashMap<Number, Text>,
) -> Result<(), Error<'src>>
    requires { AreModulesOrdered root.now }
    ensures applied { OnOk result (AreApplied root.now given.now overrides.old overrides.new) }
    ensures named { IfErr result (Reports (TellsUnknown (unknown root.now given.now.entries))) }
    ensures refused { OnErr result (AreAsBefore overrides.old overrides.new) }
{
    let Judged { meant, unknown } = judge(alloc, root, given)?;
    if !unknown.is_empty() {
        return Err(Error::Load(LoadError::UnknownOverrides {
            overrides: Sequence::from_vec(unknown),
        }));
    }
    overrides.reserve(meant.len())?;
    insert_all(meant, overrides);
    Ok(())
}
