//! What the caller overrides.

ghost use Rattle.std.specs.Prelude.{◌≡◌, IfOk};
ghost use Rattle.std.specs.HashMap.{get};
ghost use Rattle.just_module_variables.specs.Overrides.{last_of, overrides_found};
ghost use Rattle.just_parts.specs.Layers.{override_at};
ghost use Rattle.just_parts.specs.Needs.{same_number};

use just_data::Text;
use just_parts::layers::{Assignment, Config, Number};
use just_paths::Modulepath;
use just_table::Table;
use std::alloc::{AllocError, Global};
use std::collections::HashMap;

/// The values that override variables of the module at a path, each with the number of its variable, in byte order of the
/// names.
pub fn overrides_of<'src>(
    alloc: Global,
    assignments: &Table<'src, Assignment<'src>>,
    config: &Config,
    path: &Modulepath,
) -> Result<Vec<(Number, Text)>, AllocError>
    ensures { IfOk result (λ found. found.items ≡ overrides_found (override_at config.now.overrides path.now) assignments.now) }
{
    let mut found = Vec::new(alloc);
    if config.overrides.is_empty() {
        return Ok(found);
    }
    for (name, assignment) in assignments {
        if let Some(value) = config.override_of(alloc, path, *name)? {
            found.push((assignment.number, value.clone()?))?;
        }
    }
    Ok(found)
}

/// The same by their numbers; of several with one number the last.
pub fn by_number(
    alloc: Global,
    overrides: &[(Number, Text)],
) -> Result<HashMap<Number, Text>, AllocError>
    ensures { IfOk result (λ found. (n : Number) → get same_number found n ≡ last_of overrides.now n) }
{
    let mut found = HashMap::new(alloc);
    for (number, value) in overrides {
        found.insert(*number, value.clone()?)?;
    }
    Ok(found)
}
