//! Values are put in by their numbers.
ghost use Rattle.std.specs.Prelude.{◌≤◌, length};
ghost use Rattle.std.specs.HashMap.{spare};
ghost use Rattle.just_overrides.specs.Inserted.{AreInserted};

use just_data::Text;
use just_parts::layers::Number;
use std::collections::HashMap;

/// Puts values in, each under its number, for which there is room; of several with one number the last.
pub fn insert_all(pairs: Vec<(Number, Text)>, overrides: &mut HashMap<Number, Text>)
    requires { length pairs.items ≤ spare overrides.old }
    ensures { AreInserted pairs.items overrides.old overrides.new }
{
    for (number, value) in pairs {
        let Ok(_) = overrides.insert(number, value) else {
            unreachable!()
        };
    }
}
