ghost use Rattle.std.specs.Prelude.{◌≡◌};
ghost use Rattle.just_parts.specs.Bare.{bare_item};

use just_parts::layers::{Item, Syntax};

/// Whether an item counts under the configuration that the syntax layer was made for.
pub fn is_enabled<'src, S: Syntax>(item: &Item<'src>, syntax: &S) -> bool
    ensures { result ≡ (S.answers syntax.now).enabled (bare_item item.now) }
{
    syntax.is_enabled(item)
}
