//! Texts that values are.

ghost use Rattle.std.specs.Prelude.{◌≡◌, IfOk};
ghost use Rattle.just_module_contents.specs.Constants.{text_of_value};

use just_data::Text;
use just_parts::layers::joined;
use std::alloc::{AllocError, Global};

/// The text that a value is: its texts with a blank between them, and none where it has none.
pub fn text_of_value(alloc: Global, value: &[Text]) -> Result<Option<Text>, AllocError>
    ensures { IfOk result (λ text. text ≡ text_of_value value.now) }
{
    if value.is_empty() {
        return Ok(None);
    }
    Ok(Some(joined(alloc, value)?))
}
