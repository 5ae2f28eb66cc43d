//! The names that parameters of recipes hide.

ghost use Rattle.std.specs.Prelude.{◌≡◌, ◌||◌, List, ℕ, OnOk};
ghost use Rattle.std.specs.HashSet.{contains};
ghost use Rattle.std.specs.Str.{bytes_eq};
ghost use Rattle.just_names.specs.Name.{text_of_name};

use just_data::BorrowedText;
use just_parts::layers::Parameter;
use std::alloc::AllocError;
use std::collections::HashSet;

/// Hides the name of a parameter too.
pub fn hide<'src>(
    parameter: &Parameter<'src>,
    hidden: &mut HashSet<BorrowedText<'src>>,
) -> Result<(), AllocError>
    ensures { let is_name = bytes_eq (text_of_name parameter.now.name) in
        OnOk result ((name : List ℕ) → contains bytes_eq hidden.new name ≡ (is_name name || contains bytes_eq hidden.old name)) }
{
    hidden.insert(BorrowedText::new(parameter.name.lexeme()))?;
    Ok(())
}
