//! The places of a module's recipes, by their names.

ghost use Rattle.std.specs.Prelude.{◌≡◌, IfOk};
ghost use Rattle.std.specs.Str.{bytes_eq};
ghost use Rattle.std.specs.HashMap.{get};
ghost use Rattle.just_module_contents.specs.Definitions.{recipes_in};
ghost use Rattle.just_module_contents.specs.Recipes.{names_of};
ghost use Rattle.just_names.specs.Index.{IsIndex};

use just_data::BorrowedText;
use just_module_contents::definitions::Definitions;
use just_names::index_last;
use std::alloc::{AllocError, Global};
use std::collections::HashMap;

// Their names, as texts.
fn recipe_names<'a, 'src>(
    alloc: Global,
    definitions: &Definitions<'src, 'a>,
) -> Result<Vec<BorrowedText<'src>>, AllocError>
    ensures { IfOk result (λ names. names.items ≡ names_of (recipes_in definitions.now)) }
{
    let mut names = Vec::new(alloc);
    for place in 0..definitions.recipes.len() {
        names.push(BorrowedText::new(definitions.recipe_at(place).name.lexeme()))?;
    }
    Ok(names)
}

/// The last place of each recipe's name.
pub fn index_recipes<'a, 'src>(
    alloc: Global,
    definitions: &Definitions<'src, 'a>,
) -> Result<HashMap<BorrowedText<'src>, usize>, AllocError>
    ensures { IfOk result (λ index. IsIndex (names_of (recipes_in definitions.now)) (get bytes_eq index)) }
{
    let names = recipe_names(alloc, definitions)?;
    index_last(alloc, names.as_slice())
}
