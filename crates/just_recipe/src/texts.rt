//! How texts are written one after another.
ghost use Rattle.std.specs.Prelude.{◌≡◌, map};
ghost use Rattle.std.specs.Fmt.{DisplaysOnOk};
ghost use Rattle.std.specs.Option.{option_map};
ghost use Rattle.just_ast_definitions.specs.DefinitionTexts as spec;
ghost use Rattle.just_recipe.specs.RecipeTexts.{all_texts, each_after};

use std::fmt;

/// The text where it holds, and else none.
pub(crate) fn text_if(holds: bool, text: &'static str) -> &'static str
    ensures { result.now ≡ spec.text_if holds text.now }
{
    if holds { text } else { "" }
}

/// Writes each item behind a text.
pub(crate) fn write_each<W: fmt::Write, T: fmt::Display>(
    f: &mut fmt::Formatter<W>,
    before: &str,
    items: &[T],
) -> fmt::Result
    ensures { DisplaysOnOk W.write_str_gives f.old result (option_map (each_after before.now) (all_texts (map T.output items.now))) f.new }
{
    for item in items {
        write!(f, "{before}{item}")?;
    }
    Ok(())
}
