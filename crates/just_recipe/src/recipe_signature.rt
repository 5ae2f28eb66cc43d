//! How recipes are called.
ghost use Rattle.std.specs.Prelude.{◌≡◌};
ghost use Rattle.std.specs.Fmt.{WritesOnOk};
ghost use Rattle.std.specs.List.{list_any};
ghost use Rattle.just_ast_definitions.specs.Parameter.{is_option};
ghost use Rattle.just_recipe.specs.RecipeTexts.{word_text, words_text};

use crate::recipe::Recipe;
use crate::texts::text_if;
use just_ast_definitions::Parameter;
use std::fmt;

/// How a recipe is called under a name: `NAME [OPTIONS] PARAMETER..`.
#[derive(Drop)]
pub struct RecipeSignature<'a, 'src> {
    /// The name.
    pub name: &'a str,
    /// The recipe.
    pub recipe: &'a Recipe<'src>,
}

impl<'a, 'src> fmt::Display for RecipeSignature<'a, 'src> {
    ghost use Rattle.std.specs.Prelude.{Some};
    ghost use Rattle.just_recipe.specs.RecipeTexts.{signature_text};

    ghost output = { λ signature. Some (signature_text signature.name.now signature.recipe.now.parameters) };

    fn fmt<W: fmt::Write>(&self, f: &mut fmt::Formatter<W>) -> fmt::Result {
        let parameters = self.recipe.parameters.as_slice();
        let options = text_if(any_option(parameters), " [OPTIONS]");
        write!(f, "{}{options}", self.name)?;
        write_words(f, parameters)
    }
}

// Whether a parameter is an option.
fn any_option(parameters: &[Parameter]) -> bool
    ensures { result ≡ list_any is_option parameters.now }
{
    parameters.iter().any(|parameter| parameter.is_option())
}

// Writes a parameter after a blank, if it is no option.
fn write_word<W: fmt::Write>(f: &mut fmt::Formatter<W>, parameter: &Parameter) -> fmt::Result
    ensures { WritesOnOk W.write_str_gives f.old result (word_text parameter.now) f.new }
{
    if parameter.is_option() {
        return Ok(());
    }
    write!(f, " {parameter}")
}

// Writes the parameters that are no options, each after a blank.
fn write_words<W: fmt::Write>(f: &mut fmt::Formatter<W>, parameters: &[Parameter]) -> fmt::Result
    ensures { WritesOnOk W.write_str_gives f.old result (words_text parameters.now) f.new }
{
    for parameter in parameters {
        write_word(f, parameter)?;
    }
    Ok(())
}
