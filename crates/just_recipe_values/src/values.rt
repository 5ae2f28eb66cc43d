//! A recipe with what its doc, helps and patterns come to.

ghost use Rattle.std.specs.Prelude.{◌≡◌, IfOk, IfErr};
ghost use Rattle.just_errors.specs.Causes.{Keeps, Reports};
ghost use Rattle.just_module_contents.specs.RecipeValues.{Unvalued};
ghost use Rattle.just_recipe_values.specs.Among.{CoversRecipe, TellsOf, value_in_module};
ghost use Rattle.just_recipe_values.specs.Valued.{with_values};

use crate::among::Among;
use crate::attributes::valued_attributes;
use crate::parameters::informed_parameters;
use just_parts::layers::{ConstantEvaluation, Error};
use just_parts::{Recipe, UnresolvedRecipe};
use std::alloc::Global;

/// The recipe with the values of its docs, helps and patterns among constants: each argument attribute has its help and its
/// pattern, each parameter what the attributes say of it last, and the doc is trimmed. An empty list sets no help and no
/// pattern, and an empty text is no doc. An error tells what has no value, or a pattern that is refused, at its key; want of
/// memory is the only other.
pub fn valued_recipe<'a, 'src, E: ConstantEvaluation>(
    alloc: Global,
    among: &Among<'a, 'src, E>,
    recipe: UnresolvedRecipe<'src>,
) -> Result<UnresolvedRecipe<'src>, Error<'src>>
    requires { CoversRecipe among.now recipe }
    ensures kept { let value = value_in_module (E.answers among.now.evaluation.now) among.now in
        IfOk result (λ _. Keeps (Unvalued value recipe.entry)) }
    ensures made { let value = value_in_module (E.answers among.now.evaluation.now) among.now in
        IfOk result (λ made. made ≡ with_values value recipe.entry) }
    ensures named { let value = value_in_module (E.answers among.now.evaluation.now) among.now in
        IfErr result (Reports (TellsOf value recipe.entry)) }
{
    let (attributes, doc) = valued_attributes(alloc, among, recipe.attributes, recipe.doc)?;
    let parameters = informed_parameters(alloc, attributes.as_slice(), recipe.parameters)?;
    Ok(Recipe {
        attributes,
        body: recipe.body,
        dependencies: recipe.dependencies,
        doc,
        file_depth: recipe.file_depth,
        import_offsets: recipe.import_offsets,
        name: recipe.name,
        number: recipe.number,
        parameters,
        priors: recipe.priors,
        private: recipe.private,
        quiet: recipe.quiet,
        shebang: recipe.shebang,
        module_path: recipe.module_path,
        recipe_path: recipe.recipe_path,
        variable_references: recipe.variable_references,
    })
}
