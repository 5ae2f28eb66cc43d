//! A recipe with the numbers of what the names in its expressions mean.

ghost use Rattle.std.specs.Prelude.{◌≡◌, ℕ, [], List, IfOk, OnOk, Some, if◌then◌else◌, map};
ghost use Rattle.std.specs.HashMap.{get};
ghost use Rattle.std.specs.Str.{bytes_eq};
ghost use Rattle.just_names.specs.Name.{text_of_name};
ghost use Rattle.just_recipe_names.specs.Numbered.{dependency_by, argument_given_by, number_under, numbered_by, numbered_parameters, numbered_recipe, parameter_by, parameter_number};
ghost use Rattle.just_recipe_names.specs.loops.Numbered.{looked_up};

use crate::attributes::{numbered_attributes, numbered_optional};
use crate::body::numbered_body;
use just_data::{BorrowedText, Sequence};
use just_name_resolution::{Numbers, numbered};
use just_parts::layers::{
    DependencyArgument, Line, NamedAttribute, Number, Parameter, Settings, Syntax,
    UnresolvedDependency,
};
use just_parts::{Recipe, UnresolvedRecipe};
use std::alloc::{AllocError, Global};
use std::collections::HashMap;

// Gives the name of a parameter its number too.
fn see<'src>(
    parameter: &Parameter<'src>,
    numbers: &mut HashMap<BorrowedText<'src>, Number>,
) -> Result<(), AllocError>
    ensures { let is_name = bytes_eq (text_of_name parameter.now.name) in
        let old = get bytes_eq numbers.old in
        OnOk result ((name : List ℕ) → get bytes_eq numbers.new name ≡ (if is_name name then Some parameter.now.number else old name)) }
{
    numbers.insert(BorrowedText::new(parameter.name.lexeme()), parameter.number)?;
    Ok(())
}

// The numbers of parameters, by their names.
fn parameter_numbers<'src>(
    alloc: Global,
    parameters: &[Parameter<'src>],
) -> Result<HashMap<BorrowedText<'src>, Number>, AllocError>
    ensures { IfOk result (λ made. (name : List ℕ) → get bytes_eq made name ≡ parameter_number parameters.now name) }
{
    let mut numbers = HashMap::new(alloc);
    for parameter in parameters {
        see(parameter, &mut numbers)?;
    }
    Ok(numbers)
}

// A parameter, whose default and value see those before it.
fn numbered_parameter<'a, 'src, S: Syntax>(
    alloc: Global,
    parameter: &Parameter<'src>,
    numbers: &Numbers<'a, 'src, S>,
) -> Result<Parameter<'src>, AllocError>
    ensures { let by = looked_up (S.answers numbers.now.syntax.now) numbers.now in
        IfOk result (λ made. made ≡ parameter_by by parameter.now) }
{
    let mut made = parameter.clone()?;
    made.default = numbered_optional(alloc, &parameter.default, numbers)?;
    made.value = numbered_optional(alloc, &parameter.value, numbers)?;
    Ok(made)
}

// Parameters, each of which sees those before it.
fn numbered_parameters<'src, S: Syntax>(
    alloc: Global,
    parameters: &[Parameter<'src>],
    bindings: &HashMap<BorrowedText<'src>, Number>,
    syntax: &S,
) -> Result<Sequence<Parameter<'src>>, AllocError>
    ensures { let number = number_under (get bytes_eq bindings.now) (S.answers syntax.now) in
        IfOk result (λ made. made ≡ numbered_parameters number [] parameters.now) }
{
    let mut seen = HashMap::new(alloc);
    let mut made = Vec::with_capacity(alloc, parameters.len())?;
    for parameter in parameters {
        let numbers = Numbers {
            parameters: &seen,
            assignments: bindings,
            syntax,
        };
        made.push(numbered_parameter(alloc, parameter, &numbers)?)?;
        see(parameter, &mut seen)?;
    }
    Ok(Sequence::from_vec(made))
}

// A dependency: its arguments.
fn numbered_dependency<'a, 'src, S: Syntax>(
    alloc: Global,
    dependency: &UnresolvedDependency<'src>,
    numbers: &Numbers<'a, 'src, S>,
) -> Result<UnresolvedDependency<'src>, AllocError>
    ensures { let by = looked_up (S.answers numbers.now.syntax.now) numbers.now in
        IfOk result (λ made. made ≡ dependency_by by dependency.now) }
{
    let mut arguments = Vec::with_capacity(alloc, dependency.arguments.len())?;
    for argument in dependency.arguments.as_slice() {
        arguments.push(DependencyArgument {
            expression: numbered(alloc, &argument.expression, numbers)?,
            starred: argument.starred,
        })?;
    }
    Ok(UnresolvedDependency {
        arguments: Sequence::from_vec(arguments),
        recipe: dependency.recipe.clone()?,
    })
}

// Dependencies.
fn numbered_dependencies<'a, 'src, S: Syntax>(
    alloc: Global,
    dependencies: &[UnresolvedDependency<'src>],
    numbers: &Numbers<'a, 'src, S>,
) -> Result<Sequence<UnresolvedDependency<'src>>, AllocError>
    ensures { let by = looked_up (S.answers numbers.now.syntax.now) numbers.now in
        IfOk result (λ made. made ≡ map (dependency_by by) dependencies.now) }
{
    let mut made = Vec::with_capacity(alloc, dependencies.len())?;
    for dependency in dependencies {
        made.push(numbered_dependency(alloc, dependency, numbers)?)?;
    }
    Ok(Sequence::from_vec(made))
}

// The parts of a recipe that have expressions.
#[derive(Drop)]
struct Parts<'src> {
    attributes: Sequence<NamedAttribute<'src>>,
    body: Sequence<Line<'src>>,
    dependencies: Sequence<UnresolvedDependency<'src>>,
    parameters: Sequence<Parameter<'src>>,
}

// The parts of a recipe that have expressions.
fn numbered_parts<'src, S: Syntax>(
    alloc: Global,
    bindings: &HashMap<BorrowedText<'src>, Number>,
    syntax: &S,
    settings: &Settings,
    recipe: &UnresolvedRecipe<'src>,
) -> Result<Parts<'src>, AllocError>
    ensures attributes { let made = numbered_recipe (get bytes_eq bindings.now) (S.answers syntax.now) settings.now recipe.now in
        IfOk result (λ parts. parts.attributes ≡ made.attributes) }
    ensures body { let made = numbered_recipe (get bytes_eq bindings.now) (S.answers syntax.now) settings.now recipe.now in
        IfOk result (λ parts. parts.body ≡ made.body) }
    ensures dependencies { let made = numbered_recipe (get bytes_eq bindings.now) (S.answers syntax.now) settings.now recipe.now in
        IfOk result (λ parts. parts.dependencies ≡ made.dependencies) }
    ensures parameters { let made = numbered_recipe (get bytes_eq bindings.now) (S.answers syntax.now) settings.now recipe.now in
        IfOk result (λ parts. parts.parameters ≡ made.parameters) }
{
    let none = HashMap::new(alloc);
    let all = parameter_numbers(alloc, recipe.parameters.as_slice())?;
    let outer = Numbers {
        parameters: &none,
        assignments: bindings,
        syntax,
    };
    let inner = Numbers {
        parameters: &all,
        assignments: bindings,
        syntax,
    };
    let attributes = numbered_attributes(alloc, recipe.attributes.as_slice(), &outer, &inner)?;
    let body = numbered_body(alloc, settings, recipe, &inner)?;
    let dependencies = numbered_dependencies(alloc, recipe.dependencies.as_slice(), &inner)?;
    let parameters = numbered_parameters(alloc, recipe.parameters.as_slice(), bindings, syntax)?;
    Ok(Parts {
        attributes,
        body,
        dependencies,
        parameters,
    })
}

/// What the names in the recipes of a module mean, besides parameters.
#[derive(Drop)]
pub struct Meanings<'a, 'src, S> {
    /// The numbers of the variables of the module, by their names.
    pub bindings: &'a HashMap<BorrowedText<'src>, Number>,
    /// The settings of the module.
    pub settings: &'a Settings,
    /// What has the constants of the language.
    pub syntax: &'a S,
}

/// A recipe again, whose expressions have the numbers of what the names in them mean in its module: of a parameter that is
/// seen there, else of a variable, else of a constant, or none. Docs, helps, patterns and the environment see no parameters,
/// and a parameter's default and value see those before it. All else of the recipe is the same. The comments in a body for a
/// shell that are skipped are not read: they stay as they are.
pub fn numbered_recipe<'a, 'src, S: Syntax>(
    alloc: Global,
    meanings: &Meanings<'a, 'src, S>,
    recipe: &UnresolvedRecipe<'src>,
) -> Result<UnresolvedRecipe<'src>, AllocError>
    ensures { IfOk result (λ made. made ≡ numbered_by (S.answers meanings.now.syntax.now) meanings.now recipe.now) }
{
    let Parts {
        attributes,
        body,
        dependencies,
        parameters,
    } = numbered_parts(
        alloc,
        meanings.bindings,
        meanings.syntax,
        meanings.settings,
        recipe,
    )?;
    Ok(Recipe {
        attributes,
        body,
        dependencies,
        doc: recipe.doc.clone()?,
        file_depth: recipe.file_depth,
        import_offsets: recipe.import_offsets.clone()?,
        name: recipe.name.copied(),
        number: recipe.number,
        parameters,
        priors: recipe.priors,
        private: recipe.private,
        quiet: recipe.quiet,
        shebang: recipe.shebang,
        module_path: recipe.module_path.clone()?,
        recipe_path: recipe.recipe_path.clone()?,
        variable_references: recipe.variable_references.clone()?,
    })
}
