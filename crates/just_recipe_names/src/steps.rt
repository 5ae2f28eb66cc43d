//! A walk over a recipe: the expressions that it reads, and the parameters that hide names in them.

ghost use Rattle.std.specs.Prelude.{◌≡◌, [], ◌++◌, IfOk, OnOk, flat_map, map};
ghost use Rattle.std.specs.Option.{option_to_list};
ghost use Rattle.just_ast_definitions.specs.declared.attribute.NamedAttribute.{NamedAttribute};
ghost use Rattle.just_ast_expressions.specs.declared.expression.Expression.{Expression};
ghost use Rattle.just_parts.specs.Scopes.{attribute_expressions, compiled_expressions, environment_expressions, parameter_expressions, property_expressions};
ghost use Rattle.just_recipe.specs.declared.dependency.DependencyArgument.{DependencyArgument};
ghost use Rattle.just_recipe.specs.declared.dependency.UnresolvedDependency.{UnresolvedDependency};
ghost use Rattle.just_module_contents.specs.RecipeNames.{written_scopes};
ghost use Rattle.just_recipe_names.specs.Steps.{events, scopes_from};
ghost use Rattle.just_recipe_names.specs.loops.Steps.{parameter_events, readings};

use crate::lines::push_body;
use just_parts::UnresolvedRecipe;
use just_parts::layers::{
    ArgumentProperty, Attribute, DependencyArgument, Expression, NamedAttribute, Parameter,
    Settings, Syntax, UnresolvedDependency,
};
use std::alloc::{AllocError, Global};

/// What a walk over a recipe comes to.
#[derive(Drop)]
pub enum Step<'r, 'src> {
    /// An expression that the recipe reads.
    Reads(&'r Expression<'src>),
    /// A parameter, whose name is hidden in what comes after it.
    Hides(&'r Parameter<'src>),
}

// Adds an expression, where there is one.
fn push_optional<'r, 'src>(
    expression: &'r Option<Expression<'src>>,
    found: &mut Vec<Step<'r, 'src>>,
) -> Result<(), AllocError>
    ensures { OnOk result (events found.new.items ≡ events found.old.items ++ readings (option_to_list expression.now)) }
{
    if let Some(expression) = expression {
        found.push(Step::Reads(expression))?;
    }
    Ok(())
}

// Adds that of a property.
fn push_property<'r, 'src>(
    property: &'r Option<ArgumentProperty<'src, Expression<'src>>>,
    found: &mut Vec<Step<'r, 'src>>,
) -> Result<(), AllocError>
    ensures { OnOk result (events found.new.items ≡ events found.old.items ++ readings (property_expressions property.now)) }
{
    if let Some(property) = property {
        found.push(Step::Reads(&property.value))?;
    }
    Ok(())
}

// Adds what an attribute has that is evaluated while compiling.
fn push_compiled<'r, 'src>(
    attribute: &'r Attribute<'src>,
    found: &mut Vec<Step<'r, 'src>>,
) -> Result<(), AllocError>
    ensures { OnOk result (events found.new.items ≡ events found.old.items ++ readings (compiled_expressions attribute.now)) }
{
    match attribute {
        Attribute::Arg(argument) => {
            push_property(&argument.help_property, found)?;
            push_property(&argument.pattern_property, found)
        }
        Attribute::Doc(doc) => push_optional(doc, found),
        _ => Ok(()),
    }
}

// Adds what it puts into the environment.
fn push_environment<'r, 'src>(
    attribute: &'r Attribute<'src>,
    found: &mut Vec<Step<'r, 'src>>,
) -> Result<(), AllocError>
    ensures { OnOk result (events found.new.items ≡ events found.old.items ++ readings (environment_expressions attribute.now)) }
{
    if let Attribute::Env(variable) = attribute {
        found.push(Step::Reads(&variable.name))?;
        found.push(Step::Reads(&variable.value))?;
    }
    Ok(())
}

// Adds what else of it is evaluated in a run.
fn push_attribute<'r, 'src>(
    attribute: &'r Attribute<'src>,
    found: &mut Vec<Step<'r, 'src>>,
) -> Result<(), AllocError>
    ensures { OnOk result (events found.new.items ≡ events found.old.items ++ readings (attribute_expressions attribute.now)) }
{
    match attribute {
        Attribute::Cache(cache) => {
            push_optional(&cache.extra, found)?;
            push_optional(&cache.inputs, found)?;
            push_optional(&cache.outputs, found)
        }
        Attribute::Confirm(prompt) => push_optional(prompt, found),
        Attribute::Timestamp(format) => push_optional(format, found),
        Attribute::WorkingDirectory(folder) => Ok(found.push(Step::Reads(folder))?),
        _ => Ok(()),
    }
}

// Adds what attributes have that is evaluated while compiling.
fn push_all_compiled<'r, 'src>(
    attributes: &'r [NamedAttribute<'src>],
    found: &mut Vec<Step<'r, 'src>>,
) -> Result<(), AllocError>
    ensures { let has = λ (named : NamedAttribute Expression). compiled_expressions named.attribute in
        OnOk result (events found.new.items ≡ events found.old.items ++ readings (flat_map has attributes.now)) }
{
    for named in attributes {
        push_compiled(&named.attribute, found)?;
    }
    Ok(())
}

// Adds what they put into the environment.
fn push_all_environment<'r, 'src>(
    attributes: &'r [NamedAttribute<'src>],
    found: &mut Vec<Step<'r, 'src>>,
) -> Result<(), AllocError>
    ensures { let has = λ (named : NamedAttribute Expression). environment_expressions named.attribute in
        OnOk result (events found.new.items ≡ events found.old.items ++ readings (flat_map has attributes.now)) }
{
    for named in attributes {
        push_environment(&named.attribute, found)?;
    }
    Ok(())
}

// Adds what else of them is evaluated in a run.
fn push_attributes<'r, 'src>(
    attributes: &'r [NamedAttribute<'src>],
    found: &mut Vec<Step<'r, 'src>>,
) -> Result<(), AllocError>
    ensures { let has = λ (named : NamedAttribute Expression). attribute_expressions named.attribute in
        OnOk result (events found.new.items ≡ events found.old.items ++ readings (flat_map has attributes.now)) }
{
    for named in attributes {
        push_attribute(&named.attribute, found)?;
    }
    Ok(())
}

// Adds the default and the value of each parameter, and after them the parameter.
fn push_parameters<'r, 'src>(
    parameters: &'r [Parameter<'src>],
    found: &mut Vec<Step<'r, 'src>>,
) -> Result<(), AllocError>
    ensures { OnOk result (events found.new.items ≡ events found.old.items ++ parameter_events parameter_expressions parameters.now) }
{
    for parameter in parameters {
        push_optional(&parameter.default, found)?;
        push_optional(&parameter.value, found)?;
        found.push(Step::Hides(parameter))?;
    }
    Ok(())
}

// Adds the arguments of a dependency.
fn push_arguments<'r, 'src>(
    arguments: &'r [DependencyArgument<'src>],
    found: &mut Vec<Step<'r, 'src>>,
) -> Result<(), AllocError>
    ensures { let given = map (λ (a : DependencyArgument). a.expression) arguments.now in
        OnOk result (events found.new.items ≡ events found.old.items ++ readings given) }
{
    for argument in arguments {
        found.push(Step::Reads(&argument.expression))?;
    }
    Ok(())
}

// Adds those of dependencies.
fn push_dependencies<'r, 'src>(
    dependencies: &'r [UnresolvedDependency<'src>],
    found: &mut Vec<Step<'r, 'src>>,
) -> Result<(), AllocError>
    ensures { let given = λ (d : UnresolvedDependency). map (λ (a : DependencyArgument). a.expression) d.arguments in
        OnOk result (events found.new.items ≡ events found.old.items ++ readings (flat_map given dependencies.now)) }
{
    for dependency in dependencies {
        push_arguments(dependency.arguments.as_slice(), found)?;
    }
    Ok(())
}

/// Whatever a recipe reads under the settings of its module, and between them its parameters, each before the first
/// expression in which its name is hidden. First come docs, helps, patterns and the environment, then the default and the
/// value of each parameter, and last other attributes, lines, and the arguments of dependencies. The comments in a body for
/// a shell that are skipped are left out.
pub fn steps<'r, 'src, S: Syntax>(
    alloc: Global,
    syntax: &S,
    settings: &Settings,
    recipe: &'r UnresolvedRecipe<'src>,
) -> Result<Vec<Step<'r, 'src>>, AllocError>
    ensures { IfOk result (λ found. scopes_from [] (events found.items) ≡ written_scopes (S.answers syntax.now) settings.now recipe.now) }
{
    let attributes = recipe.attributes.as_slice();
    let mut found = Vec::new(alloc);
    push_all_compiled(attributes, &mut found)?;
    push_all_environment(attributes, &mut found)?;
    push_parameters(recipe.parameters.as_slice(), &mut found)?;
    push_attributes(attributes, &mut found)?;
    push_body(syntax, settings, recipe, &mut found)?;
    push_dependencies(recipe.dependencies.as_slice(), &mut found)?;
    Ok(found)
}
