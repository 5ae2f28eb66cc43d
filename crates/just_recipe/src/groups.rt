//! How the arguments of a dependency are grouped.
ghost use Rattle.std.specs.Prelude.{◌≡◌, ◌≤◌, length, IfOk};
ghost use Rattle.just_ast_definitions.specs.Parameter.{most_arguments};
ghost use Rattle.just_recipe.specs.Grouping.{grouped, concatenated, share};

use crate::dependency::DependencyArgument;
use crate::recipe::Recipe;
use just_ast_definitions::Parameter;
use just_ast_expressions::Settings;
use just_data::Sequence;
use std::alloc::{AllocError, Global};

// How many of the arguments that are left a parameter takes.
fn share(settings: &Settings, parameter: &Parameter, left: usize) -> usize
    ensures { result ≡ share settings.now.lists parameter.now left }
{
    if !settings.lists && parameter.kind.is_variadic() {
        return left;
    }
    usize::min(left, 1)
}

fn copies<'src>(
    alloc: Global,
    arguments: &[DependencyArgument<'src>],
) -> Result<Sequence<DependencyArgument<'src>>, AllocError>
    ensures { IfOk result (λ made. made ≡ arguments.now) }
{
    let mut made = Vec::with_capacity(alloc, arguments.len())?;
    for argument in arguments {
        made.push(argument.clone()?)?;
    }
    Ok(Sequence::from_vec(made))
}

impl<'src, D> Recipe<'src, D> {
    /// The arguments of a dependency on it, under the settings of what depends on it: for each parameter in turn one while
    /// there is one, and for a variadic one, where values are no lists, all that are left. No argument is lost where there
    /// are no more than it takes.
    pub fn group_arguments(
        &self,
        alloc: Global,
        settings: &Settings,
        arguments: &[DependencyArgument<'src>],
    ) -> Result<Sequence<Sequence<DependencyArgument<'src>>>, AllocError>
        ensures grouped { IfOk result (λ groups. groups ≡ grouped settings.now.lists self.now.parameters arguments.now) }
        ensures count { IfOk result (λ groups. length groups ≡ length self.now.parameters) }
        ensures whole { IfOk result (λ groups.
            length arguments.now ≤ most_arguments settings.now.lists self.now.parameters → concatenated groups ≡ arguments.now) }
    {
        let mut groups = Vec::with_capacity(alloc, self.parameters.len())?;
        let mut taken = 0;
        for parameter in self.parameters.as_slice() {
            let end = taken + share(settings, parameter, arguments.len() - taken);
            groups.push(copies(alloc, &arguments[taken..end])?)?;
            taken = end;
        }
        Ok(Sequence::from_vec(groups))
    }
}
