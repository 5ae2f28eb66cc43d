//! What recipes depend on.
ghost use Rattle.std.specs.Prelude.{◌≡◌, ◌==◌, List, length, map};
ghost use Rattle.std.specs.Fmt.{WritesOnOk};
ghost use Rattle.std.specs.List.{list_all, list_any};
ghost use Rattle.just_recipe.specs.Grouping.{concatenated};
ghost use Rattle.just_recipe.specs.RecipeTexts.{blanked, dependency_argument_text};
ghost use Rattle.just_recipe.specs.Starred.{has_star};
ghost use Rattle.just_recipe.specs.declared.dependency.DependencyArgument.{DependencyArgument};

use crate::texts::{text_if, write_each};
use just_ast_expressions::Expression;
use just_data::{Exact, Sequence};
use just_names::{Namepath, Number};
use std::fmt;

/// An argument of a dependency.
#[derive(Clone, PartialEq, Eq, Drop)]
pub struct DependencyArgument<'src> {
    /// What it is evaluated from.
    pub expression: Expression<'src>,
    /// Whether the dependency stands for one with each of its values.
    pub starred: bool,
}

impl<'src> Exact for DependencyArgument<'src> {
    ghost use Rattle.std.proofs.Common.{rules};

    ghost exact = { Prim.search rules };
}

impl<'src> fmt::Display for DependencyArgument<'src> {
    ghost use Rattle.std.specs.Prelude.{Some};
    ghost use Rattle.just_recipe.specs.RecipeTexts.{dependency_argument_text};

    ghost output = { λ argument. Some (dependency_argument_text argument) };

    fn fmt<W: fmt::Write>(&self, f: &mut fmt::Formatter<W>) -> fmt::Result {
        write!(f, "{}{}", text_if(self.starred, "*"), self.expression)
    }
}

// Whether one of the arguments is starred.
fn is_starred<'src>(arguments: &[DependencyArgument<'src>]) -> bool
    ensures { result ≡ has_star arguments.now }
{
    arguments.iter().any(|argument| argument.starred)
}

/// What a resolved recipe depends on: a recipe, the path by which it is named, and what it is given.
#[derive(Clone, Drop)]
pub struct Dependency<'src> {
    /// The arguments: for each parameter of the recipe those that it is given.
    pub arguments: Sequence<Sequence<DependencyArgument<'src>>>,
    /// The names by which the recipe is named, as the source text has them.
    pub path: Namepath<'src>,
    /// The number of the recipe.
    pub recipe: Number,
}

impl<'src> Exact for Dependency<'src> {
    ghost use Rattle.std.proofs.Common.{rules};

    ghost exact = { Prim.search rules };
}

impl<'src> Dependency<'src> {
    ghost use Rattle.std.specs.Prelude.{◌≡◌};
    ghost use Rattle.std.specs.List.{position};
    ghost use Rattle.just_recipe.specs.Starred.{has_star};

    /// The place of the first parameter that is given a starred argument. It takes no memory.
    pub fn star(&self) -> Option<usize>
        ensures { result ≡ position has_star self.now.arguments }
    {
        self.arguments
            .as_slice()
            .iter()
            .position(|group| is_starred(group.as_slice()))
    }
}

// Whether no group has an argument.
fn are_empty<'src>(groups: &[Sequence<DependencyArgument<'src>>]) -> bool
    ensures { result ≡ list_all (λ (g : List DependencyArgument). length g == 0) groups.now }
{
    groups.iter().all(|group| group.as_slice().is_empty())
}

// Whether a group has a starred argument.
fn any_starred<'src>(groups: &[Sequence<DependencyArgument<'src>>]) -> bool
    ensures { result ≡ list_any has_star groups.now }
{
    groups.iter().any(|group| is_starred(group.as_slice()))
}

// Writes all arguments, each after a blank.
fn write_groups<'src, W: fmt::Write>(
    f: &mut fmt::Formatter<W>,
    groups: &[Sequence<DependencyArgument<'src>>],
) -> fmt::Result
    ensures { WritesOnOk W.write_str_gives f.old result (blanked (map dependency_argument_text (concatenated groups.now))) f.new }
{
    for group in groups {
        write_each(f, " ", group.as_slice())?;
    }
    Ok(())
}

/// It is shown as its path, or as `(PATH ARGUMENT..)`, behind a star where an argument is starred.
impl<'src> fmt::Display for Dependency<'src> {
    ghost use Rattle.std.specs.Prelude.{Some, false};
    ghost use Rattle.just_names.specs.Name.{texts_of_path};
    ghost use Rattle.just_names.specs.Texts.{text_of};
    ghost use Rattle.just_recipe.specs.Grouping.{concatenated};
    ghost use Rattle.just_recipe.specs.RecipeTexts.{dependency_text};

    ghost output = { λ dependency. Some (dependency_text (text_of (texts_of_path dependency.path) false) (concatenated dependency.arguments)) };

    fn fmt<W: fmt::Write>(&self, f: &mut fmt::Formatter<W>) -> fmt::Result {
        let groups = self.arguments.as_slice();
        if are_empty(groups) {
            return self.path.fmt(f);
        }
        write!(f, "{}({}", text_if(any_starred(groups), "*"), self.path)?;
        write_groups(f, groups)?;
        f.write_str(")")
    }
}

/// What a recipe of a source text depends on.
#[derive(Clone, PartialEq, Eq, Drop)]
pub struct UnresolvedDependency<'src> {
    /// The arguments, in order.
    pub arguments: Sequence<DependencyArgument<'src>>,
    /// The names by which the recipe is named.
    pub recipe: Namepath<'src>,
}

impl<'src> Exact for UnresolvedDependency<'src> {
    ghost use Rattle.std.proofs.Common.{rules};

    ghost exact = { Prim.search rules };
}

impl<'src> UnresolvedDependency<'src> {
    /// Whether one of the arguments is starred.
    pub fn starred(&self) -> bool
        ensures { result ≡ has_star self.now.arguments }
    {
        is_starred(self.arguments.as_slice())
    }
}

/// It is shown as its path, or as `(PATH ARGUMENT..)`, behind a star where an argument is starred.
impl<'src> fmt::Display for UnresolvedDependency<'src> {
    ghost use Rattle.std.specs.Prelude.{Some, false};
    ghost use Rattle.just_names.specs.Name.{texts_of_path};
    ghost use Rattle.just_names.specs.Texts.{text_of};
    ghost use Rattle.just_recipe.specs.RecipeTexts.{dependency_text};

    ghost output = { λ dependency. Some (dependency_text (text_of (texts_of_path dependency.recipe) false) dependency.arguments) };

    fn fmt<W: fmt::Write>(&self, f: &mut fmt::Formatter<W>) -> fmt::Result {
        let arguments = self.arguments.as_slice();
        if arguments.is_empty() {
            return self.recipe.fmt(f);
        }
        write!(f, "{}({}", text_if(self.starred(), "*"), self.recipe)?;
        write_each(f, " ", arguments)?;
        f.write_str(")")
    }
}
