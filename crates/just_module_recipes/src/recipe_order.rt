//! An order of a module's recipes, each after those of the module that it depends on.
ghost use Rattle.std.specs.Prelude.{◌≡◌, ◌↔◌, ◌<◌, ◌∷◌, ◌++◌, [], length, get_or, map, IsTrue, IfOk, IfErr, OnOk};
ghost use Rattle.std.specs.List.{All, Contains};
ghost use Rattle.just_errors.specs.Causes.{Keeps, Reports};
ghost use Rattle.just_graph.specs.Building.{EachRow};
ghost use Rattle.just_module_contents.specs.Definitions.{recipes_in};
ghost use Rattle.just_module_contents.specs.Recipes.{name_of_recipe, names_of, recipe_at};
ghost use Rattle.just_module_recipes.specs.loops.Rows.{Circular, HasRecipeRows, HasTargets, IsOrderOf, IsTokenOn, near};
ghost use Rattle.just_module_recipes.specs.declared.targets.Target.TheVariants.{Near};
ghost use Rattle.just_names.specs.Index.{AreDifferent};

use crate::targets::Target;
use just_data::{BorrowedText, Sequence};
use just_graph::{all_nodes, order};
use just_module_contents::definitions::Definitions;
use just_names::Token;
use just_parts::layers::{CompileError, CompileErrorKind, Error};
use std::alloc::{AllocError, Global};

// Adds the place that a target is, if it is one.
fn add_near(row: &mut Vec<usize>, target: &Target) -> Result<(), AllocError>
    ensures { OnOk result (row.new.items ≡ row.old.items ++ near (target.now ∷ [])) }
{
    match target {
        Target::Near(place) => row.push(*place)?,
        Target::Far(_) => {}
        Target::Gone(_) => {}
    }
    Ok(())
}

// The places among targets.
#[tactic(auto, using(crate::proofs::Nearby::near_next))]
fn near_of(alloc: Global, targets: &[Target]) -> Result<Vec<usize>, AllocError>
    ensures { IfOk result (λ row. row.items ≡ near targets.now) }
{
    let mut row = Vec::new(alloc);
    for target in targets {
        add_near(&mut row, target)?;
    }
    Ok(row)
}

fn edges_of(alloc: Global, rows: &[Sequence<Target>]) -> Result<Vec<Vec<usize>>, AllocError>
    ensures { IfOk result (λ edges. EachRow (λ a row. row ≡ near (get_or rows.now a [])) (length rows.now) edges.items) }
{
    let mut edges = Vec::new(alloc);
    for place in 0..rows.len() {
        edges.push(near_of(alloc, rows[place].as_slice())?)?;
    }
    Ok(edges)
}

// The names of the recipes at places.
fn names_at<'a, 'src>(
    alloc: Global,
    kept: &Definitions<'src, 'a>,
    places: &[usize],
) -> Result<Sequence<BorrowedText<'src>>, AllocError>
    requires { All (λ place. place < length kept.now.recipes.items) places.now }
    ensures { IfOk result (λ names. names ≡ map (λ place. name_of_recipe (recipe_at (recipes_in kept.now) place)) places.now) }
{
    let mut names = Sequence::new(alloc);
    for place in places {
        names.push(BorrowedText::new(kept.recipe_at(*place).name.lexeme()))?;
    }
    Ok(names)
}

// Whether a target is the recipe of the module at a place.
fn is_near(target: &Target, place: usize) -> bool
    ensures { IsTrue result ↔ (target.now ≡ Near place) }
{
    match target {
        Target::Near(found) => *found == place,
        Target::Far(_) => false,
        Target::Gone(_) => false,
    }
}

// The token of a recipe's first dependency that is the recipe at a place.
fn dependency_token<'a, 'src>(
    kept: &Definitions<'src, 'a>,
    row: &[Target],
    dependent: usize,
    place: usize,
) -> Token<'src>
    requires dependent { dependent < length kept.now.recipes.items }
    requires row { HasTargets (recipes_in kept.now) dependent row.now }
    requires place { Contains row.now (Near place) }
    ensures { IsTokenOn (recipes_in kept.now) dependent place result }
{
    let dependencies = kept.recipe_at(dependent).dependencies.as_slice();
    for at in 0..row.len() {
        if is_near(&row[at], place) {
            return dependencies[at].recipe.last.token.copied();
        }
    }
    unreachable!()
}

// The row of a place.
fn row_at(rows: &[Sequence<Target>], place: usize) -> &[Target]
    requires { place < length rows.now }
    ensures { result.now ≡ get_or rows.now place [] }
{
    rows[place].as_slice()
}

/// The places of all recipes, each after those that it depends on. An error tells a circle.
pub fn ordered<'a, 'src>(
    alloc: Global,
    kept: &Definitions<'src, 'a>,
    rows: &[Sequence<Target>],
) -> Result<Vec<usize>, Error<'src>>
    requires different { AreDifferent (names_of (recipes_in kept.now)) }
    requires rows { HasRecipeRows (recipes_in kept.now) rows.now }
    ensures kept { IfOk result (λ _. Keeps (Circular (recipes_in kept.now))) }
    ensures ordered { IfOk result (λ order. IsOrderOf rows.now order.items) }
    ensures named { IfErr result (Reports (Circular (recipes_in kept.now))) }
{
    let edges = edges_of(alloc, rows)?;
    let roots = all_nodes(alloc, kept.recipes.len())?;
    match order(alloc, edges.as_slice(), roots.as_slice())? {
        Ok(order) => Ok(order),
        Err(circle) => {
            let closing = circle[circle.len() - 2];
            let last = kept.recipe_at(closing);
            let names = names_at(alloc, kept, circle.as_slice())?;
            Err(Error::Compile(CompileError {
                token: dependency_token(
                    kept,
                    row_at(rows, closing),
                    closing,
                    circle[circle.len() - 1],
                ),
                kind: CompileErrorKind::CircularRecipeDependency {
                    recipe: BorrowedText::new(last.name.lexeme()),
                    circle: names,
                },
            }))
        }
    }
}
