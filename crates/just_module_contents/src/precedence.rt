//! Which of several definitions of one name are kept: those of least depth, and of these the last.

ghost use Rattle.std.specs.Prelude.{◌≡◌, ◌<◌, IfOk, length, map};
ghost use Rattle.std.specs.Str.{bytes_eq};
ghost use Rattle.std.specs.HashMap.{get};
ghost use Rattle.just_module_contents.specs.Definitions.{recipes_in, variables_in};
ghost use Rattle.just_module_contents.specs.Kept.{claim_of_recipe, claim_of_variable, kept_recipes, kept_variables};
ghost use Rattle.just_module_contents.specs.loops.Kept.{IsBestIndex, IsBestSoFar, is_outdone, stays};
ghost use Rattle.just_module_contents.specs.Recipes.{lent};

use crate::definitions::Definitions;
use just_data::BorrowedText;
use just_parts::UnresolvedRecipe;
use just_parts::layers::Assignment;
use std::alloc::{AllocError, Global};
use std::collections::HashMap;

/// What tells whether a definition is kept: its name, and how deep its file lies.
#[derive(Drop)]
pub struct Claim<'src> {
    /// The name.
    pub name: BorrowedText<'src>,
    /// How many imports and modules lead from the root to the file, at least.
    pub depth: u64,
}

// Whether a claim of its name that is kept so far lies at a smaller depth.
fn is_outdone<'src>(
    claims: &[Claim<'src>],
    index: &HashMap<BorrowedText<'src>, usize>,
    place: usize,
) -> bool
    requires there { place < length claims.now }
    requires index { IsBestSoFar claims.now place (get bytes_eq index.now) }
    ensures { result ≡ is_outdone claims.now (get bytes_eq index.now) place }
{
    match index.get(&claims[place].name) {
        None => false,
        Some(best) => claims[*best].depth < claims[place].depth,
    }
}

// The place of the claim that is kept, of each name.
fn index_kept<'src>(
    alloc: Global,
    claims: &[Claim<'src>],
) -> Result<HashMap<BorrowedText<'src>, usize>, AllocError>
    ensures { IfOk result (λ index. IsBestIndex claims.now (get bytes_eq index)) }
{
    let mut index = HashMap::new(alloc);
    for place in 0..claims.len() {
        if is_outdone(claims, &index, place) {
            continue;
        }
        index.insert(claims[place].name.copied(), place)?;
    }
    Ok(index)
}

// Whether the claim at a place is kept.
fn is_kept<'src>(
    claims: &[Claim<'src>],
    index: &HashMap<BorrowedText<'src>, usize>,
    place: usize,
) -> bool
    requires there { place < length claims.now }
    requires index { IsBestIndex claims.now (get bytes_eq index.now) }
    ensures { result ≡ stays claims.now place }
{
    match index.get(&claims[place].name) {
        None => false,
        Some(best) => *best == place,
    }
}

// The claims of recipes.
fn recipe_claims<'a, 'src>(
    alloc: Global,
    definitions: &Definitions<'src, 'a>,
) -> Result<Vec<Claim<'src>>, AllocError>
    ensures { IfOk result (λ claims. claims.items ≡ map claim_of_recipe (recipes_in definitions.now)) }
{
    let mut claims = Vec::with_capacity(alloc, definitions.recipes.len())?;
    for place in 0..definitions.recipes.len() {
        let recipe = definitions.recipe_at(place);
        claims.push(Claim {
            name: BorrowedText::new(recipe.name.lexeme()),
            depth: recipe.file_depth,
        })?;
    }
    Ok(claims)
}

// The recipes that are kept.
fn kept_recipes<'a, 'src>(
    alloc: Global,
    definitions: &Definitions<'src, 'a>,
) -> Result<Vec<&'a UnresolvedRecipe<'src>>, AllocError>
    ensures { IfOk result (λ kept. lent kept.items ≡ kept_recipes (recipes_in definitions.now)) }
{
    let claims = recipe_claims(alloc, definitions)?;
    let index = index_kept(alloc, claims.as_slice())?;
    let mut kept = Vec::new(alloc);
    for place in 0..definitions.recipes.len() {
        if !is_kept(claims.as_slice(), &index, place) {
            continue;
        }
        kept.push(definitions.recipes[place])?;
    }
    Ok(kept)
}

// The claims of variables.
fn variable_claims<'a, 'src>(
    alloc: Global,
    definitions: &Definitions<'src, 'a>,
) -> Result<Vec<Claim<'src>>, AllocError>
    ensures { IfOk result (λ claims. claims.items ≡ map claim_of_variable (variables_in definitions.now)) }
{
    let mut claims = Vec::with_capacity(alloc, definitions.variables.len())?;
    for place in 0..definitions.variables.len() {
        let variable = definitions.variable_at(place);
        claims.push(Claim {
            name: BorrowedText::new(variable.name.lexeme()),
            depth: variable.file_depth,
        })?;
    }
    Ok(claims)
}

// The variables that are kept.
fn kept_variables<'a, 'src>(
    alloc: Global,
    definitions: &Definitions<'src, 'a>,
) -> Result<Vec<&'a Assignment<'src>>, AllocError>
    ensures { IfOk result (λ kept. lent kept.items ≡ kept_variables (variables_in definitions.now)) }
{
    let claims = variable_claims(alloc, definitions)?;
    let index = index_kept(alloc, claims.as_slice())?;
    let mut kept = Vec::new(alloc);
    for place in 0..definitions.variables.len() {
        if !is_kept(claims.as_slice(), &index, place) {
            continue;
        }
        kept.push(definitions.variables[place])?;
    }
    Ok(kept)
}

/// The recipes that are kept, and nothing else.
pub fn keep_recipes<'a, 'src>(
    alloc: Global,
    definitions: &Definitions<'src, 'a>,
) -> Result<Definitions<'src, 'a>, AllocError>
    ensures { IfOk result (λ kept. recipes_in kept ≡ kept_recipes (recipes_in definitions.now)) }
{
    let recipes = kept_recipes(alloc, definitions)?;
    Ok(Definitions {
        recipes,
        ..Definitions::new(alloc)
    })
}

/// The variables that are kept, and nothing else.
pub fn keep_variables<'a, 'src>(
    alloc: Global,
    definitions: &Definitions<'src, 'a>,
) -> Result<Definitions<'src, 'a>, AllocError>
    ensures { IfOk result (λ kept. variables_in kept ≡ kept_variables (variables_in definitions.now)) }
{
    let variables = kept_variables(alloc, definitions)?;
    Ok(Definitions {
        variables,
        ..Definitions::new(alloc)
    })
}
