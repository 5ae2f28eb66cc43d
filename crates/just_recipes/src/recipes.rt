//! The recipes of a compilation, by number.
ghost use Rattle.std.specs.Prelude.{◌≡◌, ◌≢◌, ◌+◌, ◌^◌, ◌<◌, ℕ, ◌++◌, ◌∷◌, [], ◌↔◌, length, slice_index, nat_eq, IsTrue, IfSome, IfNone, IfErr, OnOk, OnErr, Some};
ghost use Rattle.std.specs.List.{All, Contains};
ghost use Rattle.std.specs.Option.{option_copied};
ghost use Rattle.std.specs.HashMap.{get};
ghost use Rattle.just_recipes.specs.Places.{place_of};
ghost use Rattle.just_recipe.specs.Recipes.{numbers, needs, find_number, DependenciesStandFirst, IsPlaceOf, IsNew, ShareNoNumber};

use just_names::Number;
use just_recipe::Recipe;
use std::alloc::{AllocError, AllocFailed, Global};
use std::collections::HashMap;
use std::marker::Model;
use std::mem::swap;

/// The recipes of a compilation, under their numbers: a list in which each stands after those that it depends on.
#[derive(Drop)]
pub struct Recipes<'src> {
    recipes: Vec<Recipe<'src>>,
    // The place of each recipe, by its number. A number that no recipe has may have a place too.
    places: HashMap<u64, usize>,
}

impl<'src> Model for Recipes<'src> {
    ghost use Rattle.std.specs.Prelude.{List, [], nat_eq};
    ghost use Rattle.std.specs.HashMap.{get};
    ghost use mir.Syntax.{erased};
    ghost use Rattle.std.specs.Coded.{codes};
    ghost use Rattle.just_recipe.specs.declared.dependency.Dependency.{Dependency};
    ghost use Rattle.just_recipe.specs.declared.recipe.Recipe.{Recipe};
    ghost use Rattle.just_ast_expressions.specs.contracts.expression.Shape as shape;
    ghost use Rattle.just_ast_expressions.specs.contracts.expression.Expression as expression;
    ghost use Rattle.just_recipe.specs.Recipes.{DependenciesStandFirst, IsNumberIndex};

    ghost Value = { List (Recipe Dependency) };

    ghost coded = { Prim.hlevel (codes, (shape.the_row (record { mir = erased; lft = [] })).coded, (expression.the_row (record { mir = erased; lft = [] })).coded) };

    ghost view = { λ r. r.recipes.items };

    ghost invariant = { λ r. DependenciesStandFirst r.recipes.items × IsNumberIndex r.recipes.items (get nat_eq r.places) };
}

impl<'src> Recipes<'src> {
    /// No recipes, which takes no memory.
    pub fn new(alloc: Global) -> Recipes<'src>
        ensures { result ≡ [] }
    {
        Recipes {
            recipes: Vec::new(alloc),
            places: HashMap::new(alloc),
        }
    }

    /// How many recipes there are.
    pub fn len(&self) -> usize
        ensures { result ≡ length self.now }
    {
        self.recipes.len()
    }

    /// Whether there are no recipes.
    pub fn is_empty(&self) -> bool
        ensures { IsTrue result ↔ (self.now ≡ []) }
    {
        self.recipes.is_empty()
    }

    /// The recipes, each after those that it depends on.
    pub fn as_slice(&self) -> &[Recipe<'src>]
        ensures { result.now ≡ self.now }
    {
        self.recipes.as_slice()
    }

    /// The place of the recipe of that number: each recipe stands after those that it depends on.
    pub fn place_of(&self, number: Number) -> Option<usize>
        ensures found { IfSome result (IsPlaceOf self.now number.0) }
        ensures first { IfSome result (λ place. place ≡ place_of self.now number.0) }
        ensures missing { IfNone result (IsNew self.now number.0) }
    {
        let Some(place) = self.places.get(&number.0).copied() else {
            return None;
        };
        if place < self.recipes.len() && self.recipes[place].number == number {
            return Some(place);
        }
        None
    }

    /// A law, which does nothing: each recipe has a number of its own, and stands after those that it depends on.
    pub fn are_ordered(&self)
        ensures { DependenciesStandFirst self.now }
    {
        let _ = &self.recipes;
    }

    /// The recipe of that number.
    pub fn get(&self, number: Number) -> Option<&Recipe<'src>>
        ensures { option_copied result ≡ find_number self.now number.0 }
    {
        match self.place_of(number) {
            Some(place) => Some(&self.recipes[place]),
            None => None,
        }
    }

    /// Puts a recipe at the end. A refused recipe comes back, and the others stand.
    pub fn push(&mut self, recipe: Recipe<'src>) -> Result<(), AllocFailed<Recipe<'src>>>
        requires is_new { IsNew self.old recipe.number.0 }
        requires there { All (Contains (numbers self.old)) (needs recipe) }
        ensures ok { OnOk result (self.new ≡ self.old ++ recipe.entry ∷ []) }
        ensures err { OnErr result (self.new ≡ self.old) }
        ensures returned { IfErr result (λ refused. refused.value ≡ recipe.entry) }
    {
        match self.places.insert(recipe.number.0, self.recipes.len()) {
            Ok(_) => self.recipes.push(recipe),
            Err(_) => Err(AllocFailed { value: recipe }),
        }
    }

    /// Moves the recipes of `other` to the end. Where memory is refused, both stand.
    pub fn append(&mut self, other: &mut Recipes<'src>) -> Result<(), AllocError>
        requires { ShareNoNumber self.old other.old }
        ensures ok { OnOk result (self.new ≡ self.old ++ other.old) }
        ensures emptied { OnOk result (other.new ≡ []) }
        ensures err { OnErr result (self.new ≡ self.old) }
        ensures other_stands { OnErr result (other.new ≡ other.old) }
    {
        if self.recipes.is_empty() {
            swap(self, other);
            return Ok(());
        }
        let start = self.recipes.len();
        index_all(other.recipes.as_slice(), start, &mut self.places)?;
        self.recipes.append(&mut other.recipes)
    }
}

// Puts the places of recipes, which begin at `start`, under their numbers. No other number has another place then.
fn index_all(
    recipes: &[Recipe],
    start: usize,
    places: &mut HashMap<u64, usize>,
) -> Result<(), AllocError>
    requires once { (i j : ℕ) → i < j → j < length recipes.now → slice_index (numbers recipes.now) i ≢ slice_index (numbers recipes.now) j }
    requires fits { start + length recipes.now < 2 ^ 64 }
    ensures placed { OnOk result ((k : ℕ) → k < length recipes.now → get nat_eq places.new (slice_index (numbers recipes.now) k) ≡ Some (start + k)) }
    ensures kept { (n : ℕ) → IsNew recipes.now n → get nat_eq places.new n ≡ get nat_eq places.old n }
{
    for (place, recipe) in recipes.iter().enumerate() {
        places.insert(recipe.number.0, start + place)?;
    }
    Ok(())
}
