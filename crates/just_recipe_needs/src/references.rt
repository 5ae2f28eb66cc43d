//! The numbers of the variables that recipes need.

ghost use Rattle.std.specs.Prelude.{◌≡◌, IfOk};
ghost use Rattle.just_name_resolution.specs.Lent.{tables_in};
ghost use Rattle.just_parts.specs.Needs.{has_number};
ghost use Rattle.just_module_contents.specs.RecipeNames.{written_scopes};
ghost use Rattle.just_recipe_needs.specs.Asked.{KnowsRight};
ghost use Rattle.just_recipe_needs.specs.Known.{AreRight, IsRight};
ghost use Rattle.just_module_contents.specs.Definitions.{recipes_in};
ghost use Rattle.just_recipe_needs.specs.Needed.{HasReferences, HaveReferences, NeedsUnder};

use crate::collection::{Sources, needed_numbers};
use crate::direct_names::{DirectNames, direct_names};
use just_data::{Sequence, Shared, Text};
use just_module_contents::definitions::Definitions;
use just_name_resolution::Tables;
use just_parts::UnresolvedRecipe;
use just_parts::layers::{Number, Settings, Syntax};
use std::alloc::{AllocError, Global};
use std::collections::HashMap;

/// What is asked for the numbers of the variables that recipes of a module need. It is made once for a module. Recipes that
/// name the same variables and functions share one list, which is made for the first of them.
#[derive(Drop)]
pub struct RecipeReferences<'a, 'src> {
    sources: Sources<'a, 'src>,
    // what names need that were asked for
    known: HashMap<DirectNames<'src>, Shared<Sequence<Number>>>,
}

// The numbers of what names need. Those that are not known yet are collected, and are known from then on. What is known stays
// right, also where memory is refused.
fn shared_numbers<'a, 'src>(
    alloc: Global,
    sources: &Sources<'a, 'src>,
    names: DirectNames<'src>,
    known: &mut HashMap<DirectNames<'src>, Shared<Sequence<Number>>>,
) -> Result<Shared<Sequence<Number>>, AllocError>
    requires { IsRight sources.now known.old }
    ensures right { IfOk result (AreRight sources.now names.entry) }
    ensures known { IsRight sources.now known.new }
{
    if let Some(numbers) = known.get(&names) {
        return Ok(numbers.clone()?);
    }
    let numbers = needed_numbers(alloc, sources, &names)?;
    let numbers = Shared::new(alloc, numbers)?;
    known.insert(names, numbers.clone()?)?;
    Ok(numbers)
}

impl<'a, 'src> RecipeReferences<'a, 'src> {
    /// For a module of these variables and functions, of which some are overridden. It takes no memory.
    pub fn new(
        alloc: Global,
        tables: Tables<'a, 'src>,
        overrides: &'a HashMap<Number, Text>,
    ) -> RecipeReferences<'a, 'src>
        ensures tables { result.sources.tables ≡ tables.entry }
        ensures overrides { result.sources.overrides ≡ overrides.entry }
        ensures right { KnowsRight result }
    {
        RecipeReferences {
            sources: Sources { tables, overrides },
            known: HashMap::new(alloc),
        }
    }

    /// The numbers of the variables that a recipe needs under the settings of its module, each once: those that it reads,
    /// also through functions, and of each that is not overridden those that its value needs. A parameter hides the variable
    /// of its name. Want of memory is the only error, after which this may be asked again.
    pub fn references_of<S: Syntax>(
        &mut self,
        alloc: Global,
        syntax: &S,
        settings: &Settings,
        recipe: &UnresolvedRecipe<'src>,
    ) -> Result<Shared<Sequence<Number>>, AllocError>
        requires { KnowsRight self.old }
        ensures needed { let scopes = written_scopes (S.answers syntax.now) settings.now recipe.now in
            let overridden = has_number self.old.sources.overrides.now in
            IfOk result (HasReferences (tables_in self.old.sources.tables) overridden scopes) }
        ensures sources { self.new.sources ≡ self.old.sources }
        ensures right { KnowsRight self.new }
    {
        let names = direct_names(alloc, &self.sources.tables, syntax, settings, recipe)?;
        let numbers = shared_numbers(alloc, &self.sources, names, &mut self.known)?;
        Ok(numbers)
    }
}

/// For each of these recipes of a module the numbers of the variables that it needs under the settings of the module, as
/// `references_of` says.
pub fn references_of_all<'a, 'b, 'src, S: Syntax>(
    alloc: Global,
    tables: Tables<'a, 'src>,
    overrides: &'a HashMap<Number, Text>,
    syntax: &S,
    settings: &Settings,
    recipes: &Definitions<'src, 'b>,
) -> Result<Vec<Shared<Sequence<Number>>>, AllocError>
    ensures { let needs = NeedsUnder (tables_in tables.entry) (has_number overrides.now) (S.answers syntax.now) settings.now in
        IfOk result (λ made. HaveReferences needs (recipes_in recipes.now) made.items) }
{
    let mut references = RecipeReferences::new(alloc, tables, overrides);
    let mut made = Vec::with_capacity(alloc, recipes.recipes.len())?;
    for place in 0..recipes.recipes.len() {
        let recipe = recipes.recipe_at(place);
        made.push(references.references_of(alloc, syntax, settings, recipe)?)?;
    }
    Ok(made)
}
