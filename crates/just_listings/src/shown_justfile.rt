//! A whole module as it is written.
ghost use Rattle.std.specs.Prelude.{◌≡◌, map, true, OnOk, Some};
ghost use Rattle.std.specs.Fmt.{◌++?◌, DisplaysOnOk, WritesOnOk};
ghost use Rattle.std.specs.List.{filter_map};
ghost use Rattle.std.specs.Map.{values_of};
ghost use Rattle.just_ast_definitions.specs.DefinitionTexts.{assignment_text};
ghost use Rattle.just_ast_definitions.specs.declared.assignment.Assignment.{Assignment};
ghost use Rattle.just_listings.specs.Public.{recipes_named};
ghost use Rattle.just_listings.specs.Shown as spec;

use just_ast_definitions::ShownAlias;
use just_justfile::{Justfile, RecipeAlias, RecipeKey};
use just_parts::layers::Assignment;
use just_recipes::Recipes;
use just_table::Table;
use std::fmt;

/// A module, and the recipes that its aliases and its table of recipes mean. It is shown as its text, which is written through.
#[derive(Drop)]
pub struct ShownJustfile<'a, 'src> {
    /// The module.
    pub justfile: &'a Justfile<'src>,
    /// The recipes of the compilation.
    pub recipes: &'a Recipes<'src>,
}

/// What is shown as the whole text of a module: its variables, its aliases of recipes and its recipes, of these, each in the order
/// of names, with an empty line between any two. It takes no memory, and nor does it to write it.
pub fn shown<'a, 'src>(
    justfile: &'a Justfile<'src>,
    recipes: &'a Recipes<'src>,
) -> ShownJustfile<'a, 'src>
    ensures same { result.justfile.now ≡ justfile.now }
    ensures held { result.recipes.now ≡ recipes.now }
{
    ShownJustfile { justfile, recipes }
}

// What stands before a text: an empty line, unless it is the first.
fn gap_after(begun: bool) -> &'static str
    ensures { result.now ≡ spec.gap_after begun }
{
    if begun { "\n\n" } else { "" }
}

// Writes one more text.
fn write_next<W: fmt::Write, T: fmt::Display>(
    f: &mut fmt::Formatter<W>,
    begun: &mut bool,
    item: &T,
) -> fmt::Result
    ensures text { DisplaysOnOk W.write_str_gives f.old result (Some (spec.gap_after begun.old) ++? T.output item.now) f.new }
    ensures begun { begun.new ≡ true }
{
    let gap = gap_after(*begun);
    *begun = true;
    write!(f, "{gap}{item}")
}

// Writes variables.
fn write_variables<'src, W: fmt::Write>(
    f: &mut fmt::Formatter<W>,
    begun: &mut bool,
    assignments: &Table<'src, Assignment<'src>>,
) -> fmt::Result
    ensures text { let texts = map (λ (a : Assignment). assignment_text a) (values_of assignments.now) in
        WritesOnOk W.write_str_gives f.old result (spec.shown_after begun.old texts) f.new }
    ensures begun { let texts = map (λ (a : Assignment). assignment_text a) (values_of assignments.now) in
        OnOk result (begun.new ≡ spec.stands_after begun.old texts) }
{
    for assignment in assignments.values() {
        write_next(f, begun, assignment)?;
    }
    Ok(())
}

// Writes aliases of recipes that are held, each with the name of its recipe.
fn write_aliases<'src, W: fmt::Write>(
    f: &mut fmt::Formatter<W>,
    begun: &mut bool,
    recipes: &Recipes<'src>,
    aliases: &Table<'src, RecipeAlias<'src>>,
) -> fmt::Result
    ensures text { let texts = filter_map (spec.alias_shown recipes.now) (values_of aliases.now) in
        WritesOnOk W.write_str_gives f.old result (spec.shown_after begun.old texts) f.new }
    ensures begun { let texts = filter_map (spec.alias_shown recipes.now) (values_of aliases.now) in
        OnOk result (begun.new ≡ spec.stands_after begun.old texts) }
{
    for alias in aliases.values() {
        let Some(recipe) = recipes.get(alias.target) else {
            continue;
        };
        let shown = ShownAlias {
            name: &alias.name,
            target: &recipe.name,
        };
        write_next(f, begun, &shown)?;
    }
    Ok(())
}

// Writes the recipes that a table names and that are held.
fn write_recipes<'src, W: fmt::Write>(
    f: &mut fmt::Formatter<W>,
    begun: &mut bool,
    recipes: &Recipes<'src>,
    named: &Table<'src, RecipeKey<'src>>,
) -> fmt::Result
    ensures { let texts = map spec.recipe_shown (recipes_named recipes.now (values_of named.now)) in
        WritesOnOk W.write_str_gives f.old result (spec.shown_after begun.old texts) f.new }
{
    for key in named.values() {
        let Some(recipe) = recipes.get(key.number) else {
            continue;
        };
        write_next(f, begun, recipe)?;
    }
    Ok(())
}

impl<'a, 'src> fmt::Display for ShownJustfile<'a, 'src> {
    ghost use Rattle.std.specs.Prelude.{Some};
    ghost use Rattle.just_listings.specs.Shown.{shown_text};

    ghost output = { λ shown. Some (shown_text shown.recipes.now shown.justfile.now) };

    fn fmt<W: fmt::Write>(&self, f: &mut fmt::Formatter<W>) -> fmt::Result {
        let mut begun = false;
        write_variables(f, &mut begun, &self.justfile.assignments)?;
        write_aliases(f, &mut begun, self.recipes, &self.justfile.aliases.recipes)?;
        write_recipes(f, &mut begun, self.recipes, &self.justfile.recipes)
    }
}
