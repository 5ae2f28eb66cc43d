//! The groups that listings show.
ghost use Rattle.std.specs.Prelude.{◌≡◌, ◌++◌, flat_map, map, IfOk, OnOk};
ghost use Rattle.std.specs.List.{filter};
ghost use Rattle.std.specs.Option.{option_copied};
ghost use Rattle.just_justfile.specs.declared.justfile.Justfile.{out-Justfile};
ghost use Rattle.just_recipe_run.specs.Calls.{is_public};
ghost use Rattle.just_listings.specs.Groups as spec;
ghost use Rattle.just_listings.specs.Order.{referents, placed_item};
ghost use Rattle.just_listings.specs.Public.{is_public_module, own_recipes};

use crate::modules::{place_of_module, public_modules};
use crate::order::Placed;
use crate::recipes::{place_of_recipe, public_recipes};
use just_data::Text;
use just_justfile::Justfile;
use just_parts::Recipe;
use just_parts::layers::Attribute;
use just_recipes::Recipes;
use std::alloc::{AllocError, Global};
use std::cmp::Ordering;
use std::collections::{BTreeSet, HashSet};

// The group that an attribute names.
fn group_said<'a, 'src>(attribute: &'a Attribute<'src>) -> Option<&'a Text>
    ensures { option_copied result ≡ spec.group_said attribute.now }
{
    match attribute {
        Attribute::Group(group) => Some(&group.cooked),
        _ => None,
    }
}

/// The groups of a recipe, each once and in byte order.
pub(crate) fn recipe_groups<'src>(
    alloc: Global,
    recipe: &Recipe<'src>,
) -> Result<BTreeSet<Text>, AllocError>
    ensures { IfOk result (λ groups. spec.AreGroupsOf recipe.now groups.keys) }
{
    let mut groups = BTreeSet::new(alloc);
    for named in recipe.attributes.as_slice() {
        if let Some(group) = group_said(&named.attribute) {
            groups.insert(group.clone()?)?;
        }
    }
    Ok(groups)
}

// Adds the groups of a recipe, each where the recipe stands.
fn add_recipe_groups<'src>(
    alloc: Global,
    groups: &mut Vec<Placed<Text>>,
    recipe: &Recipe<'src>,
) -> Result<(), AllocError>
    ensures { OnOk result (groups.new.items ≡ groups.old.items ++ spec.recipe_groups recipe.now) }
{
    for named in recipe.attributes.as_slice() {
        if let Some(group) = group_said(&named.attribute) {
            groups.push(Placed {
                place: place_of_recipe(alloc, recipe)?,
                item: group.clone()?,
            })?;
        }
    }
    Ok(())
}

// Adds the groups of a module, each where the module is declared.
fn add_module_groups<'src>(
    alloc: Global,
    groups: &mut Vec<Placed<Text>>,
    justfile: &Justfile<'src>,
) -> Result<(), AllocError>
    ensures { OnOk result (groups.new.items ≡ groups.old.items ++ spec.module_groups justfile.now) }
{
    for group in justfile.groups.as_slice() {
        groups.push(Placed {
            place: place_of_module(alloc, justfile),
            item: group.cooked.clone()?,
        })?;
    }
    Ok(())
}

// Adds the groups of the public recipes of a module.
fn add_groups_of_recipes<'src>(
    alloc: Global,
    groups: &mut Vec<Placed<Text>>,
    recipes: &Recipes<'src>,
    justfile: &Justfile<'src>,
) -> Result<(), AllocError>
    ensures { OnOk result (groups.new.items ≡ groups.old.items ++ flat_map spec.recipe_groups (filter is_public (own_recipes recipes.now justfile.now))) }
{
    let found = public_recipes(alloc, false, recipes, justfile)?;
    for at in 0..found.len() {
        add_recipe_groups(alloc, groups, &*found[at])?;
    }
    Ok(())
}

// Adds the groups of the public modules of a module.
fn add_groups_of_modules<'src>(
    alloc: Global,
    groups: &mut Vec<Placed<Text>>,
    justfile: &Justfile<'src>,
) -> Result<(), AllocError>
    ensures { OnOk result (groups.new.items ≡ groups.old.items ++ flat_map spec.module_groups (filter is_public_module (out-Justfile justfile.now).modules)) }
{
    let modules = public_modules(alloc, false, justfile)?;
    for at in 0..modules.len() {
        add_module_groups(alloc, groups, &*modules[at])?;
    }
    Ok(())
}

// How two groups follow unsorted.
fn compare_groups(one: &Placed<Text>, other: &Placed<Text>) -> Ordering
    ensures { result ≡ spec.group_order one.now other.now }
{
    one.place.cmp(&other.place).then(one.item.cmp(&other.item))
}

// The groups in the order that is asked for.
fn ordered_groups(
    unsorted: bool,
    mut groups: Vec<Placed<Text>>,
) -> Result<Vec<Placed<Text>>, AllocError>
    ensures { IfOk result (λ ordered. spec.AreGroupsInOrder unsorted groups.items ordered.items) }
{
    if unsorted {
        groups.sort_by(|one, other| compare_groups(one, other))?;
    } else {
        groups.sort_by(|one, other| one.item.cmp(&other.item))?;
    }
    Ok(groups)
}

// The groups, each only where it stands first.
fn first_groups(alloc: Global, groups: &[Placed<Text>]) -> Result<Vec<Text>, AllocError>
    ensures { IfOk result (λ texts. texts.items ≡ spec.firsts (map placed_item groups.now)) }
{
    let mut seen = HashSet::new(alloc);
    let mut texts = Vec::new(alloc);
    for group in groups {
        if seen.insert(group.item.clone()?)? {
            texts.push(group.item.clone()?)?;
        }
    }
    Ok(texts)
}

/// The groups of the public recipes and of the public modules of a module, each once: in the order of their texts, or unsorted
/// in that of where they stand first.
pub(crate) fn public_groups<'src>(
    alloc: Global,
    unsorted: bool,
    recipes: &Recipes<'src>,
    justfile: &Justfile<'src>,
) -> Result<Vec<Text>, AllocError>
    ensures { IfOk result (λ texts. spec.ArePublicGroups unsorted recipes.now justfile.now texts.items) }
{
    let mut groups = Vec::new(alloc);
    add_groups_of_recipes(alloc, &mut groups, recipes, justfile)?;
    add_groups_of_modules(alloc, &mut groups, justfile)?;
    let ordered = ordered_groups(unsorted, groups)?;
    let texts = first_groups(alloc, ordered.as_slice())?;
    Ok(texts)
}

/// The groups of a module, in order.
pub(crate) fn group_texts<'run, 'src>(
    alloc: Global,
    justfile: &'run Justfile<'src>,
) -> Result<Vec<&'run str>, AllocError>
    ensures { IfOk result (λ groups. referents groups.items ≡ spec.group_texts justfile.now) }
{
    let mut groups = Vec::new(alloc);
    for group in justfile.groups.as_slice() {
        groups.push(group.cooked.as_str())?;
    }
    Ok(groups)
}
