//! The front of the words that names a recipe.
ghost use Rattle.std.specs.Prelude.{◌≤◌, ◌<◌, [], true, IfOk, IfErr, IfSome, length, take, drop};
ghost use Rattle.just_names.specs.Texts.{texts};
ghost use Rattle.just_justfile.specs.Walks.{AreModulesOrdered};
ghost use Rattle.just_invocations.specs.Cause.{cause_of, IsOfWords};
ghost use Rattle.just_invocations.specs.Head.{WordsLead, WordsMislead, PathLeads, NoPath, IsHead, NoHead};

use crate::paths::{as_words, contains_colon, path_word};
use crate::walk::walk;
use just_data::Text;
use just_justfile::Justfile;
use just_parts::Recipe;
use just_parts::layers::{Error, InvocationError};
use just_recipes::Recipes;
use std::alloc::Global;

// Walks all the names, which are one word.
fn walk_path<'run, 'src>(
    alloc: Global,
    root: &'run Justfile<'src>,
    recipes: &'run Recipes<'src>,
    names: &[&str],
) -> Result<&'run Recipe<'src>, Error<'src>>
    requires { AreModulesOrdered root.now }
    ensures ok { IfOk result (λ r. WordsLead root.now recipes.now root.now (texts names.now) [] r.now) }
    ensures err { IfErr result (λ e. IfSome (cause_of e) (WordsMislead root.now recipes.now root.now true [] (texts names.now))) }
    ensures words { IfErr result (λ e. IsOfWords e) }
{
    match walk(alloc, root, recipes, true, names) {
        Ok((recipe, _)) => Ok(recipe),
        Err(e) => Err(e),
    }
}

// The recipe to which a word with a colon leads.
fn parse_path<'run, 'src>(
    alloc: Global,
    root: &'run Justfile<'src>,
    recipes: &'run Recipes<'src>,
    word: &str,
    last: bool,
) -> Result<&'run Recipe<'src>, Error<'src>>
    requires { AreModulesOrdered root.now }
    ensures ok { IfOk result (λ r. PathLeads root.now recipes.now last word.now r.now) }
    ensures err { IfErr result (λ e. IfSome (cause_of e) (NoPath root.now recipes.now last word.now)) }
    ensures words { IfErr result (λ e. IsOfWords e) }
{
    match path_word(alloc, word, last)? {
        Ok(path) => {
            let names = as_words(alloc, path.components.as_slice())?;
            match walk_path(alloc, root, recipes, &names) {
                Ok(recipe) => Ok(recipe),
                Err(e) => Err(e),
            }
        }
        Err(()) => Err(Error::Invocation(InvocationError::UnknownRecipe {
            recipe: Text::from_str(alloc, word)?,
        })),
    }
}

/// The recipe that a front of the words names, and how many words do.
pub(crate) fn parse_head<'run, 'src>(
    alloc: Global,
    root: &'run Justfile<'src>,
    recipes: &'run Recipes<'src>,
    words: &[&str],
) -> Result<(&'run Recipe<'src>, usize), Error<'src>>
    requires { AreModulesOrdered root.now }
    ensures within { IfOk result (λ found. found.1 ≤ length words.now) }
    ensures moves { IfOk result (λ found. 0 < length words.now → 0 < found.1) }
    ensures ok { IfOk result (λ found. IsHead root.now recipes.now (texts (take found.1 words.now)) (texts (drop found.1 words.now)) found.0.now) }
    ensures err { IfErr result (λ e. IfSome (cause_of e) (NoHead root.now recipes.now (texts words.now))) }
    ensures words { IfErr result (λ e. IsOfWords e) }
{
    let Some((word, rest)) = words.split_first() else {
        return walk(alloc, root, recipes, false, words);
    };
    if !contains_colon(word) {
        return walk(alloc, root, recipes, false, words);
    }
    match parse_path(alloc, root, recipes, word, rest.is_empty()) {
        Ok(recipe) => Ok((recipe, 1)),
        Err(e) => Err(e),
    }
}
