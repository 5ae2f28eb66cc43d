//! Where names lead.
ghost use Rattle.std.specs.Prelude.{◌≡◌, ◌≤◌, ◌<◌, [], true, IfOk, IfErr, IfSome, length, take, drop};
ghost use Rattle.std.specs.Option.{option_copied};
ghost use Rattle.just_names.specs.Texts.{texts};
ghost use Rattle.just_errors.specs.declared.error.Error.TheVariants as error;
ghost use Rattle.just_errors.specs.declared.invocation_error.InvocationError.TheVariants as fault;
ghost use Rattle.just_justfile.specs.Closed.{default_recipe, resolved_name};
ghost use Rattle.just_justfile.specs.Walks.{AreModulesOrdered};
ghost use Rattle.just_justfile.specs.declared.justfile.Justfile.{out-Justfile};
ghost use Rattle.just_invocations.specs.Cause.{cause_of, IsOfWords};
ghost use Rattle.just_invocations.specs.Meaning.{meaning};
ghost use Rattle.just_invocations.specs.loops.Meaning.{meaning_of};
ghost use Rattle.just_invocations.specs.Head.{goes_on, absolute_path_of, TakesDefault, NoDefault, WordsLead, WordsMislead};
ghost use Rattle.just_invocations.specs.loops.Head.{BadName, IsStep, IsEnd, IsNoEnd};

use crate::lookup::{Found, look_up};
use crate::texts::{names_text, path_texts, place_text};
use just_data::BorrowedText;
use just_justfile::Justfile;
use just_parts::Recipe;
use just_parts::layers::{Error, InvocationError};
use just_recipes::Recipes;
use std::alloc::Global;

// The recipe that is run where the names end in the module.
fn default_recipe<'run, 'src>(
    recipes: &'run Recipes<'src>,
    here: &Justfile<'src>,
) -> Option<&'run Recipe<'src>>
    ensures { option_copied result ≡ default_recipe here.now recipes.now }
{
    match here.default {
        Some(number) => recipes.get(number),
        None => None,
    }
}

// Why a recipe that needs arguments is no default.
fn default_requires<'src>(recipe: &Recipe<'src>, min_arguments: usize) -> Error<'src>
    ensures { result ≡ error.Invocation (fault.DefaultRecipeRequiresArguments (resolved_name recipe.now) min_arguments) }
{
    Error::Invocation(InvocationError::DefaultRecipeRequiresArguments {
        recipe: BorrowedText::new(recipe.name.lexeme()),
        min_arguments,
    })
}

// The default of a module, which needs no argument.
fn take_default<'run, 'src>(
    recipes: &'run Recipes<'src>,
    here: &Justfile<'src>,
) -> Result<&'run Recipe<'src>, Error<'src>>
    ensures ok { IfOk result (λ r. TakesDefault recipes.now here.now r.now) }
    ensures err { IfErr result (λ e. IfSome (cause_of e) (NoDefault (out-Justfile here.now).recipes (default_recipe here.now recipes.now))) }
    ensures words { IfErr result (λ e. IsOfWords e) }
{
    match default_recipe(recipes, here) {
        Some(recipe) => {
            let min_arguments = recipe.min_arguments();
            if min_arguments == 0 {
                Ok(recipe)
            } else {
                Err(default_requires(recipe, min_arguments))
            }
        }
        None => {
            if here.recipes.is_empty() {
                Err(Error::Invocation(InvocationError::NoRecipes))
            } else {
                Err(Error::Invocation(InvocationError::NoDefaultRecipe))
            }
        }
    }
}

// Whether names of one word follow.
fn goes_on(one: bool, names: &[&str]) -> bool
    ensures { result ≡ goes_on one (texts names.now) }
{
    match names {
        [] => false,
        _ => one,
    }
}

/// Where a name leads: on from a module, or to the recipe that ends the names.
pub(crate) enum Step<'run, 'src> {
    /// On from a module.
    On(&'run Justfile<'src>),
    /// To the recipe that ends the names.
    End(&'run Recipe<'src>),
}

// Where the name leads that was found to be this. `one` says that the names are one word, `go` that others of it follow, and
// `path` are the names so far.
fn take_name<'run, 'src>(
    alloc: Global,
    found: Found<'run, 'src>,
    here: &Justfile<'src>,
    one: bool,
    go: bool,
    path: &[&str],
    name: &str,
) -> Result<Step<'run, 'src>, Error<'src>>
    ensures ok { IfOk result (λ s. IsStep (meaning_of found.entry) go s) }
    ensures err { IfErr result (λ e. IfSome (cause_of e) (BadName (meaning_of found.entry) one go (texts path.now) (absolute_path_of here.now name.now))) }
    ensures words { IfErr result (λ e. IsOfWords e) }
{
    match found {
        Found::Module(next) => Ok(Step::On(next)),
        Found::Recipe(recipe) => {
            if go {
                return Err(Error::Invocation(InvocationError::ExpectedSubmoduleButFoundRecipe {
                    path: names_text(alloc, path, false)?,
                }));
            }
            Ok(Step::End(recipe))
        }
        Found::DisabledRecipe(modules) => Err(Error::Invocation(InvocationError::RecipeDisabled {
            recipe: names_text(alloc, path, !one)?,
            modules: path_texts(alloc, modules)?,
        })),
        Found::DisabledAlias(modules) => Err(Error::Invocation(InvocationError::AliasDisabled {
            alias: names_text(alloc, path, !one)?,
            modules: path_texts(alloc, modules)?,
        })),
        Found::AbsentModule => Err(Error::Invocation(InvocationError::ModuleAbsent {
            module: place_text(alloc, here, name)?,
        })),
        Found::Nothing => {
            if go {
                return Err(Error::Invocation(InvocationError::UnknownSubmodule {
                    path: names_text(alloc, path, false)?,
                }));
            }
            Err(Error::Invocation(InvocationError::UnknownRecipe {
                recipe: names_text(alloc, path, !one)?,
            }))
        }
    }
}

// So many words from the first on.
fn before<'a, 'words>(words: &'a [&'words str], taken: usize) -> &'a [&'words str]
    requires { taken ≤ length words.now }
    ensures { result.now ≡ take taken words.now }
{
    &words[..taken]
}

/// The words after so many.
pub(crate) fn after<'a, 'words>(words: &'a [&'words str], taken: usize) -> &'a [&'words str]
    requires { taken ≤ length words.now }
    ensures { result.now ≡ drop taken words.now }
{
    &words[taken..]
}

// Where a name leads from a module. `one` says that the names are one word, `go` that others of it follow, and `path` are the
// names so far.
fn next_step<'run, 'src>(
    alloc: Global,
    root: &'run Justfile<'src>,
    recipes: &'run Recipes<'src>,
    here: &'run Justfile<'src>,
    one: bool,
    go: bool,
    path: &[&str],
    name: &str,
) -> Result<Step<'run, 'src>, Error<'src>>
    requires root { AreModulesOrdered root.now }
    requires here { AreModulesOrdered here.now }
    ensures ok { IfOk result (λ s. IsStep (meaning root.now recipes.now here.now name.now) go s) }
    ensures err { let bad = BadName (meaning root.now recipes.now here.now name.now) one go (texts path.now) (absolute_path_of here.now name.now) in
        IfErr result (λ e. IfSome (cause_of e) bad) }
    ensures words { IfErr result (λ e. IsOfWords e) }
{
    let found = look_up(root, recipes, here, name);
    take_name(alloc, found, here, one, go, path, name)
}

// The recipe to which names lead that end here, and how many they are.
fn end<'run, 'src>(
    recipes: &'run Recipes<'src>,
    place: Step<'run, 'src>,
    count: usize,
) -> Result<(&'run Recipe<'src>, usize), Error<'src>>
    ensures ok { IfOk result (λ found. (found.1 ≡ count) × IsEnd recipes.now place.entry found.0.now) }
    ensures err { IfErr result (λ e. IfSome (cause_of e) (IsNoEnd recipes.now place.entry)) }
    ensures words { IfErr result (λ e. IsOfWords e) }
{
    match place {
        Step::On(here) => match take_default(recipes, here) {
            Ok(recipe) => Ok((recipe, count)),
            Err(e) => Err(e),
        },
        Step::End(recipe) => Ok((recipe, count)),
    }
}

/// Walks the names: the recipe to which they lead from the root, and how many of them do. `one` says that they are one word.
pub(crate) fn walk<'run, 'src>(
    alloc: Global,
    root: &'run Justfile<'src>,
    recipes: &'run Recipes<'src>,
    one: bool,
    names: &[&str],
) -> Result<(&'run Recipe<'src>, usize), Error<'src>>
    requires { AreModulesOrdered root.now }
    ensures within { IfOk result (λ found. found.1 ≤ length names.now) }
    ensures moves { IfOk result (λ found. 0 < length names.now → 0 < found.1) }
    ensures whole { IfOk result (λ found. one ≡ true → found.1 ≡ length names.now) }
    ensures ok { IfOk result (λ found. WordsLead root.now recipes.now root.now (texts (take found.1 names.now)) (texts (drop found.1 names.now)) found.0.now) }
    ensures err { IfErr result (λ e. IfSome (cause_of e) (WordsMislead root.now recipes.now root.now one [] (texts names.now))) }
    ensures words { IfErr result (λ e. IsOfWords e) }
{
    let mut place = Step::On(root);
    for at in 0..names.len() {
        match place {
            Step::On(here) => {
                let go = goes_on(one, after(names, at + 1));
                let path = before(names, at + 1);
                match next_step(alloc, root, recipes, here, one, go, path, names[at]) {
                    Ok(step) => place = step,
                    Err(e) => return Err(e),
                }
            }
            Step::End(recipe) => return Ok((recipe, at)),
        }
    }
    end(recipes, place, names.len())
}
