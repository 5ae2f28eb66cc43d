//! What command words mean.
ghost use Rattle.std.specs.Prelude.{◌≡◌, ◌≤◌, ◌<◌, [], Some, IfOk, IfErr, IfSome, option_map, map, length, take, drop};
ghost use Rattle.std.specs.List.{All};
ghost use Rattle.just_names.specs.Texts.{texts};
ghost use Rattle.just_parts.specs.Evaluator.{count_fault_of};
ghost use Rattle.just_tail.specs.Cause as tail;
ghost use Rattle.just_tail.specs.Words.{as_texts};
ghost use Rattle.just_justfile.specs.Closed.{IsHeld, resolved_name};
ghost use Rattle.just_justfile.specs.Walks.{AreModulesOrdered};
ghost use Rattle.just_invocations.specs.Cause.{cause_of, with_recipe, IsOfWords};
ghost use Rattle.just_invocations.specs.Split.{RecipeTakesArguments, NoArguments, invoked_of, Invokes, Chain, IsSplit, NoInvocation, HasWordsFault};

use crate::head::parse_head;
use crate::invocation::Invocation;
use crate::walk::after;
use just_data::BorrowedText;
use just_justfile::Justfile;
use just_parts::Recipe;
use just_parts::layers::{ConstantEvaluation, Error, InvocationError};
use just_recipes::Recipes;
use just_tail::{Tail, TailError, take_arguments};
use std::alloc::Global;

/// Reads command words as invocations of recipes.
pub struct InvocationParser;

impl InvocationParser {
    /// The invocations that the words are: the root's default where there are no words, else as many as it takes to use
    /// every word, each at least one. An invocation is the head, which names a recipe by a path or by names in turn, through
    /// modules and aliases, and the words that its recipe takes after it: options, and positional arguments. The groups of an
    /// invocation borrow its words, one group for each parameter.
    ///
    /// An error is `Memory`, or says why the first invocation that cannot be read is none. Nothing is changed either way.
    ///
    /// The names of the modules in the root rise in byte order, in each module (those of a compilation do).
    pub fn parse_invocations<'run, 'src, 'words, E: ConstantEvaluation>(
        alloc: Global,
        root: &'run Justfile<'src>,
        recipes: &'run Recipes<'src>,
        evaluation: &E,
        words: &[&'words str],
    ) -> Result<Vec<Invocation<'run, 'src, 'words>>, Error<'src>>
        requires { AreModulesOrdered root.now }
        ensures split { let splits = IsSplit (count_fault_of (E.answers evaluation.now)) root.now recipes.now (texts words.now) in
            IfOk result (λ found. splits (map invoked_of found.items)) }
        ensures held { IfOk result (λ found. All (λ i. IsHeld recipes.now i.recipe.now) found.items) }
        ensures fault { let counts = count_fault_of (E.answers evaluation.now) in
            IfErr result (λ e. IfSome (cause_of e) (HasWordsFault counts root.now recipes.now (texts words.now))) }
        ensures words { IfErr result (λ e. IsOfWords e) }
    {
        if words.is_empty() {
            parse_none(alloc, root, recipes, evaluation, words)
        } else {
            parse_some(alloc, root, recipes, evaluation, words)
        }
    }
}

// The error of a recipe whose words are refused, with its name.
fn rejected<'src>(recipe: &Recipe<'src>, error: TailError<'src>) -> Error<'src>
    ensures cause { IfSome (cause_of result) (λ cause. option_map (with_recipe (resolved_name recipe.now)) (tail.tail_cause_of error.entry) ≡ Some cause) }
    ensures words { IsOfWords result }
{
    let recipe = BorrowedText::new(recipe.name.lexeme());
    Error::Invocation(match error {
        TailError::Memory => return Error::Memory,
        TailError::InvalidOption { argument } => InvocationError::InvalidOption { argument },
        TailError::UnknownOption { switch } => InvocationError::UnknownOption { recipe, switch },
        TailError::FlagWithValue { switch } => InvocationError::FlagWithValue { recipe, switch },
        TailError::OptionMissingValue { switch } => {
            InvocationError::OptionMissingValue { recipe, switch }
        }
        TailError::DuplicateOption { switch } => {
            InvocationError::DuplicateOption { recipe, switch }
        }
        TailError::MissingOption { switch } => InvocationError::MissingOption { recipe, switch },
        TailError::PositionalArgumentCountMismatch { found, min, max } => {
            InvocationError::PositionalArgumentCountMismatch {
                recipe,
                found,
                min,
                max,
            }
        }
        TailError::ValueCount { parameter, fault } => InvocationError::ValueCount {
            recipe,
            parameter,
            fault,
        },
        TailError::ArgumentPatternMismatch {
            parameter,
            argument,
        } => InvocationError::ArgumentPatternMismatch {
            recipe,
            parameter,
            argument,
        },
    })
}

// The arguments of a recipe with which the words begin.
fn take_tail<'src, 'words, E: ConstantEvaluation>(
    alloc: Global,
    evaluation: &E,
    recipe: &Recipe<'src>,
    words: &[&'words str],
) -> Result<Tail<'words>, TailError<'src>>
    ensures within { IfOk result (λ t. t.taken ≤ length words.now) }
    ensures ok { let takes = RecipeTakesArguments (count_fault_of (E.answers evaluation.now)) recipe.now in
        IfOk result (λ t. takes (texts (take t.taken words.now)) (texts (drop t.taken words.now)) (as_texts t.groups.items)) }
    ensures err { IfErr result (λ e. IfSome (tail.tail_cause_of e) (NoArguments (count_fault_of (E.answers evaluation.now)) recipe.now (texts words.now))) }
{
    take_arguments(
        alloc,
        evaluation,
        recipe.name.lexeme(),
        recipe.parameters.as_slice(),
        words,
    )
}

// The invocation with which the words begin, and how many words it takes.
fn parse_invocation<'run, 'src, 'words, E: ConstantEvaluation>(
    alloc: Global,
    root: &'run Justfile<'src>,
    recipes: &'run Recipes<'src>,
    evaluation: &E,
    words: &[&'words str],
) -> Result<(Invocation<'run, 'src, 'words>, usize), Error<'src>>
    requires { AreModulesOrdered root.now }
    ensures within { IfOk result (λ found. found.1 ≤ length words.now) }
    ensures moves { IfOk result (λ found. 0 < length words.now → 0 < found.1) }
    ensures ok { let invokes = Invokes (count_fault_of (E.answers evaluation.now)) root.now recipes.now (texts words.now) in
        IfOk result (λ found. invokes (texts (drop found.1 words.now)) (invoked_of found.0)) }
    ensures err { IfErr result (λ e. IfSome (cause_of e) (NoInvocation (count_fault_of (E.answers evaluation.now)) root.now recipes.now (texts words.now))) }
    ensures words { IfErr result (λ e. IsOfWords e) }
{
    let (recipe, named) = match parse_head(alloc, root, recipes, words) {
        Ok(found) => found,
        Err(e) => return Err(e),
    };
    match take_tail(alloc, evaluation, recipe, after(words, named)) {
        Ok(tail) => {
            return Ok((
                Invocation {
                    recipe,
                    arguments: tail.groups,
                },
                named + tail.taken,
            ));
        }
        Err(e) => return Err(rejected(recipe, e)),
    }
}

// The one invocation that no words are.
fn parse_none<'run, 'src, 'words, E: ConstantEvaluation>(
    alloc: Global,
    root: &'run Justfile<'src>,
    recipes: &'run Recipes<'src>,
    evaluation: &E,
    words: &[&'words str],
) -> Result<Vec<Invocation<'run, 'src, 'words>>, Error<'src>>
    requires root { AreModulesOrdered root.now }
    requires none { words.now ≡ [] }
    ensures split { let splits = IsSplit (count_fault_of (E.answers evaluation.now)) root.now recipes.now (texts words.now) in
        IfOk result (λ found. splits (map invoked_of found.items)) }
    ensures fault { let counts = count_fault_of (E.answers evaluation.now) in
        IfErr result (λ e. IfSome (cause_of e) (HasWordsFault counts root.now recipes.now (texts words.now))) }
    ensures words { IfErr result (λ e. IsOfWords e) }
{
    match parse_invocation(alloc, root, recipes, evaluation, words) {
        Ok((invocation, _)) => {
            let mut invocations = Vec::new(alloc);
            invocations.push(invocation)?;
            Ok(invocations)
        }
        Err(e) => Err(e),
    }
}

// The invocations that some words are.
fn parse_some<'run, 'src, 'words, E: ConstantEvaluation>(
    alloc: Global,
    root: &'run Justfile<'src>,
    recipes: &'run Recipes<'src>,
    evaluation: &E,
    words: &[&'words str],
) -> Result<Vec<Invocation<'run, 'src, 'words>>, Error<'src>>
    requires root { AreModulesOrdered root.now }
    requires some { 0 < length words.now }
    ensures chain { let chain = Chain (count_fault_of (E.answers evaluation.now)) root.now recipes.now (texts words.now) in
        IfOk result (λ found. chain (map invoked_of found.items) []) }
    ensures fault { let counts = count_fault_of (E.answers evaluation.now) in
        IfErr result (λ e. IfSome (cause_of e) (HasWordsFault counts root.now recipes.now (texts words.now))) }
    ensures words { IfErr result (λ e. IsOfWords e) }
{
    let mut invocations = Vec::new(alloc);
    let mut next = 0;
    while next < words.len() {
        match parse_invocation(alloc, root, recipes, evaluation, after(words, next)) {
            Ok((invocation, taken)) => {
                invocations.push(invocation)?;
                next += taken;
            }
            Err(e) => return Err(e),
        }
    }
    Ok(invocations)
}
