//! The arguments with which words begin.
ghost use Rattle.std.specs.Prelude.{◌≤◌, IfOk, IfErr, IfSome, length, take, drop};
ghost use Rattle.just_names.specs.Texts.{texts};
ghost use Rattle.just_parts.specs.Evaluator.{count_fault_of};
ghost use Rattle.just_tail.specs.Words.{as_texts};
ghost use Rattle.just_tail.specs.Cause.{tail_cause_of};
ghost use Rattle.just_tail.specs.Checks.{TakesArguments, StopsTail};
ghost use Rattle.just_tail.specs.Tail.{IsTail};

use crate::checks::{check_groups, check_present};
use crate::error::TailError;
use crate::tail::{Tail, read_tail};
use just_ast_definitions::Parameter;
use just_parts::layers::ConstantEvaluation;
use std::alloc::Global;

/// The arguments of a recipe, which is told by its name, with which the words begin: a tail, whose groups are right.
///
/// An error is `Memory`, or says which option is none; or else what is missing; or else which parameter has a wrong count of
/// texts, or a text that its pattern does not match.
pub fn take_arguments<'src, 'words, E: ConstantEvaluation>(
    alloc: Global,
    evaluation: &E,
    recipe: &str,
    parameters: &[Parameter<'src>],
    words: &[&'words str],
) -> Result<Tail<'words>, TailError<'src>>
    ensures within { IfOk result (λ t. t.taken ≤ length words.now) }
    ensures tail { IfOk result (λ t. IsTail parameters.now (texts (take t.taken words.now)) (texts (drop t.taken words.now)) t.found
        (as_texts t.groups.items)) }
    ensures ok { IfOk result (λ t. TakesArguments (count_fault_of (E.answers evaluation.now) recipe.now) parameters.now
        (texts (take t.taken words.now)) (texts (drop t.taken words.now)) (as_texts t.groups.items)) }
    ensures err { IfErr result (λ e. IfSome (tail_cause_of e)
        (StopsTail (count_fault_of (E.answers evaluation.now) recipe.now) parameters.now (texts words.now))) }
{
    let tail = match read_tail(alloc, parameters, words) {
        Ok(tail) => tail,
        Err(e) => return Err(e),
    };
    match check_present(parameters, alloc, &tail.groups, tail.found) {
        Ok(()) => {}
        Err(e) => return Err(e),
    }
    match check_groups(parameters, alloc, evaluation, recipe, &tail.groups) {
        Ok(()) => Ok(tail),
        Err(e) => Err(e),
    }
}
