//! The tail with which words begin.
ghost use Rattle.std.specs.Prelude.{◌≡◌, ◌<◌, ◌≤◌, ◌+◌, ◌^◌, IfOk, IfErr, IfSome, ◌++◌, length, take, drop, vec_len};
ghost use Rattle.just_names.specs.Texts.{texts};
ghost use Rattle.just_tail.specs.Words.{as_texts};
ghost use Rattle.just_tail.specs.Pieces.{Piece, words_of, HasOptionName};
ghost use Rattle.just_tail.specs.Steps.{steps_of_piece, StepsFollow, Ends};
ghost use Rattle.just_tail.specs.Cause.{tail_cause_of};
ghost use Rattle.just_tail.specs.Tail.{IsTail, NoTail, BadOption};
ghost use Rattle.just_tail.specs.loops.Reader.{IsTailPlan, HasRead, HoldsAfter};

use crate::error::TailError;
use crate::groups::push_at;
use crate::options::{is_dashed, read_option};
use crate::plan::Plan;
use crate::progress::Progress;
use just_ast_definitions::Parameter;
use std::alloc::Global;

/// The words that a recipe takes after its head.
#[derive(Drop)]
pub struct Tail<'words> {
    /// What they give to its parameters, one group for each.
    pub groups: Vec<Vec<&'words str>>,
    /// How many of them are positional.
    pub found: usize,
    /// How many they are.
    pub taken: usize,
}

// The words after those that were taken.
fn after<'a, 'words>(words: &'a [&'words str], taken: usize) -> &'a [&'words str]
    requires { taken ≤ length words.now }
    ensures { result.now ≡ drop taken words.now }
{
    &words[taken..]
}

// Reads the next piece of a tail: how many words it takes, none where the tail ends.
fn read_piece<'src, 'words>(
    plan: &Plan<'_, 'src>,
    alloc: Global,
    progress: &mut Progress<'words>,
    words: &[&'words str],
) -> Result<usize, TailError<'src>>
    requires plan { IsTailPlan plan.now }
    requires count { vec_len progress.old.groups ≡ length plan.now.parameters.now }
    requires room { progress.old.placed + length words.now < 2 ^ 64 }
    ensures count { IfOk result (λ n. vec_len progress.new.groups ≡ length plan.now.parameters.now) }
    ensures within { IfOk result (λ n. n ≤ length words.now) }
    ensures room { IfOk result (λ n. progress.new.placed ≤ progress.old.placed + n) }
    ensures ended { let ps = plan.now.parameters.now in IfOk result (λ n. n ≡ 0 → HoldsAfter ps progress.old (λ before.
        Ends ps before (texts words.now) × (progress.new ≡ progress.old))) }
    ensures piece { let ps = plan.now.parameters.now in IfOk result (λ n. 0 < n → HoldsAfter ps progress.old (λ before. (x : Piece)
        × HasOptionName x × StepsFollow ps before (steps_of_piece x) × (texts (take n words.now) ≡ words_of x)
        × HasRead ps (before ++ steps_of_piece x) progress.new)) }
    ensures err { let ps = plan.now.parameters.now in IfErr result (λ e. IfSome (tail_cause_of e) (λ cause. HoldsAfter ps progress.old (λ before.
        BadOption ps before (texts words.now) cause))) }
{
    let Some((word, rest)) = words.split_first() else {
        return Ok(0);
    };
    if progress.opened && is_dashed(word) {
        if *word == "--" {
            progress.opened = false;
            return Ok(1);
        }
        match read_option(plan, alloc, progress, word, rest) {
            Ok(taken) => return Ok(taken + 1),
            Err(e) => return Err(e),
        }
    }
    match plan.place(progress.placed) {
        Some(place) => {
            push_at(&mut progress.groups, place, word)?;
            progress.placed += 1;
            Ok(1)
        }
        None => Ok(0),
    }
}

/// The tail with which the words begin: until a first `--`, which is dropped, each word that begins with `-` and isn't `-`
/// is an option, if some parameter is named by a switch; each other word belongs to a positional parameter, as long as there
/// is one for it.
///
/// An error is `Memory`, or says which option is none.
pub fn read_tail<'src, 'words>(
    alloc: Global,
    parameters: &[Parameter<'src>],
    words: &[&'words str],
) -> Result<Tail<'words>, TailError<'src>>
    ensures within { IfOk result (λ t. t.taken ≤ length words.now) }
    ensures tail { IfOk result (λ t. IsTail parameters.now (texts (take t.taken words.now)) (texts (drop t.taken words.now)) t.found
        (as_texts t.groups.items)) }
    ensures err { IfErr result (λ e. IfSome (tail_cause_of e) (NoTail parameters.now (texts words.now))) }
{
    let plan = Plan::new(alloc, parameters)?;
    let mut progress = Progress::new(alloc, parameters)?;
    let mut taken = 0;
    while taken < words.len() {
        match read_piece(&plan, alloc, &mut progress, after(words, taken)) {
            Ok(0) => break,
            Ok(n) => taken += n,
            Err(e) => return Err(e),
        }
    }
    Ok(Tail {
        groups: progress.groups,
        found: progress.placed,
        taken,
    })
}
