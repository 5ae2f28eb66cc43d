//! Laws: calls that do nothing, whose contracts say what the layers of the bench keep.
ghost use Rattle.std.specs.Prelude.{◌≡◌, List, Some};
ghost use Rattle.just_run_layers.specs.declared.host.Entry.{Entry};
ghost use Rattle.just_run_layers.specs.Host.{Answer};
ghost use Rattle.just_run_layers.specs.LineTexts.{AgreesWith};
ghost use Rattle.just_bench.specs.declared.script.Script.{Script};
ghost use Rattle.just_bench.specs.Promises.{ArePromisedUnscripted};
ghost use Rattle.just_bench.specs.Recorder.{Recording, answer_of, script_promises};
ghost use Rattle.just_bench.specs.Turns.{AreAnsweredInOrder, IsRefusedNext};

use crate::recorder::Recorder;
use just_bench_evaluation::PlainEvaluation;
use just_bench_syntax::PlainSyntax;
use just_parts::layers::Syntax;
use just_run_layers::{Evaluation, Host};

/// A recorder of which no script is left and the plain evaluation promise the usual answer to each question, whatever they
/// were asked before. So each run of a bundle has promised answers. The call does nothing.
pub fn each_answer_is_promised(host: &Recorder, evaluation: &PlainEvaluation)
    ensures { let promised = ⟦<PlainEvaluation as Evaluation>⟧.promised evaluation.now in
        ArePromisedUnscripted host.now.script promised (⟦<Recorder as Host>⟧.promised host.now) }
{}

/// The plain grammar and the plain evaluation take the lines of bodies alike: which sigils a line begins with, and whether the
/// next one goes on with it. The call does nothing.
pub fn layers_agree_on_lines<'a>(syntax: &PlainSyntax<'a>)
    ensures { let evaluation = ⟦<PlainEvaluation as Evaluation>⟧ in
        AgreesWith evaluation.sigils evaluation.continues (⟦<PlainSyntax<'a> as Syntax>⟧.answers syntax.now) }
{}

/// What a script promises of a call is what it answers. The call does nothing.
pub fn scripts_promise_their_answers()
    ensures { (script : Script) (entry : Entry) (answer : Answer) → script_promises script entry ≡ Some answer → answer ≡ answer_of script entry }
{}

/// Calls of a recorder that are answered in turn are kept in order, and those of each kind are answered as its queue of the
/// script has it, and by the usual answer after that. The call does nothing.
pub fn scripts_are_answered_in_order()
    ensures { (entries : List Entry) (old new : Recording) (answers : List Answer) → AreAnsweredInOrder entries old new answers }
{}

/// A recorder that is refused memory at a call is refused at the call of that number, whatever the calls before it were and
/// however they were answered. The call does nothing.
pub fn the_call_of_the_number_is_refused()
    ensures { (script : Script) (entries : List Entry) → IsRefusedNext script entries }
{}
