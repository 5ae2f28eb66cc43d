//! The layer that runs programs, and is told what runs.
ghost use Rattle.std.specs.Prelude.{◌≡◌, ◌++◌, List, Option};
ghost use Rattle.just_run_layers.specs.declared.host.Entry.{Entry};
ghost use Rattle.just_run_layers.specs.Host.{Answer, Answers, KeepsPromises, answered, done_answer, given, kept_call, paired, run_answer};

use crate::calls::{CommandCall, ScriptCall, ShellCall};
use crate::environment::EnvironmentPair;
use crate::run_answer::RunAnswer;
use just_data::{Exact, Sequence, Text};
use just_errors::Refusal;
use just_paths::Modulepath;
use std::alloc::AllocError;

/// The arguments of a recipe: for each parameter the texts that it was given.
pub type Groups = Sequence<Sequence<Text>>;

/// A call of a host, as it is recorded.
#[derive(Clone, PartialEq, Eq, Drop)]
pub enum Entry {
    /// A recipe begins.
    Begin {
        path: Modulepath,
        groups: Groups,
    },
    /// A shell runs a command.
    Shell(ShellCall),
    /// A script runs.
    Script(ScriptCall),
    /// A program runs in place of recipes.
    Command(CommandCall),
    /// A line is read after a prompt.
    Confirm {
        prompt: Text,
    },
    /// A line is shown.
    Show {
        line: Text,
    },
    /// The environment that files give a module is read.
    Dotenv {
        module_path: Modulepath,
        working_directory: Text,
    },
    /// The time is told in a format.
    Timestamp {
        format: Text,
    },
}

impl Exact for Entry {
    ghost use Rattle.std.proofs.Common.{rules};

    ghost exact = { Prim.search rules };
}

/// The outside of a run. It stores what it was asked: each call appends one entry, or answers want of memory and
/// appends none. A fault is an answer. Where it promised an answer, a call answers that, or want of memory; and no call
/// takes a promise away.
pub trait Host {
    /// What it was asked, in order.
    ghost entries: { Self → List Entry };

    /// The answer to a call, where that is fixed for good.
    ghost promised: { Self → Entry → Option Answer };

    /// The recipe at this path begins, with these groups.
    fn begin(&mut self, path: &Modulepath, groups: &Groups) -> Result<(), AllocError>
        ensures recorded { entries self.new ≡ entries self.old ++ kept_call (Entry.Begin path.now groups.now) (done_answer result) }
        ensures answers { Answers (promised self.old (Entry.Begin path.now groups.now)) (done_answer result) }
        ensures keeps { KeepsPromises (promised self.old) (promised self.new) };

    /// A shell runs a command. The answer tells how the shell ended.
    fn shell(&mut self, call: &ShellCall) -> Result<RunAnswer, AllocError>
        ensures recorded { entries self.new ≡ entries self.old ++ kept_call (Entry.Shell call.now) (run_answer result) }
        ensures answers { Answers (promised self.old (Entry.Shell call.now)) (run_answer result) }
        ensures keeps { KeepsPromises (promised self.old) (promised self.new) };

    /// A script runs. The answer tells how it ended.
    fn script(&mut self, call: &ScriptCall) -> Result<RunAnswer, AllocError>
        ensures recorded { entries self.new ≡ entries self.old ++ kept_call (Entry.Script call.now) (run_answer result) }
        ensures answers { Answers (promised self.old (Entry.Script call.now)) (run_answer result) }
        ensures keeps { KeepsPromises (promised self.old) (promised self.new) };

    /// A program runs in place of recipes. The answer tells how it ended.
    fn command(&mut self, call: &CommandCall) -> Result<RunAnswer, AllocError>
        ensures recorded { entries self.new ≡ entries self.old ++ kept_call (Entry.Command call.now) (run_answer result) }
        ensures answers { Answers (promised self.old (Entry.Command call.now)) (run_answer result) }
        ensures keeps { KeepsPromises (promised self.old) (promised self.new) };

    /// A line is read after a prompt.
    fn confirm(&mut self, prompt: &Text) -> Result<Text, Refusal>
        ensures recorded { entries self.new ≡ entries self.old ++ kept_call (Entry.Confirm prompt.now) (answered given result) }
        ensures answers { Answers (promised self.old (Entry.Confirm prompt.now)) (answered given result) }
        ensures keeps { KeepsPromises (promised self.old) (promised self.new) };

    /// A line is shown. It is handed over without its end.
    fn show(&mut self, line: &Text) -> Result<(), AllocError>
        ensures recorded { entries self.new ≡ entries self.old ++ kept_call (Entry.Show line.now) (done_answer result) }
        ensures answers { Answers (promised self.old (Entry.Show line.now)) (done_answer result) }
        ensures keeps { KeepsPromises (promised self.old) (promised self.new) };

    /// The environment that files give the module at this path, which works in this folder.
    fn dotenv(
        &mut self,
        module_path: &Modulepath,
        working_directory: &Text,
    ) -> Result<Sequence<EnvironmentPair>, Refusal>
        ensures recorded { entries self.new ≡ entries self.old ++ kept_call (Entry.Dotenv module_path.now working_directory.now) (answered paired result) }
        ensures answers { Answers (promised self.old (Entry.Dotenv module_path.now working_directory.now)) (answered paired result) }
        ensures keeps { KeepsPromises (promised self.old) (promised self.new) };

    /// The time in this format.
    fn timestamp(&mut self, format: &Text) -> Result<Text, Refusal>
        ensures recorded { entries self.new ≡ entries self.old ++ kept_call (Entry.Timestamp format.now) (answered given result) }
        ensures answers { Answers (promised self.old (Entry.Timestamp format.now)) (answered given result) }
        ensures keeps { KeepsPromises (promised self.old) (promised self.new) };
}
