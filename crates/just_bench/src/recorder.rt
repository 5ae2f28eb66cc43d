//! A host that only records what it is asked, and answers from a script.
ghost use Rattle.std.specs.Prelude.{◌≡◌, OnErr, OnOk, is_err};
ghost use Rattle.just_run_layers.specs.declared.host.Entry.{Entry};
ghost use Rattle.just_run_layers.specs.Host.{answered, done_answer, given, paired, run_answer};
ghost use Rattle.just_bench.specs.Recorder.{IsCalled, call_counted, fresh, is_refused, recording, script_promises, success};
ghost use Rattle.just_bench.specs.loops.Recorder.{with_entry};
ghost use Rattle.just_bench.specs.Script.{unscripted};

use crate::script::Script;
use just_data::{Sequence, Text};
use just_errors::{Refusal, Status};
use just_paths::Modulepath;
use just_run_layers::{
    CommandCall, Entry, EnvironmentPair, Groups, Host, RunAnswer, ScriptCall, ShellCall,
};
use std::alloc::{AllocError, Global};
use std::marker::Model;

/// A host that keeps what it was asked. It answers from a script, in order, and after it as `docs/plain.md` says: each
/// program ends with code 0, and so on. Where it is made so, it is refused memory at one call.
#[derive(Drop)]
pub struct Recorder {
    entries: Sequence<Entry>,
    script: Script,
    // How many calls are answered before one is refused; none where none is.
    left: Option<usize>,
    alloc: Global,
}

impl Model for Recorder {
    ghost use Rattle.just_bench.specs.Recorder.{Recording};

    ghost Value = { Recording };

    ghost view = { λ recorder. record { entries = recorder.entries; script = recorder.script; left = recorder.left } };
}

// Code 0, without a signal.
fn success() -> RunAnswer
    ensures { result ≡ success }
{
    RunAnswer {
        status: Status::Code(0),
        signal: None,
    }
}

impl Recorder {
    /// A host that was asked nothing, without a script, which takes no memory.
    pub fn new(alloc: Global) -> Recorder
        ensures { result ≡ fresh }
    {
        Recorder::scripted(alloc, Script::new(alloc))
    }

    /// A host that was asked nothing, and that answers from a script.
    pub fn scripted(alloc: Global, script: Script) -> Recorder
        ensures { result ≡ recording script 0 }
    {
        Recorder {
            entries: Sequence::new(alloc),
            script,
            left: None,
            alloc,
        }
    }

    /// A host that was asked nothing, without a script, and that is refused memory at one call. Calls count from 1; at 0
    /// none is refused.
    pub fn memory_at(alloc: Global, call: usize) -> Recorder
        ensures { result ≡ recording unscripted call }
    {
        Recorder {
            entries: Sequence::new(alloc),
            script: Script::new(alloc),
            left: call.checked_sub(1),
            alloc,
        }
    }

    // Counts a call. The error is that this one is refused.
    fn count(&mut self) -> Result<(), AllocError>
        ensures counted { self.new ≡ call_counted self.old }
        ensures refused { is_refused self.old ≡ is_err result }
    {
        match self.left {
            Some(0) => {
                self.left = None;
                Err(AllocError)
            }
            Some(left) => {
                self.left = Some(left - 1);
                Ok(())
            }
            None => Ok(()),
        }
    }

    // Keeps a call. Where memory is refused nothing is kept.
    fn keep(&mut self, entry: Entry) -> Result<(), AllocError>
        ensures ok { OnOk result (self.new ≡ with_entry entry self.old) }
        ensures err { OnErr result (self.new ≡ self.old) }
    {
        self.entries.push(entry)
    }

    /// What it was asked, in order.
    pub fn entries(&self) -> &[Entry]
        ensures list { result.now ≡ self.now.entries }
        ensures asked { ⟦<Recorder as Host>⟧.entries self.now ≡ self.now.entries }
        ensures promised { ⟦<Recorder as Host>⟧.promised self.now ≡ script_promises self.now.script }
    {
        self.entries.as_slice()
    }
}

impl Host for Recorder {
    ghost use Rattle.just_bench.specs.Recorder.{script_promises};

    ghost entries = { λ recorder. recorder.entries };

    ghost promised = { λ recorder. script_promises recorder.script };

    fn begin(&mut self, path: &Modulepath, groups: &Groups) -> Result<(), AllocError>
        ensures called { IsCalled (Entry.Begin path.now groups.now) self.old (done_answer result) self.new }
    {
        self.count()?;
        let path = path.clone()?;
        let groups = groups.clone()?;
        self.keep(Entry::Begin { path, groups })
    }

    fn shell(&mut self, call: &ShellCall) -> Result<RunAnswer, AllocError>
        ensures called { IsCalled (Entry.Shell call.now) self.old (run_answer result) self.new }
    {
        self.count()?;
        self.keep(Entry::Shell(call.clone()?))?;
        Ok(self.script.runs.take_or(success()))
    }

    fn script(&mut self, call: &ScriptCall) -> Result<RunAnswer, AllocError>
        ensures called { IsCalled (Entry.Script call.now) self.old (run_answer result) self.new }
    {
        self.count()?;
        self.keep(Entry::Script(call.clone()?))?;
        Ok(self.script.runs.take_or(success()))
    }

    fn command(&mut self, call: &CommandCall) -> Result<RunAnswer, AllocError>
        ensures called { IsCalled (Entry.Command call.now) self.old (run_answer result) self.new }
    {
        self.count()?;
        self.keep(Entry::Command(call.clone()?))?;
        Ok(self.script.runs.take_or(success()))
    }

    fn confirm(&mut self, prompt: &Text) -> Result<Text, Refusal>
        ensures called { IsCalled (Entry.Confirm prompt.now) self.old (answered given result) self.new }
    {
        self.count()?;
        let usual = Text::from_str(self.alloc, "y")?;
        let prompt = prompt.clone()?;
        self.keep(Entry::Confirm { prompt })?;
        match self.script.lines.take_or(Ok(usual)) {
            Ok(line) => Ok(line),
            Err(fault) => Err(Refusal::Fault(fault)),
        }
    }

    fn show(&mut self, line: &Text) -> Result<(), AllocError>
        ensures called { IsCalled (Entry.Show line.now) self.old (done_answer result) self.new }
    {
        self.count()?;
        let line = line.clone()?;
        self.keep(Entry::Show { line })
    }

    fn dotenv(
        &mut self,
        module_path: &Modulepath,
        working_directory: &Text,
    ) -> Result<Sequence<EnvironmentPair>, Refusal>
        ensures called { IsCalled (Entry.Dotenv module_path.now working_directory.now) self.old (answered paired result) self.new }
    {
        self.count()?;
        let module_path = module_path.clone()?;
        let working_directory = working_directory.clone()?;
        self.keep(Entry::Dotenv {
            module_path,
            working_directory,
        })?;
        let usual = Sequence::new(self.alloc);
        match self.script.dotenvs.take_or(Ok(usual)) {
            Ok(pairs) => Ok(pairs),
            Err(fault) => Err(Refusal::Fault(fault)),
        }
    }

    fn timestamp(&mut self, format: &Text) -> Result<Text, Refusal>
        ensures called { IsCalled (Entry.Timestamp format.now) self.old (answered given result) self.new }
    {
        self.count()?;
        let usual = Text::from_str(self.alloc, "T")?;
        let format = format.clone()?;
        self.keep(Entry::Timestamp { format })?;
        match self.script.timestamps.take_or(Ok(usual)) {
            Ok(time) => Ok(time),
            Err(fault) => Err(Refusal::Fault(fault)),
        }
    }
}
