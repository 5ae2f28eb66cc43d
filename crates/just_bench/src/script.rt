//! What a recorder is to answer.
ghost use Rattle.std.specs.Prelude.{◌≡◌, ◌++◌, ◌∷◌, [], OnErr, OnOk};
ghost use Rattle.just_bench.specs.Queue.{next_or, rest};
ghost use Rattle.just_bench.specs.Script.{unscripted};

use just_data::{Sequence, Text};
use just_errors::Fault;
use just_run_layers::{EnvironmentPair, RunAnswer};
use std::alloc::{AllocError, Global};
use std::collections::VecDeque;
use std::marker::Model;

/// Answers in order, which are taken one by one. Contracts see the list of those that are left.
#[derive(Drop)]
pub struct Queue<T> {
    items: VecDeque<T>,
}

impl<T> Model for Queue<T> {
    ghost use Rattle.std.specs.Prelude.{List};

    ghost Value = { List T };

    ghost view = { λ queue. queue.items.items };
}

impl<T: Drop> Queue<T> {
    /// No answers, which takes no memory.
    pub fn new(alloc: Global) -> Queue<T>
        ensures { result ≡ [] }
    {
        Queue {
            items: VecDeque::new(alloc),
        }
    }

    /// Puts an answer at the end. Where memory is refused the queue stands, and `answer` is dropped.
    pub fn push(&mut self, answer: T) -> Result<(), AllocError>
        ensures ok { OnOk result (self.new ≡ self.old ++ answer ∷ []) }
        ensures err { OnErr result (self.new ≡ self.old) }
    {
        self.items.push_back(answer)?;
        Ok(())
    }

    /// Takes the next answer; `usual` where none is left.
    pub(crate) fn take_or(&mut self, usual: T) -> T
        ensures next { result ≡ next_or self.old usual }
        ensures rest { self.new ≡ rest self.old }
    {
        match self.items.pop_front() {
            Some(answer) => answer,
            None => usual,
        }
    }
}

/// What a recorder is to answer, kind by kind: each call takes the next answer of its kind.
#[derive(Drop)]
pub struct Script {
    /// How programs end that a shell, an executor or a command runs.
    pub runs: Queue<RunAnswer>,
    /// What is read after prompts.
    pub lines: Queue<Result<Text, Fault>>,
    /// What files give modules as their environment.
    pub dotenvs: Queue<Result<Sequence<EnvironmentPair>, Fault>>,
    /// The times that are told.
    pub timestamps: Queue<Result<Text, Fault>>,
}

impl Script {
    /// A script without answers, which takes no memory.
    pub fn new(alloc: Global) -> Script
        ensures { result ≡ unscripted }
    {
        Script {
            runs: Queue::new(alloc),
            lines: Queue::new(alloc),
            dotenvs: Queue::new(alloc),
            timestamps: Queue::new(alloc),
        }
    }
}
