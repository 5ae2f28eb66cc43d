//! The question that fails.
ghost use Rattle.std.specs.Prelude.{◌≡◌, ◌⊎◌, None, IfOk};
ghost use Rattle.just_bench_failing.specs.Failing.{FailsAt};
ghost use Rattle.just_bench_failing.specs.loops.Failing.{IsCounted, IsFaulted};

use just_data::Text;
use just_errors::{Fault, Refusal};
use std::alloc::{AllocError, Global};

/// How many questions are answered before the one that fails, and the fault that it is answered by, until it is.
#[derive(Drop)]
pub(crate) struct Failure {
    pub left: usize,
    pub fault: Option<Fault>,
}

impl Failure {
    /// The failure of a question. Questions count from 1; at 0 none fails.
    pub fn at(alloc: Global, question: usize) -> Result<Failure, AllocError>
        ensures { IfOk result (FailsAt question) }
    {
        let left = question.saturating_sub(1);
        if question == 0 {
            return Ok(Failure { left, fault: None });
        }
        let message = Text::from_str(alloc, "It fails here")?;
        let fault = Some(Fault { message });
        Ok(Failure { left, fault })
    }

    /// Counts a question that was answered so, and tells what it is answered by. Want of memory is answered as it is.
    pub fn instead<T: Drop>(&mut self, answer: Result<T, Refusal>) -> Result<T, Refusal>
        ensures counted { IsCounted self.old self.new result }
        ensures kept { self.old.fault ≡ None → result ≡ answer }
        ensures given { (result ≡ answer) ⊎ IsFaulted answer result }
    {
        let Some(fault) = self.fault.take() else {
            return answer;
        };
        if self.left > 0 || matches!(answer, Err(Refusal::Memory)) {
            self.left = self.left.saturating_sub(1);
            self.fault = Some(fault);
            return answer;
        }
        Err(Refusal::Fault(fault))
    }
}
