ghost use Rattle.std.specs.Prelude.{◌≡◌, ◌<◌, ◌+◌, ◌^◌, ◌++◌, length, get_or, IfErr, OnOk, OnErr};
ghost use Rattle.just_execution.specs.loops.Frames.{calls_of};
ghost use Rattle.just_execution.specs.Walking.{add_at};

use crate::frame::{Frame, OpenTable};
use crate::once::Once;
use just_parts::layers::Halt;
use just_tasks::Task;
use std::alloc::{AllocError, Global};
use std::mem::replace;

/// A run under way.
#[derive(Drop)]
pub struct RunState<'src> {
    /// What is still to do: the last is taken next.
    pub frames: Vec<Frame<'src>>,
    /// The table under which it is called.
    pub current: OpenTable,
    /// How often each table was called under, in the order of opening.
    pub calls: Vec<u64>,
}

/// Counts a call in the counter of a table.
pub fn count_call<'src>(calls: &mut Vec<u64>, number: usize) -> Result<(), Halt<'src>>
    requires { number < length calls.old.items }
    ensures counted { OnOk result (calls.new.items ≡ add_at calls.old.items number 1) }
    ensures fits { OnOk result (get_or calls.old.items number 0 + 1 < 2 ^ 64) }
    ensures over { OnErr result (get_or calls.old.items number 0 + 1 ≡ 2 ^ 64) }
    ensures exhausted { IfErr result (λ halt. halt ≡ Halt.Exhausted) }
{
    match calls[number].checked_add(1) {
        Some(count) => {
            calls[number] = count;
            Ok(())
        }
        None => Err(Halt::Exhausted),
    }
}

/// Calls tasks next, the first before the others.
pub fn push_calls<'src>(frames: &mut Vec<Frame<'src>>, tasks: Vec<Task>) -> Result<(), AllocError>
    ensures { OnOk result (frames.new.items ≡ frames.old.items ++ calls_of tasks.items) }
{
    let mut rest = tasks;
    while let Some(task) = rest.pop() {
        frames.push(Frame::Call(task))?;
    }
    Ok(())
}

impl<'src> RunState<'src> {
    ghost use Rattle.std.specs.Prelude.{◌≡◌, [], IfOk, OnOk};
    ghost use Rattle.just_execution.specs.loops.Frames.{IsOpened, state_of};
    ghost use Rattle.just_execution.specs.Walking.{opened};

    /// A run with nothing to do, under its first table.
    pub fn new(alloc: Global) -> Result<RunState<'src>, AllocError>
        ensures frames { IfOk result (λ run. run.frames.items ≡ []) }
        ensures state { IfOk result (λ run. state_of run ≡ opened []) }
    {
        let mut calls = Vec::new(alloc);
        calls.push(0)?;
        Ok(RunState {
            frames: Vec::new(alloc),
            current: OpenTable {
                number: 0,
                table: Once::new(alloc),
            },
            calls,
        })
    }

    /// Calls tasks next under a table of their own, where there are any.
    pub fn open(&mut self, alloc: Global, tasks: Vec<Task>) -> Result<(), AllocError>
        ensures { OnOk result (IsOpened self.old tasks.items self.new) }
    {
        if tasks.is_empty() {
            return Ok(());
        }
        let number = self.calls.len();
        self.calls.push(0)?;
        let table = Once::new(alloc);
        let outer = replace(&mut self.current, OpenTable { number, table });
        self.frames.push(Frame::Back(outer))?;
        push_calls(&mut self.frames, tasks)
    }
}
