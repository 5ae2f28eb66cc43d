//! What is told in a run where there is no value.
ghost use Rattle.just_bench_evaluation.specs.loops.Refusals.{IsRefusalOf, TellsNone};

use just_data::Text;
use just_errors::Refusal;
use just_parts::layers::{Error, Fault};
use std::alloc::Global;

/// There is no value. Where memory is refused that is told.
pub fn no_value(alloc: Global) -> Refusal
    ensures { TellsNone result }
{
    match Text::from_str(alloc, "The expression has no value") {
        Ok(message) => Refusal::Fault(Fault { message }),
        Err(_) => Refusal::Memory,
    }
}

/// What an error of an expression is in a run: that there is no value, or want of memory.
#[tactic(auto, using(crate::proofs::Gives::is_memory))]
pub fn refusal_of<'src>(alloc: Global, error: Error<'src>) -> Refusal
    ensures { IsRefusalOf error.entry result }
{
    if let Error::Compile(_) = &error {
        return no_value(alloc);
    }
    Refusal::Memory
}
