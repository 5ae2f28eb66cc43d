//! A law: a call that does nothing, whose contract says what definitions keep.
ghost use Rattle.std.specs.Prelude.{List};
ghost use Rattle.just_run_layers.specs.Host.{Answer, KeepsPromises};
ghost use Rattle.just_run_layers.specs.Interactions.{Question, ArePromised};

/// Answers that are promised to some questions stay so while promises are kept, as they are in a run.
pub fn stays_steady()
    ensures { (old new : _) (f : Question → Answer) (asked : List Question) →
        KeepsPromises old new → ArePromised old f asked → ArePromised new f asked }
{}
