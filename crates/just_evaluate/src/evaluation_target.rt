//! What is evaluated, and the call of a module that finds it.
ghost use Rattle.just_justfile.specs.declared.justfile.Justfile.{Justfile};

use crate::destination::walk;
use just_justfile::Justfile;
use just_parts::layers::{Assignment, Error};
use just_paths::Modulepath;
use std::alloc::Global;

/// What is evaluated: one variable of a module, or all of the module that is not private.
#[derive(Clone, Copy)]
pub struct EvaluationTarget<'run, 'src> {
    /// The module.
    pub justfile: &'run Justfile<'src>,
    /// The one variable; none where all are meant.
    pub assignment: Option<&'run Assignment<'src>>,
}

/// Modules from which paths lead to what is evaluated, as they do from the root of compiled ones.
pub trait EvaluationTargets<'src> {
    ghost use Rattle.std.specs.Prelude.{◌≡◌, IfErr, IfOk};
    ghost use Rattle.std.specs.Option.{option_copied};
    ghost use Rattle.just_justfile.specs.Walks.{AreModulesOrdered};
    ghost use Rattle.just_evaluate.specs.Destination.{TellsLack, destination, leads_to};

    /// The module from which paths lead.
    ghost start: { Self → Justfile };

    /// What is evaluated where a path is asked for: its components lead through modules and aliases of modules, a module before
    /// an alias of its name, and the last is a variable of the module where they lead, or else a module. Without a path, or by
    /// one of no components, all of this module is meant.
    ///
    /// `ModuleAbsent` comes where a component is an optional module without a file, with its path from the root. Another
    /// component that leads to no module is told by `EvalUnknownSubmodule` before the last one, and by
    /// `EvalUnknownSubmoduleOrVariable` as the last. Only where one of them comes may want of memory be told in its place.
    ///
    /// The names of the modules rise in byte order, in each module (those of a compiled module do).
    fn evaluation_target<'run>(
        &'run self,
        alloc: Global,
        path: Option<&Modulepath>,
    ) -> Result<EvaluationTarget<'run, 'src>, Error<'src>>
        requires { AreModulesOrdered (start self.now) }
        ensures led { let found = destination (start self.now) (option_copied path.entry) in
            IfOk result (λ target. found ≡ leads_to target.justfile.now (option_copied target.assignment)) }
        ensures refused { IfErr result (TellsLack (destination (start self.now) (option_copied path.entry))) };
}

impl<'src> EvaluationTargets<'src> for Justfile<'src> {
    ghost start = { λ j. j };

    fn evaluation_target<'run>(
        &'run self,
        alloc: Global,
        path: Option<&Modulepath>,
    ) -> Result<EvaluationTarget<'run, 'src>, Error<'src>> {
        match path {
            Some(path) => walk(alloc, self, path.components.as_slice()),
            None => Ok(EvaluationTarget {
                justfile: self,
                assignment: None,
            }),
        }
    }
}
