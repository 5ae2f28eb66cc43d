//! What a module hands to the layers.
ghost use Rattle.std.specs.Prelude.{◌≡◌};
ghost use Rattle.just_run_layers.specs.Evaluation.{context_contents_of};
ghost use Rattle.just_scopes.specs.Opening.{context_in, handed_of};

use just_data::{Chain, Text};
use just_justfile::Justfile;
use just_parts::layers::{Config, Number};
use just_run_layers::{Context, EnvironmentPair};
use std::collections::HashMap;

/// What a module with these pairs of dotenv files hands to the layers.
pub(crate) fn context_of<'run, 'src>(
    config: &'run Config,
    overrides: &'run HashMap<Number, Text>,
    justfile: &'run Justfile<'src>,
    dotenv: Chain<EnvironmentPair>,
) -> Context<'run, 'src>
    ensures { context_contents_of result ≡ context_in (handed_of config.now overrides.now) justfile.now dotenv }
{
    Context {
        config,
        dotenv,
        module_path: &justfile.module_path,
        working_directory: &justfile.working_directory,
        assignments: &justfile.assignments,
        evaluation_order: justfile.evaluation_order.as_slice(),
        functions: &justfile.functions,
        overrides,
        settings: &justfile.settings,
        unexports: &justfile.unexports,
    }
}
