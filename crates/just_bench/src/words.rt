//! The run of a compiled module over the layers of the bench.
ghost use Rattle.std.specs.Prelude.{[]};
ghost use Rattle.just_justfile.specs.Running.{CanRun, HoldsOverridden};
ghost use Rattle.just_names.specs.Texts.{texts};
ghost use Rattle.just_bench_syntax.specs.Answers.{answers};
ghost use Rattle.just_invoke.specs.Command.{AsksForProgram};
ghost use Rattle.just_invoke.specs.Evaluation.{AsksForValues};
ghost use Rattle.just_scopes.specs.Opening.{handed_of};
ghost use Rattle.just_bench.specs.Ran.{IsPlainCommand, IsPlainEvaluation, IsPlainOutcome, plain_setup};

use crate::laws::layers_agree_on_lines;
use crate::recorder::Recorder;
use crate::stop_writer::StopWriter;
use just_bench_evaluation::PlainEvaluation;
use just_bench_syntax::PlainSyntax;
use just_data::Text;
use just_invoke::{Report, Run};
use just_justfile::{Justfile, Recipes};
use just_parts::layers::{Config, Error, Number};
use std::alloc::Global;
use std::collections::HashMap;

/// Runs words over a compiled module. The host records what begins.
pub fn run_words<'src>(
    alloc: Global,
    root: &Justfile<'src>,
    recipes: &Recipes<'src>,
    overrides: &HashMap<Number, Text>,
    config: &Config,
    host: &mut Recorder,
    words: &[&str],
) -> Result<Report, Error<'src>>
    requires can_run { CanRun (answers []) root.now recipes.now }
    requires overridden { HoldsOverridden root.now overrides.now }
    // Where recipes run.
    ensures outcome { let setup = plain_setup config.now overrides.now in
        let outcome = IsPlainOutcome root.now recipes.now config.now setup (texts words.now) host.old.script in
        outcome host.old.entries host.new.entries result }
    // Where a program runs in their place.
    ensures commanded { let comes = IsPlainCommand root.now (handed_of config.now overrides.now) host.old.script in
        (program : _) → AsksForProgram config.now program → comes program host.old.entries host.new.entries result }
    // Where values are asked for.
    ensures evaluated { let comes = IsPlainEvaluation root.now (handed_of config.now overrides.now) host.old.script in
        (format : _) (path : _) → AsksForValues config.now format path → comes format path host.old.entries host.new.entries result }
{
    let mut writer = StopWriter::new(alloc, 0)?;
    let syntax = PlainSyntax::new();
    layers_agree_on_lines(&syntax);
    let mut evaluation = PlainEvaluation::new(alloc);
    root.run(
        alloc,
        config,
        recipes,
        &syntax,
        &mut evaluation,
        host,
        &mut writer,
        words,
        overrides,
    )
}
