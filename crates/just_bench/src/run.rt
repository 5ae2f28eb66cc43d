//! The run of a compiled module, and what is written of it.
ghost use Rattle.std.specs.Prelude.{[], IfErr, IsOk, OnOk};
ghost use Rattle.std.specs.Io.KnownBytes.{Appends};
ghost use Rattle.just_justfile.specs.Running.{CanRun, HoldsOverridden};
ghost use Rattle.just_names.specs.Texts.{texts};
ghost use Rattle.just_bench_syntax.specs.Answers.{answers};
ghost use Rattle.just_bench.specs.Entries.{entry_lines};
ghost use Rattle.just_bench.specs.Ran.{IsUndone, Ran, plain_setup};

use crate::entries::write_entries;
use crate::program_error::ProgramError;
use crate::recorder::Recorder;
use crate::words::run_words;
use just_data::Text;
use just_justfile::{Justfile, Recipes};
use just_parts::layers::{Config, Number};
use std::alloc::Global;
use std::collections::HashMap;
use std::io::{ErrorKind, Write};

/// Runs words over a compiled module, and writes what the host was asked, before an error too. The error is that of the run, or
/// else tells that the lines could not be written, or want of memory for them; then a beginning of them was.
pub fn run_and_write<'src, W: Write>(
    alloc: Global,
    root: &Justfile<'src>,
    recipes: &Recipes<'src>,
    overrides: &HashMap<Number, Text>,
    config: &Config,
    words: &[&str],
    output: &mut W,
) -> Result<(), ProgramError<'src>>
    requires can_run { CanRun (answers []) root.now recipes.now }
    requires overridden { HoldsOverridden root.now overrides.now }
    ensures done { let ran = Ran root.now recipes.now config.now (plain_setup config.now overrides.now) (texts words.now) in
        OnOk result ((r : ran) × IsOk r.result × Appends (W.contents output.old) (W.contents output.new) (entry_lines r.entries)) }
    ensures fault { let setup = plain_setup config.now overrides.now in
        let undone = IsUndone root.now recipes.now config.now setup (texts words.now) in
        IfErr result (undone (W.contents output.old) (W.contents output.new)) }
{
    let mut host = Recorder::new(alloc);
    let ran = run_words(alloc, root, recipes, overrides, config, &mut host, words);
    let written = write_entries(alloc, output, host.entries());
    if let Err(error) = ran {
        return Err(ProgramError::Analyzer { error, line: None });
    }
    match written {
        Ok(()) => Ok(()),
        Err(error) if error.kind() == ErrorKind::OutOfMemory => Err(ProgramError::Memory),
        Err(_) => Err(ProgramError::Write),
    }
}
