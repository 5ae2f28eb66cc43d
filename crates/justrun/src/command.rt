//! The program, over a reader and two writers.
ghost use Rattle.std.specs.Prelude.{◌≡◌, ◌≢◌, ◌<◌, ℕ, [], ◌∷◌, List, Option, None, slice_get, IsNone, IsOk, IfErr, IfSome, OnOk};
ghost use Rattle.std.specs.Io.KnownBytes.{Appends, IsAtEnd};
ghost use Rattle.just_analyzer.specs.Words.{CanRun, HoldsOverridden, IsClean, texts};
ghost use Rattle.just_names.specs.Texts.{Text};
ghost use Rattle.just_loader.specs.Reached.{world_of};
ghost use Rattle.just_loader.specs.Sources.{text_at};
ghost use Rattle.just_bench_syntax.specs.Answers.{answers};
ghost use Rattle.just_bench_bundle.specs.Input.{IsReadOn};
ghost use Rattle.just_bench.specs.Entries.{entry_lines};
ghost use Rattle.just_bench.specs.Ran.{IsUndone, Ran, plain_setup};
ghost use Rattle.just_bench.specs.Writing.{BeginsLine, GetsLine};
ghost use Rattle.just_bench.specs.declared.program_error.ProgramError.{ProgramError};
ghost use Rattle.justrun.specs.Answers.{Comes, HasNotRun, HasRun, IsFailure, IsRunDone, IsDoneOver, IsProgramFault, IsFaultOver, TellsUncompiled};

use just_analyzer::layers::{Config, Error};
use just_analyzer::{Compilation, Compiler, Sources, is_clean};
use just_bench::{
    PlainEvaluation, PlainSyntax, ProgramError, line_of, paths_like, read_sources, read_text,
    run_and_write, tell, tell_usage,
};
use std::alloc::Global;
use std::io;
use std::io::{Read, Write};

// Compiles the file at a root.
fn compile<'src>(
    alloc: Global,
    sources: &Sources<'src>,
    config: &Config,
    root: &str,
) -> Result<Compilation<'src>, Error<'src>>
    requires { IsClean root.now }
    ensures { Comes sources.now config.now root.now result }
{
    let syntax = PlainSyntax::new();
    let evaluation = PlainEvaluation::new(alloc);
    Compiler::compile(alloc, config, &syntax, &evaluation, sources, root)
}

// Tells that there is no file at a root, and which are like it.
fn miss<'src>(alloc: Global, sources: &Sources<'src>, root: &'src str) -> ProgramError<'src>
    requires { text_at sources.now root.now ≡ None }
    ensures { (words : List Text) (contents : Option (List ℕ)) → IsFaultOver sources.now root.now words contents contents result }
{
    match paths_like(alloc, sources, root) {
        Ok(like) => ProgramError::NoRoot { root, like },
        Err(_) => ProgramError::Memory,
    }
}

// Tells why a root is not compiled, with the line on which stands what the error tells of, where the error has no place of its
// own and there is memory to look for it.
fn uncompiled<'src>(
    alloc: Global,
    sources: &Sources<'src>,
    config: &Config,
    root: &str,
    error: Error<'src>,
) -> ProgramError<'src>
    requires { IsClean root.now }
    ensures { TellsUncompiled (world_of sources.now config.now (answers []) root.now) error.entry result }
{
    match line_of(alloc, sources, config, root, &error) {
        Ok(Some(line)) => ProgramError::Analyzer {
            error,
            line: Some(line),
        },
        Ok(None) | Err(_) => ProgramError::Analyzer { error, line: None },
    }
}

// Runs the words over what a root is compiled to.
fn run_compiled<'src, W: Write>(
    alloc: Global,
    compilation: &Compilation<'src>,
    config: &Config,
    words: &[&str],
    output: &mut W,
) -> Result<(), ProgramError<'src>>
    requires can_run { CanRun (answers []) compilation.now.justfile compilation.now.recipes }
    requires overridden { HoldsOverridden compilation.now.justfile compilation.now.overrides }
    ensures done { let setup = plain_setup config.now compilation.now.overrides in
        let ran = Ran compilation.now.justfile compilation.now.recipes config.now setup (texts words.now) in
        OnOk result ((r : ran) × IsOk r.result × Appends (W.contents output.old) (W.contents output.new) (entry_lines r.entries)) }
    ensures fault { let setup = plain_setup config.now compilation.now.overrides in
        let undone = IsUndone compilation.now.justfile compilation.now.recipes config.now setup (texts words.now) in
        IfErr result (undone (W.contents output.old) (W.contents output.new)) }
{
    let Compilation {
        justfile,
        recipes,
        overrides,
        ..
    } = compilation;
    run_and_write(alloc, justfile, recipes, overrides, config, words, output)
}

// Compiles the file at a root, and runs the words.
fn run_sources<'src, W: Write>(
    alloc: Global,
    sources: &Sources<'src>,
    root: &'src str,
    words: &[&str],
    output: &mut W,
) -> Result<(), ProgramError<'src>>
    requires { IsClean root.now }
    ensures done { OnOk result (IsDoneOver sources.now root.now (texts words.now) (W.contents output.old) (W.contents output.new)) }
    ensures fault { IfErr result (IsFaultOver sources.now root.now (texts words.now) (W.contents output.old) (W.contents output.new)) }
{
    if sources.get(root).is_none() {
        return Err(miss(alloc, sources, root));
    }
    let config = Config::new(alloc);
    match compile(alloc, sources, &config, root) {
        Ok(compilation) => run_compiled(alloc, &compilation, &config, words, output),
        Err(error) => Err(uncompiled(alloc, sources, &config, root, error)),
    }
}

// Runs the words over the files of a bundle.
fn run_bundle<'src, W: Write>(
    alloc: Global,
    text: &'src str,
    root: &'src str,
    words: &[&str],
    output: &mut W,
) -> Result<(), ProgramError<'src>>
    requires { IsClean root.now }
    ensures done { OnOk result (IsRunDone text.now root.now (texts words.now) (W.contents output.old) (W.contents output.new)) }
    ensures fault { IfErr result (IsProgramFault text.now root.now (texts words.now) (W.contents output.old) (W.contents output.new)) }
{
    match read_sources(alloc, text) {
        Ok(sources) => run_sources(alloc, &sources, root, words, output),
        Err(error) => Err(ProgramError::Bundle(error)),
    }
}

/// How the program ended.
#[derive(Drop)]
pub struct Exit {
    /// 0 where the words were run, 1 where they were not, or what was written of them was not, and 2 where the program was
    /// not used well.
    pub status: u8,
    /// Whether the line that tells why was written whole, where there is one.
    pub told: io::Result<()>,
}

/// Ends with an error, which is told and dropped.
pub fn fail<E: Write>(alloc: Global, errors: &mut E, error: ProgramError) -> Exit
    ensures status { result.status ≡ 1 }
    ensures told { OnOk result.told (GetsLine (E.contents errors.old) (E.contents errors.new)) }
    ensures begun { BeginsLine (E.contents errors.old) (E.contents errors.new) }
{
    let told = tell(alloc, errors, &error);
    drop(error);
    Exit { status: 1, told }
}

// Tells how the program is used.
fn explain<E: Write>(errors: &mut E) -> Exit
    ensures status { result.status ≡ 2 }
    ensures told { OnOk result.told (GetsLine (E.contents errors.old) (E.contents errors.new)) }
    ensures begun { BeginsLine (E.contents errors.old) (E.contents errors.new) }
{
    Exit {
        status: 2,
        told: tell_usage(errors),
    }
}

// Runs the words over a bundle.
fn run_text<W: Write, E: Write>(
    alloc: Global,
    text: &str,
    root: &str,
    words: &[&str],
    output: &mut W,
    errors: &mut E,
) -> Exit
    requires { IsClean root.now }
    ensures status { result.status < 2 }
    ensures done { result.status ≡ 0 → IsRunDone text.now root.now (texts words.now) (W.contents output.old) (W.contents output.new) }
    ensures fault { let fault = IsProgramFault text.now root.now (texts words.now) (W.contents output.old) (W.contents output.new) in
        result.status ≡ 1 → (e : ProgramError) × fault e }
    ensures quiet { result.status ≡ 0 → errors.new ≡ errors.old }
    ensures told { OnOk result.told (result.status ≡ 1 → GetsLine (E.contents errors.old) (E.contents errors.new)) }
    ensures begun { result.status ≡ 1 → BeginsLine (E.contents errors.old) (E.contents errors.new) }
{
    match run_bundle(alloc, text, root, words, output) {
        Ok(()) => Exit {
            status: 0,
            told: Ok(()),
        },
        Err(error) => fail(alloc, errors, error),
    }
}

// Runs the words over the bundle that is read.
fn run_input<R: Read, W: Write, E: Write>(
    alloc: Global,
    root: &str,
    words: &[&str],
    input: &mut R,
    output: &mut W,
    errors: &mut E,
) -> Exit
    ensures status { result.status < 2 }
    ensures not_clean { (IsClean root.now → ⊥) → result.status ≡ 1 }
    ensures done { result.status ≡ 0 → HasRun (root.now ∷ texts words.now) (R.remaining input.old) (W.contents output.old) (W.contents output.new) }
    ensures failed { let failure = IsFailure root.now (texts words.now) (R.remaining input.old) in
        result.status ≡ 1 → (e : ProgramError) × failure (W.contents output.old) (W.contents output.new) e }
    ensures read { result.status ≡ 0 → IsAtEnd (R.remaining input.new) }
    ensures onward { IsReadOn (R.remaining input.old) (R.remaining input.new) }
    ensures quiet { result.status ≡ 0 → errors.new ≡ errors.old }
    ensures told { OnOk result.told (result.status ≡ 1 → GetsLine (E.contents errors.old) (E.contents errors.new)) }
    ensures begun { result.status ≡ 1 → BeginsLine (E.contents errors.old) (E.contents errors.new) }
{
    if !is_clean(root) {
        return fail(alloc, errors, ProgramError::NotClean(root));
    }
    match read_text(alloc, input) {
        Ok(text) => run_text(alloc, text.as_str(), root, words, output, errors),
        Err(error) => fail(alloc, errors, ProgramError::Input(error)),
    }
}

/// Runs the program on the words after its name, or on none where one of them is not UTF-8, and answers how it ended.
///
/// The first word is the path of the root, and the input is a bundle of files. Status 0: the other words were run over the
/// root, the output has the lines of what the host was asked, and nothing was written to `errors`. Status 1: the input or the
/// root cannot be read, compiling or the run failed, or the output could not be written; the error is told in one line, and
/// the output has a beginning of the lines of the run, if there was one. Status 2: the program was not used well, which is
/// told in one line.
pub fn program<R: Read, W: Write, E: Write>(
    alloc: Global,
    arguments: Option<&[&str]>,
    input: &mut R,
    output: &mut W,
    errors: &mut E,
) -> Exit
    ensures no_text { IsNone arguments.entry → result.status ≡ 2 }
    ensures no_root { IfSome arguments.entry (λ words. words.now ≡ [] → result.status ≡ 2) }
    ensures root { IfSome arguments.entry (λ words. words.now ≢ [] → result.status < 2) }
    ensures not_clean { IfSome arguments.entry (λ words. IfSome (slice_get words.now 0) (λ root. (IsClean root.now → ⊥) → result.status ≡ 1)) }
    ensures done { let read = R.remaining input.old in
        let wrote = W.contents output.new in
        result.status ≡ 0 → IfSome arguments.entry (λ all. HasRun (texts all.now) read (W.contents output.old) wrote) }
    ensures failed { let read = R.remaining input.old in
        let wrote = W.contents output.new in
        result.status ≡ 1 → IfSome arguments.entry (λ all. HasNotRun (texts all.now) read (W.contents output.old) wrote) }
    ensures unused { result.status ≡ 2 → output.new ≡ output.old }
    ensures unread { result.status ≡ 2 → input.new ≡ input.old }
    ensures read { result.status ≡ 0 → IsAtEnd (R.remaining input.new) }
    ensures onward { IsReadOn (R.remaining input.old) (R.remaining input.new) }
    ensures quiet { result.status ≡ 0 → errors.new ≡ errors.old }
    ensures told { OnOk result.told (result.status ≢ 0 → GetsLine (E.contents errors.old) (E.contents errors.new)) }
    ensures begun { result.status ≢ 0 → BeginsLine (E.contents errors.old) (E.contents errors.new) }
{
    let Some(arguments) = arguments else {
        return explain(errors);
    };
    match arguments.split_first() {
        Some((root, words)) => run_input(alloc, root, words, input, output, errors),
        None => explain(errors),
    }
}
