//! Runs two recipes, and counts what the host was asked.
#![tactic(auto)]

ghost use Rattle.just_analyzer.specs.Words.{IsClean};

use just_analyzer::layers::{Config, Error};
use just_analyzer::{Compiler, InvocationParser, Run, Sources, is_clean};
use just_bench::laws::layers_agree_on_lines;
use just_bench::{PlainEvaluation, PlainSyntax, Recorder, StopWriter};
use std::alloc::Global;
use std::io;

// Compiles the files, reads the words and runs what they mean. It answers how many recipes they name.
fn run<'src>(
    alloc: Global,
    sources: &Sources<'src>,
    root: &str,
    host: &mut Recorder,
    words: &[&str],
) -> Result<usize, Error<'src>>
    requires { IsClean root.now }
{
    let config = Config::new(alloc);
    let syntax = PlainSyntax::new();
    let mut evaluation = PlainEvaluation::new(alloc);
    let compiled = Compiler::compile(alloc, &config, &syntax, &evaluation, sources, root)?;
    let (justfile, recipes) = (&compiled.justfile, &compiled.recipes);
    let named = InvocationParser::parse_invocations(alloc, justfile, recipes, &evaluation, words)?;
    layers_agree_on_lines(&syntax);
    let mut writer = StopWriter::new(alloc, 0)?;
    justfile.run(
        alloc,
        &config,
        recipes,
        &syntax,
        &mut evaluation,
        host,
        &mut writer,
        words,
        &compiled.overrides,
    )?;
    Ok(named.len())
}

fn main(rt: HostRuntime) -> io::Result<()> {
    let alloc = rt.alloc();
    let root = "/justfile";
    let mut sources = Sources::new(alloc);
    let mut host = Recorder::new(alloc);
    if !is_clean(root) || sources.insert(root, "a: d\nd:\np x: d\n").is_err() {
        return println!(rt; "no file");
    }
    match run(alloc, &sources, root, &mut host, &["a", "p", "1"]) {
        Ok(named) => println!(rt; "{named} named, {} asked", host.entries().len()),
        Err(error) => println!(rt; "{}: {error}", error.name()),
    }
}
