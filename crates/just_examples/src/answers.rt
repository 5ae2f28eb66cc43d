//! What is answered to the questions of a case.
ghost use Rattle.std.specs.Prelude.{IfOk, IsSome};
ghost use Rattle.std.specs.HashMap.{get};
ghost use Rattle.just_analyzer.specs.Words.{CanRun, HoldsOverridden, IsClean, root_ast_key, same_ast_key};
ghost use Rattle.just_examples_values.specs.Bound.{IsInOrder, TellApart};

use crate::find::answer_find;
use just_analyzer::layers::{Config, Error, Syntax};
use just_analyzer::{Compilation, Compiler, Sources, is_clean};
use just_bench::{PlainEvaluation, PlainSyntax, read_sources};
use just_examples_answers::calls::{add_justfile, add_recipes};
use just_examples_answers::listings::add_listing;
use just_examples_answers::traits::{add_recipe, add_stability};
use just_examples_answers::variables::add_variable;
use just_examples_answers::walks::add_walk;
use just_examples_answers::{add_items, answer_text, read_pairs};
use just_examples_format::faults::add_fault;
use just_examples_format::questions::{Asked, read_asked};
use just_examples_runs::compilations::add_compiled;
use just_examples_runs::evaluations::add_values;
use just_examples_runs::requests::add_requests;
use just_examples_runs::runs::add_run;
use just_examples_values::add_evaluation;
use std::alloc::{AllocError, Global};

// Compiles the file at a path.
fn compile<'src, 'pairs>(
    alloc: Global,
    sources: &Sources<'src>,
    syntax: &PlainSyntax<'pairs>,
    config: &Config,
    root: &str,
) -> Result<Compilation<'src>, Error<'src>>
    requires { IsClean root.now }
    ensures can_run { IfOk result (λ c. CanRun (⟦<PlainSyntax<'pairs> as Syntax>⟧.answers syntax.now) c.justfile c.recipes) }
    ensures overridden { IfOk result (λ c. HoldsOverridden c.justfile c.overrides) }
    ensures root_ast { IfOk result (λ c. IsSome (get same_ast_key c.asts (root_ast_key c.root))) }
{
    let evaluation = PlainEvaluation::new(alloc);
    Compiler::compile(alloc, config, syntax, &evaluation, sources, root)
}

// Adds what a call of the evaluation gives in the root's module of a compilation, and for which variables it asked.
fn add_evaluated(
    text: &mut String,
    alloc: Global,
    compilation: &Compilation,
    syntax: &PlainSyntax,
    kind: &str,
    asked: &Asked,
) -> Result<(), AllocError>
    requires in_order { IsInOrder compilation.now.justfile }
    requires apart { TellApart compilation.now.justfile }
{
    let mut evaluation = PlainEvaluation::new(alloc);
    add_evaluation(
        &compilation.justfile,
        &compilation.recipes,
        &compilation.overrides,
        alloc,
        syntax,
        &mut evaluation,
        kind,
        asked,
        text,
    )?;
    add_requests(evaluation.asked(), text)
}

// Adds what a call gives of a compilation, of the root's module or of its recipes.
fn add_call<'pairs>(
    text: &mut String,
    alloc: Global,
    compilation: &Compilation,
    syntax: &PlainSyntax<'pairs>,
    kind: &str,
    asked: &Asked,
) -> Result<(), AllocError>
    requires can_run { CanRun (⟦<PlainSyntax<'pairs> as Syntax>⟧.answers syntax.now) compilation.now.justfile compilation.now.recipes }
    requires root_ast { IsSome (get same_ast_key compilation.now.asts (root_ast_key compilation.now.root)) }
{
    let (justfile, recipes) = (&compilation.justfile, &compilation.recipes);
    let (owner, call) = kind.split_once("::").unwrap_or(("", ""));
    let word = asked.first_word();
    match (owner, call) {
        ("Compilation", _) => add_items(text, compilation.root_ast().items.as_slice()),
        ("Evaluation", _) => add_evaluated(text, alloc, compilation, syntax, kind, asked),
        ("Justfile", "name" | "is_submodule") => add_justfile(justfile, kind, text),
        ("Justfile" | "Resolution", _) => add_walk(justfile, recipes, alloc, kind, word, text),
        ("RunRecipe", _) => add_recipe(justfile, recipes, call, word, text),
        ("Stability", _) => add_stability(justfile, alloc, &asked.config, text),
        _ => add_recipes(justfile, recipes, kind, word, text),
    }
}

// Adds what is asked of a compilation: what it has and what words do, what a program in their place comes to, which values are written,
// what a variable of the root's module refers to and which variables it needs, or what a call gives.
fn add_compilation<'pairs>(
    text: &mut String,
    alloc: Global,
    compilation: &Compilation,
    syntax: &PlainSyntax<'pairs>,
    kind: &str,
    asked: &Asked,
) -> Result<(), AllocError>
    requires can_run { CanRun (⟦<PlainSyntax<'pairs> as Syntax>⟧.answers syntax.now) compilation.now.justfile compilation.now.recipes }
    requires overridden { HoldsOverridden compilation.now.justfile compilation.now.overrides }
    requires root_ast { IsSome (get same_ast_key compilation.now.asts (root_ast_key compilation.now.root)) }
{
    let Compilation {
        asts,
        justfile,
        recipes,
        overrides,
        ..
    } = compilation;
    let word = asked.first_word();
    match kind {
        "just" => add_compiled(
            justfile,
            recipes,
            overrides,
            asts.len(),
            alloc,
            syntax,
            asked,
            text,
        ),
        "command" => add_run(
            justfile,
            recipes,
            overrides,
            alloc,
            syntax,
            asked,
            &[],
            text,
        ),
        "evaluate" => add_values(justfile, recipes, overrides, alloc, syntax, asked, text),
        "dump" | "groups" | "list" | "print" | "show" | "tell" => {
            add_listing(justfile, recipes, alloc, kind, word, text)
        }
        "variable" => add_variable(alloc, justfile, word, text),
        _ => add_call(text, alloc, compilation, syntax, kind, asked),
    }
}

// Adds what is asked of what the files of a source map are compiled to, or the fault.
fn add_sources(
    text: &mut String,
    alloc: Global,
    sources: &Sources,
    kind: &str,
    asked: &Asked,
) -> Result<(), AllocError> {
    let root = asked.root.as_str();
    if !is_clean(root) {
        return text.push_str("error NotClean\n");
    }
    let pairs = read_pairs(alloc, asked.conflicts.as_str())?;
    let syntax = PlainSyntax::with_conflicts(pairs.as_slice());
    match compile(alloc, sources, &syntax, &asked.config, root) {
        Ok(compilation) => add_compilation(text, alloc, &compilation, &syntax, kind, asked),
        Err(error) => add_fault(text, error),
    }
}

// Answers what is asked of what a bundle is compiled to. Where a variable or a recipe is asked of, the first word is its name.
fn answer_compiled(
    alloc: Global,
    bundle: &str,
    kind: &str,
    line: &str,
) -> Result<String, AllocError> {
    let mut answer = String::new(alloc);
    let mut asked = read_asked(alloc, line)?;
    match kind {
        "command" => asked.ask_for_program(alloc)?,
        "evaluate" => asked.ask_for_values(alloc)?,
        _ => {}
    }
    match read_sources(alloc, bundle) {
        Ok(sources) => add_sources(&mut answer, alloc, &sources, kind, &asked)?,
        Err(error) => writeln!(answer, "error Bundle: {error}")?,
    }
    Ok(answer)
}

// The questions of what a bundle is compiled to: words, and calls of a compilation, of the root's module or of a recipe.
const OF_COMPILED: [&str; 34] = [
    "just",
    "command",
    "dump",
    "evaluate",
    "groups",
    "list",
    "print",
    "show",
    "tell",
    "variable",
    "Compilation::root_ast",
    "Evaluation::assignments",
    "Evaluation::display",
    "Evaluation::environment",
    "Evaluation::line",
    "Evaluation::parameters",
    "Evaluation::string",
    "Evaluation::value",
    "Justfile::is_submodule",
    "Justfile::name",
    "Justfile::recipe",
    "Justfile::recipe_alias",
    "Justfile::submodule",
    "Recipes::get",
    "Recipes::is_empty",
    "Recipes::len",
    "Recipes::place_of",
    "Resolution::resolve_module",
    "Resolution::resolve_recipe",
    "RunRecipe::change_directory",
    "RunRecipe::is_parallel",
    "RunRecipe::is_public",
    "RunRecipe::takes_positional_arguments",
    "Stability::check_unstable",
];

/// Answers a question over a bundle, a line for each thing that a case may ask of it, or none where it is no question.
pub fn answer(alloc: Global, bundle: &str, question: &str) -> Result<Option<String>, AllocError> {
    let (kind, rest) = question.split_once(' ').unwrap_or((question, ""));
    if OF_COMPILED.contains(&kind) {
        return Ok(Some(answer_compiled(alloc, bundle, kind, rest)?));
    }
    match kind {
        "find" => Ok(Some(answer_find(alloc, bundle, rest)?)),
        "parse" | "read" | "conflicts" => Ok(Some(answer_text(alloc, kind, rest)?)),
        "copy" | "file" | "Recorder::memory_at" | "Recorder::scripted" => {
            just_examples_runs::answer(alloc, kind, rest)
        }
        _ => just_examples_calls::answer(alloc, kind, rest),
    }
}
