//! The search for the file of a module.
use just_analyzer::{Compiler, Sources};
use just_bench::{parse, read_sources};
use just_bench_syntax::PlainSyntax;
use just_examples_answers::searches::{described, first_in, told};
use std::alloc::{AllocError, Global};

// What is found for a module of the name of a text's first recipe that a file in a folder declares, at a path where one is
// given.
fn search<'src>(
    alloc: Global,
    sources: &Sources<'src>,
    folder: &str,
    text: &'src str,
    path: Option<&str>,
) -> Result<String, AllocError> {
    let name = match parse(alloc, &PlainSyntax::new(), text) {
        Ok(ast) => first_in(&ast),
        Err(error) => return told(alloc, error),
    };
    match name {
        Some(name) => described(
            alloc,
            Compiler::find_module_file(alloc, sources, folder, &name, path),
        ),
        None => String::from_str(alloc, "no name\n"),
    }
}

/// Answers which file of a bundle is found for the module whose name heads a text.
fn search_bundle<'src>(
    alloc: Global,
    bundle: &'src str,
    folder: &str,
    text: &'src str,
    path: Option<&str>,
) -> Result<String, AllocError> {
    match read_sources(alloc, bundle) {
        Ok(sources) => search(alloc, &sources, folder, text, path),
        Err(error) => format!(in alloc; "error Bundle: {error}\n"),
    }
}

/// Answers which file of a bundle is found for a module that a file in a folder declares: the folder, the name, and the path
/// where the declaration has one.
pub fn answer_find(alloc: Global, bundle: &str, rest: &str) -> Result<String, AllocError> {
    let (folder, declared) = rest.split_once(' ').unwrap_or((rest, ""));
    let (name, path) = match declared.split_once(' ') {
        Some((name, path)) => (name, Some(path)),
        None => (declared, None),
    };
    let text = format!(in alloc; "{name}:\n")?;
    search_bundle(alloc, bundle, folder, text.as_str(), path)
}
