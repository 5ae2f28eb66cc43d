//! Calls of sources. The root is `/justfile`.
use crate::halves;
use crate::names::recipe_names;
use just_bench_reading::root_source;
use just_examples_format::faults::unless_fault;
use just_examples_format::lists::add_list;
use just_parts::Source;
use just_parts::layers::{Error, Name};
use just_paths::is_clean;
use std::alloc::{AllocError, Global};

// Adds how a file came in, a line for each part.
fn add_source(alloc: Global, source: &Source, text: &mut String) -> Result<(), AllocError> {
    let (path, folder) = (&source.path, &source.working_directory);
    writeln!(
        text,
        "depth {}\npath {path}\nfolder {folder}",
        source.file_depth
    )?;
    text.push_str("files")?;
    add_list(text, source.file_path.to_sequence(alloc)?.as_slice())?;
    text.push_str("\noffsets")?;
    add_list(text, source.import_offsets.to_sequence(alloc)?.as_slice())?;
    match &source.namepath {
        Some(path) => writeln!(text, "\nmodule {path}"),
        None => text.push_str("\nno module\n"),
    }
}

// The file at a path that the root imports at an offset. Where a depth stands behind the offset, the root has it.
fn imported<'src>(alloc: Global, path: &str, given: &str) -> Result<Source<'src>, Error<'src>> {
    let (offset, depth) = given.split_once(' ').unwrap_or((given, ""));
    let mut source = root_source(alloc)?;
    source.file_depth = depth.parse::<u64>().unwrap_or(0);
    source.import(alloc, path, offset.parse::<usize>().unwrap_or(0))
}

// The depth that the root has, where a number stands before a text, and the text.
fn depth_and_text<'src>(given: &'src str) -> (u64, &'src str) {
    let Some((depth, text)) = given.split_once(' ') else {
        return (0, given);
    };
    match depth.parse::<u64>() {
        Ok(depth) => (depth, text),
        Err(_) => (0, given),
    }
}

// The file at a path of a module in the one of a source, and in that the next, as names tell.
fn inside<'src>(
    alloc: Global,
    source: Source<'src>,
    path: &str,
    names: &[Name<'src>],
) -> Result<Source<'src>, Error<'src>> {
    let mut source = source;
    for name in names {
        if !is_clean(path) {
            return Ok(source);
        }
        source = source.module(alloc, name, path)?;
    }
    Ok(source)
}

// The file at a path of the module of a text's last recipe, which stands in those of the recipes before it, or none where there
// is a fault, which is added. A path that is not clean has no module, and a text without recipes names none: then it is the
// root. Where a number stands before the text, the root has this depth.
fn declared<'src>(
    alloc: Global,
    path: &str,
    given: &'src str,
    answer: &mut String,
) -> Result<Option<Source<'src>>, AllocError> {
    let (depth, text) = depth_and_text(given);
    let Some(names) = recipe_names(alloc, text, answer)? else {
        return Ok(None);
    };
    let mut source = root_source(alloc)?;
    source.file_depth = depth;
    unless_fault(inside(alloc, source, path, names.as_slice()), answer)
}

/// Answers how a file came in: the root, a file that is imported at a path and an offset, and a file of a module.
pub fn answer_source(alloc: Global, call: &str, rest: &str) -> Result<Option<String>, AllocError> {
    let (path, given) = halves(rest);
    let mut answer = String::new(alloc);
    let made = match call {
        "root" => Some(root_source(alloc)?),
        "import" => unless_fault(imported(alloc, path, given), &mut answer)?,
        "module" => declared(alloc, path, given, &mut answer)?,
        _ => return Ok(None),
    };
    if let Some(source) = made {
        add_source(alloc, &source, &mut answer)?;
    }
    Ok(Some(answer))
}
