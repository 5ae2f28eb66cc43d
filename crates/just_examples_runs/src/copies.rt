//! Copies of what was read, and of what is asked of a host: that they are equal is proved.
use just_bench::{Recorder, parse, root_source};
use just_bench_syntax::PlainSyntax;
use just_data::{Sequence, Text};
use just_examples_format::faults::unless_fault;
use just_paths::Modulepath;
use just_run_layers::{Groups, Host};
use std::alloc::{AllocError, Global};

// Adds whether a value could be copied.
fn add_copy<T: Clone + Drop>(value: &T, what: &str, text: &mut String) -> Result<(), AllocError> {
    let is_copied = value.clone().is_ok();
    writeln!(
        text,
        "{} {what}",
        if is_copied { "copied" } else { "refused" }
    )
}

// Adds what becomes of the items of a text, or its fault.
fn add_items(alloc: Global, read: &str, text: &mut String) -> Result<(), AllocError> {
    match unless_fault(parse(alloc, &PlainSyntax::new(), read), text)? {
        Some(ast) => add_copy(&ast.items, "items", text),
        None => Ok(()),
    }
}

// Adds what becomes of the source of a root.
fn add_source(alloc: Global, text: &mut String) -> Result<(), AllocError> {
    add_copy(&root_source(alloc)?, "source", text)
}

// One group of one word.
fn groups(alloc: Global, word: &str) -> Result<Groups, AllocError> {
    let mut group = Sequence::new(alloc);
    group.push(Text::from_str(alloc, word)?)?;
    let mut groups = Sequence::new(alloc);
    groups.push(group)?;
    Ok(groups)
}

// Adds what becomes of a call of a host.
fn add_call(alloc: Global, text: &mut String) -> Result<(), AllocError> {
    let path = Modulepath::root(alloc).join("a")?;
    let groups = groups(alloc, "1")?;
    let mut host = Recorder::new(alloc);
    if host.begin(&path, &groups).is_err() {
        return text.push_str("refused call\n");
    }
    for entry in host.entries() {
        add_copy(entry, "call", text)?;
    }
    Ok(())
}

// Adds what becomes of numbers.
fn add_data(alloc: Global, text: &mut String) -> Result<(), AllocError> {
    let mut numbers = Sequence::from_slice(alloc, &[1u64, 2, 3])?;
    numbers.append(Sequence::from_slice(alloc, &[4])?)?;
    add_copy(&numbers, "numbers", text)
}

fn add_copies(alloc: Global, read: &str, text: &mut String) -> Result<(), AllocError> {
    add_items(alloc, read, text)?;
    add_source(alloc, text)?;
    add_call(alloc, text)?;
    add_data(alloc, text)
}

/// Answers whether the items of a text, their source, a call and numbers could be copied.
pub fn answer_copy(alloc: Global, read: &str) -> Result<String, AllocError> {
    let mut answer = String::new(alloc);
    add_copies(alloc, read, &mut answer)?;
    Ok(answer)
}
