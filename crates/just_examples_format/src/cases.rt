//! Cases as text: a name, a bundle, and lines that are wanted of answers.
use crate::marks::meant;
use std::alloc::{AllocError, Global};

/// The name of a case, its first line.
pub fn name_of(case: &str) -> &str {
    match case.split_once('\n') {
        Some((name, _)) => name,
        None => case,
    }
}

/// The bundle of a case, with the line end that its last line has.
pub fn bundle_of(alloc: Global, head: &str) -> Result<String, AllocError> {
    let Some((_, text)) = head.split_once('\n') else {
        return Ok(String::new(alloc));
    };
    let mut bundle = meant(alloc, text)?;
    bundle.push('\n')?;
    Ok(bundle)
}

// Whether a text has a line.
fn has_line(text: &str, line: &str) -> bool {
    text.split('\n').any(|other| other == line)
}

// The first line of a text that begins with a word.
fn line_of<'text>(text: &'text str, word: &str) -> Option<&'text str> {
    for line in text.split('\n') {
        if line.split(' ').next() == Some(word) {
            return Some(line);
        }
    }
    None
}

// Adds that a line is wanted, and what there is in place of it.
fn add_missing(found: &mut String, answer: &str, line: &str) -> Result<(), AllocError> {
    let word = line.split(' ').next().unwrap_or(line);
    let other = line_of(answer, word).unwrap_or("no such line");
    writeln!(found, "  wanted: {line}\n  found:  {other}")
}

// The kind of a line: its first word, or one kind for all that are told under a number, as the items of a text are.
fn kind_of(line: &str) -> &str {
    if line.starts_with(|c: char| c.is_ascii_digit()) {
        return "0";
    }
    line.split(' ').next().unwrap_or(line)
}

// Adds which lines an answer has beyond those that are wanted of their kind, where some are.
fn add_surplus(
    found: &mut String,
    alloc: Global,
    answer: &str,
    wanted: &str,
) -> Result<(), AllocError> {
    let wanted = meant(alloc, wanted)?;
    for line in answer.split('\n') {
        let kind = kind_of(line);
        let is_asked = wanted.split('\n').any(|other| kind_of(other) == kind);
        if is_asked && !kind.is_empty() && !has_line(wanted.as_str(), line) {
            writeln!(found, "  more:   {line}")?;
        }
    }
    Ok(())
}

/// Adds which of the wanted lines an answer lacks, which lines it has beyond those that are wanted of their kind, where some
/// are, and its fault where none is wanted. A kind is the first word of a line, or that a line begins with a digit.
pub fn add_differences(
    found: &mut String,
    alloc: Global,
    answer: &str,
    wanted: &str,
) -> Result<(), AllocError> {
    let mut asks = 0u64;
    for written in wanted.split('\n') {
        let line = meant(alloc, written)?;
        if line.is_empty() {
            continue;
        }
        asks = asks.saturating_add(1);
        if !has_line(answer, line.as_str()) {
            add_missing(found, answer, line.as_str())?;
        }
    }
    if asks == 0 {
        found.push_str("  nothing is wanted\n")?;
    }
    add_surplus(found, alloc, answer, wanted)?;
    match line_of(answer, "error") {
        Some(error) if line_of(wanted, "error").is_none() => writeln!(found, "  found:  {error}"),
        _ => Ok(()),
    }
}
