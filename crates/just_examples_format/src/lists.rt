//! Lists in a line, and the lines of what is written.
use std::alloc::AllocError;
use std::fmt;

/// What stands before a part of a line, by its place in a list.
pub fn before(place: usize) -> &'static str {
    if place == 0 { " " } else { ", " }
}

/// Adds a blank and the parts, with commas between them.
pub fn add_list<T: fmt::Display>(text: &mut String, parts: &[T]) -> Result<(), AllocError> {
    for (place, part) in parts.iter().enumerate() {
        write!(text, "{}{part}", before(place))?;
    }
    Ok(())
}

/// Adds a group of words in brackets.
pub fn add_group<T: fmt::Display>(text: &mut String, words: &[T]) -> Result<(), AllocError> {
    text.push_str(" [")?;
    for (place, word) in words.iter().enumerate() {
        write!(text, "{}{word}", if place == 0 { "" } else { ", " })?;
    }
    text.push(']')
}

/// What stands before the next part of a line that has these.
pub fn next(parts: &String) -> &'static str {
    if parts.is_empty() { " " } else { ", " }
}

/// Adds the lines of what is written, each behind a mark.
pub fn add_lines(shown: &str, text: &mut String) -> Result<(), AllocError> {
    for line in shown.lines() {
        writeln!(text, "| {line}")?;
    }
    Ok(())
}
