//! How a case writes what can't stand in a line, or would be too long.
//!
//! `\n`, `\r`, `\t` and `\s` are a line end, a carriage return, a tab and a blank, and `\e` is nothing. `\[A..B TEXT\]` is
//! TEXT for each number from A to B, up or down, in which `\i` is the number and `\j` the next.
use std::alloc::{AllocError, Global};

// The numbers from the first to the last, up or down.
fn numbers(alloc: Global, first: u32, last: u32) -> Result<Vec<u32>, AllocError> {
    let end = first.max(last).saturating_add(1);
    let mut numbers: Vec<u32> = (first.min(last)..end).collect(alloc)?;
    if last < first {
        numbers.reverse();
    }
    Ok(numbers)
}

// The numbers of a range `A..B`.
fn numbers_of(alloc: Global, range: &str) -> Result<Option<Vec<u32>>, AllocError> {
    let Some((first, last)) = range.split_once("..") else {
        return Ok(None);
    };
    match (first.parse::<u32>(), last.parse::<u32>()) {
        (Ok(first), Ok(last)) => Ok(Some(numbers(alloc, first, last)?)),
        _ => Ok(None),
    }
}

// Adds a text with a number and the next in place of their marks.
fn add_turn(alloc: Global, made: &mut String, text: &str, number: u32) -> Result<(), AllocError> {
    let own = number.to_string(alloc)?;
    let next = number.saturating_add(1).to_string(alloc)?;
    let marked = text.replace(alloc, "\\i", own.as_str())?;
    let turn = marked.replace(alloc, "\\j", next.as_str())?;
    made.push_str(turn.as_str())
}

// Adds a repetition, or what stands there where it is none.
fn add_turns(alloc: Global, made: &mut String, repetition: &str) -> Result<(), AllocError> {
    let Some((range, text)) = repetition.split_once(' ') else {
        return made.push_str(repetition);
    };
    let Some(numbers) = numbers_of(alloc, range)? else {
        return made.push_str(repetition);
    };
    for number in numbers.as_slice() {
        add_turn(alloc, made, text, *number)?;
    }
    Ok(())
}

// Adds what follows the beginning of a repetition: what it stands for, and the rest.
fn add_part(alloc: Global, made: &mut String, part: &str) -> Result<(), AllocError> {
    match part.split_once("\\]") {
        Some((repetition, rest)) => {
            add_turns(alloc, made, repetition)?;
            made.push_str(rest)
        }
        None => made.push_str(part),
    }
}

/// A text with its repetitions written out.
pub fn repeated(alloc: Global, text: &str) -> Result<String, AllocError> {
    let mut made = String::new(alloc);
    for (place, part) in text.split("\\[").enumerate() {
        if place == 0 {
            made.push_str(part)?;
        } else {
            add_part(alloc, &mut made, part)?;
        }
    }
    Ok(made)
}

/// A text with what its marks stand for.
pub fn unmarked(alloc: Global, text: &str) -> Result<String, AllocError> {
    let mut made = String::from_str(alloc, text)?;
    for (mark, meant) in [
        ("\\n", "\n"),
        ("\\r", "\r"),
        ("\\t", "\t"),
        ("\\s", " "),
        ("\\e", ""),
    ] {
        made = made.replace(alloc, mark, meant)?;
    }
    Ok(made)
}

/// What a part of a case says: its repetitions are written out, and its marks are replaced.
pub fn meant(alloc: Global, text: &str) -> Result<String, AllocError> {
    let repeated = repeated(alloc, text)?;
    unmarked(alloc, repeated.as_str())
}
