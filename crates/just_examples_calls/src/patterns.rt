//! Calls of patterns.
use crate::halves;
use just_data::{BorrowedText, Text};
use just_examples_format::faults::unless_fault;
use just_parts::layers::{Error, Pattern, Token};
use std::alloc::{AllocError, Global};

// The pattern of a text; a fault is told at the whole of it, which is the file `f`.
fn pattern_of<'src>(alloc: Global, text: &'src str) -> Result<Pattern, Error<'src>> {
    let (path, src) = (BorrowedText::new("f"), BorrowedText::new(text));
    let token = Token::new(0, 0, 0, text.len(), path, src);
    Pattern::new(alloc, Text::from_str(alloc, text)?, token)
}

// Adds what a call of a pattern gives for a text. It answers whether there is such a call.
fn add_asked(
    alloc: Global,
    call: &str,
    pattern: &Pattern,
    text: &str,
    answer: &mut String,
) -> Result<bool, AllocError> {
    match call {
        "new" => writeln!(answer, "new {}", pattern.as_str().len())?,
        "as_str" => writeln!(answer, "as_str {}", pattern.as_str())?,
        "clone" => writeln!(answer, "clone {}", pattern.clone()?.as_str())?,
        "is_match" => writeln!(answer, "is_match {}", pattern.is_match(alloc, text)?)?,
        _ => return Ok(false),
    }
    Ok(true)
}

/// Answers what a call of a pattern gives; `is_match` is given a text behind a ` | `, and `new` tells how long the pattern is.
pub fn answer_pattern(alloc: Global, call: &str, rest: &str) -> Result<Option<String>, AllocError> {
    let (regex, text) = match call {
        "is_match" => halves(rest),
        _ => (rest, ""),
    };
    let mut answer = String::new(alloc);
    let Some(pattern) = unless_fault(pattern_of(alloc, regex), &mut answer)? else {
        return Ok(Some(answer));
    };
    let is_call = add_asked(alloc, call, &pattern, text, &mut answer)?;
    Ok(is_call.then_some(answer))
}
