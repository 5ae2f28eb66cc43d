//! Calls of the grammar, which are given the lines of a text's first recipe, or a name.
use crate::recipes::first_recipe;
use just_bench_reading::parse;
use just_bench_syntax::PlainSyntax;
use just_examples_format::faults::unless_fault;
use just_parts::layers::{Line, Settings, Sigil, Syntax};
use std::alloc::{AllocError, Global};

// How a sigil is written.
fn mark(sigil: Sigil) -> char {
    match sigil {
        Sigil::Guard => '?',
        Sigil::Infallible => '-',
        Sigil::Quiet => '@',
    }
}

// Adds the sigils of a line.
fn add_sigils(
    alloc: Global,
    syntax: &PlainSyntax,
    line: &Line,
    text: &mut String,
) -> Result<(), AllocError> {
    text.push(' ')?;
    for sigil in syntax.sigils(alloc, line, &Settings::default())?.as_slice() {
        text.push(mark(*sigil))?;
    }
    Ok(())
}

// Adds what a call gives for a line. It answers whether there is such a call.
fn add_line(alloc: Global, call: &str, line: &Line, text: &mut String) -> Result<bool, AllocError> {
    let syntax = PlainSyntax::new();
    match call {
        "sigils" => add_sigils(alloc, &syntax, line, text)?,
        "is_comment" => write!(text, " {}", syntax.is_comment(line))?,
        "is_continuation" => write!(text, " {}", syntax.is_continuation(line))?,
        "is_shebang" => write!(text, " {}", syntax.is_shebang(line))?,
        _ => return Ok(false),
    }
    Ok(true)
}

// Answers a line of what a call gives for each of some lines.
fn answer_lines(alloc: Global, call: &str, lines: &[Line]) -> Result<Option<String>, AllocError> {
    let mut answer = String::from_str(alloc, call)?;
    for line in lines {
        if !add_line(alloc, call, line, &mut answer)? {
            return Ok(None);
        }
    }
    answer.push('\n')?;
    Ok(Some(answer))
}

// Answers what a call gives for the lines of a text's first recipe.
fn answer_body(alloc: Global, call: &str, text: &str) -> Result<Option<String>, AllocError> {
    let mut fault = String::new(alloc);
    let Some(ast) = unless_fault(parse(alloc, &PlainSyntax::new(), text), &mut fault)? else {
        return Ok(Some(fault));
    };
    match first_recipe(&ast) {
        Some(recipe) => answer_lines(alloc, call, recipe.body.as_slice()),
        None => Ok(None),
    }
}

/// Answers what a call of the plain grammar gives for a name, or for the lines of a text's first recipe.
pub fn answer_syntax(alloc: Global, call: &str, text: &str) -> Result<Option<String>, AllocError> {
    let syntax = PlainSyntax::new();
    let is_there = match call {
        "keyword" => syntax.keyword(alloc, text)?.is_some(),
        "constant" => syntax.constant(text).is_some(),
        "builtin" => match syntax.builtin(text) {
            Some(range) => return Ok(Some(format!(in alloc; "builtin takes {range}\n")?)),
            None => false,
        },
        _ => return answer_body(alloc, call, text),
    };
    Ok(Some(format!(in alloc; "{call} {is_there}\n")?))
}
