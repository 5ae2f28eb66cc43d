//! Cases: what is asked, and what is wanted.
//!
//! A case is a name in a line of its own, a bundle of files, and questions. A question is a line that begins with `$ `, and
//! each line below it is a line that is wanted of its answer.
use crate::answers::answer;
use just_examples_format::cases::{add_differences, bundle_of};
use just_examples_format::marks::repeated;
use std::alloc::{AllocError, Global};

// Adds what differs between the answer to a question and what is wanted of it.
fn add_question(
    found: &mut String,
    alloc: Global,
    bundle: &str,
    question: &str,
) -> Result<(), AllocError> {
    let (line, wanted) = question.split_once('\n').unwrap_or((question, ""));
    let line = repeated(alloc, line)?;
    match answer(alloc, bundle, line.as_str())? {
        Some(answer) => add_differences(found, alloc, answer.as_str(), wanted),
        None => writeln!(found, "  no question: {line}"),
    }
}

/// What differs in a case, a line each. It is empty where the case holds.
pub fn differences(alloc: Global, case: &str) -> Result<String, AllocError> {
    let mut found = String::new(alloc);
    let Some((head, questions)) = case.split_once("\n$ ") else {
        found.push_str("  nothing is asked\n")?;
        return Ok(found);
    };
    let bundle = bundle_of(alloc, head)?;
    for question in questions.split("\n$ ") {
        add_question(&mut found, alloc, bundle.as_str(), question)?;
    }
    Ok(found)
}
