//! What the evaluation was asked for in a run.
use just_bench_evaluation::Asked;
use just_examples_format::lists::add_group;
use std::alloc::AllocError;

// Adds the line of a question for variables, as it is kept: how many were asked for, and which were bound.
fn add_request(asked: &Asked, text: &mut String) -> Result<(), AllocError> {
    text.push_str("asked ")?;
    match &asked.set {
        Some(set) => write!(text, "{}", set.get().len())?,
        None => text.push_str("all")?,
    }
    add_group(text, asked.names.as_slice())?;
    text.push('\n')
}

/// Adds the line of the names that were bound in a run: those of each question for variables, behind the path of its module,
/// which the root has none of.
pub(crate) fn add_bound(requests: &[Asked], text: &mut String) -> Result<(), AllocError> {
    text.push_str("bound")?;
    for (place, asked) in requests.iter().enumerate() {
        text.push_str(if place == 0 { "" } else { "," })?;
        if !asked.path.components.is_empty() {
            write!(text, " {}", asked.path)?;
        }
        add_group(text, asked.names.as_slice())?;
    }
    text.push_str(if requests.is_empty() {
        " nothing\n"
    } else {
        "\n"
    })
}

/// Adds a line for each question for variables.
pub fn add_requests(requests: &[Asked], text: &mut String) -> Result<(), AllocError> {
    for asked in requests {
        add_request(asked, text)?;
    }
    Ok(())
}
