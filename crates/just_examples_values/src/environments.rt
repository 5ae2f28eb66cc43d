//! What programs have in their environment.
use just_errors::Refusal;
use just_examples_format::lists::before;
use just_parts::layers::Scope;
use just_run_layers::{Context, EnvironmentChange, Evaluation};
use std::alloc::{AllocError, Global};

// Adds a name with its text, or that it is removed.
fn add_change(change: &EnvironmentChange, text: &mut String) -> Result<(), AllocError> {
    match &change.value {
        Some(value) => write!(text, "{}='{value}'", change.name),
        None => write!(text, "no {}", change.name),
    }
}

/// Adds the line of what programs have in their environment where a module's variables have these values.
pub fn add_environment<'src, E: Evaluation>(
    alloc: Global,
    evaluation: &mut E,
    context: &Context<'_, 'src>,
    scope: &Scope<'src>,
    text: &mut String,
) -> Result<(), Refusal> {
    let unexports = context.unexports.as_slice();
    let changes = evaluation.environment(
        alloc,
        &context.dotenv,
        scope,
        context.settings,
        unexports,
    )?;
    text.push_str("environment")?;
    for (place, change) in changes.as_slice().iter().enumerate() {
        text.push_str(before(place))?;
        add_change(change, text)?;
    }
    Ok(text.push('\n')?)
}
