//! Where the questions of a run are asked.
use just_parts::layers::Scope;
use just_run_layers::Context;

/// In a module, among the values of a scope, for a recipe that is a dependency or none.
#[derive(Drop)]
pub struct Place<'a, 'src> {
    /// What the module hands over.
    pub context: &'a Context<'a, 'src>,
    /// The values.
    pub scope: &'a Scope<'src>,
    /// Whether the recipe is a dependency.
    pub is_dependency: bool,
}
