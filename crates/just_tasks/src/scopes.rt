//! What recipes run in: the modules of a run.
ghost use Rattle.std.specs.Prelude.{◌≡◌, Some};
ghost use Rattle.just_tasks.specs.Homes.{HasModuleScope, IsModuleScopeOf, module_scope_at};

use just_parts::Recipe;
use just_parts::layers::{Scope, Syntax};
use just_paths::Modulepath;
use just_run_layers::Context;
use std::collections::HashMap;

/// A module of a run.
#[derive(Drop)]
pub struct ModuleScope<'run, 'src> {
    /// What it hands to the layers.
    pub context: Context<'run, 'src>,
    /// The values of its variables.
    pub scope: Scope<'src>,
}

/// What recipes run in.
#[derive(Drop)]
pub struct Scopes<'run, 'src, S> {
    /// The grammar, which tells the lines of bodies apart.
    pub syntax: &'run S,
    /// Whether no dependencies run.
    pub no_dependencies: bool,
    /// The modules of the run, by their paths.
    pub modules: HashMap<Modulepath, ModuleScope<'run, 'src>>,
}

/// The module in which a recipe runs.
pub fn module_of<'a, 'run, 'src, S: Syntax>(
    scopes: &'a Scopes<'run, 'src, S>,
    recipe: &Recipe<'src>,
) -> &'a ModuleScope<'run, 'src>
    requires { HasModuleScope (S.answers scopes.now.syntax.now) scopes.now.modules recipe.now }
    ensures own { IsModuleScopeOf (S.answers scopes.now.syntax.now) result.now recipe.now }
    ensures there { module_scope_at scopes.now.modules recipe.now.module_path ≡ Some result.now }
{
    scopes.modules.get(recipe.module_path()).unwrap()
}
