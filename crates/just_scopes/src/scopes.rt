//! What recipes run in, once the modules are open.
ghost use Rattle.std.specs.Prelude.{◌≡◌, map, option_map, IfOk};
ghost use Rattle.just_tasks.specs.Homes.{AllHaveModuleScope};
ghost use Rattle.just_tasks.specs.Scene.{scene_in};
ghost use Rattle.just_scopes.specs.Open.{AreOpenModules};
ghost use Rattle.just_scopes.specs.Opening.{handed_of, opened_at, opened_of, scene_of, scope_at, setup_of};
ghost use Rattle.just_scopes.specs.loops.Scoped.{AreModulesOf};

use crate::context::context_of;
use crate::open_module::OpenedModule;
use just_data::{Chain, Text};
use just_parts::layers::{Config, Number, Scope, Syntax};
use just_paths::Modulepath;
use just_tasks::{ModuleScope, Scopes};
use std::alloc::{AllocError, Global};
use std::collections::HashMap;

// The modules by their paths.
fn modules_of<'run, 'src>(
    alloc: Global,
    config: &'run Config,
    overrides: &'run HashMap<Number, Text>,
    opened: Vec<OpenedModule<'run, 'src>>,
) -> Result<HashMap<Modulepath, ModuleScope<'run, 'src>>, AllocError>
    ensures { IfOk result (AreModulesOf (handed_of config.now overrides.now) (map opened_of opened.entry.items)) }
{
    let mut modules = HashMap::new(alloc);
    for module in opened {
        let path = module.justfile.module_path.clone()?;
        let context = context_of(config, overrides, module.justfile, module.dotenv);
        let scope = module.scope;
        modules.insert(path, ModuleScope { context, scope })?;
    }
    Ok(modules)
}

/// What recipes run in under a grammar: these modules, which are open. Each recipe to which the tasks lead that they were
/// opened for has its module's scope. The error is want of memory.
pub fn scopes_of<'run, 'src, S: Syntax>(
    alloc: Global,
    config: &'run Config,
    syntax: &'run S,
    overrides: &'run HashMap<Number, Text>,
    opened: Vec<OpenedModule<'run, 'src>>,
) -> Result<Scopes<'run, 'src, S>, AllocError>
    ensures scene { let setup = setup_of (S.answers syntax.now) config.now overrides.now in
        let scene = scene_of setup in
        IfOk result (λ scopes. (recipes : _) → scene_in (S.answers scopes.syntax.now) scopes recipes ≡ scene recipes (map opened_of opened.entry.items)) }
    ensures home { let is_open = AreOpenModules (S.answers syntax.now) in
        IfOk result (λ scopes. (root : _) (recipes : _) (tops : _) → is_open root recipes tops (map opened_of opened.entry.items) →
        AllHaveModuleScope (S.answers scopes.syntax.now) scopes.modules recipes tops) }
    ensures syntax { IfOk result (λ scopes. scopes.syntax.now ≡ syntax.now) }
    ensures alone { IfOk result (λ scopes. scopes.no_dependencies ≡ config.now.no_dependencies) }
{
    Ok(Scopes {
        syntax,
        no_dependencies: config.no_dependencies,
        modules: modules_of(alloc, config, overrides, opened)?,
    })
}

/// The open module of a path, and none where there is none.
pub fn opened_at<'run, 'src>(
    opened: Vec<OpenedModule<'run, 'src>>,
    path: &Modulepath,
) -> Option<OpenedModule<'run, 'src>>
    ensures { option_map opened_of result ≡ opened_at path.now (map opened_of opened.entry.items) }
{
    let mut found = None;
    for module in opened {
        if module.justfile.module_path == *path {
            found = Some(module);
        }
    }
    found
}

/// The values of the open module of a path, and none where there is none.
pub fn scope_at<'src>(opened: Vec<OpenedModule<'_, 'src>>, path: &Modulepath) -> Scope<'src>
    ensures { result ≡ scope_at path.now (map opened_of opened.entry.items) }
{
    match opened_at(opened, path) {
        Some(module) => module.scope,
        None => Scope {
            bindings: Chain::new(),
        },
    }
}
