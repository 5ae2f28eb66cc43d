//! The modules of a run are opened: before the first recipe runs, each is asked for the pairs of its dotenv files and for the
//! values of its variables.
ghost use Rattle.std.specs.Prelude.{◌≡◌, ◌++◌, List, length, map, IfOk};
ghost use Rattle.std.specs.HashSet.{contains};
ghost use Rattle.std.specs.List.{All, Contains};
ghost use Rattle.just_run_layers.specs.loops.Interactions.{AsksAlone};
ghost use Rattle.just_tasks.specs.Pairs.{AllBelow};
ghost use Rattle.just_justfile.specs.Running.{CanRun, HoldsOverridden, known_by_tables};
ghost use Rattle.just_justfile.specs.declared.justfile.Justfile.{out-Justfile};
ghost use Rattle.just_parts.specs.Evaluator.{Binds};
ghost use Rattle.just_parts.specs.Needs.{HaveNumbersApart, IsClosed, has_number, same_number};
ghost use Rattle.just_parts.specs.Syntax.{SyntaxAnswers};
ghost use Rattle.just_recipe.specs.declared.dependency.Dependency.{Dependency};
ghost use Rattle.just_recipe.specs.declared.recipe.Recipe.{Recipe};
ghost use Rattle.just_run_layers.specs.Evaluation.{config_contents, in_set, set_of};
ghost use Rattle.just_run_layers.specs.Host.{KeepsPromises, executed};
ghost use Rattle.just_run_layers.specs.Interactions.{log_of};
ghost use Rattle.just_scopes.specs.Open.{AreLazyModules, AreOpenModules, Opens, OpensLazily, whose_opened, whose_placed};
ghost use Rattle.just_scopes.specs.Opening.{around, dotenv_steps, working_folder_of, handed_of, opened_in, opened_of, scope_steps, setup_of};
ghost use Rattle.just_scopes.specs.loops.Opening.{opened_as};
ghost use Rattle.just_scopes.specs.loops.Opens.{AsksHostAlone, CanOpen, IsOpenedBy, IsSetFor, OpensAll, OpensOne, around_as, set_in, wanted_from};
ghost use Rattle.just_scopes.specs.loops.Preorder.{placed};

use crate::context::context_of;
use crate::modules::{PlacedModule, modules_in};
use crate::needs::wanted_numbers;
use crate::uses::used_numbers;
use just_data::{Chain, Shared, Text};
use just_errors::Refusal;
use just_justfile::Justfile;
use just_parts::layers::{Config, Halt, Number, RunError, Scope, Syntax};
use just_recipes::Recipes;
use just_run_layers::{EnvironmentPair, Evaluation, Host};
use just_tasks::Task;
use std::alloc::{AllocError, Global};
use std::collections::{HashMap, HashSet};

/// A module that is open.
#[derive(Drop)]
pub struct OpenedModule<'run, 'src> {
    /// The module.
    pub justfile: &'run Justfile<'src>,
    /// Whether those of its variables alone are evaluated that are needed.
    pub is_lazy: bool,
    /// The pairs of dotenv files: those of the modules around it, and behind them its own.
    pub dotenv: Chain<EnvironmentPair>,
    /// The values of its variables.
    pub scope: Scope<'src>,
}

// What a module is handed by the one around it.
#[derive(Drop)]
struct Surrounding<'src> {
    dotenv: Chain<EnvironmentPair>,
    scope: Scope<'src>,
}

// What the one at a place hands to those in it, and nothing where there is none.
fn handed_on<'src>(
    opened: &[OpenedModule<'_, 'src>],
    parent: Option<usize>,
) -> Result<Surrounding<'src>, AllocError>
    ensures { IfOk result (λ found. around_as found ≡ around (map opened_of opened.now) parent) }
{
    let Some(place) = parent else {
        return Ok(Surrounding {
            dotenv: Chain::new(),
            scope: Scope {
                bindings: Chain::new(),
            },
        });
    };
    let Some(outer) = opened.get(place) else {
        return Ok(Surrounding {
            dotenv: Chain::new(),
            scope: Scope {
                bindings: Chain::new(),
            },
        });
    };
    Ok(Surrounding {
        dotenv: outer.dotenv.clone()?,
        scope: outer.scope.clone()?,
    })
}

/// The folder of a module, for which its dotenv files are asked: its own, and of the root the configuration's, where it has one.
pub fn folder_for<'a>(config: &'a Config, justfile: &'a Justfile) -> &'a Text
    ensures { result.now ≡ working_folder_of config.now.working_directory justfile.now }
{
    if justfile.module_path.components.is_empty() {
        if let Some(configured) = &config.working_directory {
            return configured;
        }
    }
    &justfile.working_directory
}

// Pairs behind others.
fn laid_over(
    alloc: Global,
    before: &Chain<EnvironmentPair>,
    pairs: &[EnvironmentPair],
) -> Result<Chain<EnvironmentPair>, AllocError>
    ensures { IfOk result (λ all. all ≡ before.now ++ pairs.now) }
{
    let mut all = before.clone()?;
    for pair in pairs {
        all = all.pushed(alloc, pair.clone()?)?;
    }
    Ok(all)
}

// The pairs of a module's dotenv files, behind those around it.
fn ask_pairs<'src, H: Host>(
    alloc: Global,
    config: &Config,
    justfile: &Justfile<'src>,
    before: &Chain<EnvironmentPair>,
    host: &mut H,
) -> Result<Chain<EnvironmentPair>, Halt<'src>>
    ensures keeps { KeepsPromises (H.promised host.old) (H.promised host.new) }
    ensures took { let steps = dotenv_steps (config_contents config.now) justfile.now before.now in
        AsksHostAlone (H.promised host.old) steps (H.entries host.old) (H.entries host.new) result }
{
    if !config.load_dotenv {
        return Ok(Chain::new());
    }
    match host.dotenv(&justfile.module_path, folder_for(config, justfile)) {
        Ok(pairs) => Ok(laid_over(alloc, before, pairs.as_slice())?),
        Err(Refusal::Memory) => Err(Halt::Memory),
        Err(Refusal::Fault(fault)) => Err(Halt::Failed(RunError::Dotenv(fault))),
    }
}

// The values of a module's variables: of a set of them, or of all.
fn ask_scope<'src, E: Evaluation>(
    alloc: Global,
    config: &Config,
    overrides: &HashMap<Number, Text>,
    justfile: &Justfile<'src>,
    dotenv: &Chain<EnvironmentPair>,
    parent: &Scope<'src>,
    set: Option<&Shared<HashSet<Number>>>,
    evaluation: &mut E,
) -> Result<Scope<'src>, Halt<'src>>
    requires can { CanOpen (has_number overrides.now) justfile.now }
    requires closed { IsClosed (known_by_tables justfile.now) (has_number overrides.now) (in_set (set_of set)) }
    ensures keeps { KeepsPromises (E.promised evaluation.old) (E.promised evaluation.new) }
    ensures took { let steps = scope_steps (handed_of config.now overrides.now) justfile.now (set_of set.entry) parent.now dotenv.now in
        AsksAlone (E.promised evaluation.old) steps (E.requests evaluation.old) (E.requests evaluation.new) result }
    ensures binds { let wanted = wanted_from (handed_of config.now overrides.now) justfile.now (set_of set.entry) in
        IfOk result (Binds (out-Justfile justfile.now).assignments wanted) }
{
    let context = context_of(config, overrides, justfile, dotenv.clone()?);
    match evaluation.assignments(alloc, &context, parent, set) {
        Ok(scope) => Ok(scope),
        Err(Refusal::Memory) => Err(Halt::Memory),
        Err(Refusal::Fault(fault)) => Err(Halt::Failed(RunError::Evaluate(fault))),
    }
}

// The set of a module: of a lazy one what is needed, by what recipes use, and none of another.
fn set_for(
    alloc: Global,
    used: &HashSet<Number>,
    module: &PlacedModule,
) -> Result<Option<Shared<HashSet<Number>>>, AllocError>
    requires { HaveNumbersApart (known_by_tables «module».now.justfile.now) }
    ensures { IfOk result (λ set. IsSetFor (contains same_number used.now) «module».now.justfile.now «module».now.is_lazy (set_in set)) }
{
    if !module.is_lazy {
        return Ok(None);
    }
    let set = wanted_numbers(alloc, used, module.justfile)?;
    Ok(Some(Shared::new(alloc, set)?))
}

// Opens a module, handed what the one around it has.
fn open_module<'run, 'src, E: Evaluation, H: Host>(
    alloc: Global,
    config: &Config,
    overrides: &HashMap<Number, Text>,
    used: &HashSet<Number>,
    entry: &PlacedModule<'run, 'src>,
    outer: &Surrounding<'src>,
    evaluation: &mut E,
    host: &mut H,
) -> Result<OpenedModule<'run, 'src>, Halt<'src>>
    requires { CanOpen (has_number overrides.now) entry.now.justfile.now }
    ensures keeps { KeepsPromises (E.promised evaluation.old) (E.promised evaluation.new) }
    ensures keeps_host { KeepsPromises (H.promised host.old) (H.promised host.new) }
    ensures nothing_runs { executed (H.entries host.new) ≡ executed (H.entries host.old) }
    ensures took { let first = log_of (H.entries host.old) (E.requests evaluation.old) in
        let last = log_of (H.entries host.new) (E.requests evaluation.new) in
        let handed = handed_of config.now overrides.now in
        let opens = OpensOne (E.promised evaluation.old) (H.promised host.old) (contains same_number used.now) handed in
        opens (placed entry.now) (around_as outer.now) first last (opened_as result) }
    ensures whose { IfOk result (λ o. whose_opened (opened_of o) ≡ whose_placed (placed entry.now)) }
    ensures bound { let bound = IsOpenedBy (contains same_number used.now) (handed_of config.now overrides.now) in
        IfOk result (λ o. bound (opened_of o)) }
{
    let justfile = entry.justfile;
    let dotenv = ask_pairs(alloc, config, justfile, &outer.dotenv, host)?;
    let set = set_for(alloc, used, entry)?;
    let scope = ask_scope(
        alloc,
        config,
        overrides,
        justfile,
        &dotenv,
        &outer.scope,
        set.as_ref(),
        evaluation,
    )?;
    Ok(OpenedModule {
        justfile,
        is_lazy: entry.is_lazy,
        dotenv,
        scope,
    })
}

// Opens the next module, where those before it are open.
fn open_next<'run, 'src, E: Evaluation, H: Host>(
    alloc: Global,
    config: &Config,
    overrides: &HashMap<Number, Text>,
    used: &HashSet<Number>,
    opened: &[OpenedModule<'run, 'src>],
    entry: &PlacedModule<'run, 'src>,
    evaluation: &mut E,
    host: &mut H,
) -> Result<OpenedModule<'run, 'src>, Halt<'src>>
    requires { CanOpen (has_number overrides.now) entry.now.justfile.now }
    ensures keeps { KeepsPromises (E.promised evaluation.old) (E.promised evaluation.new) }
    ensures keeps_host { KeepsPromises (H.promised host.old) (H.promised host.new) }
    ensures nothing_runs { executed (H.entries host.new) ≡ executed (H.entries host.old) }
    ensures took { let first = log_of (H.entries host.old) (E.requests evaluation.old) in
        let last = log_of (H.entries host.new) (E.requests evaluation.new) in
        let handed = handed_of config.now overrides.now in
        let opens = OpensOne (E.promised evaluation.old) (H.promised host.old) (contains same_number used.now) handed in
        opens (placed entry.now) (around (map opened_of opened.now) entry.now.parent) first last (opened_as result) }
    ensures whose { IfOk result (λ o. whose_opened (opened_of o) ≡ whose_placed (placed entry.now)) }
    ensures bound { let bound = IsOpenedBy (contains same_number used.now) (handed_of config.now overrides.now) in
        IfOk result (λ o. bound (opened_of o)) }
{
    let outer = handed_on(opened, entry.parent)?;
    open_module(
        alloc, config, overrides, used, entry, &outer, evaluation, host,
    )
}

// Opens modules in turn.
fn open_all<'run, 'src, E: Evaluation, H: Host>(
    alloc: Global,
    config: &Config,
    overrides: &HashMap<Number, Text>,
    used: &HashSet<Number>,
    modules: &[PlacedModule<'run, 'src>],
    evaluation: &mut E,
    host: &mut H,
) -> Result<Vec<OpenedModule<'run, 'src>>, Halt<'src>>
    requires { (p : _) → Contains (map placed modules.now) p → CanOpen (has_number overrides.now) p.justfile }
    ensures keeps { KeepsPromises (E.promised evaluation.old) (E.promised evaluation.new) }
    ensures keeps_host { KeepsPromises (H.promised host.old) (H.promised host.new) }
    ensures nothing_runs { executed (H.entries host.new) ≡ executed (H.entries host.old) }
    ensures took { let first = log_of (H.entries host.old) (E.requests evaluation.old) in
        let last = log_of (H.entries host.new) (E.requests evaluation.new) in
        let handed = handed_of config.now overrides.now in
        let opens = OpensAll (E.promised evaluation.old) (H.promised host.old) (contains same_number used.now) handed in
        opens (map placed modules.now) first last (opened_in result) }
    ensures whose { IfOk result (λ os. map whose_opened (map opened_of os.items) ≡ map whose_placed (map placed modules.now)) }
    ensures bound { let bound = IsOpenedBy (contains same_number used.now) (handed_of config.now overrides.now) in
        IfOk result (λ os. All bound (map opened_of os.items)) }
{
    let mut opened = Vec::new(alloc);
    for place in 0..modules.len() {
        let next = open_next(
            alloc,
            config,
            overrides,
            used,
            opened.as_slice(),
            &modules[place],
            evaluation,
            host,
        )?;
        opened.push(next)?;
    }
    Ok(opened)
}

/// Opens the modules that stand in the root, each before those in it: the host is asked for the pairs of its dotenv files,
/// where the configuration says so, and the evaluation for the values of its variables. A module is lazy where it, or one
/// above it, sets so: then exactly those variables are evaluated that are eager, exported (all are where the settings say so)
/// or read by a recipe to which the tasks lead, and what these need: not what a variable reads that the analysis saw as
/// overridden. Nothing runs. The first fault ends it: `Dotenv` of the host, `Evaluate` of the
/// evaluation.
///
/// What compiling answers can run, and its overrides have all that the analysis saw. Each task is that of a recipe that is
/// there.
pub fn open_modules<'run, 'src, S: Syntax, E: Evaluation, H: Host>(
    alloc: Global,
    config: &Config,
    recipes: &Recipes<'src>,
    syntax: &S,
    root: &'run Justfile<'src>,
    overrides: &HashMap<Number, Text>,
    tops: &[Task],
    evaluation: &mut E,
    host: &mut H,
) -> Result<Vec<OpenedModule<'run, 'src>>, Halt<'src>>
    requires can_run { CanRun (S.answers syntax.now) root.now recipes.now }
    requires overridden { HoldsOverridden root.now overrides.now }
    requires below { AllBelow (length recipes.now) tops.now }
    ensures keeps { KeepsPromises (E.promised evaluation.old) (E.promised evaluation.new) }
    ensures keeps_host { KeepsPromises (H.promised host.old) (H.promised host.new) }
    ensures nothing_runs { executed (H.entries host.new) ≡ executed (H.entries host.old) }
    ensures took { let first = log_of (H.entries host.old) (E.requests evaluation.old) in
        let last = log_of (H.entries host.new) (E.requests evaluation.new) in
        let setup = setup_of (S.answers syntax.now) config.now overrides.now in
        let opens = Opens (E.promised evaluation.old) (H.promised host.old) setup root.now recipes.now tops.now in
        opens first last (opened_in result) }
    ensures open { IfOk result (λ os. AreOpenModules (S.answers syntax.now) root.now recipes.now tops.now (map opened_of os.items)) }
{
    let used = used_numbers(alloc, recipes, tops)?;
    let modules = modules_in(alloc, root, false)?;
    open_all(
        alloc,
        config,
        overrides,
        &used,
        modules.as_slice(),
        evaluation,
        host,
    )
}

/// Opens the modules that stand in the root, as `open_modules` does, but each as a lazy one, whatever its settings say. Of
/// each exactly those variables are evaluated that are eager, exported (all are where the settings say so) or among the
/// numbers, and what these need: not what a variable reads that the analysis saw as overridden. Nothing runs. The first fault ends it: `Dotenv` of the host, `Evaluate` of the evaluation.
///
/// What compiling answers can run, and its overrides have all that the analysis saw.
pub fn open_lazily<'run, 'src, E: Evaluation, H: Host>(
    alloc: Global,
    config: &Config,
    root: &'run Justfile<'src>,
    overrides: &HashMap<Number, Text>,
    numbers: &HashSet<Number>,
    evaluation: &mut E,
    host: &mut H,
) -> Result<Vec<OpenedModule<'run, 'src>>, Halt<'src>>
    requires can_run { (answers : SyntaxAnswers) × (recipes : List (Recipe Dependency)) × CanRun answers root.now recipes }
    requires overridden { HoldsOverridden root.now overrides.now }
    ensures keeps { KeepsPromises (E.promised evaluation.old) (E.promised evaluation.new) }
    ensures keeps_host { KeepsPromises (H.promised host.old) (H.promised host.new) }
    ensures nothing_runs { executed (H.entries host.new) ≡ executed (H.entries host.old) }
    ensures took { let first = log_of (H.entries host.old) (E.requests evaluation.old) in
        let last = log_of (H.entries host.new) (E.requests evaluation.new) in
        let handed = handed_of config.now overrides.now in
        let opens = OpensLazily (E.promised evaluation.old) (H.promised host.old) handed root.now (contains same_number numbers.now) in
        opens first last (opened_in result) }
    ensures open { IfOk result (λ os. AreLazyModules root.now (contains same_number numbers.now) (map opened_of os.items)) }
{
    let modules = modules_in(alloc, root, true)?;
    open_all(
        alloc,
        config,
        overrides,
        numbers,
        modules.as_slice(),
        evaluation,
        host,
    )
}
