ghost use Rattle.std.specs.Prelude.{◌≡◌};
ghost use Rattle.just_paths.specs.Clean.{IsClean};
ghost use Rattle.just_loader.specs.ModuleFile.{FindsModuleFile};
ghost use Rattle.just_loader.specs.Reached.{world_of};
ghost use Rattle.just_compiler.specs.Compiled.{Compiles};

use crate::analyzer::Analyzer;
use crate::compilation::Compilation;
use just_data::{Shared, Text};
use just_loader::{Loaded, Sources, load};
use just_module_assembly::relative_paths;
use just_overrides::apply_overrides;
use just_parts::layers::{Config, ConstantEvaluation, Error, Name, Syntax};
use just_paths::Modulepath;
use std::alloc::Global;
use std::collections::HashMap;

/// Compiles source maps.
pub struct Compiler;

impl Compiler {
    /// The file of a module that a file in the folder `parent` declares, by its name or at a path, or none. Where there
    /// are several candidates all are named, from `parent` where they lie below it.
    pub fn find_module_file<'src>(
        alloc: Global,
        sources: &Sources<'src>,
        parent: &str,
        module: &Name<'src>,
        path: Option<&str>,
    ) -> Result<Option<Text>, Error<'src>>
        ensures { FindsModuleFile sources.now parent.now «module».now path.entry result }
    {
        just_loader::find_module_file(alloc, sources, parent, module, path)
    }

    /// Compiles the file at `root` and those that it reaches, or names a rule that is broken. Where it succeeds no rule
    /// is broken, and each recipe that the compilation names is held, after those that it depends on.
    ///
    /// The evaluation is asked for the constants of each module: the values of the variables that its settings need, and
    /// the docs, helps and patterns of its attributes, each with whatever it reads. A variable that the configuration
    /// overrides has that value, and its own is not evaluated. Then it is asked for the settings of each module, for the docs
    /// of the modules that it declares, and for the docs, helps and patterns of its recipes that stand. At last each key by
    /// which the configuration overrides means a variable, also through aliases of modules, or all that mean none are told.
    /// The compilation has the values that override variables, by their numbers; of several keys that mean one variable the
    /// value of the last.
    pub fn compile<'src, S: Syntax, E: ConstantEvaluation>(
        alloc: Global,
        config: &Config,
        syntax: &S,
        evaluation: &E,
        sources: &Sources<'src>,
        root: &str,
    ) -> Result<Compilation<'src>, Error<'src>>
        requires { IsClean root.now }
        ensures { let world = world_of sources.now config.now (S.answers syntax.now) root.now in
            Compiles (E.answers evaluation.now) config.now.overrides world result }
    {
        let path = Text::from_str(alloc, root)?;
        let Loaded { asts, loaded } = load(alloc, config, syntax, sources, root)?;
        let paths = relative_paths(alloc, &asts, root)?;
        let loaded = Shared::new(alloc, loaded)?;
        let module_path = Modulepath::root(alloc);
        let mut overrides = HashMap::new(alloc);
        let (justfile, recipes) = Analyzer::analyze(
            alloc,
            &asts,
            config,
            None,
            &[],
            &loaded,
            &module_path,
            None,
            &mut overrides,
            &paths,
            false,
            root,
            syntax,
            evaluation,
        )?;
        apply_overrides(alloc, &justfile, &config.overrides, &mut overrides)?;
        Ok(Compilation {
            asts,
            justfile,
            recipes,
            overrides,
            root: path,
        })
    }
}
