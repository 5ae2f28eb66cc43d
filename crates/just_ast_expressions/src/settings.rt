use crate::interpreter::Interpreter;
use just_data::{Exact, Text};

/// The settings of a module, as evaluated. By default none is on.
#[derive(Clone, Default, PartialEq, Eq, Drop)]
pub struct Settings {
    /// Several recipes of a module may have one name.
    pub allow_duplicate_recipes: bool,
    /// Several variables of a module may have one name.
    pub allow_duplicate_variables: bool,
    /// A recipe is a script where no attribute says otherwise.
    pub default_script: bool,
    /// Recipes have all variables in their environment.
    pub export: bool,
    /// A line of a body that is a comment is skipped.
    pub ignore_comments: bool,
    /// Variables are evaluated where something that runs reads them.
    pub lazy: bool,
    /// Values are lists.
    pub lists: bool,
    /// Recipes run where they are called and not in the module's folder.
    pub no_cd: bool,
    /// A recipe that fails says nothing.
    pub no_exit_message: bool,
    /// Recipes take their arguments by place too.
    pub positional_arguments: bool,
    /// Lines are not shown before they run.
    pub quiet: bool,
    /// What runs scripts, where the text says it.
    pub script_interpreter: Option<Interpreter<Text>>,
    /// What runs lines, where the text says it.
    pub shell: Option<Interpreter<Text>>,
    /// Features that are not stable may be used.
    pub unstable: bool,
}

impl Exact for Settings {
    ghost use Rattle.std.proofs.Common.{rules};

    ghost exact = { Prim.search rules };
}
