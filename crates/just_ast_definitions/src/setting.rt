use just_ast_expressions::{Expression, Interpreter};
use just_data::Exact;
use just_names::Name;

/// A setting, and the value that a text gives it.
#[derive(Clone, Drop)]
pub enum Setting<'src> {
    AllowDuplicateRecipes(bool),
    AllowDuplicateVariables(bool),
    DefaultScript(bool),
    Export(bool),
    IgnoreComments(bool),
    Lazy(bool),
    Lists(bool),
    NoCd(bool),
    NoExitMessage(bool),
    PositionalArguments(bool),
    Quiet(bool),
    ScriptInterpreter(Interpreter<Expression<'src>>),
    Shell(Interpreter<Expression<'src>>),
    Unstable(bool),
}

impl<'src> Exact for Setting<'src> {
    ghost use Rattle.std.proofs.Common.{rules};

    ghost exact = { Prim.search rules };
}

/// A line that sets a setting.
#[derive(Clone, Drop)]
pub struct Set<'src> {
    /// The name of the setting, as the text has it.
    pub name: Name<'src>,
    /// The setting and its value.
    pub value: Setting<'src>,
}

impl<'src> Exact for Set<'src> {
    ghost use Rattle.std.proofs.Common.{rules};

    ghost exact = { Prim.search rules };
}
