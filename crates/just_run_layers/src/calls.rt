//! What a host is handed to run a program.
use crate::environment::EnvironmentChange;
use just_ast_expressions::Interpreter;
use just_data::{Exact, Sequence, Text};

/// What a shell is handed beside its command: the name of a recipe, and texts.
#[derive(Clone, PartialEq, Eq, Drop)]
pub struct Positional {
    /// The name of the recipe.
    pub recipe: Text,
    /// The texts, in order.
    pub texts: Sequence<Text>,
}

impl Exact for Positional {
    ghost use Rattle.std.proofs.Common.{rules};

    ghost exact = { Prim.search rules };
}

/// A command that a shell runs.
#[derive(Clone, PartialEq, Eq, Drop)]
pub struct ShellCall {
    /// The shell, and its arguments.
    pub shell: Interpreter<Text>,
    /// The command.
    pub command: Text,
    /// The folder that it runs in; none where the folder is not changed.
    pub working_directory: Option<Text>,
    /// The recipe's name and its texts, where it hands them on by position.
    pub positional: Option<Positional>,
    /// What is changed in its environment.
    pub environment: Sequence<EnvironmentChange>,
    /// Whether what it writes is dropped.
    pub is_quiet: bool,
}

impl Exact for ShellCall {
    ghost use Rattle.std.proofs.Common.{rules};

    ghost exact = { Prim.search rules };
}

/// What runs a script.
#[derive(Clone, PartialEq, Eq, Drop)]
pub enum Executor {
    /// A program with arguments.
    Command {
        interpreter: Text,
        arguments: Sequence<Text>,
    },
    /// What the script's first line names: a program, and its argument if there is one.
    Shebang {
        interpreter: Text,
        argument: Option<Text>,
    },
}

impl Exact for Executor {
    ghost use Rattle.std.proofs.Common.{rules};

    ghost exact = { Prim.search rules };
}

/// A script.
#[derive(Clone, PartialEq, Eq, Drop)]
pub struct ScriptCall {
    /// The name of its recipe.
    pub recipe: Text,
    /// What runs it.
    pub executor: Executor,
    /// Its lines, as evaluated.
    pub lines: Sequence<Text>,
    /// What the name of its file ends with, where the recipe says so.
    pub extension: Option<Text>,
    /// The folder that it runs in; none where the folder is not changed.
    pub working_directory: Option<Text>,
    /// The recipe's texts, where it hands them on by position.
    pub positional: Option<Sequence<Text>>,
    /// What is changed in its environment.
    pub environment: Sequence<EnvironmentChange>,
}

impl Exact for ScriptCall {
    ghost use Rattle.std.proofs.Common.{rules};

    ghost exact = { Prim.search rules };
}

/// A program that runs in place of recipes.
#[derive(Clone, PartialEq, Eq, Drop)]
pub struct CommandCall {
    /// The program.
    pub binary: Text,
    /// Its arguments.
    pub arguments: Sequence<Text>,
    /// The shell that runs it, and that shell's arguments; none where it runs by itself.
    pub shell: Option<Interpreter<Text>>,
    /// The folder that it runs in.
    pub working_directory: Option<Text>,
    /// What is changed in its environment.
    pub environment: Sequence<EnvironmentChange>,
}

impl Exact for CommandCall {
    ghost use Rattle.std.proofs.Common.{rules};

    ghost exact = { Prim.search rules };
}
