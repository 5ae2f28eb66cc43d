//! Attributes of recipes and modules.
use just_ast_expressions::{Interpreter, StringLiteral};
use just_data::{Exact, Sequence, Text};
use just_errors::Signal;
use just_names::Name;
use just_patterns::Pattern;

/// A property of an `arg` attribute, as `help='..'`.
#[derive(Clone, PartialEq, Eq, Drop)]
pub struct ArgumentProperty<'src, E> {
    /// The name of the property.
    pub key: Name<'src>,
    /// What it is evaluated from.
    pub value: E,
}

impl<'src, E: Exact> Exact for ArgumentProperty<'src, E> {
    ghost use Rattle.std.proofs.Common.{rules};

    ghost exact = { Prim.search rules };
}

/// What an `arg` attribute says of a parameter. Help and pattern are there once the recipe is resolved.
#[derive(Clone, PartialEq, Eq, Drop)]
pub struct ArgumentAttribute<'src, E> {
    /// The name of the parameter.
    pub name: StringLiteral<'src>,
    /// What a listing says of it.
    pub help: Option<Text>,
    /// What that is evaluated from.
    pub help_property: Option<ArgumentProperty<'src, E>>,
    /// What its words match.
    pub pattern: Option<Pattern>,
    /// What that is evaluated from.
    pub pattern_property: Option<ArgumentProperty<'src, E>>,
}

impl<'src, E: Exact> Exact for ArgumentAttribute<'src, E> {
    ghost use Rattle.std.proofs.Common.{rules};

    ghost exact = { Prim.search rules };
}

/// What a `cache` attribute says of a script.
#[derive(Clone, PartialEq, Eq, Drop)]
pub struct CacheAttribute<E> {
    /// What else its result depends on.
    pub extra: Option<E>,
    /// The files that it reads.
    pub inputs: Option<E>,
    /// The files that it writes.
    pub outputs: Option<E>,
}

impl<E: Exact> Exact for CacheAttribute<E> {
    ghost use Rattle.std.proofs.Common.{rules};

    ghost exact = { Prim.search rules };
}

/// A variable of a recipe's environment, and its value.
#[derive(Clone, PartialEq, Eq, Drop)]
pub struct EnvironmentAttribute<E> {
    /// What the variable's name is evaluated from.
    pub name: E,
    /// What its value is evaluated from.
    pub value: E,
}

impl<E: Exact> Exact for EnvironmentAttribute<E> {
    ghost use Rattle.std.proofs.Common.{rules};

    ghost exact = { Prim.search rules };
}

/// What an attribute says of a recipe or of a module.
#[derive(Clone, PartialEq, Eq, Drop)]
pub enum Attribute<'src, E> {
    /// Of a parameter.
    Arg(ArgumentAttribute<'src, E>),
    /// It counts on Android alone.
    Android,
    /// A script whose result is kept.
    Cache(CacheAttribute<E>),
    /// It asks before it runs, with this prompt where there is one.
    Confirm(Option<E>),
    /// It goes on after these signals, or after an interrupt where none is named.
    Continue(Sequence<Signal>),
    /// It is run by default.
    Default,
    /// What a listing says of it, or that it says nothing.
    Doc(Option<E>),
    /// It counts on DragonFly BSD alone.
    Dragonfly,
    /// A variable of its environment, and the value.
    Env(EnvironmentAttribute<E>),
    /// Its failure is told.
    ExitMessage,
    /// The end of a script's file name.
    Extension(StringLiteral<'src>),
    /// It counts on FreeBSD alone.
    Freebsd,
    /// The group that a listing has it in.
    Group(StringLiteral<'src>),
    /// It counts on Linux alone.
    Linux,
    /// It counts on macOS alone.
    Macos,
    /// What nothing here reads.
    Metadata(Sequence<StringLiteral<'src>>),
    /// It counts on NetBSD alone.
    Netbsd,
    /// It runs where it is called.
    NoCd,
    /// Its failure is not told.
    NoExitMessage,
    /// Its lines are shown.
    NoQuiet,
    /// It counts on OpenBSD alone.
    Openbsd,
    /// Its dependencies run side by side.
    Parallel,
    /// It takes its arguments by place too.
    PositionalArguments,
    /// A listing leaves it out.
    Private,
    /// It is a script, run by this interpreter where there is one.
    Script(Option<Interpreter<StringLiteral<'src>>>),
    /// It is no script.
    Shell,
    /// Its lines are shown with the time, in this format where there is one.
    Timestamp(Option<E>),
    /// It counts on systems like Unix alone.
    Unix,
    /// It counts on Windows alone.
    Windows,
    /// The folder that it runs in.
    WorkingDirectory(E),
}

impl<'src, E: Exact> Exact for Attribute<'src, E> {
    ghost use Rattle.std.proofs.Common.{rules};

    ghost exact = { Prim.search rules };
}

/// An attribute, and the name by which the text has it.
#[derive(Clone, PartialEq, Eq, Drop)]
pub struct NamedAttribute<'src, E> {
    /// Its name.
    pub name: Name<'src>,
    /// What it says.
    pub attribute: Attribute<'src, E>,
}

impl<'src, E: Exact> Exact for NamedAttribute<'src, E> {
    ghost use Rattle.std.proofs.Common.{rules};

    ghost exact = { Prim.search rules };
}
