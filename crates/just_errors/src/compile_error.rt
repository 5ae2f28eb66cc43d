//! The rules of compilation, as errors.
ghost use Rattle.std.specs.Prelude.{◌≡◌, OnOk, codes};
ghost use Rattle.std.specs.Fmt.{HasWritten, IsPlainFormatter, WritesOnOk};
ghost use Rattle.just_names.specs.Texts.{joined};
ghost use Rattle.just_errors.specs.Messages.{kind_name, chain_text, circle_text, reading_text, readings_text, lexeme_text};

use crate::fault::Fault;
use crate::phrases::{ArgumentRange, Arguments, At};
use just_data::{BorrowedText, Sequence};
use just_names::{ListFeature, Namepath, Token};
use std::fmt;

/// What a name is defined as.
#[derive(Clone, Copy, Debug, PartialEq, Eq)]
pub enum Definition {
    /// An alias.
    Alias,
    /// A module of a file.
    Module,
    /// A recipe.
    Recipe,
    /// A function.
    Function,
}

impl fmt::Display for Definition {
    ghost use Rattle.std.specs.Prelude.{Some};
    ghost use Rattle.just_errors.specs.Messages.{definition_text};

    ghost output = { λ e. Some (definition_text e) };

    fn fmt<W: fmt::Write>(&self, f: &mut fmt::Formatter<W>) -> fmt::Result {
        match self {
            Definition::Alias => f.write_str("alias"),
            Definition::Module => f.write_str("module"),
            Definition::Recipe => f.write_str("recipe"),
            Definition::Function => f.write_str("function"),
        }
    }
}

/// Which rule of compilation is broken.
#[derive(Debug, PartialEq, Eq, Drop)]
pub enum CompileErrorKind<'src> {
    /// A text does not follow the grammar.
    Syntax,
    /// What is evaluated while compiling has no value.
    Evaluate(Fault),
    /// A recipe has two parameters of one name.
    DuplicateParameter {
        recipe: BorrowedText<'src>,
        parameter: BorrowedText<'src>,
    },
    /// A parameter that wants a word follows one with a default; both are given by their places.
    RequiredParameterFollowsDefaultParameter {
        parameter: BorrowedText<'src>,
    },
    /// A setting is set twice. `first` is the line of the first place, which counts from 0.
    DuplicateSet {
        setting: BorrowedText<'src>,
        first: usize,
    },
    /// Two settings are set that may not stand together. `first_line` is the line of the first, which counts from 0.
    IncompatibleSettings {
        first: BorrowedText<'src>,
        first_line: usize,
        second: BorrowedText<'src>,
    },
    /// A variable is unexported twice.
    DuplicateUnexport {
        variable: BorrowedText<'src>,
    },
    /// A variable is assigned twice, and no setting allows it.
    DuplicateVariable {
        variable: BorrowedText<'src>,
    },
    /// A variable is assigned and unexported.
    ExportUnexported {
        variable: BorrowedText<'src>,
    },
    /// A function has two parameters of one name.
    DuplicateFunctionParameter {
        function: BorrowedText<'src>,
        parameter: BorrowedText<'src>,
    },
    /// A function is called that is none.
    UndefinedFunction {
        function: BorrowedText<'src>,
    },
    /// A function is called with fewer or more arguments than it takes.
    FunctionArgumentCountMismatch {
        function: BorrowedText<'src>,
        arguments: usize,
        expected: ArgumentRange,
    },
    /// A variable is read that is none.
    UndefinedVariable {
        variable: BorrowedText<'src>,
    },
    /// A variable reads itself. The circle begins and ends with `variable`, and each member reads the next.
    CircularVariableDependency {
        variable: BorrowedText<'src>,
        circle: Sequence<BorrowedText<'src>>,
    },
    /// Something needs lists, and no setting says that values are lists.
    ListFeature {
        feature: ListFeature,
    },
    /// A name is defined twice. `first` is the line of the first definition, which counts from 0.
    Redefinition {
        first_type: Definition,
        second_type: Definition,
        name: BorrowedText<'src>,
        first: usize,
    },
    /// A line that begins a command has the sigils `?` and `-`.
    GuardAndInfallibleSigil,
    /// A line that begins a command is indented further than the body.
    ExtraLeadingWhitespace,
    /// A recipe has an attribute that only a script may have, and is none.
    InvalidShellRecipeAttribute {
        recipe: BorrowedText<'src>,
        attribute: BorrowedText<'src>,
    },
    /// A recipe depends on what is no recipe.
    UnknownDependency {
        recipe: BorrowedText<'src>,
        unknown: Namepath<'src>,
    },
    /// A recipe depends on itself. The circle begins and ends with one name, and each member depends on the next;
    /// `recipe` is the last that does.
    CircularRecipeDependency {
        recipe: BorrowedText<'src>,
        circle: Sequence<BorrowedText<'src>>,
    },
    /// What is to be the pattern of a parameter is none, or is past the size or the nesting that regular expressions have.
    ArgumentPatternRegex,
    /// A recipe is depended on with fewer or more arguments than it takes.
    DependencyArgumentCountMismatch {
        dependency: Namepath<'src>,
        found: usize,
        min: usize,
        max: usize,
    },
    /// An argument of a dependency is starred, and no setting says that values are lists.
    MappedDependencyWithoutListsSetting,
    /// An alias leads to what is neither a module nor a recipe.
    UnknownAliasTarget {
        alias: BorrowedText<'src>,
        target: Namepath<'src>,
    },
    /// Two recipes of a module have the attribute `default`.
    DuplicateDefault {
        recipe: BorrowedText<'src>,
    },
}

impl<'src> CompileErrorKind<'src> {
    /// The name of the variant.
    pub fn name(&self) -> &'static str
        ensures { result.now ≡ kind_name self.now }
    {
        match self {
            CompileErrorKind::Syntax => "Syntax",
            CompileErrorKind::Evaluate(_) => "Evaluate",
            CompileErrorKind::DuplicateParameter { .. } => "DuplicateParameter",
            CompileErrorKind::RequiredParameterFollowsDefaultParameter { .. } => {
                "RequiredParameterFollowsDefaultParameter"
            }
            CompileErrorKind::DuplicateSet { .. } => "DuplicateSet",
            CompileErrorKind::IncompatibleSettings { .. } => "IncompatibleSettings",
            CompileErrorKind::DuplicateUnexport { .. } => "DuplicateUnexport",
            CompileErrorKind::DuplicateVariable { .. } => "DuplicateVariable",
            CompileErrorKind::ExportUnexported { .. } => "ExportUnexported",
            CompileErrorKind::DuplicateFunctionParameter { .. } => "DuplicateFunctionParameter",
            CompileErrorKind::UndefinedFunction { .. } => "UndefinedFunction",
            CompileErrorKind::FunctionArgumentCountMismatch { .. } => {
                "FunctionArgumentCountMismatch"
            }
            CompileErrorKind::UndefinedVariable { .. } => "UndefinedVariable",
            CompileErrorKind::CircularVariableDependency { .. } => "CircularVariableDependency",
            CompileErrorKind::ListFeature { .. } => "ListFeature",
            CompileErrorKind::Redefinition { .. } => "Redefinition",
            CompileErrorKind::GuardAndInfallibleSigil => "GuardAndInfallibleSigil",
            CompileErrorKind::ExtraLeadingWhitespace => "ExtraLeadingWhitespace",
            CompileErrorKind::InvalidShellRecipeAttribute { .. } => "InvalidShellRecipeAttribute",
            CompileErrorKind::UnknownDependency { .. } => "UnknownDependency",
            CompileErrorKind::CircularRecipeDependency { .. } => "CircularRecipeDependency",
            CompileErrorKind::ArgumentPatternRegex => "ArgumentPatternRegex",
            CompileErrorKind::DependencyArgumentCountMismatch { .. } => {
                "DependencyArgumentCountMismatch"
            }
            CompileErrorKind::MappedDependencyWithoutListsSetting => {
                "MappedDependencyWithoutListsSetting"
            }
            CompileErrorKind::UnknownAliasTarget { .. } => "UnknownAliasTarget",
            CompileErrorKind::DuplicateDefault { .. } => "DuplicateDefault",
        }
    }
}

// Writes the names of a circle, with arrows between them.
fn write_names<W: fmt::Write>(f: &mut fmt::Formatter<W>, circle: &[BorrowedText]) -> fmt::Result
    ensures { IsPlainFormatter f.old → OnOk result (HasWritten W.write_str_gives f.old (joined (codes " -> ") circle.now) f.new) }
{
    let Some((first, rest)) = circle.split_first() else {
        return Ok(());
    };
    write!(f, "{first}")?;
    for name in rest {
        write!(f, " -> {name}")?;
    }
    Ok(())
}

// Writes that a recipe has this circle.
fn write_chain<W: fmt::Write>(
    f: &mut fmt::Formatter<W>,
    recipe: &BorrowedText,
    circle: &[BorrowedText],
) -> fmt::Result
    ensures { WritesOnOk W.write_str_gives f.old result (chain_text recipe.now circle.now) f.new }
{
    write!(f, "Recipe `{recipe}` has circular dependency `")?;
    write_names(f, circle)?;
    f.write_str("`")
}

// Writes what a circle says. One of a recipe alone has its name twice.
fn write_circle<W: fmt::Write>(
    f: &mut fmt::Formatter<W>,
    recipe: &BorrowedText,
    circle: &[BorrowedText],
) -> fmt::Result
    ensures { WritesOnOk W.write_str_gives f.old result (circle_text recipe.now circle.now) f.new }
{
    if circle.len() == 2 {
        write!(f, "Recipe `{recipe}` depends on itself")
    } else {
        write_chain(f, recipe, circle)
    }
}

// Writes that a variable has this circle.
fn write_readings<W: fmt::Write>(
    f: &mut fmt::Formatter<W>,
    variable: &BorrowedText,
    circle: &[BorrowedText],
) -> fmt::Result
    ensures { WritesOnOk W.write_str_gives f.old result (readings_text variable.now circle.now) f.new }
{
    write!(f, "Variable `{variable}` depends on its own value: `")?;
    write_names(f, circle)?;
    f.write_str("`")
}

// Writes what a circle of variables says. One of a variable alone has its name twice.
fn write_reading<W: fmt::Write>(
    f: &mut fmt::Formatter<W>,
    variable: &BorrowedText,
    circle: &[BorrowedText],
) -> fmt::Result
    ensures { WritesOnOk W.write_str_gives f.old result (reading_text variable.now circle.now) f.new }
{
    if circle.len() == 2 {
        write!(f, "Variable `{variable}` is defined in terms of itself")
    } else {
        write_readings(f, variable, circle)
    }
}

impl<'src> fmt::Display for CompileErrorKind<'src> {
    ghost use Rattle.std.specs.Prelude.{Some};
    ghost use Rattle.just_errors.specs.Messages.{kind_text};

    ghost output = { λ e. Some (kind_text e) };

    fn fmt<W: fmt::Write>(&self, f: &mut fmt::Formatter<W>) -> fmt::Result {
        match self {
            CompileErrorKind::Syntax => f.write_str("The line does not follow the grammar"),
            CompileErrorKind::Evaluate(fault) => write!(f, "{fault}"),
            CompileErrorKind::DuplicateParameter { recipe, parameter } => {
                write!(f, "Recipe `{recipe}` has duplicate parameter `{parameter}`")
            }
            CompileErrorKind::RequiredParameterFollowsDefaultParameter { parameter } => {
                write!(
                    f,
                    "Non-default parameter `{parameter}` follows default parameter"
                )
            }
            CompileErrorKind::DuplicateSet { setting, first } => {
                let line = first.saturating_add(1);
                write!(
                    f,
                    "Setting `{setting}` is set again; it is first set on line {line} of this file or of another one of its module"
                )
            }
            CompileErrorKind::IncompatibleSettings {
                first,
                first_line,
                second,
            } => {
                let line = first_line.saturating_add(1);
                write!(
                    f,
                    "Setting `{second}` may not be set beside `{first}`, which is set on line {line} of this file or of another one of its module"
                )
            }
            CompileErrorKind::DuplicateUnexport { variable } => {
                write!(f, "Variable `{variable}` is unexported multiple times")
            }
            CompileErrorKind::DuplicateVariable { variable } => {
                write!(f, "Variable `{variable}` has multiple definitions")
            }
            CompileErrorKind::ExportUnexported { variable } => {
                write!(f, "Variable `{variable}` is both assigned and unexported")
            }
            CompileErrorKind::DuplicateFunctionParameter {
                function,
                parameter,
            } => {
                write!(
                    f,
                    "Function `{function}` has duplicate parameter `{parameter}`"
                )
            }
            CompileErrorKind::UndefinedFunction { function } => {
                write!(f, "Call to undefined function `{function}`")
            }
            CompileErrorKind::FunctionArgumentCountMismatch {
                function,
                arguments,
                expected,
            } => {
                let found = Arguments(*arguments);
                write!(f, "Function `{function}` got {found} but takes {expected}")
            }
            CompileErrorKind::UndefinedVariable { variable } => {
                write!(f, "Variable `{variable}` not defined")
            }
            CompileErrorKind::CircularVariableDependency { variable, circle } => {
                write_reading(f, variable, circle.as_slice())
            }
            CompileErrorKind::ListFeature { feature } => {
                write!(f, "{feature} needs the setting `lists`, which is off")
            }
            CompileErrorKind::Redefinition {
                first_type,
                second_type,
                name,
                first,
            } => {
                let line = first.saturating_add(1);
                write!(
                    f,
                    "`{name}` is redefined as {second_type}; it is first defined as {first_type} on line {line} of this file or of another one of its module"
                )
            }
            CompileErrorKind::GuardAndInfallibleSigil => {
                f.write_str("The sigils `?` and `-` may not stand before one line")
            }
            CompileErrorKind::ExtraLeadingWhitespace => {
                f.write_str("The line has extra leading whitespace")
            }
            CompileErrorKind::InvalidShellRecipeAttribute { recipe, attribute } => {
                write!(
                    f,
                    "Recipe `{recipe}` has attribute `{attribute}`, which only a script may have"
                )
            }
            CompileErrorKind::UnknownDependency { recipe, unknown } => {
                write!(f, "Recipe `{recipe}` has unknown dependency `{unknown}`")
            }
            CompileErrorKind::CircularRecipeDependency { recipe, circle } => {
                write_circle(f, recipe, circle.as_slice())
            }
            CompileErrorKind::ArgumentPatternRegex => f.write_str(
                "Failed to parse argument pattern",
            ),
            CompileErrorKind::DependencyArgumentCountMismatch {
                dependency,
                found,
                min,
                max,
            } => {
                let found = Arguments(*found);
                let takes = ArgumentRange {
                    min: *min,
                    max: *max,
                };
                write!(f, "Dependency `{dependency}` got {found} but takes {takes}")
            }
            CompileErrorKind::MappedDependencyWithoutListsSetting => f.write_str(
                "A dependency with a starred argument needs the setting `lists`, which is off",
            ),
            CompileErrorKind::UnknownAliasTarget { alias, target } => {
                write!(f, "Alias `{alias}` has unknown target `{target}`")
            }
            CompileErrorKind::DuplicateDefault { recipe } => {
                write!(
                    f,
                    "Recipe `{recipe}` has attribute `default`, as another recipe of its module has"
                )
            }
        }
    }
}

// Writes what stands where reading stopped, if anything does.
fn write_stop<W: fmt::Write>(f: &mut fmt::Formatter<W>, lexeme: &str) -> fmt::Result
    ensures { WritesOnOk W.write_str_gives f.old result (lexeme_text lexeme.now) f.new }
{
    if lexeme.is_empty() {
        Ok(())
    } else {
        write!(f, ", at `{lexeme}`")
    }
}

/// A broken rule of compilation, and the token at which it is told.
#[derive(Debug, PartialEq, Eq, Drop)]
pub struct CompileError<'src> {
    /// Where it is told: of a second definition that one, of a circle the dependency that closes it.
    pub token: Token<'src>,
    /// Which rule is broken.
    pub kind: CompileErrorKind<'src>,
}

// What is said after the rule: of a text that does not follow the grammar, what stands where reading it stopped.
#[derive(Drop)]
struct Stop<'a, 'src>(&'a CompileError<'src>);

impl<'a, 'src> fmt::Display for Stop<'a, 'src> {
    ghost use Rattle.std.specs.Prelude.{Some};
    ghost use Rattle.just_errors.specs.Messages.{stop_text};

    ghost output = { λ stop. Some (stop_text stop.0.now.kind stop.0.now.token) };

    fn fmt<W: fmt::Write>(&self, f: &mut fmt::Formatter<W>) -> fmt::Result {
        match &self.0.kind {
            CompileErrorKind::Syntax => write_stop(f, self.0.token.lexeme()),
            _ => Ok(()),
        }
    }
}

impl<'src> fmt::Display for CompileError<'src> {
    ghost use Rattle.std.specs.Prelude.{Some};
    ghost use Rattle.just_errors.specs.Messages.{compile_text};

    ghost output = { λ e. Some (compile_text e) };

    fn fmt<W: fmt::Write>(&self, f: &mut fmt::Formatter<W>) -> fmt::Result {
        let at = At(&self.token);
        let kind = &self.kind;
        let stop = Stop(self);
        write!(f, "{at}: {kind}{stop}")
    }
}

impl<'src> std::error::Error for CompileError<'src> {}
