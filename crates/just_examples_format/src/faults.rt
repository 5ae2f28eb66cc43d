//! The lines that tell a fault.
use just_parts::layers::{CompileErrorKind, Error, InvocationError, LoadError, RunError, Token};
use std::alloc::AllocError;

// Adds the fields of a fault of loading.
fn add_load(text: &mut String, error: &LoadError) -> Result<(), AllocError> {
    match error {
        LoadError::Load { path } => write!(text, ": path {path}"),
        LoadError::Homedir => Ok(()),
        LoadError::MissingImportFile { path } => write!(text, ": path {}", path.lexeme()),
        LoadError::MissingModuleFile { module } => write!(text, ": module {module}"),
        LoadError::AmbiguousModuleFile { module, found } => {
            write!(text, ": module {module}, found")?;
            for path in found.as_slice() {
                write!(text, " {path}")?;
            }
            Ok(())
        }
        LoadError::CircularImport { current, import } => {
            write!(text, ": current {current}, import {import}")
        }
        LoadError::UnknownOverrides { overrides } => {
            write!(text, ": overrides")?;
            for variable in overrides.as_slice() {
                write!(text, " {variable}")?;
            }
            Ok(())
        }
    }
}

// Adds the fields of a broken rule.
fn add_broken(text: &mut String, kind: &CompileErrorKind) -> Result<(), AllocError> {
    match kind {
        CompileErrorKind::Syntax
        | CompileErrorKind::GuardAndInfallibleSigil
        | CompileErrorKind::ExtraLeadingWhitespace
        | CompileErrorKind::ArgumentPatternRegex
        | CompileErrorKind::MappedDependencyWithoutListsSetting => Ok(()),
        CompileErrorKind::Evaluate(fault) => write!(text, ": {fault}"),
        CompileErrorKind::DuplicateParameter { recipe, parameter } => {
            write!(text, ": recipe {recipe}, parameter {parameter}")
        }
        CompileErrorKind::RequiredParameterFollowsDefaultParameter { parameter } => {
            write!(text, ": parameter {parameter}")
        }
        CompileErrorKind::DuplicateSet { setting, first } => {
            write!(text, ": setting {setting}, first {first}")
        }
        CompileErrorKind::IncompatibleSettings {
            first,
            first_line,
            second,
        } => write!(
            text,
            ": first {first}, first line {first_line}, second {second}"
        ),
        CompileErrorKind::DuplicateUnexport { variable }
        | CompileErrorKind::DuplicateVariable { variable }
        | CompileErrorKind::UndefinedVariable { variable }
        | CompileErrorKind::ExportUnexported { variable } => {
            write!(text, ": variable {variable}")
        }
        CompileErrorKind::UndefinedFunction { function } => write!(text, ": function {function}"),
        CompileErrorKind::FunctionArgumentCountMismatch {
            function,
            arguments,
            expected,
        } => write!(
            text,
            ": function {function}, arguments {arguments}, min {}, max {}",
            expected.min, expected.max
        ),
        CompileErrorKind::CircularVariableDependency { variable, circle } => {
            write!(text, ": variable {variable}, circle")?;
            for name in circle.as_slice() {
                write!(text, " {name}")?;
            }
            Ok(())
        }
        CompileErrorKind::ListFeature { feature } => write!(text, ": {feature}"),
        CompileErrorKind::DuplicateFunctionParameter {
            function,
            parameter,
        } => write!(text, ": function {function}, parameter {parameter}"),
        CompileErrorKind::Redefinition {
            first_type,
            second_type,
            name,
            first,
        } => write!(text, ": {first_type}, {second_type}, {name}, first {first}"),
        CompileErrorKind::InvalidShellRecipeAttribute { recipe, attribute } => {
            write!(text, ": recipe {recipe}, attribute {attribute}")
        }
        CompileErrorKind::UnknownAliasTarget { alias, target } => {
            write!(text, ": alias {alias}, target {target}")
        }
        CompileErrorKind::DuplicateDefault { recipe } => write!(text, ": recipe {recipe}"),
        CompileErrorKind::UnknownDependency { recipe, unknown } => {
            write!(text, ": recipe {recipe}, unknown {unknown}")
        }
        CompileErrorKind::CircularRecipeDependency { recipe, circle } => {
            write!(text, ": recipe {recipe}, circle")?;
            for name in circle.as_slice() {
                write!(text, " {name}")?;
            }
            Ok(())
        }
        CompileErrorKind::DependencyArgumentCountMismatch {
            dependency,
            found,
            min,
            max,
        } => write!(
            text,
            ": dependency {dependency}, found {found}, min {min}, max {max}"
        ),
    }
}

// Adds the fields of a fault of words.
fn add_invocation(text: &mut String, error: &InvocationError) -> Result<(), AllocError> {
    match error {
        InvocationError::UnknownRecipe { recipe } => write!(text, ": {recipe}"),
        InvocationError::UnknownSubmodule { path } => write!(text, ": {path}"),
        InvocationError::ExpectedSubmoduleButFoundRecipe { path } => write!(text, ": {path}"),
        InvocationError::RecipeDisabled {
            recipe: name,
            modules,
        }
        | InvocationError::AliasDisabled {
            alias: name,
            modules,
        } => {
            write!(text, ": {name}, modules")?;
            for path in modules.as_slice() {
                write!(text, " {path}")?;
            }
            Ok(())
        }
        InvocationError::ModuleAbsent { module } => write!(text, ": {module}"),
        InvocationError::NoRecipes | InvocationError::NoDefaultRecipe => Ok(()),
        InvocationError::DefaultRecipeRequiresArguments {
            recipe,
            min_arguments,
        } => write!(text, ": recipe {recipe}, {min_arguments}"),
        InvocationError::PositionalArgumentCountMismatch {
            recipe,
            found,
            min,
            max,
        } => write!(
            text,
            ": recipe {recipe}, found {found}, min {min}, max {max}"
        ),
        InvocationError::InvalidOption { argument } => write!(text, ": {argument}"),
        InvocationError::UnknownOption { recipe, switch }
        | InvocationError::FlagWithValue { recipe, switch }
        | InvocationError::OptionMissingValue { recipe, switch }
        | InvocationError::DuplicateOption { recipe, switch }
        | InvocationError::MissingOption { recipe, switch } => {
            write!(text, ": recipe {recipe}, switch {switch}")
        }
        InvocationError::ValueCount {
            recipe,
            parameter,
            fault,
        } => write!(text, ": recipe {recipe}, parameter {parameter}, {fault}"),
        InvocationError::ArgumentPatternMismatch {
            recipe,
            parameter,
            argument,
        } => write!(
            text,
            ": recipe {recipe}, parameter {parameter}, argument {argument}"
        ),
    }
}

// Adds the line where a recipe failed, if there is one.
fn add_line(text: &mut String, line_number: &Option<usize>) -> Result<(), AllocError> {
    match line_number {
        Some(line) => write!(text, ", line {line}"),
        None => Ok(()),
    }
}

// Adds the fields of a fault of a run.
fn add_run(text: &mut String, error: &RunError) -> Result<(), AllocError> {
    match error {
        RunError::ExcessInvocations { invocations } => write!(text, ": {invocations}"),
        RunError::NotConfirmed { recipe } => write!(text, ": recipe {recipe}"),
        RunError::Code {
            recipe,
            line_number,
            code,
            print_message,
        } => {
            write!(text, ": recipe {recipe}")?;
            add_line(text, line_number)?;
            write!(text, ", code {code}, message {print_message}")
        }
        RunError::GuardCode {
            recipe,
            line_number,
            code,
        } => {
            write!(text, ": recipe {recipe}")?;
            add_line(text, line_number)?;
            write!(text, ", code {code}")
        }
        RunError::Signal {
            recipe,
            line_number,
            signal,
            print_message,
        } => {
            write!(text, ": recipe {recipe}")?;
            add_line(text, line_number)?;
            write!(text, ", signal {signal}, message {print_message}")
        }
        RunError::Unknown {
            recipe,
            line_number,
            print_message,
        } => {
            write!(text, ": recipe {recipe}")?;
            add_line(text, line_number)?;
            write!(text, ", message {print_message}")
        }
        RunError::ShellIo { recipe, message } | RunError::ScriptStart { recipe, message } => {
            write!(text, ": recipe {recipe}, {message}")
        }
        RunError::InvalidShebang { recipe, shebang } => {
            write!(text, ": recipe {recipe}, shebang {shebang}")
        }
        RunError::Interrupted { signal } => write!(text, ": {signal}"),
        RunError::CommandInvoke {
            binary,
            arguments,
            message,
        } => {
            write!(text, ": binary {binary}, arguments")?;
            for argument in arguments.as_slice() {
                write!(text, " {argument}")?;
            }
            write!(text, ", {message}")
        }
        RunError::CommandStatus {
            binary,
            arguments,
            status,
        } => {
            write!(text, ": binary {binary}, arguments")?;
            for argument in arguments.as_slice() {
                write!(text, " {argument}")?;
            }
            write!(text, ", {status}")
        }
        RunError::EvalUnknownSubmodule { component }
        | RunError::EvalUnknownSubmoduleOrVariable { component } => {
            write!(text, ": {component}")
        }
        RunError::UnstableFeature { feature } => write!(text, ": {feature}"),
        RunError::GetConfirmation(fault)
        | RunError::Dotenv(fault)
        | RunError::DatetimeFormat(fault)
        | RunError::Evaluate(fault) => write!(text, ": {fault}"),
        RunError::Write => Ok(()),
    }
}

fn add_fields(text: &mut String, error: &Error) -> Result<(), AllocError> {
    match error {
        Error::Load(error) => add_load(text, error),
        Error::Compile(error) => add_broken(text, &error.kind),
        Error::Invocation(error) => add_invocation(text, error),
        Error::Run(error) => add_run(text, error),
        Error::Exhausted | Error::Memory => Ok(()),
    }
}

// The token that a fault has.
fn token_of<'a, 'src>(error: &'a Error<'src>) -> Option<&'a Token<'src>> {
    match error {
        Error::Compile(error) => Some(&error.token),
        Error::Load(LoadError::MissingImportFile { path }) => Some(path),
        Error::Load(LoadError::MissingModuleFile { module }) => Some(&module.token),
        Error::Load(LoadError::AmbiguousModuleFile { module, .. }) => Some(&module.token),
        _ => None,
    }
}

// Adds where a token stands, and the token. Lines and columns count from 1.
fn add_place(text: &mut String, token: &Token) -> Result<(), AllocError> {
    let line = token.line().saturating_add(1);
    let column = token.column().saturating_add(1);
    let (path, lexeme) = (token.path(), token.lexeme());
    writeln!(text, "at {path}:{line}:{column} {lexeme}")
}

fn add_message(text: &mut String, error: &Error) -> Result<(), AllocError> {
    match error {
        Error::Compile(error) => writeln!(text, "message {}", error.kind),
        _ => writeln!(text, "message {error}"),
    }
}

// Adds the lines of a fault.
fn add_lines(text: &mut String, error: &Error) -> Result<(), AllocError> {
    write!(text, "error {}", error.name())?;
    add_fields(text, error)?;
    text.push('\n')?;
    if let Some(token) = token_of(error) {
        add_place(text, token)?;
    }
    add_message(text, error)
}

/// Adds the lines of a fault, and drops it: its name with its fields, its token where it has one, and what it says.
pub fn add_fault(text: &mut String, error: Error) -> Result<(), AllocError> {
    let added = add_lines(text, &error);
    drop(error);
    added
}

/// What was made, or none where there is a fault, whose lines are added.
pub fn unless_fault<'src, T>(
    made: Result<T, Error<'src>>,
    text: &mut String,
) -> Result<Option<T>, AllocError> {
    match made {
        Ok(value) => Ok(Some(value)),
        Err(error) => {
            add_fault(text, error)?;
            Ok(None)
        }
    }
}
