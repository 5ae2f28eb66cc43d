//! What the layers around the analyzer hand over and are handed: records, errors, and the traits that they implement.

pub mod ast;
pub mod config;
pub mod constant_evaluation;
pub mod given;
pub mod output;
pub mod shebang;
pub mod syntax;
pub mod value;

pub use ast::{Ast, Item};
pub use config::{Config, EvaluateFormat, Subcommand, Verbosity};
pub use constant_evaluation::ConstantEvaluation;
pub use given::Given;
pub use just_ast_definitions::{
    Alias, ArgumentAttribute, ArgumentProperty, Assignment, Attribute, CacheAttribute,
    EnvironmentAttribute, Fragment, FunctionDefinition, FunctionParameter, Line, NamedAttribute,
    Parameter, ParameterKind, Set, Setting,
};
pub use just_ast_expressions::{
    Binding, ConditionalOperator, Expression, Interpreter, Keyword, ListUse, Scope, Settings,
    Shape, Sigil, StringLiteral, UnstableFeature, Warning,
};
pub use just_ast_items::Edge;
pub use just_errors::{
    ArgumentRange, CompileError, CompileErrorKind, Definition, Error, Fault, Halt, InvocationError,
    LoadError, Refusal, RunError, Signal, SourceError, Status, Switch,
};
pub use just_names::{Exhausted, ListFeature, Name, Namepath, Number, Numerator, Token};
pub use just_patterns::Pattern;
pub use just_recipe::{DependencyArgument, UnresolvedDependency};
pub use output::{Output, WriteFailed};
pub use shebang::Shebang;
pub use syntax::Syntax;
pub use value::joined;
