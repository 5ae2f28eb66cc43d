//! What a source text says in attributes, settings, variables, functions, parameters and body lines.
#![tactic(auto)]

pub mod alias;
pub mod assignment;
pub mod attribute;
pub mod function_definition;
pub mod line;
pub mod parameter;
pub mod setting;

pub use alias::{Alias, ShownAlias};
pub use assignment::Assignment;
pub use attribute::{ArgumentAttribute, ArgumentProperty, CacheAttribute, EnvironmentAttribute};
pub use function_definition::{FunctionDefinition, FunctionParameter};
use just_ast_expressions::Expression;
pub use line::{Fragment, Line};
pub use parameter::{Parameter, ParameterKind, any_variadic};
pub use setting::{Set, Setting};

/// What an attribute says of a recipe or of a module.
pub type Attribute<'src> = attribute::Attribute<'src, Expression<'src>>;

/// An attribute, and the name by which the text has it.
pub type NamedAttribute<'src> = attribute::NamedAttribute<'src, Expression<'src>>;
