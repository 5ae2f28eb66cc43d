//! The variables of a module, and what is evaluated of them while compiling: the order in which they are evaluated, the numbers
//! of what names mean, the constants and settings, and the docs of the modules that it declares.
#![tactic(auto)]

mod constants;
mod docs;
mod evaluation_order;
mod expressions;
mod name_numbers;
mod nodes;
mod overrides;
mod resolution;
pub mod variable_resolver;
mod variables;

pub use constants::{Constants, evaluate_constants};
pub use docs::document;
pub use name_numbers::parameter_numbers;
pub use variable_resolver::VariableResolver;
pub use variables::{Variables, resolve_variables};
