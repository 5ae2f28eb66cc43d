//! Compiles source maps of justfiles: to a module of modules, or to the name of a rule that is broken.
#![tactic(auto)]

pub mod analyzer;
pub mod compilation;
pub mod compiler;
mod groups;
mod modules;

pub use analyzer::Analyzer;
pub use compilation::Compilation;
pub use compiler::Compiler;
