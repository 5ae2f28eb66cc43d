//! Compiles source maps of justfiles, tells what command words mean, and runs recipes: each name that a caller needs, in the
//! modules of the original.
#![tactic(auto)]

/// Modules, analysed one by one.
pub mod analyzer {
    pub use just_compiler::Analyzer;
}

/// What a compilation has.
pub mod compilation {
    pub use just_compiler::Compilation;
}

/// Source maps, compiled.
pub mod compiler {
    pub use just_compiler::Compiler;
}

/// Tables: values under their keys, in byte order.
pub mod table {
    pub use just_table::{Keyed, Table};
}

/// Paths of modules.
pub mod modulepath {
    pub use just_paths::Modulepath;
}

/// The traits of the layers, the records that they hand over and are handed, and the errors.
pub mod layers {
    pub use just_parts::layers::{
        Alias, ArgumentAttribute, ArgumentProperty, ArgumentRange, Assignment, Ast, Attribute,
        Binding, CacheAttribute, CompileError, CompileErrorKind, ConditionalOperator, Config,
        ConstantEvaluation, Definition, DependencyArgument, Edge, EnvironmentAttribute, Error,
        EvaluateFormat, Exhausted, Expression, Fault, Fragment, FunctionDefinition,
        FunctionParameter, Given, Halt, Interpreter, InvocationError, Item, Keyword, Line,
        ListFeature, ListUse, LoadError, Name, NamedAttribute, Namepath, Number, Numerator, Output,
        Parameter, ParameterKind, Pattern, Refusal, RunError, Scope, Set, Setting, Settings, Shape,
        Shebang, Sigil, Signal, SourceError, Status, StringLiteral, Subcommand, Switch, Syntax,
        Token, UnresolvedDependency, UnstableFeature, Verbosity, Warning, WriteFailed, joined,
    };
    pub use just_run_layers::{
        CommandCall, Context, Entry, EnvironmentChange, EnvironmentPair, Evaluation, Executor,
        Groups, Held, Host, Positional, RunAnswer, ScriptCall, ShellCall,
    };
}

/// Files: how one came in, and all that there are, under their paths.
pub mod source {
    pub use just_loader::Sources;
    pub use just_parts::Source;
    pub use just_paths::is_clean;
}

/// What an expression reads and calls.
pub mod references {
    pub use just_ast_references::{Reference, References};
}

/// Names in expressions, resolved to numbers.
pub mod variable_resolver {
    pub use just_module_variables::VariableResolver;
}

/// What a recipe that is resolved depends on.
pub mod dependency {
    pub use just_parts::Dependency;
}

/// Recipes that are resolved, all of a compilation by their numbers, and the run of one.
pub mod recipe {
    pub use just_justfile::Recipes;
    pub use just_parts::Recipe;
    pub use just_recipe_run::RunRecipe;
}

/// Recipes as a text says them, and how one is resolved.
pub mod unresolved_recipe {
    pub use just_parts::UnresolvedRecipe;
    pub use just_recipe_resolver::unresolved_recipe::resolve;
}

/// The recipes of a module, resolved.
pub mod recipe_resolver {
    pub use just_recipe_resolver::RecipeResolver;
}

/// What paths lead to, and recipes that are not there.
pub mod resolution {
    pub use just_justfile::{Disabled, Resolution};
}

/// What command words mean.
pub mod invocation_parser {
    pub use just_invocations::{Invocation, InvocationParser};
}

/// A module as it is compiled, its run, and what is told of one.
pub mod justfile {
    pub use just_invoke::{Report, Run};
    pub use just_justfile::{Justfile, RecipeKey};
}

/// What is evaluated where no recipe runs, by a path; and the text of its values.
pub mod evaluation {
    pub use just_evaluate::{
        EvaluationTarget, EvaluationTargets, evaluated_text, target_numbers, write_all,
    };
}

/// What listings show of a compiled module, and how recipes are called and aliases written.
pub mod listing {
    pub use just_ast_definitions::ShownAlias;
    pub use just_listings::{
        AliasListing, GroupListing, ListedAlias, Listing, ModuleListing, RecipeListing,
        RecursiveListing, ShownJustfile, SpacedPath, Stability, shown,
    };
    pub use just_recipe::RecipeSignature;
}

/// Texts, lists and shared values that contracts see as plain data.
pub mod data {
    pub use just_data::{BorrowedText, Sequence, Shared, Text};
}

pub use analyzer::Analyzer;
pub use compilation::Compilation;
pub use compiler::Compiler;
pub use data::{BorrowedText, Sequence, Shared, Text};
pub use dependency::Dependency;
pub use evaluation::{EvaluationTarget, EvaluationTargets};
pub use invocation_parser::{Invocation, InvocationParser};
pub use justfile::{Justfile, RecipeKey, Report, Run};
pub use listing::{
    AliasListing, GroupListing, ListedAlias, Listing, ModuleListing, RecipeListing,
    RecipeSignature, RecursiveListing, ShownAlias, ShownJustfile, SpacedPath, Stability, shown,
};
pub use modulepath::Modulepath;
pub use recipe::{Recipe, Recipes, RunRecipe};
pub use recipe_resolver::RecipeResolver;
pub use references::{Reference, References};
pub use resolution::{Disabled, Resolution};
pub use source::{Source, Sources, is_clean};
pub use table::{Keyed, Table};
pub use unresolved_recipe::UnresolvedRecipe;
pub use variable_resolver::VariableResolver;
