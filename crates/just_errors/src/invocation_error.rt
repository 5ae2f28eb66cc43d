//! Why words are no invocations.
ghost use Rattle.std.specs.Prelude.{◌≡◌};
ghost use Rattle.just_errors.specs.Messages.{invocation_name};

use crate::fault::Fault;
use crate::phrases::{ArgumentRange, Arguments, Listed, noun};
use crate::switch::Switch;
use just_data::{BorrowedText, Sequence, Text};
use thiserror::Error;

/// Why words are no invocations. Paths are spaced where words were, and joined by `::` where a path was given.
#[derive(Debug, Drop, Error)]
pub enum InvocationError<'src> {
    /// Words name a recipe that is not there, or a word has a colon and is no path.
    #[error("Justfile does not contain recipe `{recipe}`")]
    UnknownRecipe {
        recipe: Text,
    },
    /// A path walks through a module that is not there.
    #[error("Justfile does not contain submodule `{path}`")]
    UnknownSubmodule {
        path: Text,
    },
    /// A path goes on where a recipe stands.
    #[error("Expected submodule at `{path}` but found recipe")]
    ExpectedSubmoduleButFoundRecipe {
        path: Text,
    },
    /// Words name a recipe that these optional modules without a file disable. Each is told by its path from the module
    /// whose recipes name it, as paths are shown there.
    #[error("Recipe `{recipe}` is disabled, since it needs modules that have no file: {}", Listed(.modules.as_slice()))]
    RecipeDisabled {
        recipe: Text,
        modules: Sequence<Text>,
    },
    /// Words name an alias whose target these optional modules without a file disable. Each is told by its path from the
    /// module whose recipes name it, as paths are shown there.
    #[error("Alias `{alias}` is disabled, since its target needs modules that have no file: {}", Listed(.modules.as_slice()))]
    AliasDisabled {
        alias: Text,
        modules: Sequence<Text>,
    },
    /// Words walk through an optional module without a file, told by its path from the root.
    #[error("Module `{module}` is optional, and has no file")]
    ModuleAbsent {
        module: Text,
    },
    /// There are no words, or they end in a module, and that module has no recipes.
    #[error("There is no recipe to run by default")]
    NoRecipes,
    /// There are no words, or they end in a module, and that module has recipes, none of which is its default.
    #[error("There is no default recipe; name the recipe that is to run")]
    NoDefaultRecipe,
    /// There are no words, or they end in a module, and the recipe that is run then takes arguments.
    #[error("Recipe `{recipe}` cannot be used as default recipe since it requires at least {}", Arguments(*.min_arguments))]
    DefaultRecipeRequiresArguments {
        recipe: BorrowedText<'src>,
        min_arguments: usize,
    },
    /// An option has no name.
    #[error("`{argument}` has no option's name; after `--` each word is a positional argument")]
    InvalidOption {
        argument: Text,
    },
    /// No parameter of the recipe has the switch.
    #[error("Recipe `{recipe}` does not have option `{switch}`; after `--` each word is a positional argument")]
    UnknownOption {
        recipe: BorrowedText<'src>,
        switch: Switch,
    },
    /// The switch takes no value, and is given one.
    #[error("Recipe `{recipe}` flag `{switch}` does not take a value; give `{switch}` alone")]
    FlagWithValue {
        recipe: BorrowedText<'src>,
        switch: Switch,
    },
    /// The switch takes a value, and is given none.
    #[error("Recipe `{recipe}` option `{switch}` is missing its value; give it as `{switch}=VALUE`")]
    OptionMissingValue {
        recipe: BorrowedText<'src>,
        switch: Switch,
    },
    /// The switch is given again, and its parameter takes one value.
    #[error("Recipe `{recipe}` option `{switch}` cannot be passed more than once")]
    DuplicateOption {
        recipe: BorrowedText<'src>,
        switch: Switch,
    },
    /// A parameter that needs a value is given none by its switch, the long one if it has one.
    #[error("Recipe `{recipe}` requires option `{switch}`")]
    MissingOption {
        recipe: BorrowedText<'src>,
        switch: Switch,
    },
    /// A recipe is given too few words.
    #[error("Recipe `{recipe}` got {found} positional {} but takes {}", noun(*.found), ArgumentRange {min: *.min, max: *.max})]
    PositionalArgumentCountMismatch {
        recipe: BorrowedText<'src>,
        found: usize,
        min: usize,
        max: usize,
    },
    /// A parameter is given more or fewer texts than it may have.
    #[error("Recipe `{recipe}` parameter `{parameter}`: {fault}")]
    ValueCount {
        recipe: BorrowedText<'src>,
        parameter: BorrowedText<'src>,
        fault: Fault,
    },
    /// The pattern of a parameter does not match an argument.
    #[error("Argument `{argument}` passed to recipe `{recipe}` parameter `{parameter}` does not match the parameter's pattern")]
    ArgumentPatternMismatch {
        recipe: BorrowedText<'src>,
        parameter: BorrowedText<'src>,
        argument: Text,
    },
}

impl<'src> InvocationError<'src> {
    /// The name of the variant.
    pub fn name(&self) -> &'static str
        ensures { result.now ≡ invocation_name self.now }
    {
        match self {
            InvocationError::UnknownRecipe { .. } => "UnknownRecipe",
            InvocationError::UnknownSubmodule { .. } => "UnknownSubmodule",
            InvocationError::ExpectedSubmoduleButFoundRecipe { .. } => {
                "ExpectedSubmoduleButFoundRecipe"
            }
            InvocationError::RecipeDisabled { .. } => "RecipeDisabled",
            InvocationError::AliasDisabled { .. } => "AliasDisabled",
            InvocationError::ModuleAbsent { .. } => "ModuleAbsent",
            InvocationError::NoRecipes => "NoRecipes",
            InvocationError::NoDefaultRecipe => "NoDefaultRecipe",
            InvocationError::DefaultRecipeRequiresArguments { .. } => {
                "DefaultRecipeRequiresArguments"
            }
            InvocationError::InvalidOption { .. } => "InvalidOption",
            InvocationError::UnknownOption { .. } => "UnknownOption",
            InvocationError::FlagWithValue { .. } => "FlagWithValue",
            InvocationError::OptionMissingValue { .. } => "OptionMissingValue",
            InvocationError::DuplicateOption { .. } => "DuplicateOption",
            InvocationError::MissingOption { .. } => "MissingOption",
            InvocationError::PositionalArgumentCountMismatch { .. } => {
                "PositionalArgumentCountMismatch"
            }
            InvocationError::ValueCount { .. } => "ValueCount",
            InvocationError::ArgumentPatternMismatch { .. } => "ArgumentPatternMismatch",
        }
    }
}
