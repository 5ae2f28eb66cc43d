//! Aliases as they are compiled.
use crate::disabled::Disabled;
use just_parts::layers::{Alias, Number};
use just_paths::Modulepath;
use just_table::Table;

/// Another name for a recipe, which is told by its number.
pub type RecipeAlias<'src> = Alias<'src, Number>;

/// Another name for a module, which is told by its path from the root.
pub type ModuleAlias<'src> = Alias<'src, Modulepath>;

/// The aliases of a module, each by its name.
#[derive(Drop)]
pub struct Aliases<'src> {
    /// Those of what is not there, since it lies in optional modules without a file.
    pub disabled: Table<'src, Disabled<'src>>,
    /// Those of modules.
    pub modules: Table<'src, ModuleAlias<'src>>,
    /// Those of recipes.
    pub recipes: Table<'src, RecipeAlias<'src>>,
}
