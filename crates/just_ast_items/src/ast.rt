//! What a source text says.
ghost use Rattle.std.specs.Prelude.{◌≡◌};

use just_ast_expressions::{ListUse, UnstableFeature, Warning};
use just_data::{Exact, Sequence, Text};
use just_paths::Modulepath;
use std::alloc::AllocError;

/// What a source text says: its items in order, the path of its module and the folder that the module works in.
#[derive(Drop)]
pub struct Ast<'src, I> {
    /// The items, in the order of the text.
    pub items: Sequence<I>,
    /// The path of the module that the file belongs to.
    pub module_path: Modulepath,
    /// The folder of the module's own file: a clean path, or `/`.
    pub working_directory: Text,
    /// The features that are not stable and that it uses.
    pub unstable_features: Sequence<UnstableFeature<'src>>,
    /// Where it needs lists, in the order of the text.
    pub list_features: Sequence<ListUse<'src>>,
    /// What the caller is told of it.
    pub warnings: Sequence<Warning>,
}

impl<'src, I: Exact> Clone for Ast<'src, I> {
    ghost is_clone = { λ ast copy. copy ≡ ast };

    fn clone(&self) -> Result<Ast<'src, I>, AllocError> {
        Ok(Ast {
            items: self.items.clone()?,
            module_path: self.module_path.clone()?,
            working_directory: self.working_directory.clone()?,
            unstable_features: self.unstable_features.clone()?,
            list_features: self.list_features.clone()?,
            warnings: self.warnings.clone()?,
        })
    }
}

impl<'src, I: Exact> Exact for Ast<'src, I> {
    ghost exact = { λ x y h. h };
}
