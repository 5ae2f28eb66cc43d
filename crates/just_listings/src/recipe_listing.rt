//! What listings ask of one recipe.
ghost use Rattle.just_recipe.specs.declared.dependency.Dependency.{Dependency};
ghost use Rattle.just_recipe.specs.declared.recipe.Recipe.{Recipe};

use crate::groups::recipe_groups;
use crate::spaced_path::SpacedPath;
use just_data::Text;
use just_parts::Recipe;
use std::alloc::{AllocError, Global};
use std::collections::BTreeSet;

/// Recipes that can be listed, as resolved ones can.
pub trait RecipeListing {
    ghost use Rattle.std.specs.Prelude.{◌≡◌, IfOk, IsSome, Some};
    ghost use Rattle.std.specs.Option.{option_copied};
    ghost use Rattle.just_listings.specs.Groups.{AreGroupsOf};

    /// The recipe that is listed.
    ghost listed_recipe: { Self → Recipe Dependency };

    /// The groups that the attributes of the recipe name, each once and in byte order. The error is want of memory.
    fn groups(&self, alloc: Global) -> Result<BTreeSet<Text>, AllocError>
        ensures { IfOk result (λ groups. AreGroupsOf (listed_recipe self.now) groups.keys) };

    /// The path of the recipe, which is shown with a blank between any two names. The path is there.
    fn spaced_recipe_path(&self) -> SpacedPath<'_>
        requires { IsSome (listed_recipe self.now).recipe_path }
        ensures { (listed_recipe self.now).recipe_path ≡ Some result.path.now };

    /// The line of the recipe's name, which counts from 0, as its token has it.
    fn line_number(&self) -> usize
        ensures { result ≡ (listed_recipe self.now).name.token.line };

    /// What a listing says of the recipe.
    fn doc(&self) -> Option<&str>
        ensures { option_copied result ≡ (listed_recipe self.now).doc };
}

impl<'src> RecipeListing for Recipe<'src> {
    ghost listed_recipe = { λ r. r };

    fn groups(&self, alloc: Global) -> Result<BTreeSet<Text>, AllocError> {
        recipe_groups(alloc, self)
    }

    fn spaced_recipe_path(&self) -> SpacedPath<'_> {
        SpacedPath {
            path: self.recipe_path(),
        }
    }

    fn line_number(&self) -> usize {
        self.name.line()
    }

    fn doc(&self) -> Option<&str> {
        match &self.doc {
            Some(doc) => Some(doc.as_str()),
            None => None,
        }
    }
}
