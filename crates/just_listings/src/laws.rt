//! Laws: calls that do nothing, whose contracts say what definitions keep.
ghost use Rattle.std.specs.Prelude.{◌≡◌, Bool, List};
ghost use Rattle.just_ast_definitions.specs.declared.alias.Alias.{Alias};
ghost use Rattle.just_justfile.specs.Closed.{HeldRecipes};
ghost use Rattle.just_justfile.specs.declared.justfile.Justfile.{Justfile};
ghost use Rattle.just_names.specs.Texts.{Text};
ghost use Rattle.just_names.specs.declared.number.Number.{Number};
ghost use Rattle.just_paths.specs.declared.modulepath.Modulepath.{Modulepath};
ghost use Rattle.just_listings.specs.Below.{ArePublicAliasesBelow, ArePublicRecipesBelow};
ghost use Rattle.just_listings.specs.Groups.{ArePublicGroups};
ghost use Rattle.just_listings.specs.Public.{ArePublicModules, ArePublicRecipes};

/// The order of a listing is the only one: of one module, two lists of its public recipes are equal, and so are two of its public
/// modules, of its public groups, and of the public recipes and aliases of it and of the modules below it.
pub fn has_one_order()
    ensures recipes { (unsorted : Bool) (recipes one other : HeldRecipes) (j : Justfile) →
        ArePublicRecipes unsorted recipes j one → ArePublicRecipes unsorted recipes j other → one ≡ other }
    ensures modules { (unsorted : Bool) (j : Justfile) (one other : List Justfile) →
        ArePublicModules unsorted j one → ArePublicModules unsorted j other → one ≡ other }
    ensures groups { (unsorted : Bool) (recipes : HeldRecipes) (j : Justfile) (one other : List Text) →
        ArePublicGroups unsorted recipes j one → ArePublicGroups unsorted recipes j other → one ≡ other }
    ensures recipes_below { (unsorted : Bool) (recipes one other : HeldRecipes) (root : Justfile) →
        ArePublicRecipesBelow unsorted recipes root one → ArePublicRecipesBelow unsorted recipes root other → one ≡ other }
    ensures aliases_below { (unsorted : Bool) (root : Justfile) (one other : List (Alias Number × Modulepath)) →
        ArePublicAliasesBelow unsorted root one → ArePublicAliasesBelow unsorted root other → one ≡ other }
{}
