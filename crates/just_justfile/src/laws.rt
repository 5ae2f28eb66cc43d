//! Laws: calls that do nothing, whose contracts say what definitions keep.
ghost use Rattle.std.specs.Prelude.{◌≡◌, List, [], ◌∷◌, Some};
ghost use Rattle.std.specs.List.{Contains};
ghost use Rattle.just_justfile.specs.Closed.{AreClosed, HaveInnerNames, HeldRecipes, IsClosedModule, StandsIn, resolved_name};
ghost use Rattle.just_justfile.specs.Walks.{Inside, AreModulesOrdered, end_from, inner_along, recipe_from};
ghost use Rattle.just_justfile.specs.declared.justfile.Justfile.{Justfile, out-Justfile};
ghost use Rattle.just_justfile.specs.declared.resolution.Resolution.TheVariants.{Resolved};
ghost use Rattle.just_names.specs.Name.{text_of_name};
ghost use Rattle.just_names.specs.Texts.{Text};
ghost use Rattle.just_names.specs.declared.name.Namepath.{Namepath};
ghost use Rattle.just_names.specs.declared.number.Number.{Number};
ghost use Rattle.just_recipe.specs.Recipes.{find_number};

/// Where a module and those below it are closed, the module itself is, and so is each of its modules with those below it. Those
/// in it have names, which rise in byte order in each module.
pub fn closes_its_modules()
    ensures itself { (recipes : HeldRecipes) (root : Justfile) → AreClosed recipes root → IsClosedModule root recipes }
    ensures names { (recipes : HeldRecipes) (root : Justfile) → AreClosed recipes root → HaveInnerNames root }
    ensures ordered { (recipes : HeldRecipes) (root : Justfile) → AreClosed recipes root → AreModulesOrdered root }
    ensures modules { (recipes : _) (root inner : Justfile) →
        AreClosed recipes root → Contains (out-Justfile root).modules inner → AreClosed recipes inner }
{}

/// Names lead from a module to a module that stands in it, and no two ways: the walk of a path and `Justfile::submodule` end in
/// the same one.
pub fn leads_inside()
    ensures along { (root j : Justfile) (names : List Text) → inner_along root names ≡ Some j → StandsIn root j }
    ensures walked { (root j : Justfile) (names : List Text) → end_from root names ≡ Inside j → inner_along root names ≡ Some j }
    ensures led { (root j : Justfile) (name : _) (names : List Text) →
        inner_along root (name ∷ names) ≡ Some j → end_from root (name ∷ names) ≡ Inside j }
{}

/// Where the root and the modules below it are closed, and the root's path has no names, each module that stands in the root is
/// found from there by its own path: so is the module of an alias.
pub fn is_found_by_its_path()
    ensures { (recipes : HeldRecipes) (root j : Justfile) → AreClosed recipes root →
        (out-Justfile root).module_path.components ≡ [] → StandsIn root j → inner_along root (out-Justfile j).module_path.components ≡ Some j }
{}

/// Where a module and those below it are closed, the number to which a path resolves from it is that of a held recipe, whose name
/// is the last of the path.
pub fn resolves_to_held()
    ensures { (recipes : HeldRecipes) (root : Justfile) (path : Namepath) (number : Number) → AreClosed recipes root →
        recipe_from root path ≡ Some (Resolved number) → (r : _) × (find_number recipes number.0 ≡ Some r) × (resolved_name r ≡ text_of_name path.last) }
{}
