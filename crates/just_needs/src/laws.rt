//! Laws: calls that do nothing, whose contracts say what definitions keep.
ghost use Rattle.std.specs.Prelude.{◌≡◌, Bool, List};
ghost use Rattle.just_tasks.specs.declared.task.Task.{Task};
ghost use Rattle.just_justfile.specs.Closed.{StandsIn};
ghost use Rattle.just_justfile.specs.declared.justfile.Justfile.{Justfile};
ghost use Rattle.just_parts.specs.Syntax.{SyntaxAnswers};
ghost use Rattle.just_recipe.specs.declared.dependency.Dependency.{Dependency};
ghost use Rattle.just_recipe.specs.declared.recipe.Recipe.{Recipe};
ghost use Rattle.just_names.specs.declared.number.Number.{Number};
ghost use Rattle.just_scopes.specs.Need.{AreNeeds, AreNeedsFrom, NumberSets};

/// For each root with recipes and tasks there are sets of exactly what is needed, and they are one in each module that stands
/// in the root. So there are of what is needed from some numbers. The call does nothing.
pub fn needs_have_sets()
    ensures needs { (answers : SyntaxAnswers) (root : Justfile) (recipes : List (Recipe Dependency)) (tops : List Task) →
        (sets : NumberSets) × AreNeeds answers root recipes tops sets }
    ensures one { (answers : SyntaxAnswers) (root : Justfile) (recipes : List (Recipe Dependency)) (tops : List Task) (sets others : NumberSets) →
        AreNeeds answers root recipes tops sets → AreNeeds answers root recipes tops others → (j : Justfile) → StandsIn root j → sets j ≡ others j }
    ensures from { (used : Number → Bool) (root : Justfile) → (sets : NumberSets) × AreNeedsFrom used root sets }
{}
