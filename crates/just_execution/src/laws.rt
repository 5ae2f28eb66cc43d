//! Laws: calls that do nothing, whose contracts say what definitions keep.
ghost use Rattle.std.specs.Prelude.{◌≡◌, ◌≤◌, ℕ, List, Result, Err, length};
ghost use Rattle.just_graph.specs.Members.{In};
ghost use Rattle.just_errors.specs.declared.halt.Halt.{Halt};
ghost use Rattle.just_run_layers.specs.declared.host.Entry.{Entry};
ghost use Rattle.just_run_layers.specs.Host.{Answer};
ghost use Rattle.just_run_layers.specs.Interactions.{Question, IsTraceOrPrefix};
ghost use Rattle.just_tasks.specs.declared.task.Task.{Task};
ghost use Rattle.just_execution.specs.Expansion.{Block};
ghost use Rattle.just_execution.specs.TaskInteractions.{IsAlike, interactions_of};
ghost use Rattle.just_tasks.specs.Pairs.{AllBelow};
ghost use Rattle.just_recipe.specs.Recipes.{DependenciesStandFirst};
ghost use Rattle.just_execution.specs.Reports.{IsEnough, IsFirstAsked, AgreeUnlessResourceError};
ghost use Rattle.just_execution.specs.Run.{PriorsIgnoreFlag, run_parts};
ghost use Rattle.just_tasks.specs.Scene.{AreAlike, Scene};

/// An expected run with as much fuel as there are recipes is whole: more fuel changes nothing.
pub fn enough_fuel()
    ensures { (scene : Scene) (n : ℕ) → DependenciesStandFirst scene.recipes → length scene.recipes ≤ n → IsEnough scene n }
{}

/// Where the evaluator answers alike whether or not a recipe runs as a dependency, the priors do not hang on how a task is
/// called.
pub fn priors_are_even()
    ensures { (scene : Scene) (f : Question → Answer) (n : ℕ) (tops : List Task) → IsAlike f → PriorsIgnoreFlag (interactions_of scene) f n tops }
{}

/// Two runs that follow the same expected run, neither of which was refused memory or a count, are one.
pub fn one_outcome()
    ensures { (qs : _) (end a b : Result (Unit {0}) Halt) (old new last : _) → IsTraceOrPrefix qs end old new a →
        IsTraceOrPrefix qs end old last b → AgreeUnlessResourceError a b new last }
{}

/// In an expected run each block is of the very task that asks for its pair, and so has what is held for that task.
pub fn blocks_are_first_asked()
    ensures { (scene : Scene) (f : Question → Answer) (n : ℕ) (tops : List Task) →
        DependenciesStandFirst scene.recipes → AllBelow n tops → PriorsIgnoreFlag (interactions_of scene) f n tops →
        (t : Task) → In (Block t) (run_parts (interactions_of scene) f n tops) → IsFirstAsked (interactions_of scene) f n tops t }
{}

/// In scenes with the same recipes, and the same in the module of each recipe, the same is asked of each task.
pub fn scenes_that_agree()
    ensures { (first second : Scene) → AreAlike first second → interactions_of first ≡ interactions_of second }
{}
