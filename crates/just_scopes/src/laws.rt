//! Laws: calls that do nothing, whose contracts say what definitions keep.
ghost use Rattle.std.specs.Prelude.{◌≡◌, ◌↔◌, Bool, List, Ok, Option, map};
ghost use Rattle.std.specs.List.{Contains};
ghost use Rattle.just_justfile.specs.Closed.{StandsIn};
ghost use Rattle.just_justfile.specs.declared.justfile.Justfile.{Justfile};
ghost use Rattle.just_run_layers.specs.Host.{Answer};
ghost use Rattle.just_run_layers.specs.Interactions.{Log, Question, HasTrace};
ghost use Rattle.just_scopes.specs.Need.{NumberSets};
ghost use Rattle.just_scopes.specs.Open.{kept_of};
ghost use Rattle.just_scopes.specs.Opening.{Handed, Opened, all_opened};
ghost use Rattle.just_scopes.specs.Preorder.{IsPreorderUnder, Placed};

/// A root has one order of the modules that stand in it, under a lazy module or not, and these are all that do. The call does
/// nothing.
pub fn lists_modules_in_one_order()
    ensures some { (above : Bool) (root : Justfile) → (ps : List Placed) × IsPreorderUnder above root ps }
    ensures one { (above : Bool) (root : Justfile) (ps qs : List Placed) → IsPreorderUnder above root ps → IsPreorderUnder above root qs → ps ≡ qs }
    ensures all { (above : Bool) (root j : Justfile) (ps : List Placed) → IsPreorderUnder above root ps →
        Contains (map (λ (p : Placed). p.justfile) ps) j ↔ StandsIn root j }
{}

/// Where modules were opened, the host was asked for the pairs of each of them once, where the configuration says so, and the
/// evaluation for its variables once, a lazy one for its set; and for nothing else. The call does nothing.
pub fn asks_for_each_module_once()
    ensures { (sets : NumberSets) (handed : Handed) (promised : Question → Option Answer) (ps : List Placed) (old new : Log) (opened : List Opened) →
        HasTrace promised (all_opened sets handed ps) old new (Ok opened) → new ≡ kept_of sets handed ps old }
{}
