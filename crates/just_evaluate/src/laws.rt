//! Laws: calls that do nothing, whose contracts say what definitions keep.
ghost use Rattle.std.specs.Prelude.{◌≡◌, List, Option, Some};
ghost use Rattle.just_ast_definitions.specs.declared.assignment.Assignment.{Assignment};
ghost use Rattle.just_justfile.specs.Closed.{StandsIn};
ghost use Rattle.just_justfile.specs.declared.justfile.Justfile.{Justfile, out-Justfile};
ghost use Rattle.just_names.specs.Texts.{Text};
ghost use Rattle.just_paths.specs.declared.modulepath.Modulepath.{Modulepath};
ghost use Rattle.just_table.specs.Entries.{find};
ghost use Rattle.just_evaluate.specs.Destination.{destination, leads_to};

/// A path leads to a module that stands in the root, and to one of its variables where it leads to one.
pub fn leads_inside()
    ensures inside { (root j : Justfile) (path : Option Modulepath) (variable : Option Assignment) →
        destination root path ≡ leads_to j variable → StandsIn root j }
    ensures own { (root j : Justfile) (path : Option Modulepath) (variable : Assignment) →
        destination root path ≡ leads_to j (Some variable) → (name : Text) × (find name (out-Justfile j).assignments ≡ Some variable) }
{}
