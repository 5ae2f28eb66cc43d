//! Compiles modules one after another, those in a module before it.

ghost use Rattle.std.specs.Prelude.{◌≡◌, ◌<◌, ℕ, List, IfOk, IfErr, None, OnOk, Some, length, map};
ghost use Rattle.std.specs.List.{All, Contains};
ghost use Rattle.just_module_variables.specs.Variables.{AreVariablesOf, HasNumbers};
ghost use Rattle.just_graph.specs.Graph.{targets};
ghost use Rattle.just_graph.specs.Steps.{IsOnce};
ghost use Rattle.just_errors.specs.Causes.{Reports};
ghost use Rattle.just_justfile.specs.Walks.{AreOrdered};
ghost use Rattle.just_justfile.specs.declared.justfile.Justfile.{Justfile};
ghost use Rattle.just_compiled.specs.Labelled.{slot};
ghost use Rattle.just_parts.specs.Layers.{given_by, layers_at};
ghost use Rattle.just_module_contents.specs.Definitions.{contents_in, recipes_in};
ghost use Rattle.just_module_contents.specs.Resolved.{AreNew, HasPriors, unresolved_numbers};
ghost use Rattle.just_module_headers.specs.loops.OfPlaces.{recipes_of_place};
ghost use Rattle.just_module_contents.specs.Kept.{kept_recipes};
ghost use Rattle.just_module_contents.specs.Named.{recipes_by};
ghost use Rattle.just_module_recipes.specs.Linked.{AreSettled};
ghost use Rattle.just_compiler.specs.loops.Parts.{AreSurroundings, IsAnalyzedFrom, IsCheckedCovered, TellsChecked, around_by};
ghost use Rattle.just_compiled.specs.loops.Settled.{AreInnerSettled};
ghost use Rattle.just_compiler.specs.loops.Steps.{BreaksInOrder, BreaksOver, CanCompileAll, CompilesAt, FitsFiles, HaveCompiledAll, made_in};

use crate::groups::add_recipes;
use just_data::{Sequence, Shared, Text};
use just_justfile::{Justfile, Recipes};
use just_module_assembly::{Surroundings, make_justfile, notes_at, take_inner};
use just_module_checks::{Checked, check_files};
use just_module_contents::Label;
use just_module_headers::files::Files;
use just_module_headers::join::Joined;
use just_parts::layers::{Ast, ConstantEvaluation, Error, Given, Number, Syntax};
use std::alloc::{AllocError, Global};

/// What modules that are compiled add.
#[derive(Drop)]
pub struct Gathered<'src> {
    /// Their recipes, one module after another.
    pub recipes: Recipes<'src>,
    /// The values that override their variables, each with the number of its variable.
    pub overridden: Vec<(Number, Text)>,
}

// What the module whose own file stands at a place has besides its recipes: it takes the modules in it, under these labels.
fn surroundings_at<'a, 'src, S: Syntax, E: ConstantEvaluation>(
    given: &Given<S, E>,
    files: &Files<'src, 'a>,
    joined: &Joined,
    loaded: &Shared<Sequence<Text>>,
    place: usize,
    labels: &[Label<'src>],
    slots: &mut Vec<Option<Justfile<'src>>>,
) -> Result<Surroundings<'src>, AllocError>
    requires fits { FitsFiles (S.answers given.now.syntax.now).enabled files.now joined.now place slots.old.items }
    requires labels { length labels.now ≡ length (targets joined.now.modules.items place) }
    ensures made { let enabled = (S.answers given.now.syntax.now).enabled in
        IfOk result (AreSurroundings enabled files.now joined.now loaded.now place labels.now slots.old.items) }
    ensures others { let inner = targets joined.now.modules.items place in
        OnOk result ((q : ℕ) → (Contains inner q → ⊥) → slot slots.new.items q ≡ slot slots.old.items q) }
    ensures room { OnOk result (length slots.new.items ≡ length slots.old.items) }
{
    let source = Text::from_str(given.alloc, files.keys[place].1.as_str())?;
    let loaded = loaded.clone()?;
    let notes = notes_at(
        given.alloc,
        files,
        given.syntax,
        joined.files[place].as_slice(),
    )?;
    let modules = take_inner(given.alloc, slots, joined.modules[place].as_slice(), labels)?;
    Ok(Surroundings {
        loaded,
        modules,
        notes,
        source,
    })
}

// The justfile of a module that is checked, of which `ast` says its own file, and what is gathered: its recipes, and the
// values that override its variables, are added.
fn analyze_checked<'b, 'src, S: Syntax, E: ConstantEvaluation>(
    given: &Given<S, E>,
    ast: &Ast<'src>,
    mut checked: Checked<'src, 'b>,
    surroundings: Surroundings<'src>,
    gathered: Gathered<'src>,
) -> Result<(Justfile<'src>, Gathered<'src>), Error<'src>>
    requires once { IsOnce (unresolved_numbers (recipes_in checked.definitions)) }
    requires priors { All HasPriors (recipes_in checked.definitions) }
    requires apart { AreNew gathered.recipes (recipes_in checked.definitions) }
    requires own { AreNew gathered.recipes (recipes_by (S.answers given.now.syntax.now).enabled (Some ast.now)) }
    requires ordered { AreOrdered surroundings.modules }
    requires settled { AreSettled (around_by surroundings gathered.recipes) }
    requires variables { AreVariablesOf (S.answers given.now.syntax.now) (contents_in checked.definitions) checked.variables }
    requires numbers { HasNumbers checked.variables }
    requires covered { IsCheckedCovered checked }
    ensures analyzed { let layers = layers_at (given_by S.answers E.answers given.now) ast.now.module_path in
        let is = IsAnalyzedFrom layers ast.now checked.entry surroundings.entry in
        IfOk result (λ made. is (made_in gathered.entry) (made_in made.1) made.0) }
    ensures named { let layers = layers_at (given_by S.answers E.answers given.now) ast.now.module_path in
        IfErr result (Reports (TellsChecked layers checked.entry (around_by surroundings.entry gathered.entry.recipes))) }
{
    let Gathered {
        recipes,
        mut overridden,
    } = gathered;
    overridden.append(&mut checked.constants.overridden)?;
    let (own, recipes) = add_recipes(given, &checked, ast, &surroundings, recipes)?;
    let Checked {
        definitions,
        variables,
        constants,
        ..
    } = checked;
    let justfile = make_justfile(
        given.alloc,
        &definitions,
        ast,
        own,
        variables,
        constants,
        surroundings,
    )?;
    Ok((
        justfile,
        Gathered {
            recipes,
            overridden,
        },
    ))
}

// Compiles the module whose own file stands at a place, from those in it, and adds what it adds to what is gathered.
fn compile_place<'a, 'src, S: Syntax, E: ConstantEvaluation>(
    given: &Given<S, E>,
    files: &Files<'src, 'a>,
    joined: &Joined,
    loaded: &Shared<Sequence<Text>>,
    place: usize,
    slots: &mut Vec<Option<Justfile<'src>>>,
    gathered: Gathered<'src>,
) -> Result<Gathered<'src>, Error<'src>>
    requires fits { FitsFiles (S.answers given.now.syntax.now).enabled files.now joined.now place slots.old.items }
    requires apart { AreNew gathered.recipes (recipes_of_place (S.answers given.now.syntax.now).enabled files.now joined.now place) }
    requires settled { AreInnerSettled gathered.recipes slots.old.items (targets joined.now.modules.items place) }
    ensures compiled { let given = given_by S.answers E.answers given.now in
        IfOk result (CompilesAt given files.now joined.now loaded.now place slots.old slots.new gathered.entry) }
    ensures named { let given = given_by S.answers E.answers given.now in
        IfErr result (Reports (BreaksOver given files.now joined.now place slots.old.items gathered.entry.recipes)) }
{
    let row = joined.files[place].as_slice();
    let ast = files.ast_at(place);
    let checked = check_files(given, files, &ast.module_path, row)?;
    let surroundings = surroundings_at(
        given,
        files,
        joined,
        loaded,
        place,
        checked.labels.as_slice(),
        slots,
    )?;
    let (justfile, gathered) = analyze_checked(given, ast, checked, surroundings, gathered)?;
    slots[place] = Some(justfile);
    Ok(gathered)
}

// No justfile at any of so many places.
fn no_slots<'src>(alloc: Global, count: usize) -> Result<Vec<Option<Justfile<'src>>>, AllocError>
    ensures { IfOk result (λ slots. length slots.items ≡ count) }
{
    let mut slots = Vec::with_capacity(alloc, count)?;
    for _ in 0..count {
        slots.push(None)?;
    }
    Ok(slots)
}

/// Compiles the modules whose own files stand at the places of an order: the justfiles of those that stand in no other,
/// without a name, and what all add, one module after another.
pub fn compile_in_order<'a, 'src, S: Syntax, E: ConstantEvaluation>(
    given: &Given<S, E>,
    files: &Files<'src, 'a>,
    joined: &Joined,
    loaded: &Shared<Sequence<Text>>,
    order: &[usize],
) -> Result<(Vec<Option<Justfile<'src>>>, Gathered<'src>), Error<'src>>
    requires { CanCompileAll (S.answers given.now.syntax.now).enabled files.now joined.now order.now }
    ensures compiled { let given = given_by S.answers E.answers given.now in
        IfOk result (HaveCompiledAll given files.now joined.now loaded.now order.now) }
    ensures named { let given = given_by S.answers E.answers given.now in
        IfErr result (Reports (BreaksInOrder given files.now joined.now loaded.now order.now)) }
{
    let mut slots = no_slots(given.alloc, files.asts.len())?;
    let mut gathered = Gathered {
        recipes: Recipes::new(given.alloc),
        overridden: Vec::new(given.alloc),
    };
    for place in order {
        gathered = compile_place(given, files, joined, loaded, *place, &mut slots, gathered)?;
    }
    Ok((slots, gathered))
}
