//! The files of modules, in join order, by the places of their own files.

ghost use Rattle.std.specs.Prelude.{◌≡◌, ◌<◌, ◌++◌, ℕ, [], ◌∷◌, IfOk, OnOk, length, flat_map};
ghost use Rattle.std.specs.List.{All, Contains};
ghost use Rattle.just_graph.specs.Building.{EachRow};
ghost use Rattle.just_graph.specs.Graph.{HasEdge, IsGraph, targets};
ghost use Rattle.just_graph.specs.Steps.{IsOrder, Reached};
ghost use Rattle.just_module_headers.specs.declared.join.Joined.{Joined};
ghost use Rattle.just_module_headers.specs.Joined.{AreArranged, AreGraphs, AreJoined, GoDeeper, IsJoined};
ghost use Rattle.just_module_headers.specs.loops.Joined.{StaysJoined};

use crate::files::Rows;
use just_graph::levels::levels;
use just_graph::order;
use std::alloc::{AllocError, Global};

/// For each file that is a module's own the places of the module's files, in join order, and of the own files of the
/// modules that these declare; for other files nothing.
#[derive(Drop)]
pub struct Joined {
    /// The places of a module's files, in join order.
    pub files: Vec<Vec<usize>>,
    /// The places of the own files of the modules in it.
    pub modules: Vec<Vec<usize>>,
}

// Nothing of so many files.
fn none_joined(alloc: Global, count: usize) -> Result<Joined, AllocError>
    ensures files { IfOk result (λ joined. EachRow (λ a row. row ≡ []) count joined.files.items) }
    ensures modules { IfOk result (λ joined. EachRow (λ a row. row ≡ []) count joined.modules.items) }
{
    let mut files = Vec::new(alloc);
    let mut modules = Vec::new(alloc);
    for _ in 0..count {
        files.push(Vec::new(alloc))?;
        modules.push(Vec::new(alloc))?;
    }
    Ok(Joined { files, modules })
}

// Pushes the elements of a row.
fn push_row(row: &[usize], all: &mut Vec<usize>) -> Result<(), AllocError>
    ensures { OnOk result (all.new.items ≡ all.old.items ++ row.now) }
{
    for place in row {
        all.push(*place)?;
    }
    Ok(())
}

// What files lead to, file after file.
fn rows_after(alloc: Global, rows: &[Vec<usize>], files: &[usize]) -> Result<Vec<usize>, AllocError>
    requires { All (λ a. a < length rows.now) files.now }
    ensures { IfOk result (λ all. all.items ≡ flat_map (targets rows.now) files.now) }
{
    let mut all = Vec::new(alloc);
    for file in files {
        push_row(rows[*file].as_slice(), &mut all)?;
    }
    Ok(all)
}

// Joins the files of the module whose own file stands at a place, where that is not done.
fn join(alloc: Global, rows: &Rows, place: usize, joined: &mut Joined) -> Result<(), AllocError>
    requires graphs { AreGraphs rows.now (length rows.now.imports.items) }
    requires place { place < length rows.now.imports.items }
    requires joined { AreJoined rows.now (length rows.now.imports.items) joined.old }
    ensures joined { OnOk result (AreJoined rows.now (length rows.now.imports.items) joined.new) }
    ensures here { OnOk result (IsJoined rows.now joined.new place) }
    ensures stays { OnOk result (StaysJoined rows.now joined.old joined.new) }
{
    if !joined.files[place].is_empty() {
        return Ok(());
    }
    let files = levels(alloc, rows.imports.as_slice(), place)?;
    joined.modules[place] = rows_after(alloc, rows.modules.as_slice(), files.as_slice())?;
    joined.files[place] = files;
    Ok(())
}

// Joins the files of the modules whose own files stand at places.
fn join_each(
    alloc: Global,
    rows: &Rows,
    places: &[usize],
    joined: &mut Joined,
) -> Result<(), AllocError>
    requires graphs { AreGraphs rows.now (length rows.now.imports.items) }
    requires places { All (λ a. a < length rows.now.imports.items) places.now }
    requires joined { AreJoined rows.now (length rows.now.imports.items) joined.old }
    ensures joined { OnOk result (AreJoined rows.now (length rows.now.imports.items) joined.new) }
    ensures each { OnOk result (All (IsJoined rows.now joined.new) places.now) }
    ensures stays { OnOk result (StaysJoined rows.now joined.old joined.new) }
{
    for place in places {
        join(alloc, rows, *place, joined)?;
    }
    Ok(())
}

/// Joins the files of all modules: the one whose own file stands at `root`, and those that files declare.
pub fn join_modules(alloc: Global, rows: &Rows, root: usize) -> Result<Joined, AllocError>
    requires graphs { AreGraphs rows.now (length rows.now.imports.items) }
    requires root { root < length rows.now.imports.items }
    ensures joined { IfOk result (AreJoined rows.now (length rows.now.imports.items)) }
    ensures root { IfOk result (λ joined. IsJoined rows.now joined root) }
    ensures modules { IfOk result (λ joined. (a b : ℕ) → HasEdge rows.now.modules.items a b → IsJoined rows.now joined b) }
{
    let mut joined = none_joined(alloc, rows.imports.len())?;
    join(alloc, rows, root, &mut joined)?;
    for row in &rows.modules {
        join_each(alloc, rows, row.as_slice(), &mut joined)?;
    }
    Ok(joined)
}

/// The places of the own files of the modules that are reached from the root's, those of the modules in a module before
/// its own. There is a number for each place that is larger for the modules in a module.
pub fn inner_first(
    alloc: Global,
    modules: &[Vec<usize>],
    root: usize,
) -> Result<Vec<usize>, AllocError>
    requires graph { IsGraph modules.now }
    requires root { root < length modules.now }
    requires deeper { (depth : ℕ → ℕ) × ((a b : ℕ) → HasEdge modules.now a b → depth a < depth b) }
    ensures ordered { IfOk result (λ order. IsOrder (HasEdge modules.now) (length modules.now) (root ∷ []) order.items) }
    ensures reached { IfOk result (λ order. All (Reached (HasEdge modules.now) (root ∷ []) []) order.items) }
{
    match order(alloc, modules, [root].as_slice())? {
        Ok(order) => Ok(order),
        Err(_) => unreachable!(),
    }
}

/// Joins the modules that are reached from the root's, and lists them, those in a module before it.
pub fn arrange(alloc: Global, rows: &Rows, root: usize) -> Result<(Joined, Vec<usize>), AllocError>
    requires graphs { AreGraphs rows.now (length rows.now.imports.items) }
    requires root { root < length rows.now.imports.items }
    requires deeper { (joined : Joined) → AreJoined rows.now (length rows.now.imports.items) joined → GoDeeper joined }
    ensures { IfOk result (λ made. AreArranged rows.now root made.0 made.1.items) }
{
    let joined = join_modules(alloc, rows, root)?;
    let order = inner_first(alloc, joined.modules.as_slice(), root)?;
    Ok((joined, order))
}
