//! The modules in a module, which are compiled before it.

ghost use Rattle.std.specs.Prelude.{◌≡◌, ◌<◌, ℕ, List, IfOk, OnOk, Some, length, map};
ghost use Rattle.std.specs.List.{All, Contains};
ghost use Rattle.std.specs.Map.{values_of};
ghost use Rattle.just_graph.specs.Steps.{IsOnce};
ghost use Rattle.just_justfile.specs.declared.justfile.Justfile.{Justfile};
ghost use Rattle.just_compiled.specs.Labelled.{AreTaken, labelled_as, slot};

use just_data::{Sequence, copied};
use just_justfile::Justfile;
use just_module_contents::Label;
use just_table::Table;
use std::alloc::{AllocError, Global};
use std::mem::replace;

/// A justfile under a label.
pub fn labelled<'src>(mut justfile: Justfile<'src>, label: Label<'src>) -> Justfile<'src>
    ensures { result ≡ labelled_as label.entry justfile.entry }
{
    let Label {
        name,
        doc,
        groups,
        private,
        ..
    } = label;
    drop(replace(&mut justfile.name, name));
    drop(replace(&mut justfile.doc, doc));
    drop(replace(&mut justfile.groups, groups));
    justfile.private = private;
    justfile
}

// The values of a table, in the order of their names.
fn values<'src>(
    alloc: Global,
    table: Table<'src, Justfile<'src>>,
) -> Result<Sequence<Justfile<'src>>, AllocError>
    ensures { IfOk result (λ modules. modules ≡ values_of table.entry) }
{
    let mut modules = Vec::with_capacity(alloc, table.len())?;
    for module in table.into_values() {
        modules.push(module)?;
    }
    Ok(Sequence::from_vec(modules))
}

/// Takes what is held at a place.
pub fn take_at<'src>(slots: &mut Vec<Option<Justfile<'src>>>, place: usize) -> Justfile<'src>
    requires inside { place < length slots.old.items }
    requires there { (j : Justfile) × (slot slots.old.items place ≡ Some j) }
    ensures taken { slot slots.old.items place ≡ Some result }
    ensures room { length slots.new.items ≡ length slots.old.items }
    ensures others { (q : ℕ) → (q ≡ place → ⊥) → slot slots.new.items q ≡ slot slots.old.items q }
{
    slots[place].take().unwrap()
}

/// Takes the modules that are held at the places of a row, under the labels beside them: they stand in byte order of
/// their names.
pub fn take_inner<'src>(
    alloc: Global,
    slots: &mut Vec<Option<Justfile<'src>>>,
    row: &[usize],
    labels: &[Label<'src>],
) -> Result<Sequence<Justfile<'src>>, AllocError>
    requires inside { All (λ q. q < length slots.old.items) row.now }
    requires once { IsOnce row.now }
    requires there { (js : List Justfile) × (map Some js ≡ map (slot slots.old.items) row.now) }
    requires labels { length labels.now ≡ length row.now }
    ensures modules { IfOk result (AreTaken slots.old.items row.now labels.now) }
    ensures room { OnOk result (length slots.new.items ≡ length slots.old.items) }
    ensures others { OnOk result ((q : ℕ) → (Contains row.now q → ⊥) → slot slots.new.items q ≡ slot slots.old.items q) }
{
    let mut table = Table::new(alloc);
    for at in 0..row.len() {
        let justfile = take_at(slots, row[at]);
        let label = copied(&labels[at])?;
        table.insert(labelled(justfile, label))?;
    }
    let modules = values(alloc, table)?;
    Ok(modules)
}
