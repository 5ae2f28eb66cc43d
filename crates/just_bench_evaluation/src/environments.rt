//! What programs have in their environment.
ghost use Rattle.std.specs.Prelude.{◌≡◌, ◌++◌, IfOk, OnOk, map, reverse};
ghost use Rattle.std.specs.List.{flat_map};
ghost use Rattle.just_bench_evaluation.specs.Environments as spec;

use just_data::{Chain, Sequence, Text};
use just_parts::layers::{Binding, Name, Scope, Settings, joined};
use just_run_layers::{EnvironmentChange, EnvironmentPair};
use std::alloc::{AllocError, Global};

// The pairs of dotenv files, each as it stands, from the last to the first.
fn stand(
    alloc: Global,
    pairs: &Chain<EnvironmentPair>,
) -> Result<Vec<EnvironmentChange>, AllocError>
    ensures { IfOk result (λ found. found.items ≡ map spec.pair_change (reverse pairs.now)) }
{
    let mut found = Vec::new(alloc);
    for pair in pairs.iter() {
        let name = pair.name.clone()?;
        let value = Some(pair.value.clone()?);
        found.push(EnvironmentChange { name, value })?;
    }
    Ok(found)
}

// A binding, whose value is one text.
fn exported<'src>(alloc: Global, binding: &Binding<'src>) -> Result<EnvironmentChange, AllocError>
    ensures { IfOk result (λ change. change ≡ spec.exported binding.now) }
{
    let name = Text::from_str(alloc, binding.name.lexeme())?;
    let value = Some(joined(alloc, binding.value.as_slice())?);
    Ok(EnvironmentChange { name, value })
}

// The bindings that recipes have in their environment, from the last to the first.
fn exports<'src>(
    alloc: Global,
    scope: &Scope<'src>,
    all: bool,
) -> Result<Vec<EnvironmentChange>, AllocError>
    ensures { IfOk result (λ found. found.items ≡ flat_map (spec.binding_changes all) (reverse scope.now.bindings)) }
{
    let mut found = Vec::new(alloc);
    for binding in scope.bindings.iter() {
        if all || binding.export {
            found.push(exported(alloc, binding)?)?;
        }
    }
    Ok(found)
}

// Names that are removed.
fn push_removals<'src>(
    alloc: Global,
    changes: &mut Sequence<EnvironmentChange>,
    names: &[Name<'src>],
) -> Result<(), AllocError>
    ensures { OnOk result (changes.new ≡ changes.old ++ map spec.removal names.now) }
{
    for name in names {
        let name = Text::from_str(alloc, name.lexeme())?;
        changes.push(EnvironmentChange { name, value: None })?;
    }
    Ok(())
}

/// The pairs of dotenv files, the bindings that are exported, and the names that are removed, each in order.
#[tactic(auto, using(crate::proofs::Turned::turned, crate::proofs::Turned::turned_pairs))]
pub fn environment_changes<'src>(
    alloc: Global,
    dotenv: &Chain<EnvironmentPair>,
    scope: &Scope<'src>,
    settings: &Settings,
    unexports: &[Name<'src>],
) -> Result<Sequence<EnvironmentChange>, AllocError>
    ensures { IfOk result (λ changes. changes ≡ spec.environment_changes dotenv.now scope.now settings.now unexports.now) }
{
    let mut pairs = stand(alloc, dotenv)?;
    pairs.reverse();
    let mut changes = Sequence::from_vec(pairs);
    let mut exports = exports(alloc, scope, settings.export)?;
    exports.reverse();
    changes.append(Sequence::from_vec(exports))?;
    push_removals(alloc, &mut changes, unexports)?;
    Ok(changes)
}
