//! The names of the modules and the aliases in a module.

ghost use Rattle.std.specs.Prelude.{◌≡◌, ◌<◌, ◌++◌, ℕ, IfOk, IfErr, OnOk, length};
ghost use Rattle.std.specs.List.{All};
ghost use Rattle.just_errors.specs.Causes.{Reports};
ghost use Rattle.just_module_headers.specs.Files.{asts_in};
ghost use Rattle.just_module_contents.specs.Named.{naming_by, said_from};
ghost use Rattle.just_module_contents.specs.Said.{said};
ghost use Rattle.just_module_headers.specs.OfPlaces.{HaveFiles, NamesDiffer, RepeatsNames};

use crate::files::Files;
use crate::headers::check_named;
use crate::join::Joined;
use just_module_contents::definitions::Naming;
use just_module_contents::is_enabled;
use just_parts::layers::{Error, Item, Syntax};
use std::alloc::{AllocError, Global};

// Pushes what enabled items define under names beside recipes.
fn push_namings<'src, S: Syntax>(
    items: &[Item<'src>],
    syntax: &S,
    namings: &mut Vec<Naming<'src>>,
) -> Result<(), AllocError>
    ensures { OnOk result (namings.new.items ≡ namings.old.items ++ said naming_by (S.answers syntax.now).enabled items.now) }
{
    for item in items {
        if !is_enabled(item, syntax) {
            continue;
        }
        match Naming::of(item) {
            Some(naming) => namings.push(naming)?,
            None => continue,
        }
    }
    Ok(())
}

/// What the files at places define under names beside recipes, file after file.
pub fn module_namings<'a, 'src, S: Syntax>(
    alloc: Global,
    files: &Files<'src, 'a>,
    syntax: &S,
    places: &[usize],
) -> Result<Vec<Naming<'src>>, AllocError>
    requires { All (λ p. p < length files.now.asts.items) places.now }
    ensures { IfOk result (λ namings. namings.items ≡ said_from naming_by (S.answers syntax.now).enabled (asts_in files.now) places.now) }
{
    let mut namings = Vec::new(alloc);
    for place in places {
        push_namings(files.ast_at(*place).items.as_slice(), syntax, &mut namings)?;
    }
    Ok(namings)
}

/// Refuses the first module of an order in which two of the modules and aliases have one name.
pub fn check_module_names<'a, 'src, S: Syntax>(
    alloc: Global,
    files: &Files<'src, 'a>,
    syntax: &S,
    joined: &Joined,
    order: &[usize],
) -> Result<(), Error<'src>>
    requires places { All (λ p. p < length joined.now.files.items) order.now }
    requires files { HaveFiles files.now joined.now order.now }
    ensures kept { OnOk result (NamesDiffer (S.answers syntax.now).enabled files.now joined.now order.now) }
    ensures named { IfErr result (Reports (RepeatsNames (S.answers syntax.now).enabled files.now joined.now order.now)) }
{
    for place in order {
        let row = joined.files[*place].as_slice();
        let namings = module_namings(alloc, files, syntax, row)?;
        check_named(alloc, namings.as_slice())?;
    }
    Ok(())
}
