//! What files say of their module that no rule reads.
ghost use Rattle.std.specs.Prelude.{◌≡◌, ◌++◌, OnOk, map};
ghost use Rattle.just_table.specs.Entries.{put_all};
ghost use Rattle.just_module_contents.specs.Notes.{absent_by, no_notes, noted};
ghost use Rattle.just_module_contents.specs.Said.{said};

use crate::platforms::is_enabled;
use just_data::{BorrowedText, Sequence};
use just_parts::layers::{Ast, Item, Syntax, UnstableFeature, Warning};
use just_table::Table;
use std::alloc::{AllocError, Global};

/// What the files of a module say of it that no rule reads.
#[derive(Drop)]
pub struct Notes<'src> {
    /// The names of the optional modules that have no file.
    pub absent_modules: Table<'src, BorrowedText<'src>>,
    /// The names of the features that they use and that are not stable.
    pub unstable_features: Table<'src, BorrowedText<'src>>,
    /// What the caller is told of them, file after file.
    pub warnings: Sequence<Warning>,
}

// Adds the names of the optional modules that have no file.
fn add_absent<'src, S: Syntax>(
    names: &mut Table<'src, BorrowedText<'src>>,
    items: &[Item<'src>],
    syntax: &S,
) -> Result<(), AllocError>
    ensures { OnOk result (names.new ≡ put_all (λ t. t) names.old (said absent_by (S.answers syntax.now).enabled items.now)) }
{
    for item in items {
        if !is_enabled(item, syntax) {
            continue;
        }
        match item {
            Item::Module {
                name,
                absolute: None,
                optional: true,
                ..
            } => {
                names.insert(BorrowedText::new(name.lexeme()))?;
            }
            _ => continue,
        }
    }
    Ok(())
}

// Adds the names of features.
fn add_features<'src>(
    names: &mut Table<'src, BorrowedText<'src>>,
    features: &[UnstableFeature<'src>],
) -> Result<(), AllocError>
    ensures { OnOk result (names.new ≡ put_all (λ t. t) names.old (map (λ f. f.name) features.now)) }
{
    for feature in features {
        names.insert(BorrowedText::new(feature.name.as_str()))?;
    }
    Ok(())
}

// Adds warnings.
fn add_warnings(told: &mut Sequence<Warning>, warnings: &[Warning]) -> Result<(), AllocError>
    ensures { OnOk result (told.new ≡ told.old ++ warnings.now) }
{
    for warning in warnings {
        told.push(warning.clone()?)?;
    }
    Ok(())
}

impl<'src> Notes<'src> {
    /// Nothing.
    pub fn new(alloc: Global) -> Notes<'src>
        ensures { result ≡ no_notes }
    {
        Notes {
            absent_modules: Table::new(alloc),
            unstable_features: Table::new(alloc),
            warnings: Sequence::new(alloc),
        }
    }

    /// Adds what a file says.
    pub fn add<S: Syntax>(&mut self, ast: &Ast<'src>, syntax: &S) -> Result<(), AllocError>
        ensures { OnOk result (self.new ≡ noted (S.answers syntax.now).enabled self.old ast.now) }
    {
        add_absent(&mut self.absent_modules, ast.items.as_slice(), syntax)?;
        add_features(
            &mut self.unstable_features,
            ast.unstable_features.as_slice(),
        )?;
        add_warnings(&mut self.warnings, ast.warnings.as_slice())
    }
}
