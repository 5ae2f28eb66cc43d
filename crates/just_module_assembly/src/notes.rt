//! What the files of a module say of it, and of the modules in it, that no rule reads.

ghost use Rattle.std.specs.Prelude.{◌≡◌, ◌<◌, IfOk, length};
ghost use Rattle.std.specs.List.{All};
ghost use Rattle.just_module_contents.specs.Labels.{label_by};
ghost use Rattle.just_module_headers.specs.Files.{asts_in};
ghost use Rattle.just_module_contents.specs.Named.{said_from};
ghost use Rattle.just_module_assembly.specs.Noted.{notes_from};

use just_module_contents::{Label, Notes, push_labels};
use just_module_headers::files::Files;
use just_parts::layers::Syntax;
use std::alloc::{AllocError, Global};

/// The labels of the modules that the files at places declare, file after file.
pub fn labels_at<'a, 'src, S: Syntax>(
    alloc: Global,
    files: &Files<'src, 'a>,
    syntax: &S,
    places: &[usize],
) -> Result<Vec<Label<'src>>, AllocError>
    requires { All (λ p. p < length files.now.asts.items) places.now }
    ensures { IfOk result (λ labels. labels.items ≡ said_from label_by (S.answers syntax.now).enabled (asts_in files.now) places.now) }
{
    let mut labels = Vec::new(alloc);
    for place in places {
        let ast = files.ast_at(*place);
        push_labels(alloc, ast.items.as_slice(), syntax, &mut labels)?;
    }
    Ok(labels)
}

/// What is noted of the files at places.
pub fn notes_at<'a, 'src, S: Syntax>(
    alloc: Global,
    files: &Files<'src, 'a>,
    syntax: &S,
    places: &[usize],
) -> Result<Notes<'src>, AllocError>
    requires { All (λ p. p < length files.now.asts.items) places.now }
    ensures { IfOk result (λ notes. notes ≡ notes_from (S.answers syntax.now).enabled (asts_in files.now) places.now) }
{
    let mut notes = Notes::new(alloc);
    for place in places {
        notes.add(files.ast_at(*place), syntax)?;
    }
    Ok(notes)
}
