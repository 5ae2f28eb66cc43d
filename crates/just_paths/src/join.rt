//! Clean joins: where a text leads to from a folder.
ghost use Rattle.std.specs.Prelude.{◌≡◌, ◌⊎◌, ◌∷◌, [], IfOk, OnOk};
ghost use Rattle.just_paths.specs.Clean.{IsClean};
ghost use Rattle.just_paths.specs.Join.{clean_join, led};
ghost use Rattle.just_paths.specs.loops.Join.{start_of};
ghost use Rattle.just_names.specs.Texts.{texts};

use crate::clean::is_component;
use just_data::Text;
use std::alloc::{AllocError, Global};

// Goes on from the components of a path by those of a text.
fn follow<'text>(components: &mut Vec<&'text str>, text: &'text str) -> Result<(), AllocError>
    ensures { OnOk result (texts components.new.items ≡ led (texts components.old.items) text.now) }
{
    for component in text.split('/') {
        if is_component(component) {
            components.push(component)?;
        } else if component == ".." {
            components.pop();
        }
    }
    Ok(())
}

// The text whose components stand before those of `text`.
fn start_of<'text>(folder: &'text str, text: &str) -> &'text str
    ensures { result.now ≡ start_of folder.now text.now }
{
    if text.starts_with('/') { "" } else { folder }
}

/// The clean path to which a text leads from a folder, or the root. A text that begins with `/` is taken alone.
/// Empty components and `.` are dropped, `..` takes away the component before it, and nothing at the root.
pub fn clean_join(alloc: Global, folder: &str, text: &str) -> Result<Text, AllocError>
    ensures path { IfOk result (λ path. path ≡ clean_join folder.now text.now) }
    ensures clean { IfOk result (λ path. (path ≡ 47 ∷ []) ⊎ IsClean path) }
{
    let mut components = Vec::new(alloc);
    follow(&mut components, start_of(folder, text))?;
    follow(&mut components, text)?;
    let mut path = String::from_str(alloc, "/")?;
    path.push_str(components.join(alloc, "/")?.as_str())?;
    Ok(Text::from_string(path)?)
}
