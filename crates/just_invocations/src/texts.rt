//! Paths, as refusals tell them.
ghost use Rattle.std.specs.Prelude.{◌≡◌, IfOk, string_bytes};
ghost use Rattle.just_names.specs.Texts.{separator_of, text_of, texts};
ghost use Rattle.just_invocations.specs.Head.{absolute_path_of};
ghost use Rattle.just_invocations.specs.Meaning.{module_path_text, path_texts};

use just_data::{Sequence, Text};
use just_justfile::Justfile;
use just_paths::Modulepath;
use std::alloc::{AllocError, Global};
use std::collections::BTreeSet;

fn separator(spaced: bool) -> &'static str
    ensures { result.now ≡ separator_of spaced }
{
    if spaced { " " } else { "::" }
}

// The text of a path of these names.
fn joined(alloc: Global, names: &[&str], spaced: bool) -> Result<String, AllocError>
    ensures { IfOk result (λ text. string_bytes text ≡ text_of (texts names.now) spaced) }
{
    let mut text = String::new(alloc);
    let Some((first, rest)) = names.split_first() else {
        return Ok(text);
    };
    text.push_str(first)?;
    let between = separator(spaced);
    for name in rest {
        text.push_str(between)?;
        text.push_str(name)?;
    }
    Ok(text)
}

/// The text of a path of these names.
pub(crate) fn names_text(alloc: Global, names: &[&str], spaced: bool) -> Result<Text, AllocError>
    ensures { IfOk result (λ text. text ≡ text_of (texts names.now) spaced) }
{
    Text::from_string(joined(alloc, names, spaced)?)
}

// The text of a path.
fn path_text(alloc: Global, path: &Modulepath) -> Result<Text, AllocError>
    ensures { IfOk result (λ text. text ≡ module_path_text path.now) }
{
    Text::from_string(format!(in alloc; "{path}")?)
}

/// The texts of paths.
pub(crate) fn path_texts(
    alloc: Global,
    paths: &BTreeSet<Modulepath>,
) -> Result<Sequence<Text>, AllocError>
    ensures { IfOk result (λ texts. texts ≡ path_texts paths.now) }
{
    let mut texts = Sequence::new(alloc);
    for path in paths {
        texts.push(path_text(alloc, path)?)?;
    }
    Ok(texts)
}

/// The text of the path of a name in a module, from the root.
pub(crate) fn place_text<'src>(
    alloc: Global,
    here: &Justfile<'src>,
    name: &str,
) -> Result<Text, AllocError>
    ensures { IfOk result (λ text. text ≡ absolute_path_of here.now name.now) }
{
    let path = here.module_path.join(name)?;
    path_text(alloc, &path)
}
