ghost use Rattle.std.specs.Prelude.{◌≡◌, [], Some, None, map, string_bytes, option_map, option_to_list, IfOk, IfErr};
ghost use Rattle.just_names.specs.Texts.{texts};
ghost use Rattle.just_loader.specs.ModuleFile.{after, slashed, relative, is_module_name, file_at, candidates, FindsModuleFile, TellsSeveral};

use crate::sources::Sources;
use just_data::{Sequence, Text};
use just_parts::layers::{Error, LoadError, Name};
use just_paths::clean_join;
use std::alloc::{AllocError, Global};

// Whether a file of this name can be a module's.
pub(crate) fn is_module_name(name: &str) -> bool
    ensures { result ≡ is_module_name name.now }
{
    name == "mod.just"
        || name.eq_ignore_ascii_case("justfile")
        || name.eq_ignore_ascii_case(".justfile")
}

// A folder with a slash at its end.
pub(crate) fn slashed(alloc: Global, folder: &str) -> Result<String, AllocError>
    ensures { IfOk result (λ text. string_bytes text ≡ slashed folder.now) }
{
    let mut text = String::from_str(alloc, folder)?;
    if folder != "/" {
        text.push('/')?;
    }
    Ok(text)
}

// What a text has after a prefix.
pub(crate) fn after<'text>(text: &'text str, prefix: &str) -> Option<&'text str>
    ensures { option_map (λ rest. rest.now) result ≡ after prefix.now text.now }
{
    text.strip_prefix(prefix)
}

/// A clean path as it is shown: from a folder, where it lies below it, and else whole.
pub fn relative_path<'text>(
    alloc: Global,
    folder: &str,
    path: &'text str,
) -> Result<&'text str, AllocError>
    ensures { IfOk result (λ shown. shown.now ≡ relative folder.now path.now) }
{
    let prefix = slashed(alloc, folder)?;
    Ok(after(path, prefix.as_str()).unwrap_or(path))
}

// The file at a path, where it is there.
fn file_at<'src>(
    alloc: Global,
    sources: &Sources<'src>,
    path: &str,
) -> Result<Vec<&'src str>, AllocError>
    ensures { IfOk result (λ found. texts found.items ≡ file_at sources.now path.now) }
{
    let mut found = Vec::new(alloc);
    if let Some(file) = sources.file(path) {
        found.push(file.path.as_str())?;
    }
    Ok(found)
}

// The candidates where a path is given.
fn find_at_path<'src>(
    alloc: Global,
    sources: &Sources<'src>,
    parent: &str,
    path: &str,
) -> Result<Vec<&'src str>, AllocError>
    ensures { IfOk result (λ found. texts found.items ≡ candidates sources.now parent.now [] (Some path.now)) }
{
    let joined = clean_join(alloc, parent, path)?;
    let found = file_at(alloc, sources, joined.as_str())?;
    if found.is_empty() {
        return sources.module_files_in(alloc, joined.as_str());
    }
    Ok(found)
}

// The candidates by the module's name.
fn find_by_name<'src>(
    alloc: Global,
    sources: &Sources<'src>,
    parent: &str,
    name: &str,
) -> Result<Vec<&'src str>, AllocError>
    ensures { IfOk result (λ found. texts found.items ≡ candidates sources.now parent.now name.now None) }
{
    let folder = clean_join(alloc, parent, name)?;
    let mut file_name = String::from_str(alloc, name)?;
    file_name.push_str(".just")?;
    let file = clean_join(alloc, parent, file_name.as_str())?;
    let mut found = sources.module_files_in(alloc, folder.as_str())?;
    if let Some(file) = sources.file(file.as_str()) {
        found.push(file.path.as_str())?;
    }
    Ok(found)
}

// The paths, each from a folder where it lies below it.
fn relative_paths(alloc: Global, folder: &str, paths: &[&str]) -> Result<Sequence<Text>, AllocError>
    ensures { IfOk result (λ shown. shown ≡ map (relative folder.now) (texts paths.now)) }
{
    let prefix = slashed(alloc, folder)?;
    let mut shown = Sequence::new(alloc);
    for path in paths {
        let relative = after(path, prefix.as_str()).unwrap_or(path);
        shown.push(Text::from_str(alloc, relative)?)?;
    }
    Ok(shown)
}

// The one file that is found, or none, or the fault of several.
fn choose<'src>(
    alloc: Global,
    parent: &str,
    module: &Name<'src>,
    found: &[&str],
) -> Result<Option<Text>, Error<'src>>
    ensures found { IfOk result (λ file. option_to_list file ≡ texts found.now) }
    ensures error { IfErr result (TellsSeveral parent.now «module».now (texts found.now)) }
{
    match found {
        [] => Ok(None),
        [file] => Ok(Some(Text::from_str(alloc, file)?)),
        _ => Err(Error::Load(LoadError::AmbiguousModuleFile {
            module: module.copied(),
            found: relative_paths(alloc, parent, found)?,
        })),
    }
}

/// The file of a module that a file in the folder `parent` declares, by its name or at a path, or none. Where there
/// are several candidates all are named, from `parent` where they lie below it.
pub fn find_module_file<'src>(
    alloc: Global,
    sources: &Sources<'src>,
    parent: &str,
    module: &Name<'src>,
    path: Option<&str>,
) -> Result<Option<Text>, Error<'src>>
    ensures { FindsModuleFile sources.now parent.now «module».now path.entry result }
{
    let found = match path {
        Some(path) => find_at_path(alloc, sources, parent, path)?,
        None => find_by_name(alloc, sources, parent, module.lexeme())?,
    };
    choose(alloc, parent, module, found.as_slice())
}
