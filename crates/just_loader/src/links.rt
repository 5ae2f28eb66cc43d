//! What the items of a file lead to.

ghost use Rattle.std.specs.Prelude.{◌≡◌, None, Some, is_some, map, option_map, string_bytes, IfOk, IfErr};
ghost use Rattle.just_ast_items.specs.Edge.{Imports};
ghost use Rattle.just_table.specs.Entries.{find};
ghost use Rattle.just_paths.specs.Join.{clean_join};
ghost use Rattle.just_loader.specs.Links.{Unlinked, To, AtFault, without_slashes, expanded, given_path, module_link, edge_link, link_by, linked};
ghost use Rattle.just_errors.specs.Causes.{NoHome, Reports};

use crate::module_file::{after, find_module_file};
use crate::sources::Sources;
use just_data::Text;
use just_parts::layers::{Config, Edge, Error, Item, LoadError, Name, StringLiteral, Syntax};
use just_paths::clean_join;
use std::alloc::Global;

// What a text has after its leading slashes.
fn without_slashes<'text>(text: &'text str) -> &'text str
    ensures { result.now ≡ without_slashes text.now }
{
    let mut rest = text;
    while let Some(shorter) = after(rest, "/") {
        rest = shorter;
    }
    rest
}

// A text with the home folder in place of the `~` of a leading `~/`.
fn expand<'src>(alloc: Global, home: &Option<Text>, text: &str) -> Result<Text, Error<'src>>
    ensures path { IfOk result (λ path. expanded home.now text.now ≡ Some path) }
    ensures error { IfErr result (Reports (λ c. (expanded home.now text.now ≡ None) × (c ≡ NoHome))) }
{
    let Some(rest) = after(text, "~/") else {
        return Ok(Text::from_str(alloc, text)?);
    };
    let Some(home) = home else {
        return Err(Error::Load(LoadError::Homedir));
    };
    let mut path = String::from_str(alloc, home.as_str())?;
    path.push('/')?;
    path.push_str(without_slashes(rest))?;
    Ok(Text::from_string(path)?)
}

// What an import leads to from a folder.
fn link_import<'src>(
    alloc: Global,
    config: &Config,
    sources: &Sources,
    folder: &str,
    literal: &StringLiteral<'src>,
    optional: bool,
) -> Result<Option<Text>, Error<'src>>
    ensures path { IfOk result (λ path. edge_link sources.now config.now.home folder.now (Some (Imports literal.now optional)) ≡ linked path) }
    ensures error { IfErr result (Reports (λ c. edge_link sources.now config.now.home folder.now (Some (Imports literal.now optional)) ≡ AtFault c)) }
{
    let text = expand(alloc, &config.home, literal.cooked.as_str())?;
    let path = clean_join(alloc, folder, text.as_str())?;
    if sources.file(path.as_str()).is_some() {
        Ok(Some(path))
    } else if optional {
        Ok(None)
    } else {
        Err(Error::Load(LoadError::MissingImportFile {
            path: literal.token.copied(),
        }))
    }
}

// The path that may be given for a module, expanded.
fn expand_given<'src>(
    alloc: Global,
    home: &Option<Text>,
    literal: &Option<StringLiteral<'src>>,
) -> Result<Option<Text>, Error<'src>>
    ensures path { IfOk result (λ path. given_path home.now literal.now ≡ Some path) }
    ensures error { IfErr result (Reports (λ c. (given_path home.now literal.now ≡ None) × (c ≡ NoHome))) }
{
    match literal {
        Some(literal) => Ok(Some(expand(alloc, home, literal.cooked.as_str())?)),
        None => Ok(None),
    }
}

// What a module leads to from a folder.
fn link_module<'src>(
    alloc: Global,
    config: &Config,
    sources: &Sources<'src>,
    folder: &str,
    name: &Name<'src>,
    literal: &Option<StringLiteral<'src>>,
    optional: bool,
) -> Result<Option<Text>, Error<'src>>
    ensures path { IfOk result (λ path. module_link sources.now folder.now name.now optional (given_path config.now.home literal.now) ≡ linked path) }
    ensures error { IfErr result (Reports (λ c. module_link sources.now folder.now name.now optional (given_path config.now.home literal.now) ≡ AtFault c)) }
{
    let given = expand_given(alloc, &config.home, literal)?;
    let path = given.as_ref().map(|path| path.as_str());
    match find_module_file(alloc, sources, folder, name, path)? {
        Some(path) => Ok(Some(path)),
        None if optional => Ok(None),
        None => Err(Error::Load(LoadError::MissingModuleFile {
            module: name.copied(),
        })),
    }
}

/// The path of the file to which an item of a file in a folder leads, or none: the item leads to no file, is not enabled, or
/// is optional and its file is not there. The error is what is at fault with the item, or want of memory.
pub fn link<'src, S: Syntax>(
    alloc: Global,
    item: &Item<'src>,
    config: &Config,
    syntax: &S,
    sources: &Sources<'src>,
    folder: &str,
) -> Result<Option<Text>, Error<'src>>
    ensures path { IfOk result (λ path. link_by sources.now config.now (S.answers syntax.now) folder.now item.now ≡ linked path) }
    ensures error { IfErr result (Reports (λ c. link_by sources.now config.now (S.answers syntax.now) folder.now item.now ≡ AtFault c)) }
{
    if !syntax.is_enabled(item) {
        return Ok(None);
    }
    match item.edge() {
        Some(Edge::Import { relative, optional }) => {
            link_import(alloc, config, sources, folder, relative, optional)
        }
        Some(
            Edge::Module {
                name,
                relative,
                optional,
            },
        ) => link_module(alloc, config, sources, folder, name, relative, optional),
        None => Ok(None),
    }
}
