//! Where an item leads, as far as a search asks, and the line on which it stands.
ghost use Rattle.std.specs.Prelude.{◌≡◌, [], IfOk};
ghost use Rattle.just_bench_bundle.specs.Places.{IsOnLine, item_line};
ghost use Rattle.just_bench_bundle.specs.loops.Places.{Finds, lead_of};
ghost use Rattle.just_bench_syntax.specs.Answers.{answers};
ghost use Rattle.just_errors.specs.Causes.{Reports};
ghost use Rattle.just_loader.specs.Links.{AtFault, Link, To, link_by};

use just_ast_items::Edge;
use just_bench_syntax::PlainSyntax;
use just_data::Text;
use just_loader::{Sources, link};
use just_parts::layers::{Config, Error, Item, LoadError};
use std::alloc::{AllocError, Global};

/// What a search asks of an item.
#[derive(Drop)]
pub(crate) enum Lead {
    /// It leads to the file at a path.
    To(Text),
    /// It wants a home folder, and none is known.
    Home,
    /// Neither.
    Other,
}

/// The line of an item that leads to a file: that of its quoted path, or of its name where it has none.
pub(crate) fn line_at(item: &Item) -> Option<usize>
    ensures { result ≡ item_line item.now }
{
    match item.edge() {
        Some(Edge::Import { relative, .. }) => Some(relative.token.line()),
        Some(Edge::Module { name, relative, .. }) => match relative {
            Some(literal) => Some(literal.token.line()),
            None => Some(name.line()),
        },
        None => None,
    }
}

// What the error of an item tells a search. The error is want of memory.
fn fault(error: &Error) -> Result<Lead, AllocError>
    ensures { (to : Link) → Reports (λ c. to ≡ AtFault c) error.now → IfOk result (λ lead. lead ≡ lead_of to) }
{
    match error {
        Error::Load(LoadError::Homedir) => Ok(Lead::Home),
        Error::Memory => Err(AllocError),
        _ => Ok(Lead::Other),
    }
}

/// Where an item of a file in a folder leads. The error is want of memory.
pub(crate) fn follow<'src>(
    item: &Item<'src>,
    alloc: Global,
    sources: &Sources<'src>,
    config: &Config,
    folder: &str,
) -> Result<Lead, AllocError>
    ensures { IfOk result (λ lead. lead ≡ lead_of (link_by sources.now config.now (answers []) folder.now item.now)) }
{
    match link(alloc, item, config, &PlainSyntax::new(), sources, folder) {
        Ok(Some(path)) => Ok(Lead::To(path)),
        Ok(None) => Ok(Lead::Other),
        Err(error) => {
            let lead = fault(&error);
            drop(error);
            lead
        }
    }
}

/// The line of an item of a file in a folder, where it leads to a file.
pub(crate) fn line_to<'src>(
    item: &Item<'src>,
    alloc: Global,
    sources: &Sources<'src>,
    config: &Config,
    folder: &str,
    path: &str,
) -> Result<Option<usize>, AllocError>
    ensures { IfOk result (Finds (IsOnLine (link_by sources.now config.now (answers []) folder.now) (To path.now) item.now)) }
{
    match follow(item, alloc, sources, config, folder)? {
        Lead::To(led) if led.as_str() == path => Ok(line_at(item)),
        _ => Ok(None),
    }
}
