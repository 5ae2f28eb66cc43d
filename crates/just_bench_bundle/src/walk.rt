//! A walk over the files that a root reaches, to the first item that wants a home folder.
ghost use Rattle.std.specs.Prelude.{◌≡◌, [], IfNone, IfOk, OnOk};
ghost use Rattle.std.specs.List.{Contains};
ghost use Rattle.just_bench_bundle.specs.Places.{IsOnLine, StandsOn, TellsLine};
ghost use Rattle.just_bench_bundle.specs.loops.Places.{Finds, FindsIn};
ghost use Rattle.just_bench_bundle.specs.loops.Walk.{HasAll, LeadAmong, LeavesNone, Walks};
ghost use Rattle.just_bench_syntax.specs.Answers.{answers};
ghost use Rattle.just_errors.specs.Causes.{NoHome};
ghost use Rattle.just_errors.specs.declared.error.Error.TheVariants as error;
ghost use Rattle.just_errors.specs.declared.load_error.LoadError.TheVariants as load;
ghost use Rattle.just_loader.specs.Links.{AtFault, To, link_by};
ghost use Rattle.just_loader.specs.Reached.{FileLeadsTo, world_of};
ghost use Rattle.just_paths.specs.Clean.{IsClean};

use crate::leads::{Lead, follow, line_at};
use crate::places::{FileLine, read};
use just_data::BorrowedText;
use just_loader::Sources;
use just_parts::layers::{Config, Item};
use just_paths::folder_of;
use std::alloc::{AllocError, Global};
use std::collections::HashSet;

// The paths of the files that a walk has found, in order, and of those that it has not.
#[derive(Drop)]
struct Walk<'src> {
    found: Vec<&'src str>,
    left: HashSet<&'src str>,
}

impl<'src> Walk<'src> {
    // None is found.
    fn new(alloc: Global, sources: &Sources<'src>) -> Result<Walk<'src>, AllocError>
        ensures none { IfOk result (λ walk. walk.found.items ≡ []) }
        ensures all { IfOk result (HasAll sources.now) }
    {
        let left = sources.paths().copied().collect(alloc)?;
        Ok(Walk {
            found: Vec::new(alloc),
            left,
        })
    }

    // A path is found, where it is left.
    fn find(&mut self, path: &str) -> Result<(), AllocError>
        ensures walks { OnOk result (Walks (λ found. path.now ≡ found) self.old self.new) }
        ensures found { OnOk result (LeavesNone (λ found. path.now ≡ found) self.new) }
    {
        if let Some(path) = self.left.take(path) {
            self.found.push(path)?;
        }
        Ok(())
    }
}

// The line of an item that wants a home folder. Where it leads to a file, that is found.
fn visit<'src>(
    item: &Item<'src>,
    alloc: Global,
    sources: &Sources<'src>,
    config: &Config,
    folder: &str,
    walk: &mut Walk<'src>,
) -> Result<Option<usize>, AllocError>
    ensures line { IfOk result (Finds (IsOnLine (link_by sources.now config.now (answers []) folder.now) (AtFault NoHome) item.now)) }
    ensures walks { OnOk result (Walks (λ path. link_by sources.now config.now (answers []) folder.now item.now ≡ To path) walk.old walk.new) }
    ensures found { OnOk result (LeavesNone (λ path. link_by sources.now config.now (answers []) folder.now item.now ≡ To path) walk.new) }
{
    match follow(item, alloc, sources, config, folder)? {
        Lead::Home => Ok(line_at(item)),
        Lead::To(path) => {
            walk.find(path.as_str())?;
            Ok(None)
        }
        Lead::Other => Ok(None),
    }
}

// The line of the first of a folder's items that wants a home folder. The files to which those before it lead are found.
fn visit_items<'src>(
    items: &[Item<'src>],
    alloc: Global,
    sources: &Sources<'src>,
    config: &Config,
    folder: &str,
    walk: &mut Walk<'src>,
) -> Result<Option<usize>, AllocError>
    ensures line { IfOk result (Finds (StandsOn (Contains items.now) (link_by sources.now config.now (answers []) folder.now) (AtFault NoHome))) }
    ensures walks { OnOk result (Walks (LeadAmong items.now (link_by sources.now config.now (answers []) folder.now)) walk.old walk.new) }
    ensures found { let leads = LeadAmong items.now (link_by sources.now config.now (answers []) folder.now) in
        IfOk result (λ line. IfNone line (LeavesNone leads walk.new)) }
{
    for item in items {
        if let Some(line) = visit(item, alloc, sources, config, folder, walk)? {
            return Ok(Some(line));
        }
    }
    Ok(None)
}

// The same of the items of a file.
fn visit_file<'src>(
    path: &'src str,
    alloc: Global,
    sources: &Sources<'src>,
    config: &Config,
    root: &str,
    walk: &mut Walk<'src>,
) -> Result<Option<usize>, AllocError>
    requires { IsClean root.now }
    ensures line { IfOk result (FindsIn (world_of sources.now config.now (answers []) root.now) path.now (AtFault NoHome)) }
    ensures walks { OnOk result (Walks (FileLeadsTo (world_of sources.now config.now (answers []) root.now) path.now) walk.old walk.new) }
    ensures found { let leads = FileLeadsTo (world_of sources.now config.now (answers []) root.now) path.now in
        IfOk result (λ line. IfNone line (IsClean path.now → LeavesNone leads walk.new)) }
{
    match read(alloc, sources, root, path)? {
        Some(ast) => visit_items(
            ast.items.as_slice(),
            alloc,
            sources,
            config,
            folder_of(path),
            walk,
        ),
        None => Ok(None),
    }
}

/// The line of the first item that wants a home folder, in the order in which files are reached from a root. The error is
/// want of memory.
pub(crate) fn home_of<'src>(
    alloc: Global,
    sources: &Sources<'src>,
    config: &Config,
    root: &str,
) -> Result<Option<FileLine<'src>>, AllocError>
    requires { IsClean root.now }
    ensures { IfOk result (TellsLine (world_of sources.now config.now (answers []) root.now) (error.Load load.Homedir)) }
{
    let mut walk = Walk::new(alloc, sources)?;
    walk.find(root)?;
    let mut place = 0;
    'files: while place < walk.found.len() {
        let path = walk.found[place];
        if let Some(line) = visit_file(path, alloc, sources, config, root, &mut walk)? {
            return Ok(Some(FileLine {
                path: BorrowedText::new(path),
                line,
            }));
        }
        place += 1;
    }
    Ok(None)
}
