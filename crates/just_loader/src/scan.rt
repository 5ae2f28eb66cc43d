//! Scans a source map from a root: the files that are reached, with what their items lead to.

ghost use Rattle.std.specs.Prelude.{◌≡◌, ◌^◌, ◌<◌, ◌≤◌, Some, map, length, IsSome, IsTrue, IfSome, IfOk, IfErr, OnOk};
ghost use Rattle.just_parts.specs.Bare.{bare_item};
ghost use Rattle.just_paths.specs.Clean.{IsClean};
ghost use Rattle.just_table.specs.Entries.{find};
ghost use Rattle.just_parts.specs.Syntax.{Refuses};
ghost use Rattle.just_loader.specs.Links.{To, AtFault, link_by};
ghost use Rattle.just_loader.specs.loops.Links.{links_by};
ghost use Rattle.just_loader.specs.loops.Numbering.{AreFound, AreNumbered, IsFile, paths_found};
ghost use Rattle.just_loader.specs.Reached.{FileLeadsTo, BreaksAt, BreaksInScan, items_said, world_of};
ghost use Rattle.just_errors.specs.Causes.{Keeps, Reports};
ghost use Rattle.just_loader.specs.Sources.{text_at};
ghost use Rattle.just_loader.specs.loops.Reading.{AreRead, GoesOn};
ghost use Rattle.just_loader.specs.loops.Scanned.{ArePlacesIn, IsLinkPlace, AreSteps, IsScannedIn, IsScan, Finds, FindsAll, Extends, HasAlsoSteps, HasFault};

use crate::index::{Found, NameNumbers};
use crate::links::link;
use crate::module_file::relative_path;
use crate::scan_result::{Scan, ScannedFile};
use crate::sources::{SourceFile, Sources};
use crate::texts::{ReadTexts, unless_exhausted};
use just_data::BorrowedText;
use just_graph::unfolding::Step;
use just_parts::Source;
use just_parts::layers::{Ast, Config, Edge, Error, Item, Numerator, Syntax};
use just_paths::folder_of;
use std::alloc::{AllocError, Global};

// What a text says, and whether its numbers go on from those that were given. Where they run out, they begin again.
fn parse<'src, S: Syntax>(
    alloc: Global,
    syntax: &S,
    path: &str,
    relative: &'src str,
    text: &'src str,
    numerator: &mut Numerator,
) -> Result<(Ast<'src>, bool), Error<'src>>
    requires clean { IsClean path.now }
    requires few { numerator.old ≤ 2 ^ 64 }
    ensures items { IfOk result (λ r. items_said ((S.answers syntax.now).parsed relative.now text.now) ≡ Some (map bare_item r.0.items)) }
    ensures takes { OnOk result ((S.answers syntax.now).spends relative.now text.now ≤ 2 ^ 64) }
    ensures on { IfOk result (λ r. IsTrue r.1 → GoesOn (S.answers syntax.now) relative.now text.now numerator.old numerator.new r.0) }
    ensures fits { OnOk result (numerator.new ≤ 2 ^ 64) }
    ensures refused { IfErr result (Refuses (S.answers syntax.now) relative.now text.now 0) }
{
    let source = Source::root(alloc, path)?;
    let parsed = syntax.parse_source(alloc, numerator, relative, &source, text);
    if let Some(ast) = unless_exhausted(parsed)? {
        return Ok((ast, true));
    }
    *numerator = Numerator::new();
    let ast = syntax.parse_source(alloc, numerator, relative, &source, text)?;
    Ok((ast, false))
}

// The place of the file to which an item leads. Where it is not found yet it is put last.
fn target<'src, S: Syntax>(
    alloc: Global,
    item: &Item<'src>,
    config: &Config,
    syntax: &S,
    sources: &Sources<'src>,
    folder: &str,
    found: &mut Found<'src>,
) -> Result<Option<usize>, Error<'src>>
    requires { AreFound sources.now found.old }
    ensures place { IfOk result (IsLinkPlace (paths_found found.new) (link_by sources.now config.now (S.answers syntax.now) folder.now item.now)) }
    ensures grows { OnOk result (Finds (λ path. link_by sources.now config.now (S.answers syntax.now) folder.now item.now ≡ To path) found.old found.new) }
    ensures found { OnOk result (AreFound sources.now found.new) }
    ensures error { IfErr result (Reports (λ c. link_by sources.now config.now (S.answers syntax.now) folder.now item.now ≡ AtFault c)) }
{
    match link(alloc, item, config, syntax, sources, folder)? {
        Some(path) => Ok(Some(found.place(sources, path.as_str())?)),
        None => Ok(None),
    }
}

// The places of the files to which items lead.
fn targets<'src, S: Syntax>(
    alloc: Global,
    ast: &Ast<'src>,
    config: &Config,
    syntax: &S,
    sources: &Sources<'src>,
    folder: &str,
    found: &mut Found<'src>,
) -> Result<Vec<Option<usize>>, Error<'src>>
    requires { AreFound sources.now found.old }
    ensures places { IfOk result (λ it. ArePlacesIn found.new (links_by sources.now config.now (S.answers syntax.now) folder.now ast.now.items) it.items) }
    ensures grows { OnOk result (FindsAll (links_by sources.now config.now (S.answers syntax.now) folder.now ast.now.items) found.old found.new) }
    ensures found { OnOk result (AreFound sources.now found.new) }
    ensures error { IfErr result (Reports (HasFault (links_by sources.now config.now (S.answers syntax.now) folder.now ast.now.items))) }
{
    let items = ast.items.as_slice();
    let mut targets = Vec::new(alloc);
    for item in items {
        targets.push(target(alloc, item, config, syntax, sources, folder, found)?)?;
    }
    Ok(targets)
}

// Pushes the step of an item, where it leads to a file.
fn push_step<'src>(
    item: &Item<'src>,
    target: Option<usize>,
    names: &mut NameNumbers<'src>,
    row: &mut Vec<Step>,
) -> Result<(), AllocError>
    requires { AreNumbered names.old }
    ensures pushed { OnOk result (HasAlsoSteps names.new.names.items item.now target row.old.items row.new.items) }
    ensures extends { OnOk result (Extends names.old.names.items names.new.names.items) }
    ensures numbered { OnOk result (AreNumbered names.new) }
{
    let Some(place) = target else {
        return Ok(());
    };
    match item.edge() {
        Some(Edge::Import { relative, .. }) => {
            row.push(Step {
                target: place,
                offset: relative.token.offset(),
                enters: None,
                tag: 0,
            })?;
        }
        Some(Edge::Module { name, .. }) => {
            let tag = names.names.len();
            let number = names.number(name)?;
            row.push(Step {
                target: place,
                offset: 0,
                enters: Some(number),
                tag,
            })?;
        }
        None => {}
    }
    Ok(())
}

// The steps of items to their targets.
fn row<'src>(
    alloc: Global,
    ast: &Ast<'src>,
    targets: &[Option<usize>],
    names: &mut NameNumbers<'src>,
) -> Result<Vec<Step>, AllocError>
    requires count { length targets.now ≡ length ast.now.items }
    requires numbered { AreNumbered names.old }
    ensures steps { IfOk result (λ row. AreSteps names.new.names.items ast.now.items targets.now row.items) }
    ensures extends { OnOk result (Extends names.old.names.items names.new.names.items) }
    ensures numbered { OnOk result (AreNumbered names.new) }
{
    let items = ast.items.as_slice();
    let mut row = Vec::new(alloc);
    for place in 0..items.len() {
        push_step(&items[place], targets[place], names, &mut row)?;
    }
    Ok(row)
}

// Scans a file: what it leads to is found, and the names that it enters have numbers.
fn scan_file<'src, S: Syntax>(
    alloc: Global,
    sources: &Sources<'src>,
    config: &Config,
    syntax: &S,
    root: &str,
    file: &SourceFile<'src>,
    found: &mut Found<'src>,
    names: &mut NameNumbers<'src>,
    numerator: &mut Numerator,
) -> Result<(ScannedFile<'src>, Vec<Step>, Option<Ast<'src>>), Error<'src>>
    requires root { IsClean root.now }
    requires file { IsFile sources.now file.now }
    requires found { AreFound sources.now found.old }
    requires numbered { AreNumbered names.old }
    requires few { numerator.old ≤ 2 ^ 64 }
    ensures path { IfOk result (λ s. s.0.path ≡ file.now.path) }
    ensures scanned { IfOk result (λ s. IsScannedIn (world_of sources.now config.now (S.answers syntax.now) root.now) found.new names.new s.0 s.1.items) }
    ensures kept { IfOk result (λ _. Keeps (BreaksAt (world_of sources.now config.now (S.answers syntax.now) root.now) file.now.path)) }
    ensures grows { OnOk result (Finds (FileLeadsTo (world_of sources.now config.now (S.answers syntax.now) root.now) file.now.path) found.old found.new) }
    ensures extends { OnOk result (Extends names.old.names.items names.new.names.items) }
    ensures found { OnOk result (AreFound sources.now found.new) }
    ensures numbered { OnOk result (AreNumbered names.new) }
    ensures read { IfOk result (λ s. IfSome s.2 (GoesOn (S.answers syntax.now) s.0.relative s.0.text numerator.old numerator.new)) }
    ensures fits { OnOk result (numerator.new ≤ 2 ^ 64) }
    ensures named { IfErr result (Reports (BreaksAt (world_of sources.now config.now (S.answers syntax.now) root.now) file.now.path)) }
{
    let path = file.path.as_str();
    let text = file.text.as_str();
    let relative = relative_path(alloc, folder_of(root), path)?;
    let (ast, goes_on) = parse(alloc, syntax, path, relative, text, numerator)?;
    let folder = folder_of(path);
    let targets = targets(alloc, &ast, config, syntax, sources, folder, found)?;
    let row = row(alloc, &ast, targets.as_slice(), names)?;
    let scanned = ScannedFile {
        path: file.path.copied(),
        text: file.text.copied(),
        relative: BorrowedText::new(relative),
        targets,
    };
    Ok((scanned, row, goes_on.then_some(ast)))
}

/// Scans the files that are reached from a root, each once, or names a fault of one of them. What was read of them is
/// handed out as long as there are numbers enough.
pub fn scan<'src, S: Syntax>(
    alloc: Global,
    config: &Config,
    syntax: &S,
    sources: &Sources<'src>,
    root: &str,
) -> Result<(Scan<'src>, ReadTexts<'src>), Error<'src>>
    requires clean { IsClean root.now }
    requires there { IsSome (text_at sources.now root.now) }
    ensures scan { IfOk result (λ s. IsScan (world_of sources.now config.now (S.answers syntax.now) root.now) s.0) }
    ensures read { IfOk result (λ s. AreRead (S.answers syntax.now) s.0.files.items s.1) }
    ensures kept { IfOk result (λ _. Keeps (BreaksInScan (world_of sources.now config.now (S.answers syntax.now) root.now))) }
    ensures named { IfErr result (Reports (BreaksInScan (world_of sources.now config.now (S.answers syntax.now) root.now))) }
{
    let mut found = Found::new(alloc);
    let mut names = NameNumbers::new(alloc);
    let mut files = Vec::new(alloc);
    let mut rows = Vec::new(alloc);
    let mut texts = ReadTexts::new(alloc);
    let mut is_whole = true;
    found.place(sources, root)?;
    while files.len() < found.files.len() {
        let file = found.files[files.len()].copied();
        let (scanned, row, ast) = scan_file(
            alloc,
            sources,
            config,
            syntax,
            root,
            &file,
            &mut found,
            &mut names,
            &mut texts.numerator,
        )?;
        is_whole = is_whole && ast.is_some();
        files.push(scanned)?;
        rows.push(row)?;
        texts.asts.push(ast)?;
    }
    let scan = Scan {
        files,
        rows,
        names: names.names,
    };
    let texts = if is_whole {
        texts
    } else {
        ReadTexts::new(alloc)
    };
    Ok((scan, texts))
}
