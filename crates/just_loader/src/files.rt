//! Loads the files of a compilation: what a root reaches, each file as often as it belongs to a module.

ghost use Rattle.std.specs.Prelude.{◌≡◌, ◌+◌, ◌^◌, ◌<◌, ◌≤◌, ℕ, List, Some, map, length, slice_get, IfSome, IfOk, IfErr, OnOk};
ghost use Rattle.std.specs.HashMap.{get};
ghost use Rattle.std.specs.List.{All};
ghost use Rattle.std.specs.Option.{option_map};
ghost use Rattle.just_graph.specs.Unfolding.{Node};
ghost use Rattle.just_graph.specs.declared.unfolding.Unfolded.{Unfolded};
ghost use Rattle.just_paths.specs.Clean.{IsClean};
ghost use Rattle.just_parts.specs.Syntax.{numbers_of_items};
ghost use Rattle.just_parts.specs.Asts.{same_ast_key};
ghost use Rattle.just_ast_items.specs.Edge.{with_absolute};
ghost use Rattle.just_loader.specs.Loaded.{Loads};
ghost use Rattle.just_loader.specs.loops.Placed.{at_first_places, scanned_path};
ghost use Rattle.just_loader.specs.loops.Loading.{AreNodes, AreParsedBy, AreNodeSources, AreUnfolded, CameInAt, CameInSoFar, ComesNext, HavePaths, InWorlds, IsSaid, IsScanBy, KeepsLaws, Stops, StopsInFile, spent_by};
ghost use Rattle.just_loader.specs.loops.Parsed.{AreHeld, AreKeyed, relative_at};
ghost use Rattle.just_loader.specs.Reached.{World, link, world_of};
ghost use Rattle.just_loader.specs.loops.Reading.{ShareNoNumbers, AreRead, AreReadOf, TakesTextOf};
ghost use Rattle.just_loader.specs.loops.Scanned.{ArePlacesOf, EntersName, IsScan, paths_in};

use crate::circles::check_circles;
use crate::loaded::Loaded;
use crate::scan::scan;
use crate::scan_result::Scan;
use crate::sources::Sources;
use crate::texts::{ReadTexts, read_text, unless_exhausted};
use just_data::{Sequence, Text};
use just_graph::unfolding::{Step, Unfolded, unfold};
use just_parts::Source;
use just_parts::layers::{Ast, Config, Error, Item, LoadError, Syntax};
use just_paths::Modulepath;
use std::alloc::{AllocError, Global};
use std::collections::HashMap;

// How the file that a step leads to comes in, from how the file of the step did.
fn next_source<'src>(
    alloc: Global,
    scan: &Scan<'src>,
    before: &Source<'src>,
    step: Step,
) -> Result<Source<'src>, Error<'src>>
    requires target { step.target < length scan.now.files.items }
    requires named { EntersName scan.now.names.items step }
    requires clean { All IsClean (paths_in scan.now.files.items) }
    requires shallow { before.now.file_depth < u64.MAX }
    ensures next { IfOk result (ComesNext scan.now before.now step) }
    ensures error { IfErr result (λ e. e ≡ Error.Memory) }
{
    let path = scan.files[step.target].path.as_str();
    match step.enters {
        None => before.import(alloc, path, step.offset),
        Some(_) => before.module(alloc, &scan.names[step.tag], path),
    }
}

// How the file of a node came in, from how those of the nodes before it did.
fn source_of<'src>(
    alloc: Global,
    scan: &Scan<'src>,
    nodes: &[Unfolded],
    sources: &[Source<'src>],
    node: &Unfolded,
) -> Result<Source<'src>, Error<'src>>
    requires scan { (w : World) × IsScan w scan.now }
    requires nodes { AreUnfolded scan.now nodes.now }
    requires node { slice_get nodes.now (length sources.now) ≡ Some node.now }
    requires sources { (ns : List Node) → AreNodes scan.now nodes.now ns → CameInSoFar scan.now ns sources.now }
    ensures came { IfOk result (CameInAt scan.now nodes.now (length sources.now)) }
    ensures error { IfErr result (λ e. e ≡ Error.Memory) }
{
    let mut source = match node.origin {
        None => Source::root(alloc, scan.files[node.node].path.as_str())?,
        Some(origin) => {
            let step = scan.rows[nodes[origin.parent].node][origin.step];
            next_source(alloc, scan, &sources[origin.parent], step)?
        }
    };
    source.file_depth = node.depth as u64;
    Ok(source)
}

// How the file of each node came in.
fn sources_of<'src>(
    alloc: Global,
    scan: &Scan<'src>,
    nodes: &[Unfolded],
) -> Result<Vec<Source<'src>>, Error<'src>>
    requires scan { (w : World) × IsScan w scan.now }
    requires nodes { AreUnfolded scan.now nodes.now }
    ensures sources { IfOk result (λ sources. (ns : List Node) → AreNodes scan.now nodes.now ns → AreNodeSources scan.now ns sources.items) }
    ensures error { IfErr result (λ e. e ≡ Error.Memory) }
{
    let mut sources = Vec::new(alloc);
    for node in nodes {
        sources.push(source_of(alloc, scan, nodes, sources.as_slice(), node)?)?;
    }
    Ok(sources)
}

// The path of the file at a place, where there is one.
fn target_path<'src>(
    alloc: Global,
    scan: &Scan<'src>,
    target: Option<usize>,
) -> Result<Option<Text>, AllocError>
    requires { IfSome target (λ place. place < length scan.now.files.items) }
    ensures { IfOk result (λ path. path ≡ option_map (scanned_path scan.now) target) }
{
    let Some(place) = target else {
        return Ok(None);
    };
    let path = Text::from_str(alloc, scan.files[place].path.as_str())?;
    Ok(Some(path))
}

// Gives an item the absolute path of the file at the place to which it leads.
fn link_item<'src>(
    alloc: Global,
    scan: &Scan<'src>,
    target: Option<usize>,
    item: &mut Item<'src>,
) -> Result<(), AllocError>
    requires { IfSome target (λ place. place < length scan.now.files.items) }
    ensures { OnOk result (item.new ≡ with_absolute (option_map (scanned_path scan.now) target) item.old) }
{
    let path = target_path(alloc, scan, target)?;
    item.set_absolute(path);
    Ok(())
}

// Gives each item the absolute path of the file to which it leads.
fn link_items<'src>(
    alloc: Global,
    scan: &Scan<'src>,
    items: &mut Vec<Item<'src>>,
    targets: &[Option<usize>],
) -> Result<(), AllocError>
    requires { (w : World) × (folder : List ℕ) × ArePlacesOf (paths_in scan.now.files.items) (map (link w folder) items.old.items) targets.now }
    ensures { OnOk result (HavePaths scan.now targets.now items.old.items items.new.items) }
{
    for place in 0..items.len() {
        link_item(alloc, scan, targets[place], &mut items[place])?;
    }
    Ok(())
}

// What the text of a scanned file says, where the file came in like that, with the paths of what it leads to.
fn read_file<'src, S: Syntax>(
    alloc: Global,
    scan: &Scan<'src>,
    syntax: &S,
    place: usize,
    source: &Source<'src>,
    texts: &mut ReadTexts<'src>,
) -> Result<Ast<'src>, Error<'src>>
    requires scan { (w : World) × IsScanBy w scan.now (S.answers syntax.now) }
    requires place { place < length scan.now.files.items }
    requires read { AreReadOf (S.answers syntax.now) scan.now.files.items texts.old.asts.items }
    requires few { texts.old.numerator ≤ 2 ^ 64 }
    ensures said { IfOk result (λ ast. InWorlds scan.now (S.answers syntax.now) (λ w. IsSaid w (scanned_path scan.now place) source.now ast)) }
    ensures laws { IfOk result (KeepsLaws (S.answers syntax.now)) }
    ensures takes { IfOk result (λ ast. TakesTextOf scan.now (S.answers syntax.now) place texts.old texts.new (numbers_of_items ast.items)) }
    ensures fits { OnOk result (texts.new.numerator ≤ 2 ^ 64) }
    ensures stopped { IfErr result (StopsInFile scan.now (S.answers syntax.now) place texts.old.numerator) }
{
    let file = &scan.files[place];
    let Ast {
        items,
        module_path,
        working_directory,
        unstable_features,
        list_features,
        warnings,
    } = read_text(alloc, syntax, file, place, source, texts)?;
    let mut items = items.into_vec();
    link_items(alloc, scan, &mut items, file.targets.as_slice())?;
    Ok(Ast {
        items: Sequence::from_vec(items),
        module_path,
        working_directory,
        unstable_features,
        list_features,
        warnings,
    })
}

// What the text of each node's file says, of those that were read as long as they are not taken.
fn read_all<'src, S: Syntax>(
    alloc: Global,
    scan: &Scan<'src>,
    syntax: &S,
    nodes: &[Unfolded],
    sources: &[Source<'src>],
    mut texts: ReadTexts<'src>,
) -> Result<Vec<Ast<'src>>, Error<'src>>
    requires scan { (w : World) × IsScanBy w scan.now (S.answers syntax.now) }
    requires nodes { AreUnfolded scan.now nodes.now }
    requires sources { (ns : List Node) → AreNodes scan.now nodes.now ns → AreNodeSources scan.now ns sources.now }
    requires read { AreRead (S.answers syntax.now) scan.now.files.items texts }
    ensures parsed { IfOk result (λ asts. AreParsedBy (S.answers syntax.now) scan.now nodes.now asts.items) }
    ensures numbers { IfOk result (λ asts. ShareNoNumbers asts.items) }
    ensures laws { IfOk result (λ asts. All (KeepsLaws (S.answers syntax.now)) asts.items) }
    ensures fits { OnOk result (InWorlds scan.now (S.answers syntax.now) (λ w. spent_by w scan.now nodes.now ≤ 2 ^ 64)) }
    ensures stopped { IfErr result (λ e. InWorlds scan.now (S.answers syntax.now) (λ w. Stops w scan.now nodes.now texts.entry.numerator e)) }
{
    let mut asts = Vec::new(alloc);
    for place in 0..nodes.len() {
        let node = nodes[place].node;
        let source = &sources[place];
        asts.push(read_file(alloc, scan, syntax, node, source, &mut texts)?)?;
    }
    Ok(asts)
}

// What the text of each node's file says. Where numbers run out, all texts are parsed in the order of the nodes, which
// tells whether these take too many.
fn parse_all<'src, S: Syntax>(
    alloc: Global,
    scan: &Scan<'src>,
    syntax: &S,
    nodes: &[Unfolded],
    texts: ReadTexts<'src>,
) -> Result<Vec<Ast<'src>>, Error<'src>>
    requires scan { (w : World) × IsScanBy w scan.now (S.answers syntax.now) }
    requires nodes { AreUnfolded scan.now nodes.now }
    requires read { AreRead (S.answers syntax.now) scan.now.files.items texts }
    ensures parsed { IfOk result (λ asts. AreParsedBy (S.answers syntax.now) scan.now nodes.now asts.items) }
    ensures numbers { IfOk result (λ asts. ShareNoNumbers asts.items) }
    ensures laws { IfOk result (λ asts. All (KeepsLaws (S.answers syntax.now)) asts.items) }
    ensures fits { OnOk result (InWorlds scan.now (S.answers syntax.now) (λ w. spent_by w scan.now nodes.now ≤ 2 ^ 64)) }
    ensures stopped { IfErr result (λ e. InWorlds scan.now (S.answers syntax.now) (λ w. Stops w scan.now nodes.now 0 e)) }
{
    let sources = sources_of(alloc, scan, nodes)?;
    let read = read_all(alloc, scan, syntax, nodes, sources.as_slice(), texts);
    match unless_exhausted(read)? {
        Some(asts) => Ok(asts),
        None => {
            let none = ReadTexts::new(alloc);
            read_all(alloc, scan, syntax, nodes, sources.as_slice(), none)
        }
    }
}

// What each node's text says, under the node's key.
fn hold<'src>(
    alloc: Global,
    scan: &Scan<'src>,
    nodes: &[Unfolded],
    mut asts: Vec<Ast<'src>>,
) -> Result<HashMap<(Modulepath, Text), Ast<'src>>, AllocError>
    requires { AreKeyed scan.now nodes.now asts.items }
    ensures { IfOk result (λ held. AreHeld scan.now nodes.now asts.entry.items (get same_ast_key held)) }
{
    let mut held = HashMap::new(alloc);
    while let Some(ast) = asts.pop() {
        let node = &nodes[asts.len()];
        let path = Text::from_str(alloc, scan.files[node.node].path.as_str())?;
        held.insert((ast.module_path.clone()?, path), ast)?;
    }
    Ok(held)
}

// The relative path of each file once, in the order of the nodes.
fn loaded_paths<'src>(
    alloc: Global,
    scan: &Scan<'src>,
    nodes: &[Unfolded],
) -> Result<Sequence<Text>, AllocError>
    requires { (k : ℕ) (u : Unfolded) → slice_get nodes.now k ≡ Some u → u.node < length scan.now.files.items }
    ensures { IfOk result (λ loaded. loaded ≡ map (relative_at scan.now) (at_first_places (map (λ (u : Unfolded). u.node) nodes.now))) }
{
    let mut seen = Vec::new(alloc);
    seen.resize(scan.files.len(), false)?;
    let mut loaded = Sequence::new(alloc);
    for node in nodes {
        if seen[node.node] {
            continue;
        }
        seen[node.node] = true;
        loaded.push(Text::from_str(alloc, scan.files[node.node].relative.as_str())?)?;
    }
    Ok(loaded)
}

/// Loads the files that a root reaches, or names a rule of files that is broken: a file is missing, does not follow the
/// grammar, leads back to itself, or there are not as many numbers as the files take.
pub fn load<'src, S: Syntax>(
    alloc: Global,
    config: &Config,
    syntax: &S,
    sources: &Sources<'src>,
    root: &str,
) -> Result<Loaded<'src>, Error<'src>>
    requires { IsClean root.now }
    ensures { Loads (world_of sources.now config.now (S.answers syntax.now) root.now) result }
{
    if sources.file(root).is_none() {
        return Err(Error::Load(LoadError::Load {
            path: Text::from_str(alloc, root)?,
        }));
    }
    let (scan, texts) = scan(alloc, config, syntax, sources, root)?;
    check_circles(alloc, &scan)?;
    let nodes = unfold(alloc, scan.rows.as_slice(), 0)?;
    let asts = parse_all(alloc, &scan, syntax, nodes.as_slice(), texts)?;
    let asts = hold(alloc, &scan, nodes.as_slice(), asts)?;
    let loaded = loaded_paths(alloc, &scan, nodes.as_slice())?;
    Ok(Loaded { asts, loaded })
}
