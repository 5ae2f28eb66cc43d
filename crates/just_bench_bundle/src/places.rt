//! The lines of a bundle's files on which stands what an error tells of, where the error has no place of its own.
ghost use Rattle.std.specs.Prelude.{◌≡◌, [], Some, None, map, IfNone, IfOk, IfSome, OnOk};
ghost use Rattle.std.specs.List.{Contains};
ghost use Rattle.std.specs.Map.{keys_of};
ghost use Rattle.just_bench_bundle.specs.Places.{StandsOn, TellsLine};
ghost use Rattle.just_bench_bundle.specs.loops.Places.{Finds, FindsIn, HasItems, IsOfText};
ghost use Rattle.just_bench_syntax.specs.Answers.{answers};
ghost use Rattle.just_errors.specs.declared.error.Error.TheVariants as error;
ghost use Rattle.just_errors.specs.declared.load_error.LoadError.TheVariants as load;
ghost use Rattle.just_loader.specs.Links.{To, link_by};
ghost use Rattle.just_loader.specs.Reached.{world_of};
ghost use Rattle.just_parts.specs.Bare.{bare_item};
ghost use Rattle.just_paths.specs.Clean.{IsClean};

use crate::leads::line_to;
use crate::walk::home_of;
use just_bench_reading::root_source;
use just_bench_syntax::PlainSyntax;
use just_data::BorrowedText;
use just_loader::{Sources, relative_path};
use just_parts::layers::{Ast, Config, Error, Item, LoadError, Numerator, Syntax};
use just_paths::{folder_of, is_clean};
use std::alloc::{AllocError, Global};
use std::fmt;

/// A line of a file.
#[derive(Drop)]
pub struct FileLine<'src> {
    /// The path of the file.
    pub path: BorrowedText<'src>,
    /// The line, which counts from 0.
    pub line: usize,
}

impl<'src> fmt::Display for FileLine<'src> {
    fn fmt<W: fmt::Write>(&self, f: &mut fmt::Formatter<W>) -> fmt::Result {
        write!(f, "line {} of `{}`", self.line.saturating_add(1), self.path)
    }
}

// Whether an error tells something of a text. The error is want of memory or of numbers.
fn of_text(error: &Error) -> Result<(), AllocError>
    ensures { OnOk result (IsOfText error.now) }
{
    match error {
        Error::Exhausted | Error::Memory => Err(AllocError),
        _ => Ok(()),
    }
}

/// What the file at a path says, where the root is at another; none where the path is not clean, where there is no file, or
/// where that does not follow the grammar. The error is want of memory or of numbers.
pub(crate) fn read<'src>(
    alloc: Global,
    sources: &Sources<'src>,
    root: &str,
    path: &'src str,
) -> Result<Option<Ast<'src>>, AllocError>
    requires { IsClean root.now }
    ensures items { IfOk result (λ found. IfSome found (λ ast. HasItems sources.now root.now path.now (Some (map bare_item ast.items)))) }
    ensures clean { IfOk result (λ found. IfSome found (λ _. IsClean path.now)) }
    ensures none { IfOk result (λ found. IfNone found (IsClean path.now → HasItems sources.now root.now path.now None)) }
{
    if !is_clean(path) {
        return Ok(None);
    }
    let Some(text) = sources.get(path) else {
        return Ok(None);
    };
    let source = root_source(alloc)?;
    let relative = relative_path(alloc, folder_of(root), path)?;
    match PlainSyntax::new().parse_source(alloc, &mut Numerator::new(), relative, &source, text) {
        Ok(ast) => Ok(Some(ast)),
        Err(error) => {
            let told = of_text(&error);
            drop(error);
            told?;
            Ok(None)
        }
    }
}

// The line of the first of a folder's items that leads to a file.
fn circle_line<'src>(
    items: &[Item<'src>],
    alloc: Global,
    sources: &Sources<'src>,
    config: &Config,
    folder: &str,
    import: &str,
) -> Result<Option<usize>, AllocError>
    ensures { IfOk result (Finds (StandsOn (Contains items.now) (link_by sources.now config.now (answers []) folder.now) (To import.now))) }
{
    for item in items {
        if let Some(line) = line_to(item, alloc, sources, config, folder, import)? {
            return Ok(Some(line));
        }
    }
    Ok(None)
}

// The line of the first item of a file that leads to another.
fn circle_in<'src>(
    alloc: Global,
    sources: &Sources<'src>,
    config: &Config,
    root: &str,
    path: &'src str,
    import: &str,
) -> Result<Option<usize>, AllocError>
    requires { IsClean root.now }
    ensures { IfOk result (FindsIn (world_of sources.now config.now (answers []) root.now) path.now (To import.now)) }
{
    match read(alloc, sources, root, path)? {
        Some(ast) => circle_line(
            ast.items.as_slice(),
            alloc,
            sources,
            config,
            folder_of(path),
            import,
        ),
        None => Ok(None),
    }
}

// The path of a file, as the files have it.
fn path_in<'src>(sources: &Sources<'src>, path: &str) -> Option<&'src str>
    ensures same { IfSome result (λ found. found.now ≡ path.now) }
    ensures none { IfNone result (Contains (keys_of sources.now) path.now → ⊥) }
{
    for other in sources.paths() {
        if *other == path {
            return Some(*other);
        }
    }
    None
}

// The line of the first item of the file `current` that leads to `import`.
fn circle_of<'src>(
    alloc: Global,
    sources: &Sources<'src>,
    config: &Config,
    root: &str,
    current: &str,
    import: &str,
) -> Result<Option<FileLine<'src>>, AllocError>
    requires { IsClean root.now }
    ensures { let circle = error.Load (load.CircularImport current.now import.now) in
        IfOk result (TellsLine (world_of sources.now config.now (answers []) root.now) circle) }
{
    let Some(path) = path_in(sources, current) else {
        return Ok(None);
    };
    match circle_in(alloc, sources, config, root, path, import)? {
        Some(line) => Ok(Some(FileLine {
            path: BorrowedText::new(path),
            line,
        })),
        None => Ok(None),
    }
}

/// The line on which stands what an error tells of that has no place of its own, where a clean root was compiled with this
/// configuration and the plain grammar: of a circle of files the first item in the one that leads to the other, and where no
/// home folder is known the first item that wants one, in the order in which files are reached. An item stands where its
/// quoted path does, and a module without one where its name does. None where there is none, and for other errors. The
/// error is want of memory or of numbers.
pub fn line_of<'src>(
    alloc: Global,
    sources: &Sources<'src>,
    config: &Config,
    root: &str,
    error: &Error<'src>,
) -> Result<Option<FileLine<'src>>, AllocError>
    requires { IsClean root.now }
    ensures { IfOk result (TellsLine (world_of sources.now config.now (answers []) root.now) error.now) }
{
    match error {
        Error::Load(LoadError::CircularImport { current, import }) => {
            circle_of(
                alloc,
                sources,
                config,
                root,
                current.as_str(),
                import.as_str(),
            )
        }
        Error::Load(LoadError::Homedir) => home_of(alloc, sources, config, root),
        _ => Ok(None),
    }
}
