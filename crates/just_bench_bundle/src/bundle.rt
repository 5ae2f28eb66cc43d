//! Many files in one text.
ghost use Rattle.std.specs.Prelude.{◌≡◌, ◌≢◌, ◌∷◌, ◌++◌, [], ℕ, List, IfOk, IfErr, OnOk};
ghost use Rattle.just_table.specs.Entries.{put};
ghost use Rattle.just_bench_bundle.specs.Bundle as spec;
ghost use Rattle.just_bench_bundle.specs.Bundle.{file_of, mark, HoldsBundle, IsNoBundle};
ghost use Rattle.just_bench_bundle.specs.loops.Bundle.{IsNoFile};

use just_data::BorrowedText;
use just_loader::Sources;
use just_parts::layers::SourceError;
use std::alloc::Global;
use thiserror::Error;

// What stands before the path in a line that begins a file.
const MARK: &str = "--- ";

// The mark of a file that follows another, after the end of a line.
const NEXT_MARK: &str = "\n--- ";

/// Why a text is no bundle of files.
#[derive(Debug, Drop, Error)]
pub enum BundleError<'src> {
    /// A text stands before the first file.
    #[error("The input does not begin with a line `--- PATH`")]
    NoFile,
    /// A line `--- PATH`, by its number from 1, has a path that is not clean.
    #[error("Line {line} of the input begins a file at `{path}`, which is not a clean path: that begins with `/`, and no part of it is empty, `.` or `..`")]
    NotClean {
        line: usize,
        path: BorrowedText<'src>,
    },
    /// Memory was refused.
    #[error("Out of memory")]
    Memory,
}

// How many lines end in a text.
fn line_ends(text: &str) -> usize
    ensures { result ≡ spec.line_ends text.now }
{
    text.bytes().filter(|byte| *byte == b'\n').count()
}

// A file and the mark of the next, without that mark. The last file has none, and stays as it is.
fn without_next_mark(part: &str) -> &str
    ensures followed { (front : List ℕ) → part.now ≡ front ++ 10 ∷ mark → result.now ≡ front ++ 10 ∷ [] }
    ensures last { ((front : List ℕ) → part.now ≢ front ++ 10 ∷ mark) → result.now ≡ part.now }
{
    if !part.ends_with(NEXT_MARK) {
        return part;
    }
    match part.strip_suffix(MARK) {
        Some(file) => file,
        None => part,
    }
}

// Puts in a file, which begins in a line of the bundle: its path, a line end and its text, or its path alone.
fn insert_file<'src>(
    sources: &mut Sources<'src>,
    line: usize,
    file: &'src str,
) -> Result<(), BundleError<'src>>
    ensures held { OnOk result (sources.new ≡ put (file_of file.now).path (file_of file.now) sources.old) }
    ensures fault { IfErr result (IsNoFile line file.now) }
{
    let (path, text) = match file.split_once('\n') {
        Some(parts) => parts,
        None => (file, ""),
    };
    match sources.insert(path, text) {
        Ok(()) => Ok(()),
        Err(SourceError::NotClean) => Err(BundleError::NotClean {
            line,
            path: BorrowedText::new(path),
        }),
        Err(SourceError::Memory) => Err(BundleError::Memory),
    }
}

/// The files of a text. A line `--- PATH` begins a file, whose text is the lines up to the next such line, each with
/// its line end. A later file of an equal path replaces the earlier. An empty text has no files.
/// The error tells that a text stands before the first file, the first path that is not clean with its line, or want of
/// memory.
pub fn read_sources<'src>(
    alloc: Global,
    text: &'src str,
) -> Result<Sources<'src>, BundleError<'src>>
    ensures files { IfOk result (HoldsBundle text.now) }
    ensures fault { IfErr result (IsNoBundle text.now) }
{
    let mut sources = Sources::new(alloc);
    if text.is_empty() {
        return Ok(sources);
    }
    let Some(files) = text.strip_prefix(MARK) else {
        return Err(BundleError::NoFile);
    };
    if files.is_empty() || files.ends_with(NEXT_MARK) {
        return Err(BundleError::NotClean {
            line: line_ends(text) + 1,
            path: BorrowedText::new(""),
        });
    }
    let mut line = 1;
    for part in files.split_inclusive(NEXT_MARK) {
        insert_file(&mut sources, line, without_next_mark(part))?;
        line += line_ends(part);
    }
    Ok(sources)
}
