//! Why the program ends early.
use just_bench_bundle::{BundleError, FileLine, InputError};
use just_data::{BorrowedText, Sequence};
use just_parts::layers::Error;
use std::fmt;

/// Why the program ends early, when it was used well.
#[derive(Drop)]
pub enum ProgramError<'src> {
    /// The root, which is told, is no clean path.
    NotClean(&'src str),
    /// The input is no text.
    Input(InputError),
    /// The input is no bundle of files.
    Bundle(BundleError<'src>),
    /// The root is not among the files. Paths of these that are like it are told.
    NoRoot {
        root: &'src str,
        like: Sequence<BorrowedText<'src>>,
    },
    /// Compiling or running failed. On the line, if one is told, stands what the error tells of.
    Analyzer {
        error: Error<'src>,
        line: Option<FileLine<'src>>,
    },
    /// The output could not be written.
    Write,
    /// Memory was refused.
    Memory,
}

impl<'src> ProgramError<'src> {
    /// The name of the error.
    pub fn name(&self) -> &'static str {
        match self {
            ProgramError::NotClean(_) => "NotClean",
            ProgramError::Input(InputError::Memory) | ProgramError::Bundle(BundleError::Memory) =>
                "Memory",
            ProgramError::Input(_) | ProgramError::Bundle(_) => "Bundle",
            ProgramError::NoRoot { .. } => "Load",
            ProgramError::Analyzer { error, .. } => error.name(),
            ProgramError::Write => "Write",
            ProgramError::Memory => "Memory",
        }
    }
}

// Writes which paths are like the one told, where there are any.
fn write_like<W: fmt::Write>(f: &mut fmt::Formatter<W>, paths: &[BorrowedText]) -> fmt::Result {
    let Some((first, rest)) = paths.split_first() else {
        return Ok(());
    };
    write!(f, "; like it: `{first}`")?;
    for path in rest {
        write!(f, ", `{path}`")?;
    }
    Ok(())
}

// Writes on which line to look, where one is told.
fn write_line<W: fmt::Write>(f: &mut fmt::Formatter<W>, line: &Option<FileLine>) -> fmt::Result {
    match line {
        Some(line) => write!(f, "; see {line}"),
        None => Ok(()),
    }
}

impl<'src> fmt::Display for ProgramError<'src> {
    fn fmt<W: fmt::Write>(&self, f: &mut fmt::Formatter<W>) -> fmt::Result {
        match self {
            ProgramError::NotClean(root) => {
                write!(
                    f,
                    "The root `{root}` is not a clean path: that begins with `/`, and no part of it is empty, `.` or `..`"
                )
            }
            ProgramError::Input(error) => write!(f, "{error}"),
            ProgramError::Bundle(error) => write!(f, "{error}"),
            ProgramError::NoRoot { root, like } => {
                write!(f, "Could not find the root `{root}` among the files")?;
                write_like(f, like.as_slice())
            }
            ProgramError::Analyzer { error, line } => {
                write!(f, "{error}")?;
                write_line(f, line)
            }
            ProgramError::Write => f.write_str("The output could not be written"),
            ProgramError::Memory => f.write_str("Out of memory"),
        }
    }
}
