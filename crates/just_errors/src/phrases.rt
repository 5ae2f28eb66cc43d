//! Parts of messages: a place in a file, a count of arguments, a list of paths, a line, and the arguments of a command.
ghost use Rattle.std.specs.Prelude.{◌≡◌, ◌≤◌, length};
ghost use Rattle.just_errors.specs.Wording as spec;
ghost use Rattle.just_errors.specs.Wording.{noun_text, takes};

use just_data::{Exact, Text};
use just_names::Token;
use std::fmt;

// The most arguments of what takes any number of them.
const ANY_NUMBER: usize = usize::MAX - 1;

/// The noun for so many arguments.
pub(crate) fn noun(count: usize) -> &'static str
    ensures { result.now ≡ noun_text count }
{
    if count == 1 { "argument" } else { "arguments" }
}

/// So many arguments, as `1 argument` and `2 arguments`.
#[derive(Drop)]
pub(crate) struct Arguments(pub usize);

impl fmt::Display for Arguments {
    ghost use Rattle.std.specs.Prelude.{Some};
    ghost use Rattle.just_errors.specs.Wording.{arguments_text};

    ghost output = { λ a. Some (arguments_text a.0) };

    fn fmt<W: fmt::Write>(&self, f: &mut fmt::Formatter<W>) -> fmt::Result {
        let count = self.0;
        write!(f, "{count} {}", noun(count))
    }
}

/// How many arguments are taken: at least `min`, and at most `max`. The greatest number but one, or a greater one, stands
/// for any number. It is shown as `exactly 2 arguments`, `at least 1 argument` or `1 to 2 arguments`.
#[derive(Clone, Copy, Debug, PartialEq, Eq)]
pub struct ArgumentRange {
    /// The least number.
    pub min: usize,
    /// The greatest number.
    pub max: usize,
}

impl ArgumentRange {
    /// Whether so many may be given.
    pub fn contains(&self, count: usize) -> bool
        ensures { result ≡ takes self.now count }
    {
        self.min <= count && count <= self.max
    }
}

impl Exact for ArgumentRange {
    ghost use Rattle.std.proofs.Common.{rules};

    ghost exact = { Prim.search rules };
}

impl fmt::Display for ArgumentRange {
    ghost use Rattle.std.specs.Prelude.{Some};
    ghost use Rattle.just_errors.specs.Wording.{takes_text};

    ghost output = { λ t. Some (takes_text t.min t.max) };

    fn fmt<W: fmt::Write>(&self, f: &mut fmt::Formatter<W>) -> fmt::Result {
        let least = self.min;
        let most = self.max;
        if least == most {
            write!(f, "exactly {}", Arguments(least))
        } else if most >= ANY_NUMBER {
            write!(f, "at least {}", Arguments(least))
        } else {
            write!(f, "{least} to {}", Arguments(most))
        }
    }
}

// How many characters begin in some bytes.
fn characters(bytes: &[u8]) -> usize
    ensures count { result ≡ spec.characters bytes.now }
    ensures most { result ≤ length bytes.now }
{
    let mut count = 0;
    for byte in bytes {
        if *byte < 128 || *byte >= 192 {
            count += 1;
        }
    }
    count
}

// What stands before a token in its line.
fn before_in_line<'src>(token: &Token<'src>) -> &'src [u8]
    ensures { result.now ≡ spec.before_in_line token.now }
{
    let bytes = token.src().as_bytes();
    let end = token.offset().min(bytes.len());
    let start = token.offset().saturating_sub(token.column()).min(end);
    &bytes[start..end]
}

/// Where a token stands, as `FILE:LINE:COLUMN`. Lines and columns count from 1, and columns count characters.
#[derive(Drop)]
pub(crate) struct At<'a, 'src>(pub &'a Token<'src>);

impl<'a, 'src> fmt::Display for At<'a, 'src> {
    ghost use Rattle.std.specs.Prelude.{Some};
    ghost use Rattle.just_errors.specs.Wording.{at_text};

    ghost output = { λ at. Some (at_text at.0.now) };

    fn fmt<W: fmt::Write>(&self, f: &mut fmt::Formatter<W>) -> fmt::Result {
        let path = self.0.path();
        let line = self.0.line().saturating_add(1);
        let column = characters(before_in_line(self.0)).saturating_add(1);
        write!(f, "{path}:{line}:{column}")
    }
}

/// Paths in backquotes, with commas between them.
#[derive(Drop)]
pub(crate) struct Listed<'a>(pub &'a [Text]);

impl<'a> fmt::Display for Listed<'a> {
    ghost use Rattle.std.specs.Prelude.{Some};
    ghost use Rattle.just_errors.specs.loops.Wording.{listed_text};

    ghost output = { λ listed. Some (listed_text listed.0.now) };

    fn fmt<W: fmt::Write>(&self, f: &mut fmt::Formatter<W>) -> fmt::Result {
        let Some((first, rest)) = self.0.split_first() else {
            return Ok(());
        };
        write!(f, "`{first}`")?;
        for path in rest {
            write!(f, ", `{path}`")?;
        }
        Ok(())
    }
}

/// The line where a recipe failed, as ` on line 3`. It counts from 1; of none nothing is shown.
#[derive(Drop)]
pub(crate) struct OnLine<'a>(pub &'a Option<usize>);

impl<'a> fmt::Display for OnLine<'a> {
    ghost use Rattle.std.specs.Prelude.{Some};
    ghost use Rattle.just_errors.specs.Wording.{on_line_text};

    ghost output = { λ on. Some (on_line_text on.0.now) };

    fn fmt<W: fmt::Write>(&self, f: &mut fmt::Formatter<W>) -> fmt::Result {
        match self.0 {
            Some(line) => write!(f, " on line {line}"),
            None => Ok(()),
        }
    }
}

/// The arguments of a command, each after a space.
#[derive(Drop)]
pub(crate) struct Spaced<'a>(pub &'a [Text]);

impl<'a> fmt::Display for Spaced<'a> {
    ghost use Rattle.std.specs.Prelude.{Some};
    ghost use Rattle.just_errors.specs.Wording.{spaced_text};

    ghost output = { λ spaced. Some (spaced_text spaced.0.now) };

    fn fmt<W: fmt::Write>(&self, f: &mut fmt::Formatter<W>) -> fmt::Result {
        let rest = self.0;
        for argument in rest {
            write!(f, " {argument}")?;
        }
        Ok(())
    }
}
