//! Parts of a source text.
ghost use Rattle.std.specs.Prelude.{◌≡◌, ◌+◌, ⊤, slice_range};
ghost use Rattle.std.specs.Str.{IsCharBoundary};
ghost use Rattle.std.specs.Prelude.{length as bytes_count, ◌≤◌};
ghost use Rattle.just_names.specs.Token.{lexeme};

use just_data::{BorrowedText, Exact};
use std::alloc::AllocError;
use std::marker::Model;

/// A part of a source text.
#[derive(Debug, PartialEq, Eq, Drop)]
pub struct Token<'src> {
    line: usize,
    column: usize,
    offset: usize,
    length: usize,
    path: BorrowedText<'src>,
    src: BorrowedText<'src>,
}

impl<'src> Model for Token<'src> {
    ghost use Rattle.std.specs.Prelude.{◌+◌, ◌≤◌, length as bytes_count};
    ghost use Rattle.std.specs.Str.{IsCharBoundary};
    ghost use Rattle.just_names.specs.Token.{Place};

    ghost Value = { Place };

    ghost view = { λ t. record { line = t.line; column = t.column; offset = t.offset; length = t.length; path = t.path; src = t.src } };

    ghost invariant = { λ t. (t.offset + t.length ≤ bytes_count t.src) × IsCharBoundary t.src t.offset × IsCharBoundary t.src (t.offset + t.length) };

    ghost inverse = { λ p. record { line = p.line; column = p.column; offset = p.offset; length = p.length; path = p.path; src = p.src } };
}

impl<'src> Token<'src> {
    /// The `length` bytes at `offset` of `src`, which is the text of the file with the relative path `path`.
    pub fn new(
        line: usize,
        column: usize,
        offset: usize,
        length: usize,
        path: BorrowedText<'src>,
        src: BorrowedText<'src>,
    ) -> Token<'src>
        requires within { offset + length ≤ bytes_count src }
        requires starts { IsCharBoundary src offset }
        requires ends { IsCharBoundary src (offset + length) }
        ensures { result ≡ record { line = line; column = column; offset = offset; length = length; path = path.entry; src = src.entry } }
    {
        Token {
            line,
            column,
            offset,
            length,
            path,
            src,
        }
    }

    /// The line, which counts from 0.
    pub fn line(&self) -> usize
        ensures { result ≡ self.now.line }
    {
        self.line
    }

    /// The column in bytes, which counts from 0.
    pub fn column(&self) -> usize
        ensures { result ≡ self.now.column }
    {
        self.column
    }

    /// How many bytes of the source stand before it.
    pub fn offset(&self) -> usize
        ensures { result ≡ self.now.offset }
    {
        self.offset
    }

    /// How many bytes it has.
    pub fn length(&self) -> usize
        ensures { result ≡ self.now.length }
    {
        self.length
    }

    /// The relative path of its file.
    pub fn path(&self) -> &'src str
        ensures { result.now ≡ self.now.path }
    {
        self.path.as_str()
    }

    /// The whole text of its file.
    pub fn src(&self) -> &'src str
        ensures { result.now ≡ self.now.src }
    {
        self.src.as_str()
    }

    /// Its text.
    pub fn lexeme(&self) -> &'src str
        ensures { result.now ≡ lexeme self.now }
    {
        let text = self.src.as_str();
        &text[self.offset..self.offset + self.length]
    }

    /// The same token again, which takes no memory.
    pub fn copied(&self) -> Token<'src>
        ensures { result ≡ self.now }
    {
        Token {
            line: self.line,
            column: self.column,
            offset: self.offset,
            length: self.length,
            path: self.path.copied(),
            src: self.src.copied(),
        }
    }
}

impl<'src> Clone for Token<'src> {
    ghost is_clone = { λ token copy. copy ≡ token };

    ghost is_infallible = { λ _. ⊤ };

    fn clone(&self) -> Result<Token<'src>, AllocError> {
        Ok(self.copied())
    }
}

impl<'src> Exact for Token<'src> {
    ghost exact = { λ x y h. h };
}
