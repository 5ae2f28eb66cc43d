//! Names in a source text, and paths of them.
ghost use Rattle.std.specs.Prelude.{◌≡◌, ◌+◌, ◌++◌, ◌∷◌, [], ⊤, IfOk, length, map, Some};
ghost use Rattle.just_names.specs.Token.{lexeme};

use crate::token::Token;
use just_data::{Exact, Sequence};
use std::alloc::{AllocError, Global};
use std::fmt;

/// A name in a source text.
#[derive(Debug, PartialEq, Eq, Drop)]
pub struct Name<'src> {
    /// Where it stands. Its text is an identifier.
    pub token: Token<'src>,
}

impl<'src> Name<'src> {
    /// Its text.
    pub fn lexeme(&self) -> &'src str
        ensures { result.now ≡ lexeme self.now.token }
    {
        self.token.lexeme()
    }

    /// The line that it stands on, which counts from 0.
    pub fn line(&self) -> usize
        ensures { result ≡ self.now.token.line }
    {
        self.token.line()
    }

    /// How many bytes of the source stand before it.
    pub fn offset(&self) -> usize
        ensures { result ≡ self.now.token.offset }
    {
        self.token.offset()
    }

    /// The same name again, which takes no memory.
    pub fn copied(&self) -> Name<'src>
        ensures { result ≡ self.now }
    {
        Name {
            token: self.token.copied(),
        }
    }
}

impl<'src> Clone for Name<'src> {
    ghost is_clone = { λ name copy. copy ≡ name };

    ghost is_infallible = { λ _. ⊤ };

    fn clone(&self) -> Result<Name<'src>, AllocError> {
        Ok(self.copied())
    }
}

impl<'src> Exact for Name<'src> {
    ghost exact = { λ x y h. h };
}

impl<'src> fmt::Display for Name<'src> {
    ghost use Rattle.std.specs.Prelude.{Some};
    ghost use Rattle.just_names.specs.Token.{lexeme};

    ghost output = { λ name. Some (lexeme name.token) };

    fn fmt<W: fmt::Write>(&self, f: &mut fmt::Formatter<W>) -> fmt::Result {
        fmt::Display::fmt(self.lexeme(), f)
    }
}

/// One or more names, as `a::b` writes them: those before the last, and the last.
#[derive(Debug, PartialEq, Eq, Drop)]
pub struct Namepath<'src> {
    /// Those before the last, in order; none of a path of one name.
    pub front: Sequence<Name<'src>>,
    /// The last.
    pub last: Name<'src>,
}

impl<'src> Namepath<'src> {
    /// The path of one name, which takes no memory.
    pub fn single(alloc: Global, name: &Name<'src>) -> Namepath<'src>
        ensures front { result.front ≡ [] }
        ensures last { result.last ≡ name.now }
    {
        Namepath {
            front: Sequence::new(alloc),
            last: name.copied(),
        }
    }

    /// The path one name on.
    pub fn join(&self, name: &Name<'src>) -> Result<Namepath<'src>, AllocError>
        ensures front { IfOk result (λ path. path.front ≡ self.now.front ++ self.now.last ∷ []) }
        ensures last { IfOk result (λ path. path.last ≡ name.now) }
    {
        let mut front = self.front.clone()?;
        front.push(self.last.copied())?;
        Ok(Namepath {
            front,
            last: name.copied(),
        })
    }

    /// The last name.
    pub fn last(&self) -> &Name<'src>
        ensures { result.now ≡ self.now.last }
    {
        &self.last
    }

    /// The last name, and those before it.
    pub fn split_last(&self) -> (&Name<'src>, &[Name<'src>])
        ensures last { result.0.now ≡ self.now.last }
        ensures front { result.1.now ≡ self.now.front }
    {
        (&self.last, self.front.as_slice())
    }
}

impl<'src> Clone for Namepath<'src> {
    ghost is_clone = { λ path copy. copy ≡ path };

    fn clone(&self) -> Result<Namepath<'src>, AllocError> {
        Ok(Namepath {
            front: self.front.clone()?,
            last: self.last.copied(),
        })
    }
}

impl<'src> Exact for Namepath<'src> {
    ghost exact = { λ x y h. h };
}

impl<'src> fmt::Display for Namepath<'src> {
    ghost use Rattle.std.specs.Prelude.{Some, false};
    ghost use Rattle.just_names.specs.Name.{texts_of_path};
    ghost use Rattle.just_names.specs.Texts.{text_of};

    ghost output = { λ path. Some (text_of (texts_of_path path) false) };

    fn fmt<W: fmt::Write>(&self, f: &mut fmt::Formatter<W>) -> fmt::Result {
        for name in self.front.as_slice() {
            write!(f, "{name}::")?;
        }
        write!(f, "{}", self.last)
    }
}
