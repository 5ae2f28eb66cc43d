//! How lexemes are spelled one after another.
ghost use Rattle.std.specs.Prelude.{◌≡◌, ◌≤◌, length, slice_range, IfOk};
ghost use Rattle.std.specs.List.{All};
ghost use Rattle.just_bench_expressions.specs.Lexemes.{HasQuotes};
ghost use Rattle.just_bench_expressions.specs.Spelling as spec;

use crate::lexer::{Kind, Lexeme};
use just_data::{Excerpt, Sequence, Text};
use std::alloc::{AllocError, Global};
use std::marker::Model;

/// Lexemes with their spelling: one blank stands after a comma and on each side of `+`, and nothing else between them.
/// Contracts see it as the list of its lexemes.
#[derive(Drop)]
pub struct Spelling<'src> {
    lexemes: Sequence<Lexeme<'src>>,
    text: Text,
    // How long the spelling is up to the end of each.
    ends: Sequence<usize>,
}

impl<'src> Model for Spelling<'src> {
    ghost use Rattle.std.specs.Prelude.{List};
    ghost use Rattle.just_bench_expressions.specs.declared.lexer.Lexeme.{Lexeme};
    ghost use Rattle.just_bench_expressions.specs.Spelling.{IsSpelling};

    ghost Value = { List Lexeme };

    ghost view = { λ s. s.lexemes };

    ghost invariant = { λ s. IsSpelling s.lexemes s.text s.ends };
}

fn is_comma(kind: Kind) -> bool
    ensures { result ≡ spec.is_comma kind }
{
    matches!(kind, Kind::Comma)
}

/// Whether it is `+`.
pub fn is_plus(kind: Kind) -> bool
    ensures { result ≡ spec.is_plus kind }
{
    matches!(kind, Kind::Plus)
}

// What stands before a lexeme that follows another, or is the first.
fn gap(before: Option<Kind>, next: Kind) -> &'static str
    ensures { result.now ≡ spec.gap before next }
{
    match before {
        None => "",
        Some(before) if is_comma(before) || is_plus(before) || is_plus(next) => " ",
        Some(_) => "",
    }
}

impl<'src> Spelling<'src> {
    /// Spells lexemes, whose quoted texts have their quotes. The error is want of memory.
    pub fn new(alloc: Global, lexemes: Sequence<Lexeme<'src>>) -> Result<Spelling<'src>, AllocError>
        requires { All HasQuotes lexemes }
        ensures { IfOk result (λ made. made ≡ lexemes.entry) }
    {
        let mut text = String::new(alloc);
        let mut ends = Sequence::new(alloc);
        let mut before = None;
        for lexeme in lexemes.as_slice() {
            text.push_str(gap(before, lexeme.kind))?;
            text.push_str(lexeme.token.lexeme())?;
            ends.push(text.len())?;
            before = Some(lexeme.kind);
        }
        let text = Text::from_string(text)?;
        Ok(Spelling {
            lexemes,
            text,
            ends,
        })
    }

    /// The lexemes. Their quoted texts have their quotes.
    pub fn as_slice(&self) -> &[Lexeme<'src>]
        ensures is { result.now ≡ self.now }
        ensures quoted { All HasQuotes self.now }
    {
        self.lexemes.as_slice()
    }

    /// The allocator that the lexemes are kept by.
    pub fn alloc(&self) -> Global {
        self.lexemes.alloc()
    }

    /// How the lexemes from one place to another are spelled, which is nothing where there are none. No text is copied;
    /// it is refused where the count of its shares is full.
    pub fn excerpt(&self, start: usize, end: usize) -> Result<Excerpt, AllocError>
        requires { end ≤ length self.now }
        ensures { IfOk result (λ part. part ≡ spec.spell (slice_range self.now start end)) }
    {
        let ends = self.ends.as_slice();
        let text = self.text.clone()?;
        if end <= start {
            return Ok(Excerpt::new(text, 0, 0));
        }
        let size = self.lexemes.as_slice()[start].token.lexeme().len();
        Ok(Excerpt::new(text, ends[start] - size, ends[end - 1]))
    }
}
