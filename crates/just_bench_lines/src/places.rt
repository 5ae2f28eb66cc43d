//! What stands at a place among lexemes.
ghost use Rattle.std.specs.Prelude.{◌≡◌, ◌<◌, length, IsTrue, IfOk, IfSome};
ghost use Rattle.just_names.specs.Token.{lexeme};
ghost use Rattle.just_bench_expressions.specs.Lexemes.{IsQuoted};
ghost use Rattle.just_bench_lines.specs.Places as spec;

use just_ast_expressions::StringLiteral;
use just_bench_expressions::lexer::{Kind, Lexeme};
use just_bench_expressions::spelling::Spelling;
use just_data::Text;
use just_names::{Name, Token};
use std::alloc::{AllocError, Global};

/// Whether the second of two lexemes stands right after the first.
pub fn adjoins<'src>(first: &Lexeme<'src>, second: &Lexeme<'src>) -> bool
    ensures { result ≡ spec.adjoins first.now second.now }
{
    let (before, after) = (&first.token, &second.token);
    match after.offset().checked_sub(before.offset()) {
        None => false,
        Some(distance) => distance == before.length(),
    }
}

/// The name at a place.
pub fn name_at<'src>(lexemes: &[Lexeme<'src>], at: usize) -> Option<Name<'src>>
    ensures is { result ≡ spec.read_name_at lexemes.now at }
    ensures within { IfSome result (λ _. at < length lexemes.now) }
{
    let lexeme = lexemes.get(at)?;
    if !matches!(lexeme.kind, Kind::Name) {
        return None;
    }
    Some(Name {
        token: lexeme.token.copied(),
    })
}

/// The quoted text at a place, with its quotes.
pub fn quoted_at<'src>(lexemes: &[Lexeme<'src>], at: usize) -> Option<Token<'src>>
    ensures is { result ≡ spec.quoted_at lexemes.now at }
    ensures within { IfSome result (λ _. at < length lexemes.now) }
{
    let lexeme = lexemes.get(at)?;
    if !matches!(lexeme.kind, Kind::Quoted) {
        return None;
    }
    Some(lexeme.token.copied())
}

// A quoted text, which keeps the text between its quotes.
fn literal<'src>(alloc: Global, token: Token<'src>) -> Result<StringLiteral<'src>, AllocError>
    requires { IsQuoted (lexeme token) }
    ensures { IfOk result (λ made. made ≡ spec.literal token.entry) }
{
    let text = token.lexeme();
    let cooked = Text::from_str(alloc, &text[1..text.len() - 1])?;
    Ok(StringLiteral { cooked, token })
}

/// The quoted text at a place. The error is want of memory.
pub fn literal_at<'src>(
    spelling: &Spelling<'src>,
    at: usize,
) -> Result<Option<StringLiteral<'src>>, AllocError>
    ensures is { IfOk result (λ found. found ≡ spec.literal_at spelling.now at) }
    ensures within { IfOk result (λ found. IfSome found (λ _. at < length spelling.now)) }
{
    match quoted_at(spelling.as_slice(), at) {
        Some(token) => Ok(Some(literal(spelling.alloc(), token)?)),
        None => Ok(None),
    }
}

/// Whether the name at a place is this word.
pub fn word_at<'src>(lexemes: &[Lexeme<'src>], at: usize, word: &str) -> bool
    ensures { result ≡ spec.word_at word.now lexemes.now at }
{
    match name_at(lexemes, at) {
        Some(name) => name.lexeme() == word,
        None => false,
    }
}

/// Whether a mark stands at a place.
#[tactic(auto, using(crate::proofs::Marks::same))]
pub fn mark_at<'src>(lexemes: &[Lexeme<'src>], at: usize, mark: Kind) -> bool
    ensures is { result ≡ spec.stands (spec.is_mark mark) lexemes.now at }
    ensures within { IsTrue result → at < length lexemes.now }
{
    match lexemes.get(at) {
        Some(lexeme) => lexeme.kind == mark,
        None => false,
    }
}
