ghost use Rattle.std.specs.Prelude.{◌≡◌, IfOk, IfErr, nat_eq};
ghost use Rattle.std.specs.Cmp.{partial_equiv_from_equiv};
ghost use Rattle.std.specs.Cmp.Lexicographic.{pointwise, nat_list_eq_equiv};
ghost use Rattle.just_patterns.specs.Pattern.{is_match, IsReadable, RefusesPattern, Searches};
ghost use Rattle.just_patterns.specs.loops.Pattern.{IsRefusal};

use just_data::{Exact, Shared, Text};
use just_errors::{CompileError, CompileErrorKind, Error};
use just_names::Token;
use regex::Regex;
use std::alloc::{AllocError, Global};
use std::marker::Model;

/// What each word of a parameter matches, whole: a regular expression `P`, compiled as `^(?:P)$`. Clones share what it is
/// compiled to. Contracts see it as its text.
#[derive(Drop)]
pub struct Pattern {
    text: Text,
    compiled: Shared<Regex>,
}

impl Model for Pattern {
    ghost use Rattle.std.specs.Prelude.{List, ℕ};
    ghost use Rattle.just_patterns.specs.Pattern.{Searches};

    ghost Value = { List ℕ };

    ghost view = { λ p. p.text };

    ghost invariant = { λ p. Searches p.text p.compiled };
}

// The regular expression that is searched for a pattern.
fn compile(alloc: Global, pattern: &str) -> Result<Regex, regex::Error>
    ensures searches { IfOk result (Searches pattern.now) }
    ensures read { IfOk result (λ _. IsReadable pattern.now) }
    ensures refused { IfErr result (IsRefusal pattern.now) }
{
    let whole = format!(in alloc; "^(?:{pattern})$")?;
    Regex::new(alloc, whole.as_str())
}

impl Pattern {
    /// Compiles a pattern. Where it is none, or is past the size or the nesting that regular expressions have, that is told
    /// at `token`.
    pub fn new<'src>(alloc: Global, value: Text, token: Token<'src>) -> Result<Pattern, Error<'src>>
        ensures text { IfOk result (λ pattern. pattern ≡ value) }
        ensures read { IfOk result (λ _. IsReadable value) }
        ensures refused { IfErr result (RefusesPattern value token.entry) }
    {
        let compiled = match compile(alloc, value.as_str()) {
            Ok(regex) => Shared::new(alloc, regex)?,
            Err(regex::Error::OutOfMemory) => return Err(Error::Memory),
            Err(_) => {
                return Err(Error::Compile(CompileError {
                    token,
                    kind: CompileErrorKind::ArgumentPatternRegex,
                }));
            }
        };
        Ok(Pattern {
            text: value,
            compiled,
        })
    }

    /// The regular expression, as it is written.
    pub fn as_str(&self) -> &str
        ensures { result.now ≡ self.now }
    {
        self.text.as_str()
    }

    /// Whether it matches a text: `^(?:P)$` is found in it.
    pub fn is_match(&self, alloc: Global, text: &str) -> Result<bool, AllocError>
        ensures { IfOk result (λ found. found ≡ is_match self.now text.now) }
    {
        let mut matcher = self.compiled.get().matcher(alloc)?;
        Ok(matcher.is_match(text))
    }
}

/// A clone is the same pattern again, which is not compiled anew. It is refused where the count is full.
impl Clone for Pattern {
    ghost is_clone = { λ pattern copy. copy ≡ pattern };

    fn clone(&self) -> Result<Pattern, AllocError> {
        Ok(Pattern {
            text: self.text.clone()?,
            compiled: self.compiled.clone()?,
        })
    }
}

impl Exact for Pattern {
    ghost exact = { λ x y h. h };
}

impl PartialEq for Pattern {
    ghost eq = { pointwise nat_eq };

    ghost laws = { partial_equiv_from_equiv nat_list_eq_equiv };

    fn eq(&self, other: &Pattern) -> bool {
        self.text == other.text
    }
}

impl Eq for Pattern {
    ghost laws = { nat_list_eq_equiv };
}
