//! Paths to modules and recipes.
ghost use Rattle.std.specs.Prelude.{◌≡◌, ◌≢◌, List, ℕ, [], ◌∷◌, ◌++◌, Bool, map, IfOk, OnErr, OnOk, IsTrue, ◌<◌, length, false, nat_eq};
ghost use Rattle.std.specs.Cmp.Lexicographic.{pointwise};
ghost use Rattle.std.specs.List.{starts_with};
ghost use Rattle.just_names.specs.Name.{texts_of_path};
ghost use Rattle.just_names.specs.Texts.{separator_of, texts, text_of};
ghost use Rattle.just_paths.specs.Modulepath.{AllIdentifiers, AreNoPath, IsArgumentPath, DropsEnd, IsPath, IsWordPath};

use just_data::{Exact, Sequence, Text};
use just_names::{Namepath, is_identifier};
use std::alloc::{AllocError, Global};
use std::fmt;

/// A path to a module or a recipe. Equality, order and hash are those of the components, then of `spaced`.
#[derive(Debug, PartialEq, Eq, PartialOrd, Ord, Hash, Drop)]
pub struct Modulepath {
    /// The names, from the root on; none of the root's path.
    pub components: Sequence<Text>,
    /// Whether blanks stand between the names, as where each came as a word, and not `::`.
    pub spaced: bool,
}

impl Clone for Modulepath {
    ghost is_clone = { λ path copy. copy ≡ path };

    fn clone(&self) -> Result<Modulepath, AllocError> {
        Ok(Modulepath {
            components: self.components.clone()?,
            spaced: self.spaced,
        })
    }
}

impl Exact for Modulepath {
    ghost exact = { λ x y h. h };
}

// The components of one word.
fn split_word(alloc: Global, word: &str) -> Result<Result<Vec<Text>, ()>, AllocError>
    ensures path { IfOk result (λ found. IfOk found (λ components. IsWordPath word.now components.items)) }
    ensures refusal { IfOk result (λ found. OnErr found ((components : List (List ℕ)) → IsWordPath word.now components → ⊥)) }
{
    let mut components = Vec::new(alloc);
    let mut rest = word;
    loop {
        match rest.split_once(':') {
            Some((name, after)) => {
                if !is_identifier(name) {
                    return Ok(Err(()));
                }
                components.push(Text::from_str(alloc, name)?)?;
                match after.strip_prefix(':') {
                    Some(more) => rest = more,
                    None => return Ok(Err(())),
                }
            }
            None => {
                if !is_identifier(rest) {
                    return Ok(Err(()));
                }
                components.push(Text::from_str(alloc, rest)?)?;
                return Ok(Ok(components));
            }
        }
    }
}

// The word with no `::` at its end.
fn without_end(word: &str) -> &str
    ensures { DropsEnd word.now result.now }
{
    word.strip_suffix("::").unwrap_or(word)
}

// The components of a list of words.
fn copy_words(alloc: Global, words: &[&str]) -> Result<Result<Vec<Text>, ()>, AllocError>
    ensures path { IfOk result (λ found. IfOk found (λ components. (components.items ≡ texts words.now) × AllIdentifiers (texts words.now))) }
    ensures refusal { IfOk result (λ found. OnErr found (AllIdentifiers (texts words.now) → ⊥)) }
{
    let mut components = Vec::new(alloc);
    for word in words {
        if !is_identifier(word) {
            return Ok(Err(()));
        }
        components.push(Text::from_str(alloc, word)?)?;
    }
    Ok(Ok(components))
}

impl Modulepath {
    /// The path that the words are, or `()` where they are none.
    pub fn try_from(alloc: Global, words: &[&str]) -> Result<Result<Modulepath, ()>, AllocError>
        ensures path { IfOk result (λ found. IfOk found (λ p. IsPath (texts words.now) p.components p.spaced)) }
        ensures refusal { IfOk result (λ found. OnErr found (AreNoPath (texts words.now))) }
    {
        match words {
            [word] => match split_word(alloc, word)? {
                Ok(components) => Ok(Ok(Modulepath {
                    components: Sequence::from_vec(components),
                    spaced: false,
                })),
                Err(()) => Ok(Err(())),
            },
            _ => match copy_words(alloc, words)? {
                Ok(components) => Ok(Ok(Modulepath {
                    components: Sequence::from_vec(components),
                    spaced: words.len() > 1,
                })),
                Err(()) => Ok(Err(())),
            },
        }
    }

    /// The path that one word of the command line is, or `()` where it is none: one `::` at its end is dropped first.
    pub fn from_argument(alloc: Global, word: &str) -> Result<Result<Modulepath, ()>, AllocError>
        ensures path { IfOk result (λ found. IfOk found (λ p. IsArgumentPath word.now p.components × (p.spaced ≡ false))) }
        ensures refusal { IfOk result (λ found. OnErr found ((components : List (List ℕ)) → IsArgumentPath word.now components → ⊥)) }
    {
        match split_word(alloc, without_end(word))? {
            Ok(components) => Ok(Ok(Modulepath {
                components: Sequence::from_vec(components),
                spaced: false,
            })),
            Err(()) => Ok(Err(())),
        }
    }

    fn separator(&self) -> &'static str
        ensures { result.now ≡ separator_of self.now.spaced }
    {
        if self.spaced { " " } else { "::" }
    }

    /// The path that leads one name on.
    pub fn join(&self, name: &str) -> Result<Modulepath, AllocError>
        ensures { IfOk result (λ p. (p.components ≡ self.now.components ++ name.now ∷ []) × (p.spaced ≡ self.now.spaced)) }
    {
        let mut components = self.components.clone()?.into_vec();
        components.reserve_exact(1)?;
        components.push(Text::from_str(self.components.alloc(), name)?)?;
        let components = Sequence::from_vec(components);
        Ok(Modulepath {
            components,
            spaced: self.spaced,
        })
    }

    /// Whether the other's components are the first of these, whatever the spacing.
    pub fn starts_with(&self, other: &Modulepath) -> bool
        ensures { result ≡ starts_with (pointwise nat_eq) self.now.components other.now.components }
    {
        self.components
            .as_slice()
            .starts_with(other.components.as_slice())
    }

    /// The path of the names, which is not spaced.
    pub fn from_namepath<'src>(
        alloc: Global,
        names: &Namepath<'src>,
    ) -> Result<Modulepath, AllocError>
        ensures { IfOk result (λ p. (p.components ≡ texts_of_path names.now) × (p.spaced ≡ false)) }
    {
        let mut components = Vec::new(alloc);
        for name in names.front.as_slice() {
            components.push(Text::from_str(alloc, name.lexeme())?)?;
        }
        components.push(Text::from_str(alloc, names.last.lexeme())?)?;
        Ok(Modulepath {
            components: Sequence::from_vec(components),
            spaced: false,
        })
    }

    /// The path of the root module, which has no components.
    pub fn root(alloc: Global) -> Modulepath
        ensures components { result.components ≡ [] }
        ensures spaced { result.spaced ≡ false }
    {
        Modulepath {
            components: Sequence::new(alloc),
            spaced: false,
        }
    }
}

impl fmt::Display for Modulepath {
    ghost use Rattle.std.specs.Prelude.{Some};
    ghost use Rattle.just_names.specs.Name.{texts_of_path};
    ghost use Rattle.just_names.specs.Texts.{text_of};

    ghost output = { λ path. Some (text_of path.components path.spaced) };

    fn fmt<W: fmt::Write>(&self, f: &mut fmt::Formatter<W>) -> fmt::Result {
        let separator = self.separator();
        if let Some((first, rest)) = self.components.as_slice().split_first() {
            write!(f, "{first}")?;
            for name in rest {
                write!(f, "{separator}{name}")?;
            }
        }
        Ok(())
    }
}
