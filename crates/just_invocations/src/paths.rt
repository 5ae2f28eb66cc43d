//! Words that are paths.
ghost use Rattle.std.specs.Prelude.{◌≡◌, IfOk, OnErr};
ghost use Rattle.just_names.specs.Texts.{texts};
ghost use Rattle.just_invocations.specs.Words.{IsPathWord, has_colon};
ghost use Rattle.just_tail.specs.Words.{Words};

use just_data::Text;
use just_paths::Modulepath;
use std::alloc::{AllocError, Global};

/// Whether a word has a colon, so that it is a path.
pub fn contains_colon(word: &str) -> bool
    ensures { result ≡ has_colon word.now }
{
    for byte in word.as_bytes() {
        if *byte == b':' {
            return true;
        }
    }
    false
}

/// The path that a word with a colon is, where it is one. The last word may end with one `::` more.
pub fn path_word(
    alloc: Global,
    word: &str,
    last: bool,
) -> Result<Result<Modulepath, ()>, AllocError>
    ensures path { IfOk result (λ found. IfOk found (λ p. IsPathWord last word.now p.components)) }
    ensures refusal { IfOk result (λ found. OnErr found ((names : Words) → IsPathWord last word.now names → ⊥)) }
{
    if last {
        Modulepath::from_argument(alloc, word)
    } else {
        Modulepath::try_from(alloc, &[word])
    }
}

/// The names of a path, as words.
pub fn as_words<'a>(alloc: Global, components: &'a [Text]) -> Result<Vec<&'a str>, AllocError>
    ensures { IfOk result (λ words. texts words.items ≡ components.now) }
{
    let mut words = Vec::new(alloc);
    for component in components {
        words.push(component.as_str())?;
    }
    Ok(words)
}
