//! Groups of words, as a host is told them.
ghost use Rattle.std.specs.Prelude.{◌≡◌, map, IfOk};

use just_data::{Sequence, Text};
use just_run_layers::Groups;
use std::alloc::{AllocError, Global};

// The texts of words.
fn copy_words(alloc: Global, words: &[&str]) -> Result<Sequence<Text>, AllocError>
    ensures { IfOk result (λ texts. texts ≡ map (λ word. word.now) words.now) }
{
    let mut texts = Sequence::new(alloc);
    for word in words {
        texts.push(Text::from_str(alloc, word)?)?;
    }
    Ok(texts)
}

/// The texts of groups of words.
pub fn copy_groups(alloc: Global, arguments: &[Vec<&str>]) -> Result<Groups, AllocError>
    ensures { IfOk result (λ groups. groups ≡ map (λ words. map (λ word. word.now) words.items) arguments.now) }
{
    let mut groups = Sequence::new(alloc);
    for words in arguments {
        groups.push(copy_words(alloc, words)?)?;
    }
    Ok(groups)
}
