//! Identifiers.
ghost use Rattle.std.specs.Prelude.{◌≡◌};
ghost use Rattle.just_names.specs.Identifier.{is_identifier_start, is_identifier_continue, is_identifier};

/// Whether a byte may begin an identifier: an ASCII letter or `_`.
pub fn starts_identifier(b: u8) -> bool
    ensures { result ≡ is_identifier_start b }
{
    matches!(b, b'a'..=b'z' | b'A'..=b'Z' | b'_')
}

/// Whether a byte may follow the first of an identifier: one that may begin it, a digit or `-`.
pub fn continues_identifier(b: u8) -> bool
    ensures { result ≡ is_identifier_continue b }
{
    starts_identifier(b) || matches!(b, b'0'..=b'9' | b'-')
}

/// Whether a word is an identifier.
pub fn is_identifier(word: &str) -> bool
    ensures { result ≡ is_identifier word.now }
{
    match word.as_bytes().split_first() {
        Some((first, rest)) => {
            starts_identifier(*first) && rest.iter().all(|b| continues_identifier(*b))
        }
        None => false,
    }
}
