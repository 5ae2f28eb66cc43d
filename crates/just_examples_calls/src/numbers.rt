//! The numbers that a numerator gives.
use just_parts::layers::{Number, Numerator};
use std::alloc::{AllocError, Global};

/// Answers the first numbers that a numerator gives, as many as a word says.
pub fn answer_numerator(
    alloc: Global,
    call: &str,
    word: &str,
) -> Result<Option<String>, AllocError> {
    if call != "give" {
        return Ok(None);
    }
    let mut text = String::from_str(alloc, "give")?;
    let mut numerator = Numerator::new();
    for _ in 0..word.parse::<u32>().unwrap_or(0) {
        match numerator.give() {
            Ok(Number(number)) => write!(text, " {number}")?,
            Err(_) => text.push_str(" none")?,
        }
    }
    text.push('\n')?;
    Ok(Some(text))
}
