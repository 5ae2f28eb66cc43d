//! Calls of texts, lists, chains and shared values.
use crate::halves;
use just_data::{BorrowedText, Chain, Sequence, Shared, Text};
use std::alloc::{AllocError, Global};

// The numbers of words.
fn numbers(alloc: Global, words: &str) -> Result<Vec<u64>, AllocError> {
    let mut numbers = Vec::new(alloc);
    for word in words.split_whitespace() {
        numbers.push(word.parse::<u64>().unwrap_or(0))?;
    }
    Ok(numbers)
}

// Adds the line of some numbers.
fn add_numbers(numbers: &[u64], text: &mut String) -> Result<(), AllocError> {
    text.push_str("numbers")?;
    for number in numbers {
        write!(text, " {number}")?;
    }
    text.push('\n')
}

// Adds the number at a place, or that there is none.
fn add_found(found: Option<&u64>, text: &mut String) -> Result<(), AllocError> {
    match found {
        Some(number) => writeln!(text, "found {number}"),
        None => text.push_str("found nothing\n"),
    }
}

/// Answers what a call of a sequence of numbers gives, and which numbers it leaves. What the call is given stands before a
/// ` | `.
pub fn answer_sequence(
    alloc: Global,
    call: &str,
    rest: &str,
) -> Result<Option<String>, AllocError> {
    let (before, words) = halves(rest);
    let place = before.parse::<usize>().unwrap_or(0);
    let mut given = numbers(alloc, before)?;
    let mut sequence = Sequence::from_vec(numbers(alloc, words)?);
    let mut text = String::new(alloc);
    match call {
        "from_vec" | "as_slice" => {}
        "new" => sequence = Sequence::new(sequence.alloc()),
        "from_slice" => sequence = Sequence::from_slice(alloc, given.as_slice())?,
        "len" => writeln!(text, "len {}", sequence.len())?,
        "is_empty" => writeln!(text, "is_empty {}", sequence.is_empty())?,
        "get" => add_found(sequence.get(place), &mut text)?,
        "push" => sequence.push(given.pop().unwrap_or(0))?,
        "append" => sequence.append(Sequence::from_vec(given))?,
        "into_vec" => {
            add_numbers(sequence.into_vec().as_slice(), &mut text)?;
            return Ok(Some(text));
        }
        _ => return Ok(None),
    }
    add_numbers(sequence.as_slice(), &mut text)?;
    Ok(Some(text))
}

// The chain of some numbers.
fn chain_of(alloc: Global, numbers: &[u64]) -> Result<Chain<u64>, AllocError> {
    let mut chain = Chain::new();
    for number in numbers {
        chain = chain.pushed(alloc, *number)?;
    }
    Ok(chain)
}

// The elements of a chain, from the last to the first.
fn backwards(alloc: Global, chain: &Chain<u64>) -> Result<Vec<u64>, AllocError> {
    let mut numbers = Vec::new(alloc);
    for number in chain.iter() {
        numbers.push(*number)?;
    }
    Ok(numbers)
}

/// Answers what a call of a chain of numbers gives: `pushed` and `to_sequence` its numbers, and `iter` the same from the last
/// to the first.
pub fn answer_chain(alloc: Global, call: &str, words: &str) -> Result<Option<String>, AllocError> {
    let numbers = numbers(alloc, words)?;
    let chain = chain_of(alloc, numbers.as_slice())?;
    let mut text = String::new(alloc);
    match call {
        "new" | "pushed" | "to_sequence" => {
            add_numbers(chain.to_sequence(alloc)?.as_slice(), &mut text)?
        }
        "iter" => add_numbers(backwards(alloc, &chain)?.as_slice(), &mut text)?,
        _ => return Ok(None),
    }
    Ok(Some(text))
}

/// Answers with a text that is shared, and with a copy that shares it.
pub fn answer_shared(alloc: Global, call: &str, word: &str) -> Result<Option<String>, AllocError> {
    let shared = Shared::new(alloc, Text::from_str(alloc, word)?)?;
    let copy = shared.clone()?;
    match call {
        "get" => Ok(Some(format!(in alloc; "shared {} {}\n", shared.get(), copy.get())?)),
        "eq" => Ok(Some(format!(in alloc; "eq {}\n", shared == copy)?)),
        _ => Ok(None),
    }
}

/// Answers what a call of a text gives.
pub fn answer_text_call(
    alloc: Global,
    call: &str,
    word: &str,
) -> Result<Option<String>, AllocError> {
    let text = match call {
        "from_string" => Text::from_string(String::from_str(alloc, word)?)?,
        "from_str" | "as_str" => Text::from_str(alloc, word)?,
        _ => return Ok(None),
    };
    Ok(Some(format!(in alloc; "text {}\n", text.as_str())?))
}

/// Answers what a call of a slice of a text gives.
pub fn answer_borrowed(
    alloc: Global,
    call: &str,
    word: &str,
) -> Result<Option<String>, AllocError> {
    let text = BorrowedText::new(word);
    match call {
        "new" | "as_str" => Ok(Some(format!(in alloc; "text {}\n", text.as_str())?)),
        "copied" => Ok(Some(format!(in alloc; "text {}\n", text.copied())?)),
        _ => Ok(None),
    }
}
