//! Calls of module paths, and the test of a file's path.
use crate::halves;
use just_paths::{Modulepath, is_clean};
use std::alloc::{AllocError, Global};
use std::cmp::Ordering;

// Answers with a module path, or that there is none.
fn described(alloc: Global, found: Result<Modulepath, ()>) -> Result<String, AllocError> {
    match found {
        Ok(path) => format!(in alloc; "path {path}\n"),
        Err(()) => String::from_str(alloc, "refused\n"),
    }
}

/// Answers which module path some words are.
pub fn answer_path(alloc: Global, rest: &str) -> Result<String, AllocError> {
    let words: Vec<&str> = rest.split_whitespace().collect(alloc)?;
    described(alloc, Modulepath::try_from(alloc, words.as_slice())?)
}

/// Answers which module path an argument is.
pub fn answer_argument(alloc: Global, argument: &str) -> Result<String, AllocError> {
    described(alloc, Modulepath::from_argument(alloc, argument)?)
}

// The module path of words.
fn path_of(alloc: Global, words: &str) -> Result<Result<Modulepath, ()>, AllocError> {
    let words: Vec<&str> = words.split_whitespace().collect(alloc)?;
    Modulepath::try_from(alloc, words.as_slice())
}

// How a path stands to another in the order of paths.
fn order_of(path: &Modulepath, other: &Modulepath) -> &'static str {
    match path.cmp(other) {
        Ordering::Less => "less",
        Ordering::Equal => "equal",
        Ordering::Greater => "greater",
    }
}

// What a call of a path that is given another answers.
fn compared(
    alloc: Global,
    call: &str,
    path: &Modulepath,
    other: &Modulepath,
) -> Result<Option<String>, AllocError> {
    match call {
        "starts_with" => {
            Ok(Some(format!(in alloc; "starts_with {}\n", path.starts_with(other))?))
        }
        "eq" => Ok(Some(format!(in alloc; "eq {}\n", path == other)?)),
        "cmp" => Ok(Some(format!(in alloc; "cmp {}\n", order_of(path, other))?)),
        _ => Ok(None),
    }
}

/// Answers what a call of a module path gives: its words stand before a ` | `, and what the call is given behind it.
pub fn answer_modulepath(
    alloc: Global,
    call: &str,
    rest: &str,
) -> Result<Option<String>, AllocError> {
    if call == "root" {
        return Ok(Some(described(alloc, Ok(Modulepath::root(alloc)))?));
    }
    let (words, given) = halves(rest);
    let Ok(path) = path_of(alloc, words)? else {
        return Ok(Some(String::from_str(alloc, "refused\n")?));
    };
    if call == "join" {
        return Ok(Some(described(alloc, Ok(path.join(given)?))?));
    }
    match path_of(alloc, given)? {
        Ok(other) => compared(alloc, call, &path, &other),
        Err(()) => Ok(Some(String::from_str(alloc, "refused\n")?)),
    }
}

/// Answers whether a path is that of a file.
pub fn answer_path_test(
    alloc: Global,
    call: &str,
    path: &str,
) -> Result<Option<String>, AllocError> {
    match call {
        "is_clean" => Ok(Some(format!(in alloc; "is_clean {}\n", is_clean(path))?)),
        _ => Ok(None),
    }
}
