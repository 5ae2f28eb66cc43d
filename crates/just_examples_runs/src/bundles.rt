//! Files of a bundle.
use just_bench::read_sources;
use std::alloc::{AllocError, Global};

/// Answers what a bundle has under a path, with `/` for each line end.
pub fn answer_file(alloc: Global, rest: &str) -> Result<String, AllocError> {
    let (path, bundle) = rest.split_once(" | ").unwrap_or((rest, ""));
    match read_sources(alloc, bundle) {
        Err(error) => format!(in alloc; "error Bundle: {error}\n"),
        Ok(sources) => match sources.get(path) {
            Some(text) => {
                let text = text.replace(alloc, "\n", "/")?;
                format!(in alloc; "file {text}\n")
            }
            None => String::from_str(alloc, "no file\n"),
        },
    }
}
