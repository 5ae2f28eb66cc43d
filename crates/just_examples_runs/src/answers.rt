//! Answers, by the kind of a question.
use crate::bundles::answer_file;
use crate::copies::answer_copy;
use crate::recorders::answer_recorder;
use just_examples_format::marks::unmarked;
use std::alloc::{AllocError, Global};

/// Answers a question of a kind, a line for each thing that a case may ask of it, or none where it is none of these questions.
pub fn answer(alloc: Global, kind: &str, rest: &str) -> Result<Option<String>, AllocError> {
    let text = unmarked(alloc, rest)?;
    match kind {
        "copy" => Ok(Some(answer_copy(alloc, text.as_str())?)),
        "file" => Ok(Some(answer_file(alloc, text.as_str())?)),
        "Recorder::memory_at" | "Recorder::scripted" => {
            Ok(Some(answer_recorder(alloc, kind, text.as_str())?))
        }
        _ => Ok(None),
    }
}
