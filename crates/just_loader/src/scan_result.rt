//! What a scan tells of a source map.

use just_data::BorrowedText;
use just_graph::unfolding::Step;
use just_parts::layers::Name;

/// A reached file, and for each of its items the place of the file to which it leads.
#[derive(Drop)]
pub struct ScannedFile<'src> {
    /// The clean path.
    pub path: BorrowedText<'src>,
    /// What the file holds.
    pub text: BorrowedText<'src>,
    /// The path from the root's folder, where it lies below it.
    pub relative: BorrowedText<'src>,
    /// The place of the file to which each item leads, where it leads to one.
    pub targets: Vec<Option<usize>>,
}

/// The reached files in the order in which they are found, and the steps of each. That of a module enters the group of
/// its name's number, and its tag is the place of the name.
#[derive(Drop)]
pub struct Scan<'src> {
    /// The reached files, the root first.
    pub files: Vec<ScannedFile<'src>>,
    /// The steps from each file.
    pub rows: Vec<Vec<Step>>,
    /// The names that declare modules, as often as steps enter them. A name's number is the place of the first one with
    /// its text.
    pub names: Vec<Name<'src>>,
}
