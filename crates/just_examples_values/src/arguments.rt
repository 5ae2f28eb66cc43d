//! What a question hands over beside a module.
use just_data::{Chain, Sequence, Text};
use just_run_layers::{EnvironmentPair, Groups};
use std::alloc::{AllocError, Global};

/// What stands behind the name of a call.
#[derive(Drop)]
pub struct Handed<'words> {
    /// The pairs of dotenv files: those of the words `--dotenv=NAME=TEXT`.
    pub dotenv: Chain<EnvironmentPair>,
    /// Whether the recipe that runs is a dependency: whether there is the word `--dependency`.
    pub is_dependency: bool,
    /// The first other word, where there is one: the name of a recipe or of a variable.
    pub name: Option<&'words str>,
    /// The words behind it.
    pub groups: Vec<&'words str>,
}

impl<'words> Handed<'words> {
    // Takes the name, or what stands behind it.
    fn take(&mut self, word: &'words str) -> Result<(), AllocError> {
        if self.name.is_none() {
            self.name = Some(word);
            return Ok(());
        }
        self.groups.push(word)?;
        Ok(())
    }
}

// A name and its text, with `=` between the two.
fn pair_of(alloc: Global, written: &str) -> Result<EnvironmentPair, AllocError> {
    let (name, value) = written.split_once('=').unwrap_or((written, ""));
    Ok(EnvironmentPair {
        name: Text::from_str(alloc, name)?,
        value: Text::from_str(alloc, value)?,
    })
}

/// What words hand over.
pub fn read_handed<'words>(
    alloc: Global,
    words: &[&'words str],
) -> Result<Handed<'words>, AllocError> {
    let mut handed = Handed {
        dotenv: Chain::new(),
        is_dependency: false,
        name: None,
        groups: Vec::new(alloc),
    };
    for word in words {
        let (option, rest) = word.split_once('=').unwrap_or((*word, ""));
        match option {
            "--dependency" => handed.is_dependency = true,
            "--dotenv" => handed.dotenv = handed.dotenv.pushed(alloc, pair_of(alloc, rest)?)?,
            _ => handed.take(*word)?,
        }
    }
    Ok(handed)
}

// The texts of a group, with commas between them; none of `-`.
fn group_of(alloc: Global, word: &str) -> Result<Sequence<Text>, AllocError> {
    let mut group = Sequence::new(alloc);
    if word == "-" {
        return Ok(group);
    }
    for text in word.split(',') {
        group.push(Text::from_str(alloc, text)?)?;
    }
    Ok(group)
}

/// The groups of parameters, a word each.
pub fn groups_of(alloc: Global, words: &[&str]) -> Result<Groups, AllocError> {
    let mut groups = Sequence::new(alloc);
    for word in words {
        groups.push(group_of(alloc, *word)?)?;
    }
    Ok(groups)
}
