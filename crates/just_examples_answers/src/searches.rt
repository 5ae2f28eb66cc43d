//! What is told of the search for the file of a module.
use just_data::Text;
use just_parts::layers::{Ast, Error, Item, LoadError, Name};
use std::alloc::{AllocError, Global};

/// The name of the first recipe of a text.
pub fn first_in<'src>(ast: &Ast<'src>) -> Option<Name<'src>> {
    match ast.items.get(0) {
        Some(Item::Recipe(recipe)) => Some(recipe.name.copied()),
        _ => None,
    }
}

// How many files are found where these are several, or the name of another fault.
fn fault_text(alloc: Global, error: &Error) -> Result<String, AllocError> {
    match error {
        Error::Load(LoadError::AmbiguousModuleFile { module, found }) => {
            format!(in alloc; "found {} of {module}\n", found.len())
        }
        _ => format!(in alloc; "error {}\n", error.name()),
    }
}

/// What is told of a fault, which is dropped.
pub fn told(alloc: Global, error: Error) -> Result<String, AllocError> {
    let text = fault_text(alloc, &error);
    drop(error);
    text
}

/// The file that is found, or how many are.
pub fn described(alloc: Global, found: Result<Option<Text>, Error>) -> Result<String, AllocError> {
    match found {
        Ok(Some(path)) => format!(in alloc; "found {path}\n"),
        Ok(None) => String::from_str(alloc, "found none\n"),
        Err(error) => told(alloc, error),
    }
}
