//! Names as source texts write them, paths of names, numbers, what needs lists, and the places of names in a list.
#![tactic(auto)]

mod identifier;
mod index;
mod list_feature;
mod name;
mod number;
mod token;

pub use identifier::{continues_identifier, is_identifier, starts_identifier};
pub use index::{index_last, index_names, repeated_below, repeated_name, texts_of};
pub use list_feature::ListFeature;
pub use name::{Name, Namepath};
pub use number::{Exhausted, Number, Numerator};
pub use token::Token;
