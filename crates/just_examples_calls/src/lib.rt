//! Answers of worked examples that public calls give, each asked by its name: of paths, tables, names, patterns, recipes and
//! sources, and of the resolver.
#![tactic(auto)]

mod data;
mod items;
mod names;
mod numbers;
mod paths;
mod patterns;
mod recipes;
mod resolver;
mod sources;
mod syntax;
mod tables;

use crate::data::{
    answer_borrowed, answer_chain, answer_sequence, answer_shared, answer_text_call,
};
use crate::items::{answer_config, answer_item, answer_parameter};
use crate::names::{answer_name, answer_namepath, answer_token};
use crate::numbers::answer_numerator;
use crate::paths::{answer_argument, answer_modulepath, answer_path, answer_path_test};
use crate::patterns::answer_pattern;
use crate::recipes::answer_recipe;
use crate::resolver::answer_resolver;
use crate::sources::answer_source;
use crate::syntax::answer_syntax;
use crate::tables::{answer_table, answer_table_call};
use just_examples_format::marks::unmarked;
use std::alloc::{AllocError, Global};

// Answers what a public call of a type gives for a text, or none where it is none of these calls.
fn answer_call(
    alloc: Global,
    owner: &str,
    call: &str,
    rest: &str,
) -> Result<Option<String>, AllocError> {
    match owner {
        "BorrowedText" => answer_borrowed(alloc, call, rest),
        "Chain" => answer_chain(alloc, call, rest),
        "Config" => answer_config(alloc, call, rest),
        "Item" => answer_item(alloc, call, rest),
        "Modulepath" if call == "from_namepath" => answer_namepath(alloc, call, rest),
        "Modulepath" => answer_modulepath(alloc, call, rest),
        "Name" => answer_name(alloc, call, rest),
        "Namepath" => answer_namepath(alloc, call, rest),
        "Numerator" => answer_numerator(alloc, call, rest),
        "Parameter" => answer_parameter(alloc, call, rest),
        "Pattern" => answer_pattern(alloc, call, rest),
        "Recipe" => answer_recipe(alloc, call, rest),
        "Sequence" => answer_sequence(alloc, call, rest),
        "Shared" => answer_shared(alloc, call, rest),
        "Source" => answer_source(alloc, call, rest),
        "Syntax" => answer_syntax(alloc, call, rest),
        "Table" => answer_table_call(alloc, call, rest),
        "Text" => answer_text_call(alloc, call, rest),
        "Token" => answer_token(alloc, call, rest),
        "VariableResolver" => answer_resolver(alloc, call, rest),
        "source" => answer_path_test(alloc, call, rest),
        _ => Ok(None),
    }
}

// The two parts of a text with ` | ` between them; the first is empty where there is no such mark.
fn halves(text: &str) -> (&str, &str) {
    text.split_once(" | ").unwrap_or(("", text))
}

/// Answers a question of a kind, a line for each thing that a case may ask of it, or none where it is none of these questions: a
/// path, an argument, a table, or a call as `TYPE::CALL`.
pub fn answer(alloc: Global, kind: &str, rest: &str) -> Result<Option<String>, AllocError> {
    match kind {
        "table" => Ok(Some(answer_table(alloc, rest)?)),
        "path" => Ok(Some(answer_path(alloc, rest)?)),
        "argument" => Ok(Some(answer_argument(alloc, rest)?)),
        _ => match kind.split_once("::") {
            Some((owner, call)) => answer_call(alloc, owner, call, unmarked(alloc, rest)?.as_str()),
            None => Ok(None),
        },
    }
}
