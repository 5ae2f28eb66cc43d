//! Calls of items and parameters, of a configuration, and of values.
use crate::recipes::first_recipe;
use just_bench_reading::parse;
use just_bench_syntax::PlainSyntax;
use just_examples_format::faults::unless_fault;
use just_examples_format::questions::read_asked;
use just_parts::UnresolvedRecipe;
use just_parts::layers::{Edge, Item, Parameter};
use just_paths::Modulepath;
use std::alloc::{AllocError, Global};

// Adds how an item leads to a file, where it does.
fn add_edge(item: &Item, text: &mut String) -> Result<(), AllocError> {
    let (what, is_optional) = match item.edge() {
        Some(Edge::Import { relative, optional }) => (relative.token.lexeme(), optional),
        Some(Edge::Module { name, optional, .. }) => (name.lexeme(), optional),
        None => return text.push_str(" none"),
    };
    write!(text, " {what}{}", if is_optional { "?" } else { "" })
}

/// Answers how each item of a text leads to a file.
pub fn answer_item(alloc: Global, call: &str, text: &str) -> Result<Option<String>, AllocError> {
    if call != "edge" {
        return Ok(None);
    }
    let mut answer = String::new(alloc);
    let Some(ast) = unless_fault(parse(alloc, &PlainSyntax::new(), text), &mut answer)? else {
        return Ok(Some(answer));
    };
    answer.push_str(call)?;
    for item in ast.items.as_slice() {
        add_edge(item, &mut answer)?;
    }
    answer.push('\n')?;
    Ok(Some(answer))
}

// What a test says of a parameter.
fn tested(call: &str, parameter: &Parameter) -> Option<bool> {
    match call {
        "is_option" => Some(parameter.is_option()),
        "is_name" => Some(parameter.is_name()),
        "is_required" => Some(parameter.is_required()),
        "is_variadic" => Some(parameter.kind.is_variadic()),
        _ => None,
    }
}

// Adds the line of the parameters that pass a test. It answers whether there is such a test.
fn add_tested(
    call: &str,
    recipe: &UnresolvedRecipe,
    text: &mut String,
) -> Result<bool, AllocError> {
    text.push_str(call)?;
    for parameter in recipe.parameters.as_slice() {
        match tested(call, parameter) {
            Some(true) => write!(text, " {}", parameter.name)?,
            Some(false) => {}
            None => return Ok(false),
        }
    }
    text.push('\n')?;
    Ok(true)
}

/// Answers which parameters of a text's first recipe pass a test; `is_variadic` is one of their kinds.
pub fn answer_parameter(
    alloc: Global,
    call: &str,
    text: &str,
) -> Result<Option<String>, AllocError> {
    let mut answer = String::new(alloc);
    let Some(ast) = unless_fault(parse(alloc, &PlainSyntax::new(), text), &mut answer)? else {
        return Ok(Some(answer));
    };
    let Some(recipe) = first_recipe(&ast) else {
        return Ok(None);
    };
    let is_call = add_tested(call, recipe, &mut answer)?;
    Ok(is_call.then_some(answer))
}

/// Answers with the value by which options override a variable: the words behind them are the path of its module and its name.
pub fn answer_config(alloc: Global, call: &str, line: &str) -> Result<Option<String>, AllocError> {
    if call != "override_of" {
        return Ok(None);
    }
    let asked = read_asked(alloc, line)?;
    let words = asked.words(alloc)?;
    let Some((name, names)) = words.split_last() else {
        return Ok(None);
    };
    let mut path = Modulepath::root(alloc);
    for component in names {
        path = path.join(component)?;
    }
    match asked.config.override_of(alloc, &path, name)? {
        Some(value) => Ok(Some(format!(in alloc; "override_of {value}\n")?)),
        None => Ok(Some(String::from_str(alloc, "override_of nothing\n")?)),
    }
}
