//! What a text says, item by item.
use crate::item_lines::add_readings;
use just_bench_reading::parse;
use just_bench_syntax::PlainSyntax;
use just_data::Text;
use just_examples_format::faults::unless_fault;
use just_examples_format::lists::before;
use just_examples_format::marks::unmarked;
use just_parts::layers::{Item, Keyword, StringLiteral, Syntax};
use std::alloc::{AllocError, Global};

// Adds the text of a path in brackets, its token, and how many bytes stand before it.
fn add_path(text: &mut String, path: &StringLiteral) -> Result<(), AllocError> {
    let (token, offset) = (path.token.lexeme(), path.token.offset());
    write!(text, " [{}] {token} {offset}", path.cooked)
}

// A question mark where an item is optional.
fn mark(optional: bool) -> &'static str {
    if optional { "?" } else { "" }
}

// Adds what an item is.
fn add_item(text: &mut String, item: &Item) -> Result<(), AllocError> {
    match item {
        Item::Alias(alias) => write!(text, "alias {} {}", alias.name, alias.target),
        Item::Import {
            relative,
            optional,
            ..
        } => {
            write!(text, "import{}", mark(*optional))?;
            add_path(text, relative)
        }
        Item::Module {
            name,
            relative,
            optional,
            ..
        } => {
            write!(text, "mod{} {name}", mark(*optional))?;
            match relative {
                Some(path) => add_path(text, path),
                None => Ok(()),
            }
        }
        Item::Assignment(assignment) => write!(text, "assignment {}", assignment.name),
        Item::Comment(_) => text.push_str("comment"),
        Item::Function(function) => write!(text, "function {}", function.name),
        Item::Newline => text.push_str("newline"),
        Item::Recipe(recipe) => write!(text, "recipe {}", recipe.name),
        Item::Setting(set) => write!(text, "set {}", set.name),
        Item::Unexport { name } => write!(text, "unexport {name}"),
    }
}

/// Adds a line of all items.
pub fn add_items(text: &mut String, items: &[Item]) -> Result<(), AllocError> {
    text.push_str("items")?;
    for (place, item) in items.iter().enumerate() {
        text.push_str(before(place))?;
        add_item(text, item)?;
    }
    text.push('\n')
}

// The keyword of a name.
fn keyword(alloc: Global, name: &str) -> Result<Keyword, AllocError> {
    Ok(Keyword {
        lexeme: Text::from_str(alloc, name)?,
    })
}

/// Pairs of settings, each written with a comma between the two.
pub fn read_pairs(alloc: Global, text: &str) -> Result<Vec<(Keyword, Keyword)>, AllocError> {
    let mut pairs = Vec::new(alloc);
    for pair in text.split_whitespace() {
        let (first, second) = pair.split_once(',').unwrap_or((pair, ""));
        pairs.push((keyword(alloc, first)?, keyword(alloc, second)?))?;
    }
    Ok(pairs)
}

// Adds a line for each setting, with those that may not stand beside it.
fn add_conflicts(
    alloc: Global,
    syntax: &PlainSyntax,
    items: &[Item],
    text: &mut String,
) -> Result<(), AllocError> {
    for item in items {
        let Item::Setting(set) = item else {
            continue;
        };
        write!(text, "{} not beside", set.name)?;
        for keyword in syntax.conflicts(alloc, &set.value)?.as_slice() {
            write!(text, " {}", keyword.lexeme)?;
        }
        text.push('\n')?;
    }
    Ok(())
}

// Adds what is told of the items of a text, by the kind of the question, or the fault of the text.
fn add_told(
    alloc: Global,
    syntax: &PlainSyntax,
    kind: &str,
    text: &str,
    answer: &mut String,
) -> Result<(), AllocError> {
    let Some(ast) = unless_fault(parse(alloc, syntax, text), answer)? else {
        return Ok(());
    };
    match kind {
        "parse" => add_items(answer, ast.items.as_slice()),
        "read" => add_readings(&ast, answer),
        _ => add_conflicts(alloc, syntax, ast.items.as_slice(), answer),
    }
}

/// Answers what a text says, or its fault: `parse` what each item is, `read` all that was read of each, and `conflicts` which
/// settings may not stand beside those of the text behind a ` | `, where of each pair before that the second may not stand
/// beside the first.
pub fn answer_text(alloc: Global, kind: &str, rest: &str) -> Result<String, AllocError> {
    let mut answer = String::new(alloc);
    let unmarked = unmarked(alloc, rest)?;
    let text = unmarked.as_str();
    let (written, text) = match kind {
        "conflicts" => text.split_once(" | ").unwrap_or((text, "")),
        _ => ("", text),
    };
    let pairs = read_pairs(alloc, written)?;
    let syntax = PlainSyntax::with_conflicts(pairs.as_slice());
    add_told(alloc, &syntax, kind, text, &mut answer)?;
    Ok(answer)
}
