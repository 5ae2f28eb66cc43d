//! Calls of tokens, names and paths of names. They are those of a text's recipes.
use crate::halves;
use just_bench_reading::parse;
use just_bench_syntax::PlainSyntax;
use just_data::BorrowedText;
use just_examples_format::faults::unless_fault;
use just_parts::layers::{Item, Name, Namepath, Token};
use just_paths::Modulepath;
use std::alloc::{AllocError, Global};

// The names of recipes.
fn names_in<'src>(alloc: Global, items: &[Item<'src>]) -> Result<Vec<Name<'src>>, AllocError> {
    let mut names = Vec::new(alloc);
    for item in items {
        if let Item::Recipe(recipe) = item {
            names.push(recipe.name.copied())?;
        }
    }
    Ok(names)
}

// The names of the recipes of a text, or none where it has a fault, which is added.
pub(crate) fn recipe_names<'src>(
    alloc: Global,
    text: &'src str,
    answer: &mut String,
) -> Result<Option<Vec<Name<'src>>>, AllocError> {
    match unless_fault(parse(alloc, &PlainSyntax::new(), text), answer)? {
        Some(ast) => Ok(Some(names_in(alloc, ast.items.as_slice())?)),
        None => Ok(None),
    }
}

// What a call of a token gives.
fn asked_token(alloc: Global, call: &str, token: &Token) -> Result<Option<String>, AllocError> {
    let answer = match call {
        "line" => token.line().to_string(alloc)?,
        "column" => token.column().to_string(alloc)?,
        "offset" => token.offset().to_string(alloc)?,
        "length" => token.length().to_string(alloc)?,
        "path" => String::from_str(alloc, token.path())?,
        "src" => token.src().replace(alloc, "\n", "/")?,
        "lexeme" => String::from_str(alloc, token.lexeme())?,
        "copied" => String::from_str(alloc, token.copied().lexeme())?,
        _ => return Ok(None),
    };
    Ok(Some(answer))
}

// What a call of a name gives.
fn asked_name(alloc: Global, call: &str, name: &Name) -> Result<Option<String>, AllocError> {
    let answer = match call {
        "lexeme" => String::from_str(alloc, name.lexeme())?,
        "line" => name.line().to_string(alloc)?,
        "offset" => name.offset().to_string(alloc)?,
        "copied" => format!(in alloc; "{}", name.copied())?,
        _ => return Ok(None),
    };
    Ok(Some(answer))
}

// Adds what a call gives for a name, or for its token. It answers whether there is such a call.
fn add_asked(
    alloc: Global,
    of_token: bool,
    call: &str,
    name: &Name,
    text: &mut String,
) -> Result<bool, AllocError> {
    let asked = if of_token {
        asked_token(alloc, call, &name.token)?
    } else {
        asked_name(alloc, call, name)?
    };
    match asked {
        Some(answer) => {
            write!(text, " {answer}")?;
            Ok(true)
        }
        None => Ok(false),
    }
}

// Answers a line of what a call gives for each name, or for its token.
fn answer_each(
    alloc: Global,
    of_token: bool,
    call: &str,
    text: &str,
) -> Result<Option<String>, AllocError> {
    let mut answer = String::new(alloc);
    let Some(names) = recipe_names(alloc, text, &mut answer)? else {
        return Ok(Some(answer));
    };
    answer.push_str(call)?;
    for name in &names {
        if !add_asked(alloc, of_token, call, name, &mut answer)? {
            return Ok(None);
        }
    }
    answer.push('\n')?;
    Ok(Some(answer))
}

/// Answers what a call gives for the name of each recipe of a text.
pub fn answer_name(alloc: Global, call: &str, text: &str) -> Result<Option<String>, AllocError> {
    answer_each(alloc, false, call, text)
}

// The token of some bytes of a text, in the third column of the second line of `f`, where they are whole characters.
fn token_at<'src>(offset: usize, length: usize, text: &'src str) -> Option<Token<'src>> {
    let end = offset.checked_add(length)?;
    if end > text.len() || !text.is_char_boundary(offset) || !text.is_char_boundary(end) {
        return None;
    }
    let (path, text) = (BorrowedText::new("f"), BorrowedText::new(text));
    Some(Token::new(1, 2, offset, length, path, text))
}

// Answers with a token of its own: where it begins, how many bytes it has, and the text that it is part of.
fn answer_new_token(alloc: Global, rest: &str) -> Result<String, AllocError> {
    let (place, text) = halves(rest);
    let (offset, length) = place.split_once(' ').unwrap_or((place, ""));
    let made = match (offset.parse::<usize>(), length.parse::<usize>()) {
        (Ok(offset), Ok(length)) => token_at(offset, length, text),
        _ => None,
    };
    let Some(token) = made else {
        return String::from_str(alloc, "refused\n");
    };
    let (path, line, column) = (token.path(), token.line(), token.column());
    format!(in alloc; "new {path} {line} {column} {}\n", token.lexeme())
}

/// Answers what a call gives for the token of the name of each recipe of a text.
pub fn answer_token(alloc: Global, call: &str, text: &str) -> Result<Option<String>, AllocError> {
    match call {
        "new" => Ok(Some(answer_new_token(alloc, text)?)),
        _ => answer_each(alloc, true, call, text),
    }
}

// The path of names, or none where there are none.
fn namepath_of<'src>(
    alloc: Global,
    names: &[Name<'src>],
) -> Result<Option<Namepath<'src>>, AllocError> {
    let Some((first, rest)) = names.split_first() else {
        return Ok(None);
    };
    let mut path = Namepath::single(alloc, first);
    for name in rest {
        path = path.join(name)?;
    }
    Ok(Some(path))
}

// Adds the last name of a path, and those before it.
fn add_split(path: &Namepath, text: &mut String) -> Result<(), AllocError> {
    let (last, front) = path.split_last();
    write!(text, "split_last {last} after")?;
    for name in front {
        write!(text, " {name}")?;
    }
    text.push('\n')
}

// Adds what a call gives for a path of names. It answers whether there is such a call.
fn add_namepath(
    alloc: Global,
    call: &str,
    path: &Namepath,
    text: &mut String,
) -> Result<bool, AllocError> {
    match call {
        "single" | "join" => writeln!(text, "namepath {path}")?,
        "last" => writeln!(text, "last {}", path.last())?,
        "split_last" => add_split(path, text)?,
        "from_namepath" => writeln!(text, "path {}", Modulepath::from_namepath(alloc, path)?)?,
        _ => return Ok(false),
    }
    Ok(true)
}

/// Answers what a call gives for the path of the names of a text's recipes, or for a module path of it.
pub fn answer_namepath(
    alloc: Global,
    call: &str,
    text: &str,
) -> Result<Option<String>, AllocError> {
    let mut answer = String::new(alloc);
    let Some(names) = recipe_names(alloc, text, &mut answer)? else {
        return Ok(Some(answer));
    };
    let Some(path) = namepath_of(alloc, names.as_slice())? else {
        return Ok(None);
    };
    let is_call = add_namepath(alloc, call, &path, &mut answer)?;
    Ok(is_call.then_some(answer))
}
