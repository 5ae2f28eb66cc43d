//! Calls of tables.
use crate::halves;
use just_data::BorrowedText;
use just_table::{Keyed, Table};
use std::alloc::{AllocError, Global};

// A text under a name.
#[derive(Drop)]
struct Named<'src> {
    name: BorrowedText<'src>,
    text: BorrowedText<'src>,
}

impl<'src> Keyed<'src> for Named<'src> {
    ghost key_of = { λ named. named.name };

    fn key(&self) -> &'src str {
        self.name.as_str()
    }
}

// A text under the name before its `=`.
fn entry(word: &str) -> Named {
    let (name, text) = word.split_once('=').unwrap_or((word, ""));
    Named {
        name: BorrowedText::new(name),
        text: BorrowedText::new(text),
    }
}

/// Answers what a table has that is collected from words `NAME=TEXT`.
pub fn answer_table(alloc: Global, rest: &str) -> Result<String, AllocError> {
    let mut values = Vec::new(alloc);
    for word in rest.split_whitespace() {
        values.push(entry(word))?;
    }
    let table: Table<Named> = values.into_iter().collect(alloc)?;
    let mut text = String::from_str(alloc, "table")?;
    for (key, named) in table {
        write!(text, " {key}={}", named.text)?;
    }
    text.push('\n')?;
    Ok(text)
}

// A table of words `NAME=TEXT`.
fn table_of(alloc: Global, words: &str) -> Result<Table<Named>, AllocError> {
    let mut values = Vec::new(alloc);
    for word in words.split_whitespace() {
        values.push(entry(word))?;
    }
    Table::from_values(alloc, values)
}

// Adds the line of all entries.
fn add_entries(table: &Table<Named>, text: &mut String) -> Result<(), AllocError> {
    text.push_str("entries")?;
    for (key, named) in table.iter() {
        write!(text, " {key}={}", named.text)?;
    }
    text.push('\n')
}

// Adds the line of the entries from a key on.
fn add_range<'word>(
    table: &Table<'word, Named<'word>>,
    key: &'word str,
    text: &mut String,
) -> Result<(), AllocError> {
    text.push_str("range")?;
    for (key, named) in table.range_from(key) {
        write!(text, " {key}={}", named.text)?;
    }
    text.push('\n')
}

// Adds the line of the keys.
fn add_keys(table: &Table<Named>, text: &mut String) -> Result<(), AllocError> {
    text.push_str("keys")?;
    for key in table.keys() {
        write!(text, " {key}")?;
    }
    text.push('\n')
}

// Adds the line of the values.
fn add_values(table: &Table<Named>, text: &mut String) -> Result<(), AllocError> {
    text.push_str("values")?;
    for named in table.values() {
        write!(text, " {}", named.text)?;
    }
    text.push('\n')
}

// Adds the line of the values, which leaves no table.
fn add_owned(table: Table<Named>, text: &mut String) -> Result<(), AllocError> {
    text.push_str("owned")?;
    for named in table.into_values() {
        write!(text, " {}", named.text)?;
    }
    text.push('\n')
}

// Adds the entry that was found, or that there was none.
fn add_found(found: Option<&Named>, text: &mut String) -> Result<(), AllocError> {
    match found {
        Some(named) => writeln!(text, "found {}={}", named.name, named.text),
        None => text.push_str("found nothing\n"),
    }
}

// Adds the entry that an index gives, where it gives one.
fn add_indexed(table: &Table<Named>, key: &str, text: &mut String) -> Result<(), AllocError> {
    if !table.contains_key(key) {
        return text.push_str("found nothing\n");
    }
    add_found(Some(&table[key]), text)
}

// Puts in the entry of a word, and adds the one that it replaces.
fn insert<'word>(
    table: &mut Table<'word, Named<'word>>,
    word: &'word str,
    text: &mut String,
) -> Result<(), AllocError> {
    match table.insert(entry(word)) {
        Ok(old) => add_found(old.as_ref(), text),
        Err(_) => Err(AllocError),
    }
}

// Writes the text of a word `NAME=TEXT` at its name, and adds the entry as it was.
fn write_at<'word>(
    table: &mut Table<'word, Named<'word>>,
    word: &'word str,
    text: &mut String,
) -> Result<(), AllocError> {
    let (name, new) = word.split_once('=').unwrap_or((word, ""));
    match table.get_mut(name) {
        Some(named) => {
            writeln!(text, "found {}={}", named.name, named.text)?;
            named.text = BorrowedText::new(new);
            Ok(())
        }
        None => text.push_str("found nothing\n"),
    }
}

// Writes a text at every value.
fn write_all<'word>(table: &mut Table<'word, Named<'word>>, new: &'word str) {
    for named in table.values_mut() {
        named.text = BorrowedText::new(new);
    }
}

/// Answers what a call of a table of words `NAME=TEXT` gives, and which entries it leaves. A key or an entry that the call is
/// given stands before a ` | `.
pub fn answer_table_call(
    alloc: Global,
    call: &str,
    rest: &str,
) -> Result<Option<String>, AllocError> {
    let (given, words) = halves(rest);
    let mut table = table_of(alloc, words)?;
    let mut text = String::new(alloc);
    match call {
        "new" => table = Table::new(alloc),
        "len" => writeln!(text, "len {}", table.len())?,
        "is_empty" => writeln!(text, "is_empty {}", table.is_empty())?,
        "contains_key" => writeln!(text, "contains_key {}", table.contains_key(given))?,
        "get" => add_found(table.get(given), &mut text)?,
        "index" => add_indexed(&table, given, &mut text)?,
        "keys" => add_keys(&table, &mut text)?,
        "values" => add_values(&table, &mut text)?,
        "range_from" => add_range(&table, given, &mut text)?,
        "insert" => insert(&mut table, given, &mut text)?,
        "get_mut" => write_at(&mut table, given, &mut text)?,
        "values_mut" => write_all(&mut table, given),
        "remove" => add_found(table.remove(given).as_ref(), &mut text)?,
        "pop" => add_found(table.pop().as_ref(), &mut text)?,
        "iter" | "from_values" => {}
        "into_values" => {
            add_owned(table, &mut text)?;
            return Ok(Some(text));
        }
        _ => return Ok(None),
    }
    add_entries(&table, &mut text)?;
    Ok(Some(text))
}
