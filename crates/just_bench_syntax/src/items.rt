//! The items of a text, line by line, without numbers.
ghost use Rattle.std.specs.Prelude.{◌≡◌, ◌≤◌, ◌<◌, length, IfOk, IfErr, IfSome, OnOk, Ok, Err};
ghost use Rattle.just_bench_expressions.specs.Lines.{IsLineOf, lines_of};
ghost use Rattle.std.specs.List.{All};
ghost use Rattle.just_bench_lines.specs.Body.{indent};
ghost use Rattle.just_bench_lines.specs.Meaning.{said_by_line};
ghost use Rattle.just_bench_syntax.specs.Proper.{IsProper};
ghost use Rattle.just_bench_syntax.specs.Refusal.{IsInLine};
ghost use Rattle.just_bench_syntax.specs.Items as spec;

use crate::recipe::{Spoken, make_recipe};
use just_ast_definitions::{Alias, Fragment, Line, NamedAttribute};
use just_ast_expressions::ListUse;
use just_bench_expressions::lines::{TextLine, line_token};
use just_bench_lines::alias::AliasLine;
use just_bench_lines::attributes::Mark;
use just_bench_lines::body::{BodyLine, indent, read_body};
use just_bench_lines::heading::Heading;
use just_bench_lines::meaning::{Declaration, Meaning, Said, Statement, read_line};
use just_bench_stops::body::body_stop;
use just_bench_stops::stops::line_stop;
use just_data::{BorrowedText, Sequence};
use just_names::Token;
use just_parts::layers::Item;
use std::alloc::{AllocError, Global};
use std::mem::replace;

/// Where a line of a body may stand.
#[derive(Drop)]
pub enum Body<'src> {
    /// Nowhere: no recipe stands last.
    Closed,
    /// After the heading of a recipe.
    Begins,
    /// After a line that begins with these blanks and tabs.
    Goes(BorrowedText<'src>),
}

/// What lines say so far.
#[derive(Drop)]
pub struct Reading<'src> {
    /// The items.
    pub items: Sequence<Item<'src>>,
    /// Where they need lists.
    pub lists: Sequence<ListUse<'src>>,
    /// The attributes of the next item.
    pub attributes: Sequence<NamedAttribute<'src>>,
    /// What these say of parameters.
    pub spoken: Sequence<Spoken<'src>>,
    /// The line of the first of them, where there is one.
    pub first: Option<Token<'src>>,
    /// Where a line of a body may stand.
    pub body: Body<'src>,
}

/// What a text says.
#[derive(Drop)]
pub struct Items<'src> {
    /// The items, without numbers.
    pub items: Sequence<Item<'src>>,
    /// Where they need lists.
    pub lists: Sequence<ListUse<'src>>,
}

// The item that a line is.
fn item_of<'src>(statement: Statement<'src>) -> Item<'src>
    ensures { result ≡ spec.item_of statement.entry }
{
    match statement {
        Statement::Imports { path, optional } => Item::Import {
            relative: path,
            absolute: None,
            optional,
        },
        Statement::Sets(set) => Item::Setting(set),
        Statement::Unexports(name) => Item::Unexport { name },
        Statement::Assigns(assignment) => Item::Assignment(assignment),
        Statement::Defines(function) => Item::Function(function),
    }
}

// The alias that a line is, without attributes.
fn alias_item<'src>(alloc: Global, line: AliasLine<'src>) -> Item<'src>
    ensures { result ≡ spec.alias_item line.entry }
{
    let AliasLine { name, target } = line;
    Item::Alias(Alias {
        attributes: Sequence::new(alloc),
        name,
        target,
    })
}

// Puts an item last that takes no attributes, or answers the first that waits.
fn add_item<'src>(
    reading: &mut Reading<'src>,
    item: Item<'src>,
) -> Result<Result<(), Token<'src>>, AllocError>
    ensures { IfOk result (λ told. spec.told told reading.new ≡ spec.with_item reading.old item.entry) }
{
    if let Some(first) = &reading.first {
        return Ok(Err(first.copied()));
    }
    reading.items.push(item)?;
    reading.body = Body::Closed;
    Ok(Ok(()))
}

// Keeps an attribute for the next item, which is a line.
fn add_mark<'src>(
    reading: &mut Reading<'src>,
    at: Token<'src>,
    mark: Mark<'src>,
) -> Result<(), AllocError>
    ensures { OnOk result (reading.new ≡ spec.with_mark reading.old at.entry mark.entry) }
{
    let Mark { named, options } = mark;
    if reading.first.is_none() {
        reading.first = Some(at.copied());
    }
    reading.attributes.push(named)?;
    if let Some(options) = options {
        reading.spoken.push(Spoken { options, at })?;
    }
    reading.body = Body::Closed;
    Ok(())
}

// Begins a recipe.
fn add_recipe<'src>(
    alloc: Global,
    reading: &mut Reading<'src>,
    heading: Heading<'src>,
) -> Result<Result<(), Token<'src>>, AllocError>
    ensures { IfOk result (λ told. spec.told told reading.new ≡ spec.after_recipe reading.old heading.entry) }
{
    let attributes = replace(&mut reading.attributes, Sequence::new(alloc));
    let spoken = replace(&mut reading.spoken, Sequence::new(alloc));
    match make_recipe(alloc, heading, attributes, spoken.as_slice())? {
        Err(misfit) => Ok(Err(misfit)),
        Ok(recipe) => {
            reading.items.push(Item::Recipe(recipe))?;
            reading.first = None;
            reading.body = Body::Begins;
            Ok(Ok(()))
        }
    }
}

// Adds a module, which no attribute of a parameter may precede.
fn add_module<'src>(
    alloc: Global,
    reading: &mut Reading<'src>,
    declaration: Declaration<'src>,
) -> Result<Result<(), Token<'src>>, AllocError>
    ensures { IfOk result (λ told. spec.told told reading.new ≡ spec.with_module reading.old declaration.entry) }
{
    if let Some(first) = reading.spoken.as_slice().first() {
        return Ok(Err(first.at.copied()));
    }
    let Declaration {
        name,
        path,
        optional,
    } = declaration;
    let attributes = replace(&mut reading.attributes, Sequence::new(alloc));
    reading.items.push(Item::Module {
        name,
        relative: path,
        absolute: None,
        attributes,
        doc: None,
        optional,
    })?;
    reading.first = None;
    reading.body = Body::Closed;
    Ok(Ok(()))
}

// Whether a line begins with `#!`.
fn is_shebang<'src>(line: &Line<'src>) -> bool
    ensures { result ≡ spec.is_shebang line.now }
{
    match line.fragments.as_slice().first() {
        Some(Fragment::Text { token }) => token.lexeme().starts_with("#!"),
        _ => false,
    }
}

// Puts a line at the end of the body of a recipe.
fn push_line<'src>(item: &mut Item<'src>, line: Line<'src>) -> Result<(), AllocError>
    ensures { OnOk result (item.new ≡ spec.add_line line.entry item.old) }
{
    let Item::Recipe(recipe) = item else {
        return Ok(());
    };
    if recipe.body.is_empty() {
        recipe.shebang = is_shebang(&line);
    }
    recipe.body.push(line)
}

// Puts a line at the end of the body of the last item, where that is a recipe.
#[tactic(auto, using(crate::proofs::InPlace::last_changed, crate::proofs::InPlace::none_last))]
fn push_last<'src>(items: &mut Vec<Item<'src>>, line: Line<'src>) -> Result<(), AllocError>
    ensures { OnOk result (items.new.items ≡ spec.with_last (spec.add_line line.entry) items.old.items) }
{
    match items.len().checked_sub(1) {
        Some(last) => push_line(&mut items[last], line),
        None => Ok(()),
    }
}

// Puts a line at the end of the body of the last recipe.
fn push_body<'src>(
    alloc: Global,
    items: &mut Sequence<Item<'src>>,
    line: Line<'src>,
) -> Result<(), AllocError>
    ensures { OnOk result (items.new ≡ spec.with_last (spec.add_line line.entry) items.old) }
{
    let mut all = replace(items, Sequence::new(alloc)).into_vec();
    push_last(&mut all, line)?;
    drop(replace(items, Sequence::from_vec(all)));
    Ok(())
}

// How many blanks and tabs are dropped from a line of a body that begins with so many, if it may stand there.
#[tactic(auto, using(just_bench_lines::proofs::Bounds::prefix_fits))]
fn dropped<'src>(body: &Body<'src>, line: &TextLine<'src>, blanks: usize) -> Option<usize>
    requires { blanks ≡ indent line.now }
    ensures is { result ≡ spec.dropped body.now line.now blanks }
    ensures within { IfSome result (λ size. size ≤ blanks) }
{
    let text = line.text.as_str();
    match body {
        Body::Closed => None,
        Body::Begins => Some(blanks),
        Body::Goes(first) => {
            if text[..blanks].starts_with(first.as_str()) {
                Some(first.as_str().len())
            } else {
                None
            }
        }
    }
}

// Keeps the blanks and tabs, so many, that the first line of a body begins with.
fn begin_body<'src>(line: &TextLine<'src>, blanks: usize, body: &mut Body<'src>)
    requires { blanks ≡ indent line.now }
    ensures { body.new ≡ spec.begun_body line.now blanks body.old }
{
    if !matches!(body, Body::Begins) {
        return;
    }
    *body = Body::Goes(BorrowedText::new(&line.text.as_str()[..blanks]));
}

// Adds a line of a body. One of blanks and tabs alone is none.
#[tactic(auto, using(just_bench_lines::proofs::Bounds::line_cut))]
fn add_body<'src>(
    alloc: Global,
    path: &'src str,
    text: &'src str,
    line: &TextLine<'src>,
    reading: &mut Reading<'src>,
) -> Result<Result<(), Token<'src>>, AllocError>
    requires { IsLineOf text.now line.now }
    ensures { IfOk result (λ told. spec.told told reading.new ≡ spec.with_body path.now text.now line.now reading.old) }
{
    let blanks = indent(line);
    if blanks == line.text.as_str().len() {
        return Ok(Ok(()));
    }
    let Some(size) = dropped(&reading.body, line, blanks) else {
        return Ok(Err(line_token(path, text, line)));
    };
    let Some(BodyLine { line: made, lists }) = read_body(alloc, path, text, line, size)? else {
        return Ok(Err(body_stop(alloc, path, text, line, size)?));
    };
    begin_body(line, blanks, &mut reading.body);
    reading.lists.append(lists)?;
    push_body(alloc, &mut reading.items, made)?;
    Ok(Ok(()))
}

// Adds what a line means.
fn add_meaning<'src>(
    alloc: Global,
    path: &'src str,
    text: &'src str,
    line: &TextLine<'src>,
    meaning: Meaning<'src>,
    reading: &mut Reading<'src>,
) -> Result<Result<(), Token<'src>>, AllocError>
    requires { IsLineOf text.now line.now }
    ensures { IfOk result (λ told. spec.told told reading.new ≡ spec.after_meaning path.now text.now line.now meaning.entry reading.old) }
{
    match meaning {
        Meaning::Bad => Ok(Err(line_stop(alloc, path, text, line)?)),
        Meaning::Ignored => Ok(Ok(())),
        Meaning::Indented => add_body(alloc, path, text, line, reading),
        Meaning::Marks(mark) => {
            let at = line_token(path, text, line);
            Ok(Ok(add_mark(reading, at, mark)?))
        }
        Meaning::Begins(heading) => add_recipe(alloc, reading, heading),
        Meaning::Declares(declaration) => add_module(alloc, reading, declaration),
        Meaning::Aliases(alias) => add_item(reading, alias_item(alloc, alias)),
        Meaning::States(statement) => add_item(reading, item_of(statement)),
    }
}

// Adds a line.
fn add_line<'src>(
    alloc: Global,
    path: &'src str,
    text: &'src str,
    line: &TextLine<'src>,
    reading: &mut Reading<'src>,
) -> Result<Result<(), Token<'src>>, AllocError>
    requires { IsLineOf text.now line.now }
    ensures { IfOk result (λ told. spec.told told reading.new ≡ spec.with_said path.now text.now line.now (said_by_line path.now text.now line.now) reading.old) }
{
    let Said { meaning, lists } = read_line(alloc, path, text, line)?;
    let told = add_meaning(alloc, path, text, line, meaning, reading)?;
    reading.lists.append(lists)?;
    Ok(told)
}

// Adds lines.
fn add_lines<'src>(
    alloc: Global,
    path: &'src str,
    text: &'src str,
    all: &[TextLine<'src>],
    reading: &mut Reading<'src>,
) -> Result<Result<(), Token<'src>>, AllocError>
    requires { All (IsLineOf text.now) all.now }
    ensures { IfOk result (λ told. spec.told told reading.new ≡ spec.with_lines path.now text.now reading.old all.now) }
{
    for line in all {
        match add_line(alloc, path, text, line, reading)? {
            Ok(()) => continue,
            Err(at) => return Ok(Err(at)),
        }
    }
    Ok(Ok(()))
}

// Before any line.
fn unread<'src>(alloc: Global) -> Reading<'src>
    ensures { result ≡ spec.unread }
{
    Reading {
        items: Sequence::new(alloc),
        lists: Sequence::new(alloc),
        attributes: Sequence::new(alloc),
        spoken: Sequence::new(alloc),
        first: None,
        body: Body::Closed,
    }
}

// What lines say where no more follow: no attribute is left.
fn finished<'src>(reading: Reading<'src>) -> Result<Items<'src>, Token<'src>>
    ensures { result ≡ spec.finished reading.entry }
{
    let Reading {
        items,
        lists,
        first,
        ..
    } = reading;
    if let Some(first) = first {
        return Err(first);
    }
    let mut items = items.into_vec();
    items.shrink_to_fit();
    Ok(Items {
        items: Sequence::from_vec(items),
        lists,
    })
}

/// The items of a text, without numbers, or where it does not follow the grammar: at an attribute that does not fit, at an
/// indented line that may not stand there, or at what stands where reading of a line stops. The error is want of memory.
#[tactic(auto, unfolding(crate::specs::Items::items_in_text))]
pub fn read_items<'src>(
    alloc: Global,
    path: &'src str,
    text: &'src str,
    all: &[TextLine<'src>],
) -> Result<Result<Items<'src>, Token<'src>>, AllocError>
    requires lines { all.now ≡ lines_of text.now }
    requires within { All (IsLineOf text.now) all.now }
    ensures is { IfOk result (λ found. found ≡ spec.items_in_text path.now text.now) }
    ensures proper { IfOk result (λ found. IfOk found (λ it. All IsProper it.items)) }
    ensures told { IfOk result (λ found. IfErr found (IsInLine path.now text.now)) }
{
    let mut reading = unread(alloc);
    match add_lines(alloc, path, text, all, &mut reading)? {
        Ok(()) => Ok(finished(reading)),
        Err(at) => Ok(Err(at)),
    }
}
