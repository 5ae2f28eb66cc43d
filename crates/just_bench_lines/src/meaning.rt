//! What a line says.
ghost use Rattle.std.specs.Prelude.{◌≡◌, ◌≤◌, length, IfOk, IfSome};
ghost use Rattle.std.specs.List.{All};
ghost use Rattle.just_bench_expressions.specs.Lexemes.{HasQuotes};
ghost use Rattle.just_bench_expressions.specs.Lines.{IsLineOf};
ghost use Rattle.just_bench_lines.specs.Meaning as spec;

use crate::alias::{AliasLine, read_alias};
use crate::attributes::{Mark, read_attribute};
use crate::definitions::{read_assignment, read_function, read_set, read_unexport};
use crate::heading::{Heading, read_heading};
use crate::places::{adjoins, literal_at, mark_at, name_at, word_at};
use just_ast_definitions::{Assignment, FunctionDefinition, Set};
use just_ast_expressions::{ListUse, StringLiteral};
use just_bench_expressions::features::list_features;
use just_bench_expressions::lexer::{Kind, Lexeme, is_blank, lex};
use just_bench_expressions::lines::TextLine;
use just_bench_expressions::spelling::Spelling;
use just_data::Sequence;
use just_names::Name;
use std::alloc::{AllocError, Global};

/// What a line means.
#[derive(Drop)]
pub enum Meaning<'src> {
    /// It does not follow the grammar.
    Bad,
    /// Nothing.
    Ignored,
    /// A line of a body.
    Indented,
    /// An attribute of the next recipe or module.
    Marks(Mark<'src>),
    /// A recipe begins.
    Begins(Heading<'src>),
    /// A file is a module.
    Declares(Declaration<'src>),
    /// Another name for what a path leads to.
    Aliases(AliasLine<'src>),
    /// An item that takes no attributes.
    States(Statement<'src>),
}

/// A file as a module, which may be missing where it is optional.
#[derive(Drop)]
pub struct Declaration<'src> {
    /// The name of the module.
    pub name: Name<'src>,
    /// The path of the file, where it is given.
    pub path: Option<StringLiteral<'src>>,
    /// Whether the file may be missing.
    pub optional: bool,
}

/// An item that takes no attributes, without numbers.
#[derive(Drop)]
pub enum Statement<'src> {
    /// A file is imported, which may be missing where it is optional.
    Imports {
        path: StringLiteral<'src>,
        optional: bool,
    },
    /// A setting.
    Sets(Set<'src>),
    /// A variable that is not exported.
    Unexports(Name<'src>),
    /// A variable.
    Assigns(Assignment<'src>),
    /// A function.
    Defines(FunctionDefinition<'src>),
}

/// What a line says, and where it needs lists.
#[derive(Drop)]
pub struct Said<'src> {
    /// What it means.
    pub meaning: Meaning<'src>,
    /// Where it needs lists.
    pub lists: Sequence<ListUse<'src>>,
}

/// Whether the second of two lexemes is a `?` right after the first.
pub fn is_optional<'src>(lexemes: &[Lexeme<'src>]) -> bool
    ensures { result ≡ spec.is_optional lexemes.now }
{
    mark_at(lexemes, 1, Kind::Question) && adjoins(&lexemes[0], &lexemes[1])
}

/// The place after the first word, and after a `?` that belongs to it.
pub fn after_word(optional: bool) -> usize
    ensures { result ≡ spec.after_word optional }
{
    if optional { 2 } else { 1 }
}

// The import that the lexemes of a line are.
fn read_import<'src>(spelling: &Spelling<'src>) -> Result<Option<Statement<'src>>, AllocError>
    ensures { IfOk result (λ found. found ≡ spec.import spelling.now) }
{
    let lexemes = spelling.as_slice();
    if !word_at(lexemes, 0, "import") {
        return Ok(None);
    }
    let optional = is_optional(lexemes);
    let at = after_word(optional);
    let Some(path) = literal_at(spelling, at)? else {
        return Ok(None);
    };
    if at + 1 == lexemes.len() {
        Ok(Some(Statement::Imports { path, optional }))
    } else {
        Ok(None)
    }
}

// The module of this name, which is the rest of the line from a place on.
#[tactic(auto, unfolding(crate::specs::Meaning::declared_module))]
fn module_of<'src>(
    spelling: &Spelling<'src>,
    name: Name<'src>,
    optional: bool,
    at: usize,
) -> Result<Option<Declaration<'src>>, AllocError>
    ensures { IfOk result (λ found. found ≡ spec.declared_module spelling.now name.entry optional at) }
{
    let size = spelling.as_slice().len();
    let path = literal_at(spelling, at)?;
    let end = if path.is_some() { at + 1 } else { at };
    if end == size {
        Ok(Some(Declaration {
            name,
            path,
            optional,
        }))
    } else {
        Ok(None)
    }
}

// The module that the lexemes of a line are.
fn read_module<'src>(spelling: &Spelling<'src>) -> Result<Option<Declaration<'src>>, AllocError>
    ensures { IfOk result (λ found. found ≡ spec.module_line spelling.now) }
{
    let lexemes = spelling.as_slice();
    if !word_at(lexemes, 0, "mod") {
        return Ok(None);
    }
    let optional = is_optional(lexemes);
    let at = after_word(optional);
    match name_at(lexemes, at) {
        Some(name) => module_of(spelling, name, optional, at + 1),
        None => Ok(None),
    }
}

// The variable or the function that the lexemes of a line are.
fn read_definition<'src>(spelling: &Spelling<'src>) -> Result<Option<Statement<'src>>, AllocError>
    ensures { IfOk result (λ found. found ≡ spec.definition spelling.now) }
{
    if let Some(assignment) = read_assignment(spelling)? {
        return Ok(Some(Statement::Assigns(assignment)));
    }
    match read_function(spelling)? {
        Some(function) => Ok(Some(Statement::Defines(function))),
        None => Ok(None),
    }
}

// The item without attributes that the lexemes of a line are.
#[tactic(auto, unfolding(crate::specs::Meaning::statement))]
fn read_statement<'src>(spelling: &Spelling<'src>) -> Result<Option<Statement<'src>>, AllocError>
    ensures { IfOk result (λ found. found ≡ spec.statement spelling.now) }
{
    if let Some(import) = read_import(spelling)? {
        return Ok(Some(import));
    }
    if let Some(set) = read_set(spelling)? {
        return Ok(Some(Statement::Sets(set)));
    }
    match read_unexport(spelling.as_slice()) {
        Some(name) => Ok(Some(Statement::Unexports(name))),
        None => read_definition(spelling),
    }
}

// What the lexemes of a line say.
#[tactic(auto, unfolding(crate::specs::Meaning::sorted))]
fn read_lexemes<'src>(spelling: &Spelling<'src>) -> Result<Meaning<'src>, AllocError>
    ensures { IfOk result (λ found. found ≡ spec.sorted spelling.now) }
{
    if let Some(declaration) = read_module(spelling)? {
        return Ok(Meaning::Declares(declaration));
    }
    if let Some(mark) = read_attribute(spelling)? {
        return Ok(Meaning::Marks(mark));
    }
    if let Some(alias) = read_alias(spelling)? {
        return Ok(Meaning::Aliases(alias));
    }
    if let Some(statement) = read_statement(spelling)? {
        return Ok(Meaning::States(statement));
    }
    match read_heading(spelling)? {
        Some(heading) => Ok(Meaning::Begins(heading)),
        None => Ok(Meaning::Bad),
    }
}

// The place after the bracket that an attribute begins with, or after that of what a setting is set to.
fn after_bracket<'src>(lexemes: &[Lexeme<'src>]) -> usize
    ensures { result ≡ spec.after_bracket lexemes.now }
{
    if word_at(lexemes, 0, "set") && mark_at(lexemes, 2, Kind::Assign) {
        4
    } else {
        1
    }
}

// The uses of lists in a line; the bracket that an attribute begins with is none, nor is that of a setting.
fn lists_of<'src>(
    alloc: Global,
    lexemes: &[Lexeme<'src>],
) -> Result<Sequence<ListUse<'src>>, AllocError>
    ensures { IfOk result (λ lists. lists ≡ spec.lists_of lexemes.now) }
{
    match lexemes.get(after_bracket(lexemes)..) {
        None => Ok(Sequence::new(alloc)),
        Some(rest) => list_features(alloc, rest),
    }
}

// What lexemes say, and where they need lists.
fn said_by<'src>(alloc: Global, lexemes: Sequence<Lexeme<'src>>) -> Result<Said<'src>, AllocError>
    requires { All HasQuotes lexemes }
    ensures { IfOk result (λ said. said ≡ spec.said_by lexemes.entry) }
{
    let lists = lists_of(alloc, lexemes.as_slice())?;
    let spelling = Spelling::new(alloc, lexemes)?;
    let meaning = read_lexemes(&spelling)?;
    Ok(Said { meaning, lists })
}

// What a line says that is not ignored and begins with no blank.
#[tactic(auto, unfolding(crate::specs::Meaning::sharp))]
fn read_sharp<'src>(
    alloc: Global,
    path: &'src str,
    text: &'src str,
    line: &TextLine<'src>,
) -> Result<Option<Said<'src>>, AllocError>
    requires { IsLineOf text.now line.now }
    ensures { IfOk result (λ found. found ≡ spec.sharp path.now text.now line.now) }
{
    let size = line.text.as_str().len();
    let Some(lexemes) = lex(alloc, path, text, line, 0, size)? else {
        return Ok(None);
    };
    Ok(Some(said_by(alloc, lexemes)?))
}

// A line that says this and needs no lists.
fn plain<'src>(alloc: Global, meaning: Meaning<'src>) -> Said<'src>
    ensures { result ≡ spec.plain meaning.entry }
{
    Said {
        meaning,
        lists: Sequence::new(alloc),
    }
}

/// What a line of a text says. The error is want of memory.
#[tactic(auto, unfolding(crate::specs::Meaning::said_by_line))]
pub fn read_line<'src>(
    alloc: Global,
    path: &'src str,
    text: &'src str,
    line: &TextLine<'src>,
) -> Result<Said<'src>, AllocError>
    requires { IsLineOf text.now line.now }
    ensures { IfOk result (λ found. found ≡ spec.said_by_line path.now text.now line.now) }
{
    match line.text.as_str().as_bytes().first() {
        None | Some(b'#') => Ok(plain(alloc, Meaning::Ignored)),
        Some(byte) if is_blank(*byte) => Ok(plain(alloc, Meaning::Indented)),
        Some(_) => match read_sharp(alloc, path, text, line)? {
            Some(said) => Ok(said),
            None => Ok(plain(alloc, Meaning::Bad)),
        },
    }
}
