//! Where reading of a line stops, and what stands there.
ghost use Rattle.std.specs.Prelude.{◌≡◌, IfOk};
ghost use Rattle.just_bench_expressions.specs.Lines.{IsLineOf};
ghost use Rattle.just_bench_stops.specs.Marks.{GoesTo};
ghost use Rattle.just_bench_stops.specs.Stops as spec;

use crate::attributes::attribute;
use crate::definitions::{
    alias_line, assignment_after, assignment_at, function, import, module_line, set, unexport,
};
use crate::halt::Halt;
use crate::heading::heading;
use crate::tokens::{lexemes_between, token_at};
use just_bench_expressions::lexer::lexed_to;
use just_bench_expressions::lines::TextLine;
use just_bench_expressions::spelling::Spelling;
use just_names::Token;
use std::alloc::{AllocError, Global};

/// A kind of lines.
#[derive(Clone, Copy)]
pub enum Form {
    /// A file is imported.
    Import,
    /// A file is a module.
    Module,
    /// A setting.
    Setting,
    /// A variable that is not exported.
    Unexport,
    /// A variable.
    Assignment,
    /// A variable that is exported.
    Export,
    /// A variable that is always evaluated.
    Eager,
    /// A function.
    Function,
    /// Another name for what a path leads to.
    Alias,
    /// An attribute.
    Attribute,
    /// A recipe begins.
    Heading,
}

// The place after a line of a kind.
#[tactic(auto, unfolding(crate::specs::Stops::form_end))]
fn form_end<'src>(spelling: &Spelling<'src>, form: Form) -> Result<usize, Halt>
    ensures { GoesTo result (spec.form_end form spelling.now) }
{
    match form {
        Form::Import => import(spelling.as_slice()),
        Form::Module => module_line(spelling.as_slice()),
        Form::Setting => set(spelling),
        Form::Unexport => unexport(spelling.as_slice()),
        Form::Assignment => assignment_at(spelling, 0),
        Form::Export => assignment_after(spelling, "export"),
        Form::Eager => assignment_after(spelling, "eager"),
        Form::Function => function(spelling),
        Form::Alias => alias_line(spelling),
        Form::Attribute => attribute(spelling),
        Form::Heading => heading(spelling),
    }
}

// The further one of two places.
fn further_of(far: usize, place: usize) -> usize
    ensures { result ≡ spec.further_of far place }
{
    if far <= place { place } else { far }
}

// The place to which a line is read as one of a kind, or one further on.
fn further<'src>(spelling: &Spelling<'src>, form: Form, far: usize) -> Result<usize, AllocError>
    ensures { IfOk result (λ place. place ≡ spec.further spelling.now form far) }
{
    match form_end(spelling, form) {
        Ok(end) => Ok(further_of(far, end)),
        Err(Halt::At(at)) => Ok(further_of(far, at)),
        Err(Halt::Memory) => Err(AllocError),
    }
}

// The place at which reading a line stops.
#[tactic(auto, unfolding(crate::specs::Stops::stop))]
fn stop<'src>(spelling: &Spelling<'src>) -> Result<usize, AllocError>
    ensures { IfOk result (λ place. place ≡ spec.stop spelling.now) }
{
    let far = further(spelling, Form::Import, 0)?;
    let far = further(spelling, Form::Module, far)?;
    let far = further(spelling, Form::Setting, far)?;
    let far = further(spelling, Form::Unexport, far)?;
    let far = further(spelling, Form::Assignment, far)?;
    let far = further(spelling, Form::Export, far)?;
    let far = further(spelling, Form::Eager, far)?;
    let far = further(spelling, Form::Function, far)?;
    let far = further(spelling, Form::Alias, far)?;
    let far = further(spelling, Form::Attribute, far)?;
    further(spelling, Form::Heading, far)
}

/// Where a line that is none of the grammar is told: the first lexeme that no kind of lines goes on with. Where no lexeme
/// stands there it is the rest of the line, which is empty at its end. The error is want of memory.
#[tactic(auto, unfolding(crate::specs::Stops::line_stop), using(crate::proofs::Starts::line_starts))]
pub fn line_stop<'src>(
    alloc: Global,
    path: &'src str,
    text: &'src str,
    line: &TextLine<'src>,
) -> Result<Token<'src>, AllocError>
    requires { IsLineOf text.now line.now }
    ensures { IfOk result (λ token. token ≡ spec.line_stop path.now text.now line.now) }
{
    let end = lexed_to(text, line, 0, line.text.as_str().len());
    let lexemes = lexemes_between(alloc, path, text, line, 0, end)?;
    let spelling = Spelling::new(alloc, lexemes)?;
    let place = stop(&spelling)?;
    Ok(token_at(path, text, line, &spelling, end, place))
}
