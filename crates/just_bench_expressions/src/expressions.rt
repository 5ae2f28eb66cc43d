//! Expressions, from lexemes on. A level is the expression as a whole, or what stands between two brackets in it.
ghost use Rattle.std.specs.Prelude.{◌≡◌, ◌<◌, ◌≤◌, ◌+◌, length, drop, IfOk, IfSome, OnOk, true, false};
ghost use Rattle.just_bench_expressions.specs.Lexemes.{HasQuotes, IsQuoted, between_quotes};
ghost use Rattle.just_names.specs.Token.{lexeme as text_of};
ghost use Rattle.just_bench_expressions.specs.Expressions as spec;

use crate::lexer::{Kind, Lexeme};
use crate::spelling::{Spelling, is_plus};
use crate::stack::Stack;
use just_ast_expressions::{Expression, Shape};
use just_data::{Sequence, Shared, Text};
use just_names::Name;
use std::alloc::{AllocError, Global};
use std::mem::replace;

/// What a level stands in.
#[derive(Drop)]
pub enum Bracket<'src> {
    /// `(..)`.
    Group,
    /// `[..]`.
    List,
    /// `name(..)`.
    Call(Name<'src>),
}

/// A level that waits for the end of the one in it.
#[derive(Drop)]
pub struct Level<'src> {
    /// What the level in it stands in.
    pub bracket: Bracket<'src>,
    /// The place of the first lexeme of that.
    pub at: usize,
    /// The elements that were read before it.
    pub elements: Sequence<Expression<'src>>,
    /// The sum that was read before it.
    pub sum: Option<Expression<'src>>,
    /// The place of the first lexeme of the sum, where there is one.
    pub start: usize,
}

/// What may stand next.
#[derive(Clone, Copy, PartialEq, Eq)]
pub enum Ready {
    /// An operand must stand there.
    Wants,
    /// An operand stands there, or the level ends without an element.
    Opens,
    /// The `(` of a call stands there.
    Calls,
    /// An operand was read: a `+`, a comma or the end of the level may follow.
    Read,
}

/// How far an expression was read.
#[derive(Drop)]
pub struct State<'src> {
    /// The levels that wait, the innermost first.
    pub outer: Stack<Level<'src>>,
    /// The elements of the level so far.
    pub elements: Sequence<Expression<'src>>,
    /// The sum of the level so far, that of its last element.
    pub sum: Option<Expression<'src>>,
    /// The place of the first lexeme of the sum, where there is one.
    pub start: usize,
    /// What may stand next.
    pub ready: Ready,
}

/// An expression, and the place of the first lexeme after it.
#[derive(Drop)]
pub struct Found<'src> {
    /// The expression.
    pub made: Expression<'src>,
    /// The place of the first lexeme after it.
    pub end: usize,
}

// Whether a `(` stands there.
fn begins_call<'src>(lexemes: &[Lexeme<'src>], at: usize) -> bool
    ensures { result ≡ spec.opens_call (drop at lexemes.now) }
{
    match lexemes.get(at) {
        Some(lexeme) => matches!(lexeme.kind, Kind::ParenOpen),
        None => false,
    }
}

// Whether a lexeme ends what a bracket begins.
fn closes<'src>(bracket: &Bracket<'src>, kind: Kind) -> bool
    ensures { result ≡ spec.closes bracket.now kind }
{
    match bracket {
        Bracket::Group | Bracket::Call(_) => matches!(kind, Kind::ParenClose),
        Bracket::List => matches!(kind, Kind::BracketClose),
    }
}

// Whether a lexeme ends the level.
fn ends_level<'src>(state: &State<'src>, kind: Kind) -> bool
    ensures { result ≡ spec.ends_level state.now kind }
{
    match state.outer.top() {
        Some(level) => closes(&level.bracket, kind),
        None => false,
    }
}

// Whether the level may have several elements.
fn has_elements<'src>(state: &State<'src>) -> bool
    ensures { result ≡ spec.has_elements state.now }
{
    match state.outer.top() {
        Some(level) => !matches!(level.bracket, Bracket::Group),
        None => false,
    }
}

// Whether the expression ends before a lexeme.
fn stops<'src>(sums: bool, state: &State<'src>, kind: Kind) -> bool
    ensures { result ≡ spec.stops sums state.now kind }
{
    if !matches!(state.ready, Ready::Read) {
        return false;
    }
    match state.outer.top() {
        Some(_) => false,
        None => !(sums && is_plus(kind)),
    }
}

// A form with the spelling of its lexemes.
fn spelled<'src>(
    spelling: &Spelling<'src>,
    start: usize,
    end: usize,
    shape: Shape<'src>,
) -> Result<Expression<'src>, AllocError>
    requires { end ≤ length spelling.now }
    ensures { IfOk result (λ made. made ≡ spec.spelled spelling.now start end shape.entry) }
{
    let text = spelling.excerpt(start, end)?;
    let shape = Shared::new(spelling.alloc(), shape)?;
    Ok(Expression { shape, text })
}

// A sum that begins at `start` with its next part, which ends before `end`.
fn added<'src>(
    spelling: &Spelling<'src>,
    start: usize,
    end: usize,
    sum: Option<Expression<'src>>,
    part: Expression<'src>,
) -> Result<Expression<'src>, AllocError>
    requires { end ≤ length spelling.now }
    ensures { IfOk result (λ made. made ≡ spec.added spelling.now start end sum.entry part.entry) }
{
    let Some(sum) = sum else {
        return Ok(part);
    };
    let shape = Shape::Concatenation {
        lhs: sum,
        rhs: part,
    };
    spelled(spelling, start, end, shape)
}

// Puts an operand, whose lexemes are those from `start` to `end`, at the end of the sum.
fn add_operand<'src>(
    spelling: &Spelling<'src>,
    start: usize,
    end: usize,
    state: &mut State<'src>,
    part: Expression<'src>,
) -> Result<(), AllocError>
    requires { end ≤ length spelling.now }
    ensures { OnOk result (state.new ≡ spec.with_operand spelling.now start end state.old part.entry) }
{
    let start = if state.sum.is_some() {
        state.start
    } else {
        start
    };
    let sum = added(spelling, start, end, state.sum.take(), part)?;
    state.sum = Some(sum);
    state.start = start;
    state.ready = Ready::Read;
    Ok(())
}

// Puts an operand of this form, whose lexemes are those from `start` to `end`, at the end of the sum.
#[tactic(auto, unfolding(crate::specs::Expressions::with_shape))]
fn add_shape<'src>(
    spelling: &Spelling<'src>,
    start: usize,
    end: usize,
    state: &mut State<'src>,
    shape: Shape<'src>,
) -> Result<(), AllocError>
    requires { end ≤ length spelling.now }
    ensures { OnOk result (state.new ≡ spec.with_shape spelling.now start end state.old shape.entry) }
{
    let part = spelled(spelling, start, end, shape)?;
    add_operand(spelling, start, end, state, part)
}

// Begins a level.
#[tactic(auto, unfolding(crate::specs::Expressions::opened_level))]
fn open<'src>(
    spelling: &Spelling<'src>,
    at: usize,
    state: &mut State<'src>,
    bracket: Bracket<'src>,
    ready: Ready,
) -> Result<(), AllocError>
    ensures { OnOk result (state.new ≡ spec.opened_level at state.old bracket.entry ready) }
{
    let elements = replace(&mut state.elements, Sequence::new(spelling.alloc()));
    let sum = state.sum.take();
    state.outer.push(Level {
        bracket,
        at,
        elements,
        sum,
        start: state.start,
    })?;
    state.start = 0;
    state.ready = ready;
    Ok(())
}

// The text between the quotes of a quoted text.
fn cooked<'src>(alloc: Global, lexeme: &Lexeme<'src>) -> Result<Text, AllocError>
    requires { IsQuoted (text_of lexeme.now.token) }
    ensures { IfOk result (λ text. text ≡ between_quotes (text_of lexeme.now.token)) }
{
    let text = lexeme.token.lexeme();
    Text::from_str(alloc, &text[1..text.len() - 1])
}

// Takes a name, which is a variable, or a function where a `(` follows it.
fn begin_name<'src>(
    spelling: &Spelling<'src>,
    at: usize,
    end: usize,
    state: &mut State<'src>,
    lexeme: &Lexeme<'src>,
    calls: bool,
) -> Result<(), AllocError>
    requires { end ≤ length spelling.now }
    ensures { OnOk result (state.new ≡ spec.named_expression spelling.now at end state.old lexeme.now calls) }
{
    let name = Name {
        token: lexeme.token.copied(),
    };
    if calls {
        return open(spelling, at, state, Bracket::Call(name), Ready::Calls);
    }
    let shape = Shape::Variable { name, number: None };
    add_shape(spelling, at, end, state, shape)
}

// Takes a lexeme that stands where an operand must, or answers that none begins with it.
#[tactic(auto, unfolding(crate::specs::Expressions::begun_expression))]
fn begin<'src>(
    spelling: &Spelling<'src>,
    at: usize,
    end: usize,
    state: &mut State<'src>,
    lexeme: &Lexeme<'src>,
    calls: bool,
) -> Result<bool, AllocError>
    requires within { end ≤ length spelling.now }
    requires quoted { HasQuotes lexeme.now }
    ensures { IfOk result (λ fits. spec.told fits state.new ≡ spec.begun_expression spelling.now at end state.old lexeme.now calls) }
{
    match lexeme.kind {
        Kind::Quoted => {
            let cooked = cooked(spelling.alloc(), lexeme)?;
            let shape = Shape::StringLiteral { cooked };
            add_shape(spelling, at, end, state, shape)?;
        }
        Kind::Name => begin_name(spelling, at, end, state, lexeme, calls)?,
        Kind::ParenOpen => open(spelling, at, state, Bracket::Group, Ready::Wants)?,
        Kind::BracketOpen => open(spelling, at, state, Bracket::List, Ready::Opens)?,
        _ => return Ok(false),
    }
    Ok(true)
}

// The elements of a level, of which the last is a sum.
fn and_sum<'src>(
    elements: Sequence<Expression<'src>>,
    sum: Option<Expression<'src>>,
) -> Result<Sequence<Expression<'src>>, AllocError>
    ensures { IfOk result (λ all. all ≡ spec.and_sum elements.entry sum.entry) }
{
    let mut elements = elements;
    match sum {
        Some(sum) => {
            elements.push(sum)?;
            Ok(elements)
        }
        None => Ok(elements),
    }
}

// The form of a bracket and what stands in it.
fn shape_of<'src>(
    bracket: Bracket<'src>,
    elements: Sequence<Expression<'src>>,
    sum: Option<Expression<'src>>,
) -> Result<Option<Shape<'src>>, AllocError>
    ensures { IfOk result (λ shape. shape ≡ spec.shape_of bracket.entry elements.entry sum.entry) }
{
    match bracket {
        Bracket::Group => {
            let Some(sum) = sum else {
                return Ok(None);
            };
            Ok(Some(Shape::Group { contents: sum }))
        }
        Bracket::List => {
            let elements = and_sum(elements, sum)?;
            Ok(Some(Shape::List { elements }))
        }
        Bracket::Call(name) => {
            let arguments = and_sum(elements, sum)?;
            Ok(Some(Shape::Call { name, arguments }))
        }
    }
}

// Ends the level with its last lexeme, or answers that it may not end there.
#[tactic(auto, unfolding(crate::specs::Expressions::closed))]
fn close<'src>(
    spelling: &Spelling<'src>,
    end: usize,
    state: &mut State<'src>,
) -> Result<bool, AllocError>
    requires { end ≤ length spelling.now }
    ensures { IfOk result (λ fits. spec.told fits state.new ≡ spec.closed spelling.now end state.old) }
{
    let Some(level) = state.outer.pop() else {
        return Ok(false);
    };
    let Level {
        bracket,
        at,
        elements,
        sum,
        start,
    } = level;
    let elements = replace(&mut state.elements, elements);
    let sum = replace(&mut state.sum, sum);
    state.start = start;
    let Some(shape) = shape_of(bracket, elements, sum)? else {
        return Ok(false);
    };
    add_shape(spelling, at, end, state, shape)?;
    Ok(true)
}

// Begins the next element of the level.
fn next_element<'src>(state: &mut State<'src>) -> Result<(), AllocError>
    ensures { OnOk result (state.new ≡ spec.next_element state.old) }
{
    if let Some(sum) = state.sum.take() {
        state.elements.push(sum)?;
    }
    state.start = 0;
    state.ready = Ready::Wants;
    Ok(())
}

// Takes a lexeme that follows an operand, or answers that it may not follow it.
#[tactic(auto, unfolding(crate::specs::Expressions::followed))]
fn follow<'src>(
    spelling: &Spelling<'src>,
    end: usize,
    state: &mut State<'src>,
    kind: Kind,
) -> Result<bool, AllocError>
    requires { end ≤ length spelling.now }
    ensures { IfOk result (λ fits. spec.told fits state.new ≡ spec.followed spelling.now end state.old kind) }
{
    if ends_level(state, kind) {
        return close(spelling, end, state);
    }
    match kind {
        Kind::Plus => {
            state.ready = Ready::Wants;
            Ok(true)
        }
        Kind::Comma => {
            if !has_elements(state) {
                return Ok(false);
            }
            next_element(state)?;
            Ok(true)
        }
        _ => Ok(false),
    }
}

// Takes a lexeme, or answers that it may not stand there.
#[tactic(auto, unfolding(crate::specs::Expressions::read_step))]
fn step<'src>(
    spelling: &Spelling<'src>,
    at: usize,
    end: usize,
    state: &mut State<'src>,
    lexeme: &Lexeme<'src>,
    calls: bool,
) -> Result<bool, AllocError>
    requires within { end ≤ length spelling.now }
    requires quoted { HasQuotes lexeme.now }
    ensures { IfOk result (λ fits. spec.told fits state.new ≡ spec.read_step spelling.now at end state.old lexeme.now calls) }
{
    match state.ready {
        Ready::Wants => begin(spelling, at, end, state, lexeme, calls),
        Ready::Opens => {
            if ends_level(state, lexeme.kind) {
                return close(spelling, end, state);
            }
            begin(spelling, at, end, state, lexeme, calls)
        }
        Ready::Calls => {
            state.ready = Ready::Opens;
            Ok(true)
        }
        Ready::Read => follow(spelling, end, state, lexeme.kind),
    }
}

// The expression that was read up to a place, if it is whole.
fn finished<'src>(at: usize, state: State<'src>) -> Option<Found<'src>>
    ensures { result ≡ spec.finished at state.entry }
{
    if !matches!(state.ready, Ready::Read) {
        return None;
    }
    if state.outer.top().is_some() {
        return None;
    }
    let made = state.sum?;
    Some(Found { made, end: at })
}

// Reads on from a place to where the expression ends, or answers the place of a lexeme that may not stand where it does.
#[tactic(auto, using(crate::proofs::Reading::reading_step, crate::proofs::Reading::reading_fails, crate::proofs::Reading::reading_stops, crate::proofs::Reading::reading_ends, crate::proofs::Ending::ending_step, crate::proofs::Ending::ending_fails, crate::proofs::Ending::ending_stops, crate::proofs::Ending::ending_ends))]
fn advance<'src>(
    spelling: &Spelling<'src>,
    start: usize,
    sums: bool,
    state: &mut State<'src>,
) -> Result<Result<usize, usize>, AllocError>
    ensures is { IfOk result (λ end. spec.read_up_to end state.new ≡ spec.read sums spelling.now start state.old (drop start spelling.now)) }
    ensures end { IfOk result (λ end. spec.ended end state.new ≡ spec.read_end sums spelling.now start state.old (drop start spelling.now)) }
{
    let lexemes = spelling.as_slice();
    let mut at = start;
    while at < lexemes.len() {
        let lexeme = &lexemes[at];
        if stops(sums, state, lexeme.kind) {
            return Ok(Ok(at));
        }
        let calls = begins_call(lexemes, at + 1);
        if !step(spelling, at, at + 1, state, lexeme, calls)? {
            return Ok(Err(at));
        }
        at += 1;
    }
    Ok(Ok(at))
}

// Nothing was read.
fn unread<'src>(alloc: Global) -> State<'src>
    ensures { result ≡ spec.unread }
{
    State {
        outer: Stack::new(alloc),
        elements: Sequence::new(alloc),
        sum: None,
        start: 0,
        ready: Ready::Wants,
    }
}

// The expression that begins at a place, with its sum or without.
#[tactic(auto, unfolding(crate::specs::Expressions::expression))]
fn read<'src>(
    spelling: &Spelling<'src>,
    start: usize,
    sums: bool,
) -> Result<Option<Found<'src>>, AllocError>
    ensures { IfOk result (λ found. found ≡ spec.expression sums spelling.now start) }
{
    let mut state = unread(spelling.alloc());
    match advance(spelling, start, sums, &mut state)? {
        Ok(end) => Ok(finished(end, state)),
        Err(_) => Ok(None),
    }
}

/// The expression that begins at a place among lexemes, as far as it goes, or `None` where none does. The error is want
/// of memory.
pub fn read_expression<'src>(
    spelling: &Spelling<'src>,
    start: usize,
) -> Result<Option<Found<'src>>, AllocError>
    ensures is { IfOk result (λ found. found ≡ spec.expression true spelling.now start) }
    ensures within { IfOk result (λ found. IfSome found (λ f. f.end ≤ length spelling.now)) }
    ensures after { IfOk result (λ found. IfSome found (λ f. start + 1 ≤ f.end)) }
{
    read(spelling, start, true)
}

/// The operand that begins at a place among lexemes: an expression that is no sum. The error is want of memory.
pub fn read_operand<'src>(
    spelling: &Spelling<'src>,
    start: usize,
) -> Result<Option<Found<'src>>, AllocError>
    ensures is { IfOk result (λ found. found ≡ spec.expression false spelling.now start) }
    ensures within { IfOk result (λ found. IfSome found (λ f. f.end ≤ length spelling.now)) }
    ensures after { IfOk result (λ found. IfSome found (λ f. start + 1 ≤ f.end)) }
{
    read(spelling, start, false)
}

// Where the expression ends that begins at a place, or where reading it stops.
#[tactic(auto, unfolding(crate::specs::Expressions::expression_end))]
fn end_of<'src>(
    spelling: &Spelling<'src>,
    start: usize,
    sums: bool,
) -> Result<Result<usize, usize>, AllocError>
    ensures { IfOk result (λ end. end ≡ spec.expression_end sums spelling.now start) }
{
    let mut state = unread(spelling.alloc());
    let at = match advance(spelling, start, sums, &mut state)? {
        Ok(at) => at,
        Err(at) => return Ok(Err(at)),
    };
    match finished(at, state) {
        Some(_) => Ok(Ok(at)),
        None => Ok(Err(at)),
    }
}

/// Where the expression ends that begins at a place among lexemes, with its sum or without: the place after it. The inner
/// error is where reading stops: the place of the first lexeme that it does not go on with, or the end where it is not
/// whole. The outer error is want of memory.
pub fn expression_end<'src>(
    spelling: &Spelling<'src>,
    start: usize,
    sums: bool,
) -> Result<Result<usize, usize>, AllocError>
    ensures is { IfOk result (λ end. end ≡ spec.expression_end sums spelling.now start) }
    ensures agrees { IfOk result (spec.EndsWith (spec.expression sums spelling.now start)) }
    ensures within { IfOk result (λ end. IfOk end (λ e. e ≤ length spelling.now)) }
    ensures after { IfOk result (λ end. IfOk end (λ e. start + 1 ≤ e)) }
{
    end_of(spelling, start, sums)
}
