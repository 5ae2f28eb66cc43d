//! Where the values of names are looked up, and what is told where there is none.
ghost use Rattle.std.specs.Prelude.{◌≡◌, List, None};
ghost use Rattle.std.specs.Option.{option_copied, option_or};
ghost use Rattle.just_names.specs.Texts as path;
ghost use Rattle.just_parts.specs.Evaluator.{FaultsAt, scope_values};
ghost use Rattle.just_parts.specs.Told.{IsToldIn, nowhere};
ghost use Rattle.just_table.specs.Entries.{find};
ghost use Rattle.just_bench_values.specs.Lookup.{constant_values, functions_in, local_values, number_value, variable_values};
ghost use Rattle.just_bench_values.specs.loops.Lookup.{IsToldAt, named_so};
ghost use Rattle.just_bench_values.specs.Values.{bound};

use just_data::{BorrowedText, Sequence, Text};
use just_parts::layers::{
    Assignment, Binding, CompileError, CompileErrorKind, Error, Fault, FunctionDefinition,
    FunctionParameter, Number, Scope, Token,
};
use just_table::{Keyed, Table};
use std::alloc::Global;

/// A constant, which is found by its name.
#[derive(Drop)]
pub struct Constant<'src> {
    /// What it is bound to.
    pub binding: Binding<'src>,
}

impl<'src> Keyed<'src> for Constant<'src> {
    ghost use Rattle.just_names.specs.Token.{lexeme};

    ghost key_of = { λ constant. lexeme constant.binding.name.token };

    fn key(&self) -> &'src str {
        self.binding.name.lexeme()
    }
}

/// The functions that may be called.
#[derive(Clone, Copy)]
pub struct Functions<'a, 'src> {
    /// Those of the module, by their names.
    pub table: &'a Table<'src, FunctionDefinition<'src>>,
    /// One that its name means where the module has none of that name.
    pub builtin: Option<&'a FunctionDefinition<'src>>,
}

impl<'a, 'src> Functions<'a, 'src> {
    /// The function of a name.
    pub fn get(&self, name: &str) -> Option<&'a FunctionDefinition<'src>>
        ensures { option_copied result ≡ find name.now (functions_in self.now) }
    {
        let found = self.table.get(name);
        match self.builtin {
            Some(builtin) => found_or(found, builtin, name),
            None => found,
        }
    }
}

// The function that is found, or else another of this name.
fn found_or<'a, 'src>(
    found: Option<&'a FunctionDefinition<'src>>,
    other: &'a FunctionDefinition<'src>,
    name: &str,
) -> Option<&'a FunctionDefinition<'src>>
    ensures { option_copied result ≡ option_or (option_copied found.entry) (named_so other.now name.now) }
{
    if found.is_some() {
        return found;
    }
    if name == other.name.lexeme() {
        return Some(other);
    }
    None
}

/// The variables of a module, which a scope binds by their numbers.
#[derive(Clone, Copy)]
pub struct Variables<'a, 'src> {
    /// The variables, by their names.
    pub assignments: &'a Table<'src, Assignment<'src>>,
    /// What binds their numbers.
    pub scope: &'a Scope<'src>,
}

impl<'a, 'src> Variables<'a, 'src> {
    // The value of a variable.
    fn get(&self, name: &str) -> Option<&'a Sequence<Text>>
        ensures { option_copied result ≡ variable_values self.now.assignments.now self.now.scope.now name.now }
    {
        let assignment = self.assignments.get(name)?;
        numbered_in(self.scope, assignment.number)
    }
}

/// The constants among which an expression is evaluated.
#[derive(Clone, Copy)]
pub enum Constants<'a, 'src> {
    /// Those of a scope.
    Listed(&'a Scope<'src>),
    /// Those of a table, which is not complete yet.
    Tabled(&'a Table<'src, Constant<'src>>),
    /// The variables of a module, by their numbers.
    Numbered(Variables<'a, 'src>),
}

impl<'a, 'src> Constants<'a, 'src> {
    /// The value of a constant.
    pub fn get(&self, name: &str) -> Option<&'a Sequence<Text>>
        ensures { option_copied result ≡ constant_values self.now name.now }
    {
        match self {
            Constants::Listed(scope) => bound_in(scope, name),
            Constants::Tabled(table) => match table.get(name) {
                Some(constant) => Some(&constant.binding.value),
                None => None,
            },
            Constants::Numbered(variables) => variables.get(name),
        }
    }
}

/// The arguments of a function that is called.
#[derive(Drop)]
pub struct Arguments<'a, 'src> {
    /// The parameters.
    pub parameters: &'a [FunctionParameter<'src>],
    /// Their values.
    pub values: Sequence<Sequence<Text>>,
}

/// What hides constants.
#[derive(Drop)]
pub enum Locals<'a, 'src> {
    /// Parameters, each with the value at its place.
    Arguments(Arguments<'a, 'src>),
    /// The names of a scope.
    Bindings(&'a Scope<'src>),
}

impl<'a, 'src> Locals<'a, 'src> {
    /// The value of a name.
    pub fn get(&self, name: &str) -> Option<&Sequence<Text>>
        ensures { option_copied result ≡ local_values self.now name.now }
    {
        match self {
            Locals::Arguments(arguments) => {
                argument_of(arguments.parameters, arguments.values.as_slice(), name)
            }
            Locals::Bindings(scope) => bound_in(scope, name),
        }
    }
}

// The value that a scope binds a name to.
fn bound_in<'a, 'src>(scope: &'a Scope<'src>, name: &str) -> Option<&'a Sequence<Text>>
    ensures { option_copied result ≡ scope_values scope.now name.now }
{
    for binding in scope.bindings.iter() {
        if binding.name.lexeme() == name {
            return Some(&binding.value);
        }
    }
    None
}

// The value that a scope binds a number to.
fn numbered_in<'a, 'src>(scope: &'a Scope<'src>, number: Number) -> Option<&'a Sequence<Text>>
    ensures { option_copied result ≡ number_value scope.now number }
{
    for binding in scope.bindings.iter() {
        if binding.number == number {
            return Some(&binding.value);
        }
    }
    None
}

// The value of a parameter, where each has the argument at its place.
fn argument_of<'a, 'src>(
    parameters: &[FunctionParameter<'src>],
    arguments: &'a [Sequence<Text>],
    name: &str,
) -> Option<&'a Sequence<Text>>
    ensures { option_copied result ≡ bound parameters.now arguments.now name.now }
{
    for place in 0..parameters.len() {
        if place >= arguments.len() {
            return None;
        }
        if parameters[place].name.lexeme() == name {
            return Some(&arguments[place]);
        }
    }
    None
}

/// What is told where there is no value, at a token.
pub fn fault<'src>(alloc: Global, token: &Token<'src>, message: &str) -> Error<'src>
    ensures none { FaultsAt {A = List path.Text} None result }
    ensures told { IsToldAt token.now message.now result }
    ensures place { IsToldIn (λ place. place ≡ token.now) result }
{
    match Text::from_str(alloc, message) {
        Ok(message) => Error::Compile(CompileError {
            token: token.copied(),
            kind: CompileErrorKind::Evaluate(Fault { message }),
        }),
        Err(_) => Error::Memory,
    }
}

/// What is told of an expression that the grammar does not have. It has no name: the place is an empty text.
pub fn fault_nowhere<'src>(alloc: Global) -> Error<'src>
    ensures none { FaultsAt {A = List path.Text} None result }
    ensures place { IsToldIn (λ place. place ≡ nowhere) result }
{
    let token = Token::new(0, 0, 0, 0, BorrowedText::new(""), BorrowedText::new(""));
    fault(
        alloc,
        &token,
        "An expression of this form has no value here",
    )
}
