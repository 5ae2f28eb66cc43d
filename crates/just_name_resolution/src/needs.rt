//! What variables an expression needs, by their numbers.

ghost use Rattle.std.specs.Prelude.{◌≡◌, ◌≤◌, ◌∷◌, [], is_some, map, IfOk, IfSome, OnErr, OnOk};
ghost use Rattle.std.specs.HashSet.{contains, hash_set_len, spare};
ghost use Rattle.std.specs.Str.{bytes_eq};
ghost use Rattle.just_names.specs.Name.{text_of_name};
ghost use Rattle.just_parts.specs.Needs.{AreNeeded, AreNeededBy, Gains, GainsAll, GainsThose, HaveNumbersApart, IsSame, has_number, same_number};
ghost use Rattle.just_name_resolution.specs.Called.{AreBodiesRead, GainsCalled, IsWholeSearch};
ghost use Rattle.just_name_resolution.specs.loops.Search.{Looks, LooksAtCall, LooksAtName, IsSearchFrom, found_in, hidden_by, scoped_of};
ghost use Rattle.just_ast_references.specs.Mentions.{mention_of};
ghost use Rattle.just_table.specs.Entries.{find};
ghost use Rattle.just_parts.specs.Known.{hides};
ghost use Rattle.just_name_resolution.specs.Lent.{tables_in};
ghost use Rattle.just_parts.specs.Reading.{Reads, mentions};

use crate::name_checks::hidden_names;
use just_ast_references::{Reference, References};
use just_data::{BorrowedText, Text};
use just_parts::layers::{
    Assignment, Expression, FunctionDefinition, FunctionParameter, Name, Number,
};
use just_table::Table;
use std::alloc::{AllocError, Global};
use std::collections::{HashMap, HashSet};

/// The variables and the functions of a module, each under its name.
#[derive(Drop)]
pub struct Tables<'a, 'src> {
    /// The variables.
    pub assignments: &'a Table<'src, Assignment<'src>>,
    /// The functions.
    pub functions: &'a Table<'src, FunctionDefinition<'src>>,
}

// An expression, and the parameters in whose scope it stands: none for the value of a variable.
#[derive(Drop)]
struct Waiting<'w, 'src> {
    expression: &'w Expression<'src>,
    parameters: Option<&'w [FunctionParameter<'src>]>,
}

// What a search has found beside what was there before it.
#[derive(Drop)]
struct Search<'w, 'src> {
    // the numbers of variables
    numbers: HashSet<Number>,
    // the functions whose bodies are looked into
    functions: HashSet<BorrowedText<'src>>,
    // what is looked into next
    stack: Vec<Waiting<'w, 'src>>,
}

// Looks at a call: the body of a function of the module that is not found yet waits.
fn look_at_call<'w, 'a, 'src>(
    tables: &'w Tables<'a, 'src>,
    visited: &HashSet<BorrowedText<'src>>,
    name: &Name<'src>,
    search: &mut Search<'w, 'src>,
) -> Result<(), AllocError>
    ensures { let m = tables_in tables.now in
        OnOk result (LooksAtCall m (contains bytes_eq visited.now) (text_of_name name.now) search.old search.new) }
{
    let Some(function) = tables.functions.get(name.lexeme()) else {
        return Ok(());
    };
    let name = BorrowedText::new(name.lexeme());
    if visited.contains(&name) {
        return Ok(());
    }
    if search.functions.contains(&name) {
        return Ok(());
    }
    search.functions.insert(name)?;
    let body = Waiting {
        expression: &function.body,
        parameters: Some(function.parameters.as_slice()),
    };
    search.stack.push(body)?;
    Ok(())
}

// Looks at a variable that is not hidden: one that is not found yet is found, and its value waits unless it is overridden.
fn look_at_name<'w, 'a, 'src>(
    tables: &'w Tables<'a, 'src>,
    overrides: &HashMap<Number, Text>,
    references: &HashSet<Number>,
    name: &Name<'src>,
    search: &mut Search<'w, 'src>,
) -> Result<(), AllocError>
    ensures { let m = tables_in tables.now in
        OnOk result (LooksAtName m (has_number overrides.now) (contains same_number references.now) (text_of_name name.now) search.old search.new) }
{
    let Some(assignment) = tables.assignments.get(name.lexeme()) else {
        return Ok(());
    };
    let number = assignment.number;
    if references.contains(&number) {
        return Ok(());
    }
    if search.numbers.contains(&number) {
        return Ok(());
    }
    search.numbers.insert(number)?;
    if overrides.contains_key(&number) {
        return Ok(());
    }
    let value = Waiting {
        expression: &assignment.value,
        parameters: None,
    };
    search.stack.push(value)?;
    Ok(())
}

// Looks at a call or a variable.
fn look_at<'w, 'a, 'src>(
    tables: &'w Tables<'a, 'src>,
    overrides: &HashMap<Number, Text>,
    references: &HashSet<Number>,
    visited: &HashSet<BorrowedText<'src>>,
    hidden: &HashSet<BorrowedText<'src>>,
    reference: &Reference<'src>,
    search: &mut Search<'w, 'src>,
) -> Result<(), AllocError>
    ensures { let m = tables_in tables.now in
        let found = found_in (contains same_number references.now) (contains bytes_eq visited.now) in
        let looks = Looks m (has_number overrides.now) (contains bytes_eq hidden.now) in
        OnOk result (looks (mention_of reference.now ∷ []) (found search.old) (found search.new)) }
{
    match reference {
        Reference::Call { name, .. } => look_at_call(tables, visited, name, search),
        Reference::Variable { name } => {
            if hidden.contains(&BorrowedText::new(name.lexeme())) {
                return Ok(());
            }
            look_at_name(tables, overrides, references, name, search)
        }
    }
}

// The names that are hidden in an expression.
fn hidden_in<'w, 'src>(
    alloc: Global,
    waiting: &Waiting<'w, 'src>,
) -> Result<HashSet<BorrowedText<'src>>, AllocError>
    ensures { IfOk result (λ names. IsSame (hidden_by waiting.now.parameters) (contains bytes_eq names)) }
{
    match waiting.parameters {
        Some(parameters) => hidden_names(alloc, parameters),
        None => Ok(HashSet::new(alloc)),
    }
}

// Looks into an expression under its parameters.
fn look_into<'w, 'a, 'src>(
    alloc: Global,
    tables: &'w Tables<'a, 'src>,
    overrides: &HashMap<Number, Text>,
    references: &HashSet<Number>,
    visited: &HashSet<BorrowedText<'src>>,
    waiting: &Waiting<'w, 'src>,
    search: &mut Search<'w, 'src>,
) -> Result<(), AllocError>
    ensures { let m = tables_in tables.now in
        let found = found_in (contains same_number references.now) (contains bytes_eq visited.now) in
        let said = mentions waiting.now.expression.now in
        OnOk result (Looks m (has_number overrides.now) (hidden_by waiting.now.parameters) said (found search.old) (found search.new)) }
{
    let hidden = hidden_in(alloc, waiting)?;
    for reference in References::new(alloc, waiting.expression)? {
        look_at(
            tables, overrides, references, visited, &hidden, &reference, search,
        )?;
    }
    Ok(())
}

// Searches from what waits until nothing does.
fn search_from<'w, 'a, 'src>(
    alloc: Global,
    tables: &'w Tables<'a, 'src>,
    overrides: &HashMap<Number, Text>,
    references: &HashSet<Number>,
    visited: &HashSet<BorrowedText<'src>>,
    stack: Vec<Waiting<'w, 'src>>,
) -> Result<Search<'w, 'src>, AllocError>
    ensures found { let m = tables_in tables.now in
        let old = contains same_number references.now in
        let visited = contains bytes_eq visited.now in
        IfOk result (λ search. IsSearchFrom m (has_number overrides.now) (map scoped_of stack.entry.items) old visited (found_in old visited search)) }
    ensures over { IfOk result (λ search. search.stack.items ≡ []) }
{
    let mut search = Search {
        numbers: HashSet::new(alloc),
        functions: HashSet::new(alloc),
        stack,
    };
    while let Some(next) = search.stack.pop() {
        look_into(
            alloc,
            tables,
            overrides,
            references,
            visited,
            &next,
            &mut search,
        )?;
    }
    Ok(search)
}

// Adds numbers to others, for which there is room.
fn add_numbers(numbers: HashSet<Number>, references: &mut HashSet<Number>)
    requires { hash_set_len numbers ≤ spare references.old }
    ensures { GainsThose (contains same_number numbers) (contains same_number references.old) (contains same_number references.new) }
{
    for number in numbers {
        let Ok(_) = references.insert(number) else {
            unreachable!()
        };
    }
}

// Adds the names of functions to others, for which there is room.
fn add_functions<'src>(
    functions: HashSet<BorrowedText<'src>>,
    visited: &mut HashSet<BorrowedText<'src>>,
)
    requires { hash_set_len functions ≤ spare visited.old }
    ensures { GainsThose (contains bytes_eq functions.entry) (contains bytes_eq visited.old) (contains bytes_eq visited.new) }
{
    for function in functions {
        let Ok(_) = visited.insert(function) else {
            unreachable!()
        };
    }
}

/// Adds the numbers of the variables that an expression needs under parameters: those that it reads, also through
/// functions, and of each that is not overridden those that it reads in turn. `visited` has the functions whose bodies
/// were looked into already: they are not looked into again, and those that are called from the expression are added, also
/// those that functions and the values of needed variables call. Nothing is missed where the two sets belong together, as
/// empty ones do, and they still do afterwards. Where memory is refused, both sets have what they had.
pub fn collect_references<'a, 'src>(
    alloc: Global,
    tables: &Tables<'a, 'src>,
    overrides: &HashMap<Number, Text>,
    expression: &Expression<'src>,
    parameters: &[FunctionParameter<'src>],
    references: &mut HashSet<Number>,
    visited: &mut HashSet<BorrowedText<'src>>,
) -> Result<(), AllocError>
    ensures gains { let m = tables_in tables.now in
        let start = Reads m (hides parameters.now) expression.now in
        OnOk result (Gains m (has_number overrides.now) start (contains same_number references.old) (contains same_number references.new)) }
    ensures all { let m = tables_in tables.now in
        let start = Reads m (hides parameters.now) expression.now in
        let old = contains same_number references.old in
        let gains_all = GainsAll m (has_number overrides.now) start old (contains same_number references.new) in
        OnOk result (AreBodiesRead m old (contains bytes_eq visited.old) → gains_all) }
    ensures visited { let m = tables_in tables.now in
        let gains = GainsCalled m (has_number overrides.now) (contains same_number references.old) (hides parameters.now) expression.now in
        OnOk result (gains (contains bytes_eq visited.old) (contains bytes_eq visited.new)) }
    ensures whole { let m = tables_in tables.now in
        let whole = IsWholeSearch m (has_number overrides.now) in
        let before = whole (contains same_number references.old) (contains bytes_eq visited.old) in
        OnOk result (HaveNumbersApart m → before → whole (contains same_number references.new) (contains bytes_eq visited.new)) }
    ensures refused { OnErr result (IsSame (contains same_number references.old) (contains same_number references.new)) }
    ensures refused_visited { OnErr result (IsSame (contains bytes_eq visited.old) (contains bytes_eq visited.new)) }
{
    let first = Waiting {
        expression,
        parameters: Some(parameters),
    };
    let mut stack = Vec::new(alloc);
    stack.push(first)?;
    let found = search_from(alloc, tables, overrides, &*references, &*visited, stack)?;
    let Search {
        numbers,
        functions,
        ..
    } = found;
    references.reserve(numbers.len())?;
    visited.reserve(functions.len())?;
    add_numbers(numbers, references);
    add_functions(functions, visited);
    Ok(())
}

/// The numbers of what a variable needs: its own, and unless it is overridden those of what it reads, and so on. None
/// where no variable has the name.
pub fn assignment_references<'a, 'src>(
    alloc: Global,
    tables: &Tables<'a, 'src>,
    overrides: &HashMap<Number, Text>,
    name: &str,
) -> Result<Option<HashSet<Number>>, AllocError>
    ensures found { IfOk result (λ found. is_some found ≡ is_some (find name.now tables.now.assignments.now)) }
    ensures needed { let m = tables_in tables.now in
        IfOk result (λ found. IfSome found (λ set. AreNeeded m (has_number overrides.now) name.now (contains same_number set))) }
{
    let Some(assignment) = tables.assignments.get(name) else {
        return Ok(None);
    };
    let mut references = HashSet::new(alloc);
    if !overrides.contains_key(&assignment.number) {
        let parameters = Vec::new(alloc);
        let mut visited = HashSet::new(alloc);
        collect_references(
            alloc,
            tables,
            overrides,
            &assignment.value,
            parameters.as_slice(),
            &mut references,
            &mut visited,
        )?;
    }
    references.insert(assignment.number)?;
    Ok(Some(references))
}

/// The numbers of the variables that these expressions need: those that one of them reads, and whatever such a one reads,
/// unless it is overridden, and so on. No parameters are in scope.
pub fn needed_references<'e, 'a, 'src>(
    alloc: Global,
    tables: &Tables<'a, 'src>,
    overrides: &HashMap<Number, Text>,
    expressions: &Vec<&'e Expression<'src>>,
) -> Result<HashSet<Number>, AllocError>
    ensures needed { let m = tables_in tables.now in
        IfOk result (λ found. AreNeededBy m (has_number overrides.now) (map (λ e. e.now) expressions.now.items) (contains same_number found)) }
{
    let references = HashSet::new(alloc);
    let visited = HashSet::new(alloc);
    let mut stack = Vec::with_capacity(alloc, expressions.len())?;
    for place in 0..expressions.len() {
        stack.push(Waiting {
            expression: &*expressions[place],
            parameters: None,
        })?;
    }
    let found = search_from(alloc, tables, overrides, &references, &visited, stack)?;
    let Search { numbers, .. } = found;
    Ok(numbers)
}
