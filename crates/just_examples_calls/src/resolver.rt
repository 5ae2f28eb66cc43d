//! The calls that resolve names in expressions. They are given the variables and functions of a text, and asked of the
//! defaults of the parameters of its recipes: those of a recipe `f` stand under the parameters of the function `f`, if there
//! is one.
use crate::halves;
use just_ast_references::{Reference, References};
use just_bench_reading::parse;
use just_bench_syntax::PlainSyntax;
use just_data::{BorrowedText, Sequence, Text, copied};
use just_examples_format::faults::unless_fault;
use just_module_variables::VariableResolver;
use just_parts::UnresolvedRecipe;
use just_parts::layers::{
    Assignment, Expression, FunctionDefinition, FunctionParameter, Item, Name, Number, Shape,
};
use just_table::Table;
use std::alloc::{AllocError, Global};
use std::collections::{HashMap, HashSet};

// The variables and functions of a text, under their names.
#[derive(Drop)]
struct Definitions<'src> {
    assignments: Table<'src, Assignment<'src>>,
    functions: Table<'src, FunctionDefinition<'src>>,
}

// The definitions among what a text says.
fn definitions_of<'src>(
    alloc: Global,
    items: &[Item<'src>],
) -> Result<Definitions<'src>, AllocError> {
    let mut assignments = Table::new(alloc);
    let mut functions = Table::new(alloc);
    for item in items {
        match item {
            Item::Assignment(assignment) => {
                let _ = assignments.insert(copied(assignment)?)?;
            }
            Item::Function(function) => {
                let _ = functions.insert(function.clone()?)?;
            }
            _ => {}
        }
    }
    Ok(Definitions {
        assignments,
        functions,
    })
}

// Adds the number of a variable, where the expression is one that has its number.
fn add_number(expression: &Expression, text: &mut String) -> Result<(), AllocError> {
    match expression.shape.get() {
        Shape::Variable {
            name,
            number: Some(Number(number)),
        } => write!(text, " {name}#{number}"),
        Shape::Variable { name, number: None } => write!(text, " {name}"),
        _ => Ok(()),
    }
}

// Adds the numbers of the variables on both sides of a sum, or that of a variable.
fn add_numbers(expression: &Expression, text: &mut String) -> Result<(), AllocError> {
    match expression.shape.get() {
        Shape::Concatenation { lhs, rhs } => {
            add_number(lhs, text)?;
            add_number(rhs, text)
        }
        _ => add_number(expression, text),
    }
}

// Adds the line of the variables with the numbers in their values, and that of the functions.
fn add_tables(
    assignments: &Table<Assignment>,
    functions: &Table<FunctionDefinition>,
    text: &mut String,
) -> Result<(), AllocError> {
    for assignment in assignments.values() {
        write!(text, "value {}", assignment.name)?;
        add_numbers(&assignment.value, text)?;
        text.push('\n')?;
    }
    for function in functions.values() {
        write!(text, "body {}", function.name)?;
        add_numbers(&function.body, text)?;
        text.push('\n')?;
    }
    Ok(())
}

// Adds the line of the names in an order, and that of the numbers that the names of the variables stand for.
fn add_order<'src>(
    assignments: &Table<'src, Assignment<'src>>,
    numbers: &HashMap<BorrowedText<'src>, Number>,
    order: &[Name<'src>],
    text: &mut String,
) -> Result<(), AllocError> {
    text.push_str("order")?;
    for name in order {
        write!(text, " {name}")?;
    }
    text.push_str("\nbindings")?;
    for key in assignments.keys() {
        if let Some(Number(number)) = numbers.get(&BorrowedText::new(key)) {
            write!(text, " {key}#{number}")?;
        }
    }
    text.push('\n')
}

// The values of variables that are named by words.
fn overrides_of(
    alloc: Global,
    words: &str,
    assignments: &Table<Assignment>,
) -> Result<HashMap<Number, Text>, AllocError> {
    let mut overrides = HashMap::new(alloc);
    for word in words.split_whitespace() {
        if let Some(assignment) = assignments.get(word) {
            overrides.insert(assignment.number, Text::from_str(alloc, "other")?)?;
        }
    }
    Ok(overrides)
}

// A resolver, with what it was made of.
#[derive(Drop)]
struct Asked<'a, 'src> {
    resolver: VariableResolver<'a, 'src, PlainSyntax<'a>>,
    assignments: &'a Table<'src, Assignment<'src>>,
    functions: &'a Table<'src, FunctionDefinition<'src>>,
}

impl<'a, 'src> Asked<'a, 'src> {
    // Checks the calls in an expression, and adds each that keeps the rules. It answers whether all do.
    fn add_calls(
        &self,
        alloc: Global,
        expression: &Expression<'src>,
        text: &mut String,
    ) -> Result<bool, AllocError> {
        for reference in References::new(alloc, expression)? {
            if let Reference::Call { name, arguments } = reference {
                let resolved = self.resolver.resolve_call(&name, arguments);
                if unless_fault(resolved, text)?.is_none() {
                    return Ok(false);
                }
                writeln!(text, "known {name}/{arguments}")?;
            }
        }
        Ok(true)
    }

    // Adds the line of the names of the variables that have these numbers.
    fn add_needed(&self, numbers: &HashSet<Number>, text: &mut String) -> Result<(), AllocError> {
        text.push_str("needs")?;
        for assignment in self.assignments.values() {
            if numbers.contains(&assignment.number) {
                write!(text, " {}", assignment.name)?;
            }
        }
        text.push('\n')
    }

    // Adds the line of the functions that were looked into.
    fn add_visited(
        &self,
        visited: &HashSet<BorrowedText<'src>>,
        text: &mut String,
    ) -> Result<(), AllocError> {
        text.push_str("visited")?;
        for key in self.functions.keys() {
            if visited.contains(&BorrowedText::new(key)) {
                write!(text, " {key}")?;
            }
        }
        text.push('\n')
    }

    // Adds which variables an expression needs, and the functions that were looked into.
    fn add_references(
        &self,
        alloc: Global,
        expression: &Expression<'src>,
        parameters: &[FunctionParameter<'src>],
        text: &mut String,
    ) -> Result<(), AllocError> {
        let mut references = HashSet::new(alloc);
        let mut visited = HashSet::new(alloc);
        self.resolver.collect_references(
            alloc,
            expression,
            parameters,
            &mut references,
            &mut visited,
        )?;
        self.add_needed(&references, text)?;
        self.add_visited(&visited, text)
    }

    // Resolves an expression, and adds its numbers and which variables it needs. It answers whether it is resolved.
    fn add_resolved(
        &self,
        alloc: Global,
        expression: &Expression<'src>,
        parameters: &[FunctionParameter<'src>],
        text: &mut String,
    ) -> Result<bool, AllocError> {
        let mut expression = expression.clone()?;
        let mut references = HashSet::new(alloc);
        let resolved = self
            .resolver
            .resolve_expression(alloc, &mut expression, parameters, &mut references);
        if unless_fault(resolved, text)?.is_none() {
            return Ok(false);
        }
        text.push_str("resolved")?;
        add_numbers(&expression, text)?;
        text.push('\n')?;
        self.add_needed(&references, text)?;
        Ok(true)
    }

    // Adds what a call gives for an expression under parameters. It answers whether no fault was added.
    fn add_expression(
        &self,
        alloc: Global,
        call: &str,
        expression: &Expression<'src>,
        parameters: &[FunctionParameter<'src>],
        text: &mut String,
    ) -> Result<bool, AllocError> {
        match call {
            "resolve_call" => return self.add_calls(alloc, expression, text),
            "collect_references" => self.add_references(alloc, expression, parameters, text)?,
            _ => return self.add_resolved(alloc, expression, parameters, text),
        }
        Ok(true)
    }

    // The parameters of the function of a name, or none where there is no such function.
    fn hidden_by(
        &self,
        alloc: Global,
        name: &str,
    ) -> Result<Sequence<FunctionParameter<'src>>, AllocError> {
        match self.functions.get(name) {
            Some(function) => function.parameters.clone(),
            None => Ok(Sequence::new(alloc)),
        }
    }

    // Adds what a call gives for the defaults of a recipe's parameters. It answers whether no fault was added.
    fn add_recipe(
        &self,
        alloc: Global,
        call: &str,
        recipe: &UnresolvedRecipe<'src>,
        text: &mut String,
    ) -> Result<bool, AllocError> {
        let hidden = self.hidden_by(alloc, recipe.name.lexeme())?;
        for parameter in recipe.parameters.as_slice() {
            if let Some(expression) = &parameter.default {
                if !self.add_expression(alloc, call, expression, hidden.as_slice(), text)? {
                    return Ok(false);
                }
            }
        }
        Ok(true)
    }

    // Adds what a call gives for the recipes among what a text says, up to the first fault.
    fn add_recipes(
        &self,
        alloc: Global,
        call: &str,
        items: &[Item<'src>],
        text: &mut String,
    ) -> Result<(), AllocError> {
        for item in items {
            if let Item::Recipe(recipe) = item {
                if !self.add_recipe(alloc, call, recipe, text)? {
                    return Ok(());
                }
            }
        }
        Ok(())
    }
}

// Adds what a call gives for what a text says, where its variables have numbers and some are overridden.
fn add_resolver<'src>(
    alloc: Global,
    call: &str,
    overridden: &str,
    definitions: &Definitions<'src>,
    numbers: HashMap<BorrowedText<'src>, Number>,
    items: &[Item<'src>],
    answer: &mut String,
) -> Result<(), AllocError> {
    let Definitions {
        assignments,
        functions,
    } = definitions;
    let syntax = PlainSyntax::new();
    let overrides = overrides_of(alloc, overridden, assignments)?;
    let asked = Asked {
        resolver: VariableResolver::new(assignments, numbers, functions, &overrides, &syntax),
        assignments,
        functions,
    };
    asked.add_recipes(alloc, call, items, answer)
}

// Adds what a call gives for what a text says, where some variables are overridden.
fn add_items<'src>(
    alloc: Global,
    call: &str,
    overridden: &str,
    items: &[Item<'src>],
    answer: &mut String,
) -> Result<(), AllocError> {
    let Definitions {
        mut assignments,
        mut functions,
    } = definitions_of(alloc, items)?;
    let resolved = VariableResolver::resolve_assignments(
        alloc,
        &mut assignments,
        &mut functions,
        &PlainSyntax::new(),
    );
    let Some((numbers, order)) = unless_fault(resolved, answer)? else {
        return Ok(());
    };
    if call == "resolve_assignments" {
        add_order(&assignments, &numbers, order.as_slice(), answer)?;
        return add_tables(&assignments, &functions, answer);
    }
    let definitions = Definitions {
        assignments,
        functions,
    };
    add_resolver(
        alloc,
        call,
        overridden,
        &definitions,
        numbers,
        items,
        answer,
    )
}

/// Answers what a call of a resolver gives for the text behind a ` | `, where the variables that are named before it are
/// overridden.
pub fn answer_resolver(
    alloc: Global,
    call: &str,
    rest: &str,
) -> Result<Option<String>, AllocError> {
    let (overridden, text) = halves(rest);
    let mut answer = String::new(alloc);
    match call {
        "resolve_assignments" | "resolve_call" | "collect_references" | "resolve_expression" => {}
        _ => return Ok(None),
    }
    if let Some(ast) = unless_fault(parse(alloc, &PlainSyntax::new(), text), &mut answer)? {
        add_items(alloc, call, overridden, ast.items.as_slice(), &mut answer)?;
    }
    Ok(Some(answer))
}
