//! Checks and resolves the names in expressions.

ghost use Rattle.std.specs.Prelude.{◌≡◌, IfErr, IfOk, OnErr, OnOk};
ghost use Rattle.std.specs.HashSet.{contains};
ghost use Rattle.std.specs.Str.{bytes_eq};
ghost use Rattle.just_errors.specs.Causes.{Keeps, Reports};
ghost use Rattle.just_parts.specs.Needs.{Gains, GainsAll, HaveNumbersApart, IsSame, same_number};
ghost use Rattle.just_name_resolution.specs.Called.{AreBodiesRead, GainsCalled, IsWholeSearch};
ghost use Rattle.just_module_variables.specs.Resolved.{ResolvesTo};
ghost use Rattle.just_ast_references.specs.Numbers.{with_numbers};
ghost use Rattle.just_module_variables.specs.Resolver.{known_by, number_here, overridden, tables_by};
ghost use Rattle.just_parts.specs.Known.{hides, known};
ghost use Rattle.just_parts.specs.Misnaming.{Expressions, Misnames, MisnamesCall};
ghost use Rattle.just_parts.specs.Reading.{Reads};

use crate::evaluation_order::order_assignments;
use crate::name_numbers::{parameter_numbers, variable_numbers};
use crate::resolution::{Numbering, names_at, names_of};
use just_data::{BorrowedText, Text};
use just_name_resolution::{
    Known, Numbers, Tables, check_call, check_expression, hidden_names, numbered,
};
use just_parts::layers::{
    Assignment, Error, Expression, FunctionDefinition, FunctionParameter, Name, Number, Syntax,
};
use just_table::Table;
use std::alloc::{AllocError, Global};
use std::collections::{HashMap, HashSet};
use std::mem::replace;

/// Resolves the names in the expressions of a module: checks that each means something, gives each variable the number of
/// what it means, and tells which variables an expression needs.
#[derive(Drop)]
pub struct VariableResolver<'a, 'src, S> {
    // what names stand for
    known: Known<'a, 'src, S>,
    // the numbers of the variables, by their names
    bindings: HashMap<BorrowedText<'src>, Number>,
    // the values that some variables have in place of their own
    overrides: &'a HashMap<Number, Text>,
}

impl<'a, 'src, S: Syntax> VariableResolver<'a, 'src, S> {
    /// Checks the names in the values of the variables and in the bodies of the functions of a module, gives each variable
    /// there the number of what it means, and answers the numbers of the variables, by their names, and their names in an
    /// evaluation order. An error names a function that is not there or is given a wrong number of arguments, a variable
    /// that is not there, or variables that read one another in a circle. After a refusal both tables are as they were.
    /// What is answered is told of tables whose values stand under their own names, as `Table` puts them.
    pub fn resolve_assignments(
        alloc: Global,
        assignments: &mut Table<'src, Assignment<'src>>,
        functions: &mut Table<'src, FunctionDefinition<'src>>,
        syntax: &S,
    ) -> Result<(HashMap<BorrowedText<'src>, Number>, Vec<Name<'src>>), Error<'src>>
        ensures kept { OnOk result (Keeps (Expressions (known (S.answers syntax.now) assignments.old functions.old))) }
        ensures resolved { IfOk result (λ made. ResolvesTo (known (S.answers syntax.now) assignments.old functions.old) made assignments.new functions.new) }
        ensures named { IfErr result (Reports (Expressions (known (S.answers syntax.now) assignments.old functions.old))) }
        ensures refused_assignments { OnErr result (assignments.new ≡ assignments.old) }
        ensures refused_functions { OnErr result (functions.new ≡ functions.old) }
    {
        let known = Known {
            assignments: &*assignments,
            functions: &*functions,
            syntax,
        };
        let places = order_assignments(alloc, &known)?;
        let names = names_of(alloc, known.assignments)?;
        let order = names_at(alloc, names.as_slice(), places.as_slice())?;
        let bindings = variable_numbers(alloc, known.assignments)?;
        let numbering = Numbering { known, bindings };
        let numbered_assignments = numbering.numbered_assignments(alloc)?;
        let numbered_functions = numbering.numbered_functions(alloc)?;
        let Numbering { bindings, .. } = numbering;
        drop(replace(assignments, numbered_assignments));
        drop(replace(functions, numbered_functions));
        Ok((bindings, order))
    }

    /// A resolver of the names in a module: its variables and functions, each under its name, the numbers of the variables,
    /// as `resolve_assignments` answers them, and the values that some have in place of their own, by their numbers.
    pub fn new(
        assignments: &'a Table<'src, Assignment<'src>>,
        bindings: HashMap<BorrowedText<'src>, Number>,
        functions: &'a Table<'src, FunctionDefinition<'src>>,
        overrides: &'a HashMap<Number, Text>,
        syntax: &'a S,
    ) -> VariableResolver<'a, 'src, S>
        ensures assignments { result.known.assignments.now ≡ assignments.now }
        ensures functions { result.known.functions.now ≡ functions.now }
        ensures syntax { result.known.syntax.now ≡ syntax.now }
        ensures bindings { result.bindings ≡ bindings.entry }
        ensures overrides { result.overrides.now ≡ overrides.now }
    {
        let known = Known {
            assignments,
            functions,
            syntax,
        };
        VariableResolver {
            known,
            bindings,
            overrides,
        }
    }

    /// What names stand for in the module.
    pub fn known(&self) -> &Known<'a, 'src, S>
        ensures { result.now ≡ self.now.known }
    {
        &self.known
    }

    /// The numbers of its variables, by their names.
    pub fn bindings(&self) -> &HashMap<BorrowedText<'src>, Number>
        ensures { result.now ≡ self.now.bindings }
    {
        &self.bindings
    }

    /// The values that some of them have in place of their own, by their numbers.
    pub fn overrides(&self) -> &'a HashMap<Number, Text>
        ensures { result.now ≡ self.now.overrides.now }
    {
        self.overrides
    }

    /// Checks a call: that it names a function of the module or a built-in one, and gives it as many arguments as it takes.
    pub fn resolve_call(&self, name: &Name<'src>, arguments: usize) -> Result<(), Error<'src>>
        ensures kept { OnOk result (Keeps (MisnamesCall (known_by (S.answers self.now.known.syntax.now) self.now) name.now arguments)) }
        ensures named { IfErr result (Reports (MisnamesCall (known_by (S.answers self.now.known.syntax.now) self.now) name.now arguments)) }
    {
        check_call(&self.known, name, arguments)
    }

    /// Adds the numbers of the variables that an expression needs under parameters: those that it reads, also through
    /// functions, and of each that is not overridden those that it reads in turn. `visited` has the functions whose bodies
    /// were looked into already: they are not looked into again, and those that are called from the expression are added,
    /// also those that functions and the values of needed variables call. Nothing is missed where the two sets belong
    /// together, as empty ones do, and they still do afterwards. Where memory is refused, both sets have what they had.
    pub fn collect_references(
        &self,
        alloc: Global,
        expression: &Expression<'src>,
        parameters: &[FunctionParameter<'src>],
        references: &mut HashSet<Number>,
        visited: &mut HashSet<BorrowedText<'src>>,
    ) -> Result<(), AllocError>
        ensures gains { let m = tables_by self.now in
            let start = Reads m (hides parameters.now) expression.now in
            OnOk result (Gains m (overridden self.now) start (contains same_number references.old) (contains same_number references.new)) }
        ensures all { let m = tables_by self.now in
            let start = Reads m (hides parameters.now) expression.now in
            let old = contains same_number references.old in
            let gains_all = GainsAll m (overridden self.now) start old (contains same_number references.new) in
            OnOk result (AreBodiesRead m old (contains bytes_eq visited.old) → gains_all) }
        ensures visited { let m = tables_by self.now in
            let gains = GainsCalled m (overridden self.now) (contains same_number references.old) (hides parameters.now) expression.now in
            OnOk result (gains (contains bytes_eq visited.old) (contains bytes_eq visited.new)) }
        ensures whole { let m = tables_by self.now in
            let whole = IsWholeSearch m (overridden self.now) in
            let before = whole (contains same_number references.old) (contains bytes_eq visited.old) in
            OnOk result (HaveNumbersApart m → before → whole (contains same_number references.new) (contains bytes_eq visited.new)) }
        ensures refused { OnErr result (IsSame (contains same_number references.old) (contains same_number references.new)) }
        ensures refused_visited { OnErr result (IsSame (contains bytes_eq visited.old) (contains bytes_eq visited.new)) }
    {
        let tables = Tables {
            assignments: self.known.assignments,
            functions: self.known.functions,
        };
        just_name_resolution::collect_references(
            alloc,
            &tables,
            self.overrides,
            expression,
            parameters,
            references,
            visited,
        )
    }

    // An expression again, with the numbers of what its names mean under parameters.
    fn numbered_under(
        &self,
        alloc: Global,
        expression: &Expression<'src>,
        parameters: &[FunctionParameter<'src>],
    ) -> Result<Expression<'src>, AllocError>
        ensures { let number = number_here (S.answers self.now.known.syntax.now) self.now parameters.now in
            IfOk result (λ made. made ≡ with_numbers number expression.now) }
    {
        let parameters = parameter_numbers(alloc, parameters)?;
        let numbers = Numbers {
            parameters: &parameters,
            assignments: &self.bindings,
            syntax: self.known.syntax,
        };
        numbered(alloc, expression, &numbers)
    }

    /// Checks the names in an expression under parameters, gives each variable in it the number of what it means, and adds
    /// the numbers of the variables that it needs. An error names what is at fault. After a refusal the expression is as it
    /// was, and the set has what it had.
    pub fn resolve_expression(
        &self,
        alloc: Global,
        expression: &mut Expression<'src>,
        parameters: &[FunctionParameter<'src>],
        references: &mut HashSet<Number>,
    ) -> Result<(), Error<'src>>
        ensures kept { let m = known_by (S.answers self.now.known.syntax.now) self.now in
            OnOk result (Keeps (Misnames m (hides parameters.now) expression.old)) }
        ensures numbers { let number = number_here (S.answers self.now.known.syntax.now) self.now parameters.now in
            OnOk result (expression.new ≡ with_numbers number expression.old) }
        ensures gains { let m = tables_by self.now in
            let start = Reads m (hides parameters.now) expression.old in
            OnOk result (Gains m (overridden self.now) start (contains same_number references.old) (contains same_number references.new)) }
        ensures all { let m = tables_by self.now in
            let start = Reads m (hides parameters.now) expression.old in
            OnOk result (GainsAll m (overridden self.now) start (contains same_number references.old) (contains same_number references.new)) }
        ensures named { let m = known_by (S.answers self.now.known.syntax.now) self.now in
            IfErr result (Reports (Misnames m (hides parameters.now) expression.old)) }
        ensures refused { OnErr result (expression.new ≡ expression.old) }
        ensures refused_references { OnErr result (IsSame (contains same_number references.old) (contains same_number references.new)) }
    {
        let hidden = hidden_names(alloc, parameters)?;
        check_expression(alloc, &self.known, &hidden, &*expression)?;
        let made = self.numbered_under(alloc, &*expression, parameters)?;
        let mut visited = HashSet::new(alloc);
        self.collect_references(alloc, &*expression, parameters, references, &mut visited)?;
        *expression = made;
        Ok(())
    }
}
