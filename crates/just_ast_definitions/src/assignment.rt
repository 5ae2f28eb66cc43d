use just_ast_expressions::Expression;
use just_data::Exact;
use just_names::{Name, Number};
use just_table::Keyed;
use std::fmt;

/// A variable and its value.
#[derive(Clone, PartialEq, Eq, Drop)]
pub struct Assignment<'src> {
    /// The name of the variable.
    pub name: Name<'src>,
    /// What it is told apart by: no other definition of a compilation has this number.
    pub number: Number,
    /// What it is evaluated from.
    pub value: Expression<'src>,
    /// Whether it is evaluated also where nothing that runs reads it.
    pub eager: bool,
    /// Whether recipes have it in their environment.
    pub export: bool,
    /// Whether it is left out of listings.
    pub private: bool,
    /// How many imports and modules lead from the root to its file, at least.
    pub file_depth: u64,
}

impl<'src> Exact for Assignment<'src> {
    ghost use Rattle.std.proofs.Common.{rules};

    ghost exact = { Prim.search rules };
}

impl<'src> Keyed<'src> for Assignment<'src> {
    ghost use Rattle.just_names.specs.Token.{lexeme};

    ghost key_of = { λ assignment. lexeme assignment.name.token };

    fn key(&self) -> &'src str {
        self.name.lexeme()
    }
}

impl<'src> fmt::Display for Assignment<'src> {
    ghost use Rattle.std.specs.Prelude.{Some};
    ghost use Rattle.just_ast_definitions.specs.DefinitionTexts.{assignment_text};

    ghost output = { λ assignment. Some (assignment_text assignment) };

    fn fmt<W: fmt::Write>(&self, f: &mut fmt::Formatter<W>) -> fmt::Result {
        if self.export {
            f.write_str("export ")?;
        }
        write!(f, "{} := {}", self.name, self.value)
    }
}
