use just_ast_expressions::Expression;
use just_data::{Exact, Sequence};
use just_names::{Name, Number};
use just_table::Keyed;

/// A parameter of a function.
#[derive(Clone, PartialEq, Eq, Drop)]
pub struct FunctionParameter<'src> {
    /// Its name.
    pub name: Name<'src>,
    /// What it is told apart by, as every definition.
    pub number: Number,
}

impl<'src> Exact for FunctionParameter<'src> {
    ghost use Rattle.std.proofs.Common.{rules};

    ghost exact = { Prim.search rules };
}

/// A function of a source text.
#[derive(Clone, PartialEq, Eq, Drop)]
pub struct FunctionDefinition<'src> {
    /// Its name.
    pub name: Name<'src>,
    /// Its parameters, in order.
    pub parameters: Sequence<FunctionParameter<'src>>,
    /// What a call is evaluated from.
    pub body: Expression<'src>,
}

impl<'src> Exact for FunctionDefinition<'src> {
    ghost use Rattle.std.proofs.Common.{rules};

    ghost exact = { Prim.search rules };
}

impl<'src> Keyed<'src> for FunctionDefinition<'src> {
    ghost use Rattle.just_names.specs.Token.{lexeme};

    ghost key_of = { λ function. lexeme function.name.token };

    fn key(&self) -> &'src str {
        self.name.lexeme()
    }
}
