//! Other names.
use crate::attribute::NamedAttribute;
use just_ast_expressions::Expression;
use just_data::{Exact, Sequence};
use just_names::{Name, Namepath};
use just_table::Keyed;
use std::fmt;

/// Another name for what its target is: in a source text a path of names.
#[derive(Clone, Drop)]
pub struct Alias<'src, T = Namepath<'src>> {
    /// What stands in brackets before it, in order.
    pub attributes: Sequence<NamedAttribute<'src, Expression<'src>>>,
    /// The other name.
    pub name: Name<'src>,
    /// What it is a name for.
    pub target: T,
}

impl<'src, T: Exact> Exact for Alias<'src, T> {
    ghost use Rattle.std.proofs.Common.{rules};

    ghost exact = { Prim.search rules };
}

impl<'src, T> Keyed<'src> for Alias<'src, T> {
    ghost use Rattle.just_names.specs.Token.{lexeme};

    ghost key_of = { λ alias. lexeme alias.name.token };

    fn key(&self) -> &'src str {
        self.name.lexeme()
    }
}

/// A name and what it stands for, where the two stand apart. It is shown as `alias NAME := TARGET`.
#[derive(Drop)]
pub struct ShownAlias<'a, 'src, T> {
    /// The other name.
    pub name: &'a Name<'src>,
    /// What it is a name for.
    pub target: &'a T,
}

impl<'a, 'src, T: fmt::Display> fmt::Display for ShownAlias<'a, 'src, T> {
    ghost use Rattle.just_names.specs.Token.{lexeme};
    ghost use Rattle.just_ast_definitions.specs.DefinitionTexts.{alias_text};

    ghost output = { λ shown. alias_text (lexeme shown.name.now.token) (T.output shown.target.now) };

    fn fmt<W: fmt::Write>(&self, f: &mut fmt::Formatter<W>) -> fmt::Result {
        write!(f, "alias {} := {}", self.name, self.target)
    }
}

impl<'src, T: fmt::Display> fmt::Display for Alias<'src, T> {
    ghost use Rattle.just_names.specs.Token.{lexeme};
    ghost use Rattle.just_ast_definitions.specs.DefinitionTexts.{alias_text};

    ghost output = { λ alias. alias_text (lexeme alias.name.token) (T.output alias.target) };

    fn fmt<W: fmt::Write>(&self, f: &mut fmt::Formatter<W>) -> fmt::Result {
        let shown = ShownAlias {
            name: &self.name,
            target: &self.target,
        };
        shown.fmt(f)
    }
}
