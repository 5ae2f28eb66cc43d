use just_ast_expressions::Expression;
use just_data::{Exact, Sequence};
use just_names::Token;
use std::fmt;

/// A part of a body line.
#[derive(Clone, PartialEq, Eq, Drop)]
pub enum Fragment<'src> {
    /// Text as it stands.
    Text { token: Token<'src> },
    /// An expression between `{{` and `}}`.
    Interpolation { expression: Expression<'src> },
}

impl<'src> Exact for Fragment<'src> {
    ghost use Rattle.std.proofs.Common.{rules};

    ghost exact = { Prim.search rules };
}

impl<'src> fmt::Display for Fragment<'src> {
    ghost use Rattle.std.specs.Prelude.{Some};
    ghost use Rattle.just_ast_definitions.specs.DefinitionTexts.{body_fragment_text};

    ghost output = { λ fragment. Some (body_fragment_text fragment) };

    fn fmt<W: fmt::Write>(&self, f: &mut fmt::Formatter<W>) -> fmt::Result {
        match self {
            Fragment::Text { token } => f.write_str(token.lexeme()),
            Fragment::Interpolation { expression } => write!(f, "{{{{ {expression} }}}}"),
        }
    }
}

/// A line of a recipe's body.
#[derive(Clone, PartialEq, Eq, Drop)]
pub struct Line<'src> {
    /// The line of the text, which counts from 0.
    pub number: usize,
    /// Its parts, from left to right.
    pub fragments: Sequence<Fragment<'src>>,
}

impl<'src> Exact for Line<'src> {
    ghost use Rattle.std.proofs.Common.{rules};

    ghost exact = { Prim.search rules };
}

/// It is shown behind four blanks, or as nothing where it has no fragments.
impl<'src> fmt::Display for Line<'src> {
    ghost use Rattle.std.specs.Prelude.{Some};
    ghost use Rattle.just_ast_definitions.specs.DefinitionTexts.{body_line_text};

    ghost output = { λ line. Some (body_line_text line) };

    fn fmt<W: fmt::Write>(&self, f: &mut fmt::Formatter<W>) -> fmt::Result {
        let fragments = self.fragments.as_slice();
        if fragments.is_empty() {
            return Ok(());
        }
        f.write_str("    ")?;
        for fragment in fragments {
            write!(f, "{fragment}")?;
        }
        Ok(())
    }
}
