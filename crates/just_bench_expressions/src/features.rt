//! What a text uses that needs lists.
ghost use Rattle.std.specs.Prelude.{◌≡◌, ◌≤◌, length, slice_range, IfOk};
ghost use Rattle.just_bench_expressions.specs.Features as spec;

use crate::lexer::{Kind, Lexeme};
use just_ast_expressions::ListUse;
use just_data::Sequence;
use just_names::ListFeature;
use std::alloc::{AllocError, Global};

fn is_list(kind: Kind) -> bool
    ensures { result ≡ spec.is_list kind }
{
    matches!(kind, Kind::BracketOpen)
}

/// Where lists begin, in order. The error is want of memory.
pub fn list_features<'src>(
    alloc: Global,
    lexemes: &[Lexeme<'src>],
) -> Result<Sequence<ListUse<'src>>, AllocError>
    ensures { IfOk result (λ uses. uses ≡ spec.list_features lexemes.now) }
{
    let mut uses = Sequence::new(alloc);
    for lexeme in lexemes {
        if !is_list(lexeme.kind) {
            continue;
        }
        uses.push(ListUse {
            feature: ListFeature::List,
            token: lexeme.token.copied(),
        })?;
    }
    Ok(uses)
}
