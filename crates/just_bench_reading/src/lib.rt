//! A text that is read as the root, by the plain grammar.
#![tactic(auto)]

ghost use Rattle.std.specs.Prelude.{◌≡◌, Some, IfErr, IfOk, codes};
ghost use Rattle.just_bench_syntax.specs.Answers.{answers};
ghost use Rattle.just_parts.specs.Bare.{bare_ast};
ghost use Rattle.just_parts.specs.Syntax.{Refuses};
ghost use Rattle.just_bench_reading.specs.Root.{IsRootSource};

use just_bench_syntax::PlainSyntax;
use just_parts::Source;
use just_parts::layers::{Ast, Error, Numerator, Syntax};
use std::alloc::{AllocError, Global};

/// The source of the root `/justfile`. The error is want of memory.
pub fn root_source<'src>(alloc: Global) -> Result<Source<'src>, AllocError>
    ensures { IfOk result IsRootSource }
{
    Source::root(alloc, "/justfile")
}

/// What a grammar reads in a text, the root. The error tells a line that does not follow it, want of numbers or want of
/// memory.
pub fn parse<'src>(
    alloc: Global,
    syntax: &PlainSyntax,
    text: &'src str,
) -> Result<Ast<'src>, Error<'src>>
    ensures read { IfOk result (λ ast. (answers syntax.now.pairs.now).parsed (codes "justfile") text.now ≡ Some (bare_ast ast)) }
    ensures refused { IfErr result (Refuses (answers syntax.now.pairs.now) (codes "justfile") text.now 0) }
{
    let source = root_source(alloc)?;
    syntax.parse_source(alloc, &mut Numerator::new(), "justfile", &source, text)
}
