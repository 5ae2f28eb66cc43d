//! The plain grammar as a syntax layer.
ghost use Rattle.std.specs.Prelude.{◌≡◌, ◌≤◌, ◌<◌, ◌+◌, ◌^◌, ℕ, [], Ok, Err, Some, length, map, false, IfOk, IfErr, OnOk};
ghost use Rattle.std.specs.List.{All};
ghost use Rattle.just_parts.specs.Bare.{bare_ast};
ghost use Rattle.just_parts.specs.Syntax.{IsFrom, AreNoConstants, AttributesNameParameters, PriorsAreDependencies, components_of, numbers_of_items, AreRising, Refuses};
ghost use Rattle.just_bench_syntax.specs.Items.{items_in_text};
ghost use Rattle.just_bench_syntax.specs.Refusal.{IsInLine, RefusesLine};
ghost use Rattle.just_bench_syntax.specs.Answers as spec;

use crate::conflicts::conflicts;
use crate::item_numbers::number_items;
use crate::items::{Items, read_items};
use crate::{shebangs, sigils};
use just_bench_expressions::lines::lines;
use just_data::Sequence;
use just_parts::Source;
use just_parts::layers::{
    ArgumentRange, Ast, CompileError, CompileErrorKind, Error, Item, Keyword, Line, Namepath,
    Number, Numerator, Setting, Settings, Shebang, Sigil, Syntax, Token,
};
use just_paths::Modulepath;
use std::alloc::{AllocError, Global};

/// A grammar, line by line, with most of what the analyzer judges; it is not the grammar of `just`.
///
/// A line is an import, a module, a setting, an unexport, a variable, a function, an alias, an attribute, a recipe, or a
/// line of a recipe's body; an empty line, and one that begins with `#`, is ignored. `docs/plain.md` has the table of
/// lines. Where a text does not follow the grammar, the token of the fault is what stands where reading of a line stops,
/// the first that does not follow it, or the whole of a line: one of a body, or that of the first attribute that does not
/// fit the item after it.
#[derive(Clone, Copy)]
pub struct PlainSyntax<'a> {
    pairs: &'a [(Keyword, Keyword)],
}

impl<'a> PlainSyntax<'a> {
    /// A syntax of which all settings may stand together.
    pub fn new() -> PlainSyntax<'a>
        ensures { result.pairs.now ≡ [] }
    {
        PlainSyntax { pairs: &[] }
    }

    /// A syntax in which the second setting of a pair may not stand beside the first.
    pub fn with_conflicts(pairs: &'a [(Keyword, Keyword)]) -> PlainSyntax<'a>
        ensures { result.pairs.now ≡ pairs.now }
    {
        PlainSyntax { pairs }
    }
}

// The fault of a text at a place.
fn fault_at<'src>(path: &str, text: &str, token: Token<'src>) -> Error<'src>
    requires told { items_in_text path.now text.now ≡ Err token }
    requires there { IsInLine path.now text.now token }
    ensures { (wanted : ℕ) → RefusesLine path.now text.now result wanted }
{
    Error::Compile(CompileError {
        token,
        kind: CompileErrorKind::Syntax,
    })
}

impl<'a> Syntax for PlainSyntax<'a> {
    ghost use Rattle.just_bench_syntax.specs.Answers as spec;

    ghost answers = { λ syntax. spec.answers syntax.pairs.now };

    #[tactic(auto, unfolding(crate::specs::Answers::spends), using(crate::proofs::Kept::all_bare, crate::proofs::Kept::priors_kept, crate::proofs::Kept::names_fit, crate::proofs::Kept::spent_on_text, crate::proofs::Kept::spends_is, crate::proofs::Kept::line_refuses, crate::proofs::Kept::refuses_text))]
    fn parse_source<'src>(
        &self,
        alloc: Global,
        numerator: &mut Numerator,
        relative: &'src str,
        source: &Source<'src>,
        text: &'src str,
    ) -> Result<Ast<'src>, Error<'src>>
        ensures items { IfOk result (λ ast. (spec.answers self.now.pairs.now).parsed relative.now text.now ≡ Some (bare_ast ast)) }
        ensures source { IfOk result (IsFrom source.now) }
        ensures numbers { IfOk result (λ ast. AreRising numerator.old (numbers_of_items ast.items) numerator.new) }
        ensures constants { IfOk result (λ ast. AreNoConstants (spec.answers self.now.pairs.now).constant (numbers_of_items ast.items)) }
        ensures priors { IfOk result (λ ast. All PriorsAreDependencies ast.items) }
        ensures attributes { IfOk result (λ ast. All AttributesNameParameters ast.items) }
        ensures spent { OnOk result (numerator.new ≡ numerator.old + spec.spends relative.now text.now) }
        ensures fits { OnOk result (numerator.old ≤ 2 ^ 64 → numerator.old + spec.spends relative.now text.now ≤ 2 ^ 64) }
        ensures refused { IfErr result (Refuses (spec.answers self.now.pairs.now) relative.now text.now numerator.old) }
        ensures line { IfErr result (λ e. RefusesLine relative.now text.now e (numerator.old + spec.spends relative.now text.now)) }
        ensures onward { numerator.old ≤ numerator.new }
    {
        let all = lines(alloc, text)?;
        let Items { items, lists } = match read_items(alloc, relative, text, all.as_slice())? {
            Ok(items) => items,
            Err(token) => return Err(fault_at(relative, text, token)),
        };
        let mut items = items.into_vec();
        number_items(alloc, &mut items, source, numerator)?;
        Ok(Ast {
            items: Sequence::from_vec(items),
            module_path: module_path_of(alloc, &source.namepath)?,
            working_directory: source.working_directory.clone()?,
            unstable_features: Sequence::new(alloc),
            list_features: lists,
            warnings: Sequence::new(alloc),
        })
    }

    fn is_enabled<'src>(&self, item: &Item<'src>) -> bool {
        true
    }

    fn keyword(&self, alloc: Global, name: &str) -> Result<Option<Keyword>, AllocError> {
        Ok(None)
    }

    fn conflicts<'src>(
        &self,
        alloc: Global,
        setting: &Setting<'src>,
    ) -> Result<Sequence<Keyword>, AllocError> {
        conflicts(setting, alloc, self.pairs)
    }

    fn sigils<'src>(
        &self,
        alloc: Global,
        line: &Line<'src>,
        settings: &Settings,
    ) -> Result<Sequence<Sigil>, AllocError> {
        sigils::sigils(alloc, line)
    }

    fn is_comment<'src>(&self, line: &Line<'src>) -> bool {
        sigils::is_comment(line)
    }

    fn is_continuation<'src>(&self, line: &Line<'src>) -> bool {
        sigils::is_continuation(line)
    }

    fn is_shebang<'src>(&self, line: &Line<'src>) -> bool {
        sigils::is_shebang(line)
    }

    fn shebang<'text>(&self, text: &'text str) -> Option<Shebang<'text>> {
        shebangs::shebang(text)
    }

    fn constant(&self, name: &str) -> Option<Number> {
        None
    }

    fn builtin(&self, name: &str) -> Option<ArgumentRange> {
        builtin(name)
    }
}

// How many arguments a built-in function takes. There is one, without arguments.
fn builtin(name: &str) -> Option<ArgumentRange>
    ensures { result ≡ spec.builtin name.now }
{
    match name {
        "is_dependency" => Some(ArgumentRange { min: 0, max: 0 }),
        _ => None,
    }
}

// The path of the module of these names, or of the root.
fn module_path_of<'src>(
    alloc: Global,
    namepath: &Option<Namepath<'src>>,
) -> Result<Modulepath, AllocError>
    ensures { IfOk result (λ path. (path.components ≡ components_of namepath.now) × (path.spaced ≡ false)) }
{
    match namepath {
        None => Ok(Modulepath::root(alloc)),
        Some(names) => Modulepath::from_namepath(alloc, names),
    }
}
