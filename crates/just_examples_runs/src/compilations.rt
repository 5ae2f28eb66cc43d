//! The lines that tell what a compilation has, what words mean in it, and what a run of them did.
ghost use Rattle.just_justfile.specs.Running.{CanRun, HoldsOverridden};

use crate::runs::{add_run, add_split};
use just_bench_syntax::PlainSyntax;
use just_data::Text;
use just_examples_format::questions::Asked;
use just_examples_format::{add_given, add_loaded, add_modules};
use just_justfile::{Justfile, Recipes};
use just_parts::layers::{Number, Syntax};
use std::alloc::{AllocError, Global};
use std::collections::HashMap;

// Adds what words mean in a compilation, and what running them under its grammar does.
fn add_words<'src, 'pairs>(
    root: &Justfile<'src>,
    recipes: &Recipes<'src>,
    overrides: &HashMap<Number, Text>,
    alloc: Global,
    syntax: &PlainSyntax<'pairs>,
    asked: &Asked,
    words: &[&str],
    text: &mut String,
) -> Result<(), AllocError>
    requires can_run { CanRun (⟦<PlainSyntax<'pairs> as Syntax>⟧.answers syntax.now) root.now recipes.now }
    requires overridden { HoldsOverridden root.now overrides.now }
{
    add_split(root, recipes, alloc, words, text)?;
    add_run(root, recipes, overrides, alloc, syntax, asked, words, text)
}

/// Adds what a compilation of so many texts under a grammar has, what the words mean in it, and what running them does.
pub fn add_compiled<'src, 'pairs>(
    root: &Justfile<'src>,
    recipes: &Recipes<'src>,
    overrides: &HashMap<Number, Text>,
    texts: usize,
    alloc: Global,
    syntax: &PlainSyntax<'pairs>,
    asked: &Asked,
    text: &mut String,
) -> Result<(), AllocError>
    requires can_run { CanRun (⟦<PlainSyntax<'pairs> as Syntax>⟧.answers syntax.now) root.now recipes.now }
    requires overridden { HoldsOverridden root.now overrides.now }
{
    add_loaded(root, texts, text)?;
    add_modules(root, recipes, alloc, text)?;
    add_given(root, overrides, alloc, text)?;
    let words = asked.words(alloc)?;
    add_words(
        root,
        recipes,
        overrides,
        alloc,
        syntax,
        asked,
        words.as_slice(),
        text,
    )
}
