//! The analysis of a module, and of the modules in it.

ghost use Rattle.std.specs.Prelude.{◌≡◌, IfErr, IfOk, IsSome, None};
ghost use Rattle.std.specs.HashMap.{get};
ghost use Rattle.just_parts.specs.Asts.{same_ast_key};
ghost use Rattle.just_module_headers.specs.Analyzable.{AreAnalyzable};
ghost use Rattle.just_compiler.specs.Analyzed.{TellsAnalyzed};
ghost use Rattle.just_compiler.specs.loops.Analyzed.{AnalyzesAt};
ghost use Rattle.just_parts.specs.Layers.{given_by};

use crate::modules::{Gathered, compile_in_order};
use just_data::{Sequence, Shared, Text};
use just_justfile::{Justfile, Recipes};
use just_module_assembly::{labelled, take_at};
use just_module_contents::Label;
use just_module_headers::files::Files;
use just_module_headers::join::arrange;
use just_module_headers::module_names::check_module_names;
use just_overrides::insert_all;
use just_parts::layers::{
    Ast, Config, ConstantEvaluation, Error, Given, Name, Number, StringLiteral, Syntax,
};
use just_paths::Modulepath;
use std::alloc::{AllocError, Global};
use std::collections::HashMap;

// Copies of quoted texts.
fn literals<'src>(
    alloc: Global,
    texts: &[StringLiteral<'src>],
) -> Result<Sequence<StringLiteral<'src>>, AllocError>
    ensures { IfOk result (λ copies. copies ≡ texts.now) }
{
    let mut copies = Sequence::new(alloc);
    for text in texts {
        copies.push(text.clone()?)?;
    }
    Ok(copies)
}

// The justfile of the module of a key, under a label, and what it and the modules in it add.
fn analyze_modules<'src, S: Syntax, E: ConstantEvaluation>(
    given: &Given<S, E>,
    asts: &HashMap<(Modulepath, Text), Ast<'src>>,
    loaded: &Shared<Sequence<Text>>,
    module_path: &Modulepath,
    root: &str,
    label: Label<'src>,
) -> Result<(Justfile<'src>, Gathered<'src>), Error<'src>>
    requires held { IsSome (get same_ast_key asts.now (module_path.now, root.now)) }
    requires asts { AreAnalyzable (S.answers given.now.syntax.now).enabled (get same_ast_key asts.now) }
    requires label { label.doc_expression ≡ None }
    ensures analyzed { let given = given_by S.answers E.answers given.now in
        IfOk result (AnalyzesAt given asts.now loaded.now module_path.now root.now label.entry) }
    ensures named { let given = given_by S.answers E.answers given.now in
        IfErr result (TellsAnalyzed given asts.now module_path.now root.now label.entry) }
{
    let alloc = given.alloc;
    let files = Files::new(alloc, asts)?;
    let rows = files.rows(alloc, given.syntax)?;
    let place = files.place_of(alloc, module_path, root)?;
    let (joined, order) = arrange(alloc, &rows, place)?;
    check_module_names(alloc, &files, given.syntax, &joined, order.as_slice())?;
    let (mut slots, gathered) = compile_in_order(given, &files, &joined, loaded, order.as_slice())?;
    let justfile = take_at(&mut slots, place);
    gathered.recipes.are_ordered();
    Ok((labelled(justfile, label), gathered))
}

/// Analyzes modules.
pub struct Analyzer;

impl Analyzer {
    ghost use Rattle.std.specs.Prelude.{◌≡◌, IfErr, IfOk, IsSome, OnErr};
    ghost use Rattle.std.specs.HashMap.{get};
    ghost use Rattle.std.specs.Str.{bytes_eq};
    ghost use Rattle.just_parts.specs.Asts.{same_ast_key};
    ghost use Rattle.just_module_headers.specs.Analyzable.{AreAnalyzable, TableHasPaths};
    ghost use Rattle.just_compiler.specs.Analyzed.{Analyzes, TellsAnalyzed};
    ghost use Rattle.just_overrides.specs.Inserted.{AreAsBefore};
    ghost use Rattle.just_module_tree.specs.Modules.{label};
    ghost use Rattle.just_parts.specs.Layers.{given_of};

    /// The justfile of the module at `module_path`, whose own file is `root`, with the label that it is given (`name`,
    /// `doc`, `groups`, `private`), and the recipes of it and of the modules in it, those of a module after those of the
    /// modules in it. An error names a rule that one of them breaks.
    ///
    /// The evaluation is asked for the constants of each module, as `config` overrides its variables, for its settings
    /// among them, and for the docs of the modules that it declares. The values that override variables are put into
    /// `overrides`, each under the number of its variable; after an error `overrides` is as it was.
    ///
    /// `paths` leads from the clean path of each file to the one that is shown, and is not asked anything yet.
    pub fn analyze<'src, S: Syntax, E: ConstantEvaluation>(
        alloc: Global,
        asts: &HashMap<(Modulepath, Text), Ast<'src>>,
        config: &Config,
        doc: Option<Text>,
        groups: &[StringLiteral<'src>],
        loaded: &Shared<Sequence<Text>>,
        module_path: &Modulepath,
        name: Option<Name<'src>>,
        overrides: &mut HashMap<Number, Text>,
        paths: &HashMap<Text, Text>,
        private: bool,
        root: &str,
        syntax: &S,
        evaluation: &E,
    ) -> Result<(Justfile<'src>, Recipes<'src>), Error<'src>>
        requires held { IsSome (get same_ast_key asts.now (module_path.now, root.now)) }
        requires asts { AreAnalyzable (S.answers syntax.now).enabled (get same_ast_key asts.now) }
        requires paths { TableHasPaths (get same_ast_key asts.now) (get bytes_eq paths.now) }
        ensures made { let given = given_of (S.answers syntax.now) (E.answers evaluation.now) config.now.overrides in
            let top = label name.entry doc groups.now private in
            IfOk result (λ made. Analyzes given asts.now loaded.now module_path.now root.now top overrides.old overrides.new made) }
        ensures named { let given = given_of (S.answers syntax.now) (E.answers evaluation.now) config.now.overrides in
            let top = label name.entry doc groups.now private in
            IfErr result (TellsAnalyzed given asts.now module_path.now root.now top) }
        ensures refused { OnErr result (AreAsBefore overrides.old overrides.new) }
    {
        let given = Given {
            alloc,
            syntax,
            evaluation,
            config,
        };
        let groups = literals(alloc, groups)?;
        let label = Label {
            name,
            doc,
            doc_expression: None,
            groups,
            private,
        };
        let analyzed = analyze_modules(&given, asts, loaded, module_path, root, label)?;
        let (justfile, gathered) = analyzed;
        let Gathered {
            recipes,
            overridden,
        } = gathered;
        overrides.reserve(overridden.len())?;
        insert_all(overridden, overrides);
        Ok((justfile, recipes))
    }
}
