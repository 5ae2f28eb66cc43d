//! Settings that may not stand beside one another.
ghost use Rattle.std.specs.Prelude.{◌≡◌, IfOk};
ghost use Rattle.just_bench_syntax.specs.Conflicts as spec;

use just_ast_definitions::Setting;
use just_ast_expressions::Keyword;
use just_data::Sequence;
use std::alloc::{AllocError, Global};

// The name of a setting.
fn name_of<'src>(setting: &Setting<'src>) -> &'static str
    ensures { result.now ≡ spec.name_of_setting setting.now }
{
    match setting {
        Setting::AllowDuplicateRecipes(_) => "allow-duplicate-recipes",
        Setting::AllowDuplicateVariables(_) => "allow-duplicate-variables",
        Setting::DefaultScript(_) => "default-script",
        Setting::Export(_) => "export",
        Setting::IgnoreComments(_) => "ignore-comments",
        Setting::Lazy(_) => "lazy",
        Setting::Lists(_) => "lists",
        Setting::NoCd(_) => "no-cd",
        Setting::NoExitMessage(_) => "no-exit-message",
        Setting::PositionalArguments(_) => "positional-arguments",
        Setting::Quiet(_) => "quiet",
        Setting::ScriptInterpreter(_) => "script-interpreter",
        Setting::Shell(_) => "shell",
        Setting::Unstable(_) => "unstable",
    }
}

/// The second of each of these pairs whose first is the name of a setting. The error is want of memory.
pub fn conflicts<'src>(
    setting: &Setting<'src>,
    alloc: Global,
    pairs: &[(Keyword, Keyword)],
) -> Result<Sequence<Keyword>, AllocError>
    ensures { IfOk result (λ found. found ≡ spec.conflicts pairs.now setting.now) }
{
    let name = name_of(setting);
    let mut found = Sequence::new(alloc);
    for (first, second) in pairs {
        if first.lexeme.as_str() == name {
            found.push(second.clone()?)?;
        }
    }
    Ok(found)
}
