//! The rules of what a module sets.

ghost use Rattle.std.specs.Prelude.{◌≡◌, ◌<◌, ℕ, IfOk, IfErr, OnOk, length, true, false};
ghost use Rattle.std.specs.Str.{bytes_eq};
ghost use Rattle.std.specs.HashMap.{get};
ghost use Rattle.just_errors.specs.Causes.{Keeps, Reports};
ghost use Rattle.just_module_contents.specs.Definitions.{sets_in};
ghost use Rattle.just_names.specs.Index.{AreDifferent, IsIndex};
ghost use Rattle.just_module_contents.specs.Rules.{SetTwice, BreaksSettings};
ghost use Rattle.just_module_contents.specs.Settings.{are_incompatible, excludes, setting_names, stands_in};

use just_data::{BorrowedText, Text};
use just_module_contents::definitions::Definitions;
use just_parts::layers::{CompileError, CompileErrorKind, Error, Keyword, Syntax};
use std::alloc::Global;
use std::collections::HashMap;

// The place of the name of each setting. One that is set twice is refused.
fn index_sets<'a, 'src>(
    alloc: Global,
    definitions: &Definitions<'src, 'a>,
) -> Result<HashMap<Text, usize>, Error<'src>>
    ensures different { IfOk result (λ _. AreDifferent (setting_names (sets_in definitions.now))) }
    ensures index { IfOk result (λ index. IsIndex (setting_names (sets_in definitions.now)) (get bytes_eq index)) }
    ensures named { IfErr result (Reports (SetTwice (sets_in definitions.now))) }
{
    let mut index = HashMap::new(alloc);
    for place in 0..definitions.sets.len() {
        let name = &definitions.set_at(place).name;
        let text = Text::from_str(alloc, name.lexeme())?;
        match index.insert(text, place)? {
            None => continue,
            Some(before) => {
                return Err(Error::Compile(CompileError {
                    token: name.token.copied(),
                    kind: CompileErrorKind::DuplicateSet {
                        setting: BorrowedText::new(name.lexeme()),
                        first: definitions.set_at(before).name.line(),
                    },
                }));
            }
        }
    }
    Ok(index)
}

// Whether a name stands among keywords.
fn stands_in(name: &str, keywords: &[Keyword]) -> bool
    ensures { result ≡ stands_in name.now keywords.now }
{
    keywords
        .iter()
        .any(|keyword| keyword.lexeme.as_str() == name)
}

// Refuses a setting that is set after one which may not stand beside it, where it may not stand beside that one.
fn check_pair<'a, 'src, S: Syntax>(
    alloc: Global,
    definitions: &Definitions<'src, 'a>,
    syntax: &S,
    first: usize,
    second: usize,
) -> Result<(), Error<'src>>
    requires before { first < second }
    requires there { second < length definitions.now.sets.items }
    requires excluded { excludes (S.answers syntax.now).conflicts (sets_in definitions.now) first second ≡ true }
    ensures kept { OnOk result (excludes (S.answers syntax.now).conflicts (sets_in definitions.now) second first ≡ false) }
    ensures named { IfErr result (Reports (BreaksSettings (S.answers syntax.now).conflicts (sets_in definitions.now))) }
{
    let earlier = definitions.set_at(first);
    let name = &definitions.set_at(second).name;
    let excluded = syntax.conflicts(alloc, &earlier.value)?;
    if !stands_in(name.lexeme(), excluded.as_slice()) {
        return Ok(());
    }
    Err(Error::Compile(CompileError {
        token: name.token.copied(),
        kind: CompileErrorKind::IncompatibleSettings {
            first: BorrowedText::new(earlier.name.lexeme()),
            first_line: earlier.name.line(),
            second: BorrowedText::new(name.lexeme()),
        },
    }))
}

// Refuses a setting that is set after one of which neither may stand beside the other.
fn check_beside<'a, 'src, S: Syntax>(
    alloc: Global,
    definitions: &Definitions<'src, 'a>,
    syntax: &S,
    index: &HashMap<Text, usize>,
    place: usize,
) -> Result<(), Error<'src>>
    requires different { AreDifferent (setting_names (sets_in definitions.now)) }
    requires index { IsIndex (setting_names (sets_in definitions.now)) (get bytes_eq index.now) }
    requires there { place < length definitions.now.sets.items }
    ensures kept { OnOk result ((i : ℕ) → i < place → are_incompatible (S.answers syntax.now).conflicts (sets_in definitions.now) i place ≡ false) }
    ensures named { IfErr result (Reports (BreaksSettings (S.answers syntax.now).conflicts (sets_in definitions.now))) }
{
    let excluded = syntax.conflicts(alloc, &definitions.set_at(place).value)?;
    for keyword in excluded.as_slice() {
        match index.get(&keyword.lexeme) {
            None => continue,
            Some(first) => {
                if *first < place {
                    check_pair(alloc, definitions, syntax, *first, place)?;
                }
            }
        }
    }
    Ok(())
}

/// Refuses a setting that is set twice, or two of which neither may stand beside the other.
pub(crate) fn check_sets<'a, 'src, S: Syntax>(
    alloc: Global,
    definitions: &Definitions<'src, 'a>,
    syntax: &S,
) -> Result<(), Error<'src>>
    ensures kept { OnOk result (Keeps (BreaksSettings (S.answers syntax.now).conflicts (sets_in definitions.now))) }
    ensures named { IfErr result (Reports (BreaksSettings (S.answers syntax.now).conflicts (sets_in definitions.now))) }
{
    let index = index_sets(alloc, definitions)?;
    for place in 0..definitions.sets.len() {
        check_beside(alloc, definitions, syntax, &index, place)?;
    }
    Ok(())
}
