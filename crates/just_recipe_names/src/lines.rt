//! The lines of a body that are read, and the expressions in them.

ghost use Rattle.std.specs.Prelude.{◌≡◌, ◌++◌, ◌&&◌, true, OnOk, flat_map};
ghost use Rattle.just_parts.specs.Groups.{ends_group};
ghost use Rattle.just_parts.specs.Scopes.{fragment_expressions, line_expressions, lines_read, read_lines};
ghost use Rattle.just_recipe_names.specs.Steps.{events};
ghost use Rattle.just_recipe_names.specs.loops.Steps.{readings};

use crate::steps::Step;
use just_parts::UnresolvedRecipe;
use just_parts::layers::{Fragment, Line, Settings, Syntax};
use std::alloc::AllocError;

/// Whether a line of a body for a shell is skipped: a comment that begins a group, where comments are ignored.
pub fn is_skipped<'src, S: Syntax>(
    syntax: &S,
    settings: &Settings,
    line: &Line<'src>,
    begins: bool,
) -> bool
    ensures { result ≡ (begins && (settings.now.ignore_comments && (S.answers syntax.now).is_comment line.now)) }
{
    begins && settings.ignore_comments && syntax.is_comment(line)
}

/// Whether the line after one begins a group, where this one does or not.
pub fn ends<'src, S: Syntax>(
    syntax: &S,
    settings: &Settings,
    line: &Line<'src>,
    begins: bool,
) -> bool
    ensures { result ≡ ends_group (S.answers syntax.now) settings.now line.now begins }
{
    if !syntax.is_continuation(line) {
        return true;
    }
    is_skipped(syntax, settings, line, begins)
}

// Adds the expressions of a line.
fn push_line<'r, 'src>(
    line: &'r Line<'src>,
    found: &mut Vec<Step<'r, 'src>>,
) -> Result<(), AllocError>
    ensures { OnOk result (events found.new.items ≡ events found.old.items ++ readings (line_expressions line.now)) }
{
    for fragment in line.fragments.as_slice() {
        if let Fragment::Interpolation { expression } = fragment {
            found.push(Step::Reads(expression))?;
        }
    }
    Ok(())
}

// Adds those of all lines.
fn push_lines<'r, 'src>(
    lines: &'r [Line<'src>],
    found: &mut Vec<Step<'r, 'src>>,
) -> Result<(), AllocError>
    ensures { OnOk result (events found.new.items ≡ events found.old.items ++ readings (flat_map line_expressions lines.now)) }
{
    for line in lines {
        push_line(line, found)?;
    }
    Ok(())
}

// Adds those of the lines of a body for a shell that are not skipped.
fn push_shell_lines<'r, 'src, S: Syntax>(
    syntax: &S,
    settings: &Settings,
    lines: &'r [Line<'src>],
    found: &mut Vec<Step<'r, 'src>>,
) -> Result<(), AllocError>
    ensures { let read = read_lines (S.answers syntax.now) settings.now true lines.now in
        OnOk result (events found.new.items ≡ events found.old.items ++ readings (flat_map line_expressions read)) }
{
    let mut begins = true;
    for line in lines {
        if !is_skipped(syntax, settings, line, begins) {
            push_line(line, found)?;
        }
        begins = ends(syntax, settings, line, begins);
    }
    Ok(())
}

/// Adds the expressions in the lines of a recipe that are read: in all lines of a script, and in those of a body for a shell
/// that are not skipped.
pub fn push_body<'r, 'src, S: Syntax>(
    syntax: &S,
    settings: &Settings,
    recipe: &'r UnresolvedRecipe<'src>,
    found: &mut Vec<Step<'r, 'src>>,
) -> Result<(), AllocError>
    ensures { let read = lines_read (S.answers syntax.now) settings.now recipe.now in
        OnOk result (events found.new.items ≡ events found.old.items ++ readings (flat_map line_expressions read)) }
{
    if recipe.is_script(settings) {
        push_lines(recipe.body.as_slice(), found)
    } else {
        push_shell_lines(syntax, settings, recipe.body.as_slice(), found)
    }
}
