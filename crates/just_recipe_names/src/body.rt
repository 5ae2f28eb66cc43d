//! Lines of a body with the numbers of what the names in their expressions mean.

ghost use Rattle.std.specs.Prelude.{◌≡◌, true, IfOk, if◌then◌else◌, map};
ghost use Rattle.just_recipe.specs.Script.{is_script};
ghost use Rattle.just_recipe_names.specs.Numbered.{fragment_by, line_by, shell_lines_by};
ghost use Rattle.just_recipe_names.specs.loops.Numbered.{looked_up};

use crate::lines::{ends, is_skipped};
use just_data::Sequence;
use just_name_resolution::{Numbers, numbered};
use just_parts::UnresolvedRecipe;
use just_parts::layers::{Fragment, Line, Settings, Syntax};
use std::alloc::{AllocError, Global};

// A part of a line.
fn numbered_fragment<'a, 'src, S: Syntax>(
    alloc: Global,
    fragment: &Fragment<'src>,
    numbers: &Numbers<'a, 'src, S>,
) -> Result<Fragment<'src>, AllocError>
    ensures { let by = looked_up (S.answers numbers.now.syntax.now) numbers.now in
        IfOk result (λ made. made ≡ fragment_by by fragment.now) }
{
    match fragment {
        Fragment::Text { token } => Ok(Fragment::Text {
            token: token.copied(),
        }),
        Fragment::Interpolation { expression } => Ok(Fragment::Interpolation {
            expression: numbered(alloc, expression, numbers)?,
        }),
    }
}

// A line.
fn numbered_line<'a, 'src, S: Syntax>(
    alloc: Global,
    line: &Line<'src>,
    numbers: &Numbers<'a, 'src, S>,
) -> Result<Line<'src>, AllocError>
    ensures { let by = looked_up (S.answers numbers.now.syntax.now) numbers.now in
        IfOk result (λ made. made ≡ line_by by line.now) }
{
    let mut made = Vec::with_capacity(alloc, line.fragments.len())?;
    for fragment in line.fragments.as_slice() {
        made.push(numbered_fragment(alloc, fragment, numbers)?)?;
    }
    Ok(Line {
        number: line.number,
        fragments: Sequence::from_vec(made),
    })
}

// All lines.
fn numbered_lines<'a, 'src, S: Syntax>(
    alloc: Global,
    lines: &[Line<'src>],
    numbers: &Numbers<'a, 'src, S>,
) -> Result<Sequence<Line<'src>>, AllocError>
    ensures { let by = looked_up (S.answers numbers.now.syntax.now) numbers.now in
        IfOk result (λ made. made ≡ map (line_by by) lines.now) }
{
    let mut made = Vec::with_capacity(alloc, lines.len())?;
    for line in lines {
        made.push(numbered_line(alloc, line, numbers)?)?;
    }
    Ok(Sequence::from_vec(made))
}

// A line that is read, or one that is skipped as it is.
fn line_again<'a, 'src, S: Syntax>(
    alloc: Global,
    line: &Line<'src>,
    skipped: bool,
    numbers: &Numbers<'a, 'src, S>,
) -> Result<Line<'src>, AllocError>
    ensures { let by = looked_up (S.answers numbers.now.syntax.now) numbers.now in
        IfOk result (λ made. made ≡ (if skipped then line.now else line_by by line.now)) }
{
    if skipped {
        line.clone()
    } else {
        numbered_line(alloc, line, numbers)
    }
}

// The lines of a body for a shell: those that are read, and those that are skipped as they are.
fn numbered_shell_lines<'a, 'src, S: Syntax>(
    alloc: Global,
    settings: &Settings,
    lines: &[Line<'src>],
    numbers: &Numbers<'a, 'src, S>,
) -> Result<Sequence<Line<'src>>, AllocError>
    ensures { let answers = S.answers numbers.now.syntax.now in
        IfOk result (λ made. made ≡ shell_lines_by (looked_up answers numbers.now) answers settings.now true lines.now) }
{
    let mut begins = true;
    let mut made = Vec::with_capacity(alloc, lines.len())?;
    for line in lines {
        let skipped = is_skipped(numbers.syntax, settings, line, begins);
        made.push(line_again(alloc, line, skipped, numbers)?)?;
        begins = ends(numbers.syntax, settings, line, begins);
    }
    Ok(Sequence::from_vec(made))
}

/// The lines of a recipe: all of a script, and of a body for a shell those that are read. A comment that is skipped stays as
/// it is.
pub fn numbered_body<'a, 'src, S: Syntax>(
    alloc: Global,
    settings: &Settings,
    recipe: &UnresolvedRecipe<'src>,
    numbers: &Numbers<'a, 'src, S>,
) -> Result<Sequence<Line<'src>>, AllocError>
    ensures { let answers = S.answers numbers.now.syntax.now in
        let by = looked_up answers numbers.now in
        let lines = if is_script recipe.now settings.now then map (line_by by) recipe.now.body
        else shell_lines_by by answers settings.now true recipe.now.body in
        IfOk result (λ made. made ≡ lines) }
{
    if recipe.is_script(settings) {
        numbered_lines(alloc, recipe.body.as_slice(), numbers)
    } else {
        numbered_shell_lines(alloc, settings, recipe.body.as_slice(), numbers)
    }
}
