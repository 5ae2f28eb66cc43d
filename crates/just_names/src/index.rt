ghost use Rattle.std.specs.Prelude.{◌≡◌, ◌<◌, IfOk, IfErr, IfSome, IfNone, length};
ghost use Rattle.std.specs.Str.{bytes_eq};
ghost use Rattle.std.specs.HashMap.{get};
ghost use Rattle.just_names.specs.Index.{texts_of_names, Repeats, AreDifferent, IsIndex, NoneRepeats};

use crate::Name;
use just_data::BorrowedText;
use std::alloc::{AllocError, Global};
use std::collections::HashMap;

/// The place of each name, or the first place whose name stood before, after the place where it stood last.
pub fn index_names<'src>(
    alloc: Global,
    names: &[BorrowedText<'src>],
) -> Result<Result<HashMap<BorrowedText<'src>, usize>, (usize, usize)>, AllocError>
    ensures index { IfOk result (λ answer. IfOk answer (λ index. IsIndex names.now (get bytes_eq index))) }
    ensures different { IfOk result (λ answer. IfOk answer (λ _. AreDifferent names.now)) }
    ensures repeated { IfOk result (λ answer. IfErr answer (λ places. Repeats names.now places.0 places.1)) }
{
    let mut index = HashMap::new(alloc);
    for place in 0..names.len() {
        match index.insert(names[place].copied(), place)? {
            Some(before) => return Ok(Err((before, place))),
            None => continue,
        }
    }
    Ok(Ok(index))
}

/// The last place of each name.
pub fn index_last<'src>(
    alloc: Global,
    names: &[BorrowedText<'src>],
) -> Result<HashMap<BorrowedText<'src>, usize>, AllocError>
    ensures { IfOk result (λ index. IsIndex names.now (get bytes_eq index)) }
{
    let mut index = HashMap::new(alloc);
    for place in 0..names.len() {
        index.insert(names[place].copied(), place)?;
    }
    Ok(index)
}

/// The first place whose name stood before, last at a place below a bound; with that place.
pub fn repeated_below<'src>(
    alloc: Global,
    names: &[BorrowedText<'src>],
    bound: usize,
) -> Result<Option<(usize, usize)>, AllocError>
    ensures repeated { IfOk result (λ places. IfSome places (λ two. Repeats names.now two.0 two.1)) }
    ensures below { IfOk result (λ places. IfSome places (λ two. two.0 < bound)) }
    ensures none { IfOk result (λ places. IfNone places (NoneRepeats names.now (length names.now) bound)) }
{
    let mut index = HashMap::new(alloc);
    for place in 0..names.len() {
        match index.insert(names[place].copied(), place)? {
            None => continue,
            Some(before) => {
                if before < bound {
                    return Ok(Some((before, place)));
                }
            }
        }
    }
    Ok(None)
}

/// The texts of names.
pub fn texts_of<'src>(
    alloc: Global,
    names: &[Name<'src>],
) -> Result<Vec<BorrowedText<'src>>, AllocError>
    ensures { IfOk result (λ texts. texts.items ≡ texts_of_names names.now) }
{
    let mut texts = Vec::new(alloc);
    for name in names {
        texts.push(BorrowedText::new(name.lexeme()))?;
    }
    Ok(texts)
}

/// The first place whose name stood before, after the place where it stood last; none where all names are different.
pub fn repeated_name(alloc: Global, names: &[Name]) -> Result<Option<(usize, usize)>, AllocError>
    ensures repeated { IfOk result (λ places. IfSome places (λ two. Repeats (texts_of_names names.now) two.0 two.1)) }
    ensures different { IfOk result (λ places. IfNone places (AreDifferent (texts_of_names names.now))) }
{
    let texts = texts_of(alloc, names)?;
    match index_names(alloc, texts.as_slice())? {
        Ok(_) => Ok(None),
        Err(places) => Ok(Some(places)),
    }
}
