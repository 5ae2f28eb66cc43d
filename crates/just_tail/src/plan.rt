//! Where the words of a recipe belong: the places of its parameters, looked up once.
ghost use Rattle.std.specs.Prelude.{◌≡◌, ◌<◌, ◌+◌, ℕ, IfOk, IfSome, length, nat_eq, option_map};
ghost use Rattle.std.specs.Str.{bytes_eq};
ghost use Rattle.std.specs.HashMap.{get};
ghost use Rattle.just_names.specs.Texts.{Text as Name};
ghost use Rattle.just_errors.specs.declared.switch.Switch.TheVariants as named;
ghost use Rattle.just_tail.specs.Options.{option_of, has_options, positions_from, first_variadic, place};
ghost use Rattle.just_tail.specs.loops.Options.{place_from};
ghost use Rattle.just_tail.specs.loops.Reader.{switch_of, IsTailPlan};

use crate::switch::BorrowedSwitch;
use just_ast_definitions::Parameter;
use just_data::BorrowedText;
use std::alloc::{AllocError, Global};
use std::collections::HashMap;

/// The parameters of a recipe, with the places that words are looked up in.
#[derive(Drop)]
pub struct Plan<'run, 'src> {
    /// The parameters.
    pub parameters: &'run [Parameter<'src>],
    /// The last place of each long name.
    pub long: HashMap<BorrowedText<'run>, usize>,
    /// The last place of each letter.
    pub short: HashMap<char, usize>,
    /// The places of the positional parameters.
    pub positions: Vec<usize>,
    /// Among these, the first that takes all words from there on, or their number.
    pub variadic: usize,
}

// The last place of each long name.
fn long_places<'run>(
    alloc: Global,
    parameters: &'run [Parameter],
) -> Result<HashMap<BorrowedText<'run>, usize>, AllocError>
    ensures { IfOk result (λ places. (name : Name) → get bytes_eq places name ≡ place_from 0 parameters.now (named.Long name)) }
{
    let mut places = HashMap::new(alloc);
    for (place, parameter) in parameters.iter().enumerate() {
        if let Some(long) = &parameter.long {
            places.insert(BorrowedText::new(long.as_str()), place)?;
        }
    }
    Ok(places)
}

// The last place of each letter.
fn short_places(alloc: Global, parameters: &[Parameter]) -> Result<HashMap<char, usize>, AllocError>
    ensures { IfOk result (λ places. (c : ℕ) → get nat_eq places c ≡ place_from 0 parameters.now (named.Short c)) }
{
    let mut places = HashMap::new(alloc);
    for (place, parameter) in parameters.iter().enumerate() {
        if let Some(short) = parameter.short {
            places.insert(short, place)?;
        }
    }
    Ok(places)
}

// The places of the positional parameters.
fn positions(alloc: Global, parameters: &[Parameter]) -> Result<Vec<usize>, AllocError>
    ensures { IfOk result (λ places. places.items ≡ positions_from 0 parameters.now) }
{
    let mut places = Vec::new(alloc);
    for (place, parameter) in parameters.iter().enumerate() {
        if !parameter.is_option() {
            places.push(place)?;
        }
    }
    Ok(places)
}

// Among the positional parameters, the first that takes all words from there on, or their number.
fn first_variadic(parameters: &[Parameter]) -> usize
    ensures { result ≡ first_variadic parameters.now }
{
    let mut place = 0;
    for parameter in parameters {
        if !parameter.is_option() {
            if parameter.kind.is_variadic() {
                return place;
            }
            place += 1;
        }
    }
    place
}

/// Whether some parameter is named by a switch.
pub fn has_options(parameters: &[Parameter]) -> bool
    ensures { result ≡ has_options parameters.now }
{
    parameters.iter().any(|parameter| parameter.is_option())
}

impl<'run, 'src> Plan<'run, 'src> {
    /// The places of these parameters.
    pub fn new(
        alloc: Global,
        parameters: &'run [Parameter<'src>],
    ) -> Result<Plan<'run, 'src>, AllocError>
        ensures plan { IfOk result IsTailPlan }
        ensures same { IfOk result (λ plan. plan.parameters.now ≡ parameters.now) }
    {
        let long = long_places(alloc, parameters)?;
        let short = short_places(alloc, parameters)?;
        let positions = positions(alloc, parameters)?;
        let variadic = first_variadic(parameters);
        Ok(Plan {
            parameters,
            long,
            short,
            positions,
            variadic,
        })
    }

    // The place of the parameter that a switch names.
    fn option_place(&self, switch: BorrowedSwitch) -> Option<usize>
        requires { IsTailPlan self.now }
        ensures { result ≡ place_from 0 self.now.parameters.now (switch_of switch.entry) }
    {
        match switch {
            BorrowedSwitch::Long(name) => self.long.get(&BorrowedText::new(name)).copied(),
            BorrowedSwitch::Short(letter) => self.short.get(&letter).copied(),
        }
    }

    /// The parameter that a switch names, with its place.
    pub fn option(&self, switch: BorrowedSwitch) -> Option<(usize, &'run Parameter<'src>)>
        requires { IsTailPlan self.now }
        ensures within { IfSome result (λ found. found.0 < length self.now.parameters.now) }
        ensures found { option_map (λ found. (found.0, found.1.now)) result ≡ option_of self.now.parameters.now (switch_of switch.entry) }
    {
        let place = self.option_place(switch)?;
        match self.parameters.get(place) {
            Some(parameter) => Some((place, parameter)),
            None => None,
        }
    }

    /// The place of the parameter to which a positional word belongs, by how many stand before it.
    pub fn place(&self, placed: usize) -> Option<usize>
        requires { IsTailPlan self.now }
        ensures { result ≡ place self.now.parameters.now placed }
    {
        self.positions.get(placed.min(self.variadic)).copied()
    }
}
