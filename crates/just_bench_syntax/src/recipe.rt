//! The recipe that a heading begins.
ghost use Rattle.std.specs.Prelude.{◌≡◌, map, None, Some, OnOk, IfErr, IfOk};
ghost use Rattle.std.specs.HashMap.{get};
ghost use Rattle.std.specs.List.{list_any};
ghost use Rattle.std.specs.Option.{option_copied};
ghost use Rattle.std.specs.Str.{bytes_eq};
ghost use Rattle.just_bench_syntax.specs.Recipe as spec;

use just_ast_definitions::{Attribute, NamedAttribute, Parameter};
use just_bench_lines::attributes::Options;
use just_bench_lines::definitions::is_private;
use just_bench_lines::heading::Heading;
use just_data::{BorrowedText, Chain, Sequence, Shared};
use just_names::{Number, Token, index_last};
use just_parts::{Recipe, UnresolvedRecipe};
use std::alloc::{AllocError, Global};
use std::collections::HashMap;

/// What an attribute says of a parameter, and where the attribute stands.
#[derive(Drop)]
pub struct Spoken<'src> {
    /// What it says.
    pub options: Options,
    /// The line that it is.
    pub at: Token<'src>,
}

// Where attributes stand that speak of parameters, by the names of these.
type Places<'a> = HashMap<BorrowedText<'a>, usize>;

// The names of parameters.
fn names_of<'src>(
    alloc: Global,
    parameters: &[Parameter<'src>],
) -> Result<Vec<BorrowedText<'src>>, AllocError>
    ensures { IfOk result (λ names. names.items ≡ spec.parameter_names_of parameters.now) }
{
    let mut names = Vec::new(alloc);
    for parameter in parameters {
        names.push(BorrowedText::new(parameter.name.lexeme()))?;
    }
    Ok(names)
}

// Where the attributes stand, or the first of them that speaks of no parameter, or of one of which another before it does.
#[tactic(auto, using(crate::proofs::Spoken::unknown_told, crate::proofs::Spoken::again_told))]
fn places_of<'a, 'src>(
    alloc: Global,
    parameters: &[Parameter<'src>],
    spoken: &'a [Spoken<'src>],
) -> Result<Result<Places<'a>, Token<'src>>, AllocError>
    ensures fit { IfOk result (λ told. IfOk told (λ _. spec.misfit parameters.now spoken.now ≡ None)) }
    ensures places { IfOk result (λ told. IfOk told (λ found. spec.AreFoundNames spoken.now (get bytes_eq found))) }
    ensures misfit { IfOk result (λ told. IfErr told (λ at. spec.misfit parameters.now spoken.now ≡ Some at)) }
{
    let names = names_of(alloc, parameters)?;
    let known = index_last(alloc, names.as_slice())?;
    let mut places = HashMap::new(alloc);
    for place in 0..spoken.len() {
        let it = &spoken[place];
        let name = BorrowedText::new(it.options.parameter.as_str());
        if !known.contains_key(&name) {
            return Ok(Err(it.at.copied()));
        }
        match places.insert(name, place)? {
            None => continue,
            Some(_) => return Ok(Err(it.at.copied())),
        }
    }
    Ok(Ok(places))
}

// What attributes say of the parameter of this name.
fn options_of<'a, 'b, 'src>(
    spoken: &'a [Spoken<'src>],
    places: &Places<'b>,
    name: &str,
) -> Option<&'a Spoken<'src>>
    requires { spec.AreFoundNames spoken.now (get bytes_eq places.now) }
    ensures { option_copied result ≡ spec.options_of spoken.now name.now }
{
    match places.get(&BorrowedText::new(name)) {
        Some(place) => spoken.get(*place),
        None => None,
    }
}

// Gives a parameter what attributes say of it.
fn give_options<'a, 'src>(
    parameter: &mut Parameter<'src>,
    spoken: &[Spoken<'src>],
    places: &Places<'a>,
) -> Result<(), AllocError>
    requires { spec.AreFoundNames spoken.now (get bytes_eq places.now) }
    ensures { OnOk result (parameter.new ≡ spec.with_options spoken.now parameter.old) }
{
    let Some(found) = options_of(spoken, places, parameter.name.lexeme()) else {
        return Ok(());
    };
    parameter.long = found.options.long.clone()?;
    parameter.short = found.options.short;
    parameter.flag = found.options.flag;
    Ok(())
}

// Gives each parameter what attributes say of it.
#[tactic(auto, using(crate::proofs::InPlace::half_end))]
fn give_all<'a, 'src>(
    parameters: &mut Vec<Parameter<'src>>,
    spoken: &[Spoken<'src>],
    places: &Places<'a>,
) -> Result<(), AllocError>
    requires { spec.AreFoundNames spoken.now (get bytes_eq places.now) }
    ensures { OnOk result (parameters.new.items ≡ map (spec.with_options spoken.now) parameters.old.items) }
{
    for place in 0..parameters.len() {
        give_options(&mut parameters[place], spoken, places)?;
    }
    Ok(())
}

// Whether one of them is `private`.
fn says_private<'src>(attributes: &[NamedAttribute<'src>]) -> bool
    ensures { result ≡ list_any spec.says_private attributes.now }
{
    attributes
        .iter()
        .any(|named| matches!(named.attribute, Attribute::Private))
}

/// The recipe that a heading begins after these attributes, without numbers and without a body, or the first attribute
/// that speaks of no parameter of it, or of one of which another before it does. The error is want of memory.
#[tactic(auto, unfolding(crate::specs::Recipe::recipe))]
pub fn make_recipe<'src>(
    alloc: Global,
    heading: Heading<'src>,
    attributes: Sequence<NamedAttribute<'src>>,
    spoken: &[Spoken<'src>],
) -> Result<Result<UnresolvedRecipe<'src>, Token<'src>>, AllocError>
    ensures { IfOk result (λ made. made ≡ spec.recipe heading.entry attributes.entry spoken.now) }
{
    let Heading {
        quiet,
        name,
        parameters,
        priors,
        subsequents,
    } = heading;
    let places = match places_of(alloc, parameters.as_slice(), spoken)? {
        Ok(places) => places,
        Err(at) => return Ok(Err(at)),
    };
    let mut parameters = parameters.into_vec();
    give_all(&mut parameters, spoken, &places)?;
    let count = priors.len();
    let mut dependencies = priors;
    dependencies.append(subsequents)?;
    let private = is_private(&name) || says_private(attributes.as_slice());
    let variable_references = Shared::new(alloc, Sequence::new(alloc))?;
    Ok(Ok(Recipe {
        attributes,
        body: Sequence::new(alloc),
        dependencies,
        doc: None,
        file_depth: 0,
        import_offsets: Chain::new(),
        name,
        number: Number(0),
        parameters: Sequence::from_vec(parameters),
        priors: count,
        private,
        quiet,
        shebang: false,
        module_path: None,
        recipe_path: None,
        variable_references,
    }))
}
