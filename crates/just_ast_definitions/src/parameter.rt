//! Parameters of recipes.
ghost use Rattle.std.specs.Prelude.{◌≡◌, IfOk};
ghost use Rattle.std.specs.List.{list_any};
ghost use Rattle.just_ast_definitions.specs.declared.parameter.Parameter.{Parameter};
ghost use Rattle.just_ast_definitions.specs.Parameter.{is_name, is_option, is_required, is_variadic};

use just_ast_expressions::Expression;
use just_data::{Exact, Text};
use just_names::{Name, Number};
use just_patterns::Pattern;
use std::alloc::AllocError;
use std::fmt;

/// How many words a parameter takes.
#[derive(Clone, Copy, PartialEq, Eq)]
pub enum ParameterKind {
    /// One.
    Singular,
    /// One or more.
    Plus,
    /// Any number.
    Star,
}

impl ParameterKind {
    /// Whether it takes any number of words from a place on.
    pub fn is_variadic(&self) -> bool
        ensures { result ≡ is_variadic self.now }
    {
        matches!(self, ParameterKind::Plus | ParameterKind::Star)
    }
}

/// A parameter of a recipe.
#[derive(PartialEq, Eq, Drop)]
pub struct Parameter<'src> {
    /// Its name.
    pub name: Name<'src>,
    /// What it is told apart by, as every definition.
    pub number: Number,
    /// How many words it takes.
    pub kind: ParameterKind,
    /// Its value where no word is given.
    pub default: Option<Expression<'src>>,
    /// Its value where it is a switch that is given.
    pub value: Option<Expression<'src>>,
    /// The name of its option, as `--NAME`.
    pub long: Option<Text>,
    /// The letter of its option, as `-c`.
    pub short: Option<char>,
    /// Whether its option takes no word.
    pub flag: bool,
    /// What its words match, once the recipe is resolved.
    pub pattern: Option<Pattern>,
    /// What a listing says of it, once the recipe is resolved.
    pub help: Option<Text>,
    /// How the text spells it: its mark, its name and its default.
    pub text: Text,
}

impl<'src> Parameter<'src> {
    /// Whether its words are given by an option and not by their place.
    pub fn is_option(&self) -> bool
        ensures { result ≡ is_option self.now }
    {
        self.long.is_some() || self.short.is_some()
    }

    /// Whether it is a name alone: it takes one word by its place, and has no default and no value.
    pub fn is_name(&self) -> bool
        ensures { result ≡ is_name self.now }
    {
        if !matches!(self.kind, ParameterKind::Singular) || self.default.is_some() {
            return false;
        }
        self.value.is_none() && !self.is_option()
    }

    /// Whether its group may not be empty: it has no default, takes at least one word, and is no flag.
    pub fn is_required(&self) -> bool
        ensures { result ≡ is_required self.now }
    {
        if self.flag {
            return false;
        }
        self.default.is_none() && !matches!(self.kind, ParameterKind::Star)
    }
}

// The expressions of a parameter.
#[derive(Drop)]
struct Values<'src> {
    default: Option<Expression<'src>>,
    value: Option<Expression<'src>>,
}

// The texts of a parameter, and its pattern.
#[derive(Drop)]
struct Texts {
    long: Option<Text>,
    pattern: Option<Pattern>,
    help: Option<Text>,
    text: Text,
}

impl<'src> Parameter<'src> {
    fn clone_values(&self) -> Result<Values<'src>, AllocError>
        ensures { IfOk result (λ v. (v.default ≡ self.now.default) × (v.value ≡ self.now.value)) }
    {
        let default = self.default.clone()?;
        let value = self.value.clone()?;
        Ok(Values { default, value })
    }

    fn clone_texts(&self) -> Result<Texts, AllocError>
        ensures options { IfOk result (λ t. (t.long ≡ self.now.long) × (t.pattern ≡ self.now.pattern)) }
        ensures texts { IfOk result (λ t. (t.help ≡ self.now.help) × (t.text ≡ self.now.text)) }
    {
        let long = self.long.clone()?;
        let pattern = self.pattern.clone()?;
        let help = self.help.clone()?;
        let text = self.text.clone()?;
        Ok(Texts {
            long,
            pattern,
            help,
            text,
        })
    }
}

impl<'src> Clone for Parameter<'src> {
    ghost is_clone = { λ parameter copy. copy ≡ parameter };

    fn clone(&self) -> Result<Parameter<'src>, AllocError> {
        let Values { default, value } = self.clone_values()?;
        let Texts {
            long,
            pattern,
            help,
            text,
        } = self.clone_texts()?;
        Ok(Parameter {
            name: self.name.copied(),
            number: self.number,
            kind: self.kind,
            default,
            value,
            long,
            short: self.short,
            flag: self.flag,
            pattern,
            help,
            text,
        })
    }
}

impl<'src> Exact for Parameter<'src> {
    ghost exact = { λ x y h. h };
}

/// A parameter is shown as the text spells it.
impl<'src> fmt::Display for Parameter<'src> {
    ghost use Rattle.std.specs.Prelude.{Some};

    ghost output = { λ parameter. Some parameter.text };

    fn fmt<W: fmt::Write>(&self, f: &mut fmt::Formatter<W>) -> fmt::Result {
        fmt::Display::fmt(&self.text, f)
    }
}

/// Whether a parameter takes all words from its place on.
pub fn any_variadic(parameters: &[Parameter]) -> bool
    ensures { result ≡ list_any (λ (p : Parameter). is_variadic p.kind) parameters.now }
{
    parameters
        .iter()
        .any(|parameter| parameter.kind.is_variadic())
}
