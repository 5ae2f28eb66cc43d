//! Recipes, as a text says them and resolved.
ghost use Rattle.std.specs.Prelude.{◌≡◌, ◌≤◌, length, map, take, drop, count_by, IfErr, IsSome, OnOk, Some};
ghost use Rattle.std.specs.Fmt.{DisplaysOnOk};
ghost use Rattle.std.specs.Option.{option_map};
ghost use Rattle.std.specs.List.{list_any};
ghost use Rattle.just_recipe.specs.RecipeTexts.{all_texts, dependencies_text};
ghost use Rattle.just_recipe.specs.Recipes.{CannotBeDefault};
ghost use Rattle.just_recipe.specs.Script.{is_shell};
ghost use Rattle.just_ast_definitions.specs.Parameter.{is_required, least_arguments, most_arguments};

use crate::dependency::{Dependency, UnresolvedDependency};
use crate::texts::{text_if, write_each};
use just_ast_definitions::{Attribute, Line, NamedAttribute, Parameter, any_variadic};
use just_ast_expressions::Settings;
use just_data::{BorrowedText, Chain, Exact, Sequence, Shared, Text};
use just_errors::{ArgumentRange, InvocationError};
use just_names::{Name, Number};
use just_paths::Modulepath;
use just_table::Keyed;
use std::alloc::AllocError;
use std::fmt;

/// A recipe. Its first `priors` dependencies run before it, the others after it. The last three fields are there once
/// it is resolved.
#[derive(Drop)]
pub struct Recipe<'src, D = Dependency<'src>> {
    /// What stands in brackets before it, in order.
    pub attributes: Sequence<NamedAttribute<'src>>,
    /// Its lines.
    pub body: Sequence<Line<'src>>,
    /// What it depends on: those that run before it, then those that run after it.
    pub dependencies: Sequence<D>,
    /// What a listing says of it.
    pub doc: Option<Text>,
    /// How many imports and modules lead from the root to its file, at least.
    pub file_depth: u64,
    /// How many bytes stand before the path of each import that leads to its file within its module, the outermost first.
    pub import_offsets: Chain<usize>,
    /// Its name.
    pub name: Name<'src>,
    /// What it is told apart by: no other definition of a compilation has this number.
    pub number: Number,
    /// Its parameters, in order.
    pub parameters: Sequence<Parameter<'src>>,
    /// How many of the dependencies run before it.
    pub priors: usize,
    /// Whether it is left out of listings.
    pub private: bool,
    /// Whether its lines are not shown, where they do not say otherwise.
    pub quiet: bool,
    /// Whether the text says that it is a script.
    pub shebang: bool,
    /// The path of its module, once it is resolved.
    pub module_path: Option<Modulepath>,
    /// Its own path, which ends with its name, once it is resolved.
    pub recipe_path: Option<Modulepath>,
    /// The numbers of the variables that it needs, each once; none while it is unresolved. Recipes that need the same share
    /// them.
    pub variable_references: Shared<Sequence<Number>>,
}

/// A recipe as the source text says it.
pub type UnresolvedRecipe<'src> = Recipe<'src, UnresolvedDependency<'src>>;

impl<'src, D> Recipe<'src, D> {
    ghost use Rattle.just_names.specs.Token.{lexeme};

    /// The text of its name.
    pub fn name(&self) -> &'src str
        ensures { result.now ≡ lexeme self.now.name.token }
    {
        self.name.lexeme()
    }

    /// How many arguments it takes at least: one for each required parameter.
    pub fn min_arguments(&self) -> usize
        ensures { result ≡ least_arguments self.now.parameters }
    {
        least(self.parameters.as_slice())
    }

    /// How many arguments it takes at most under the settings of what depends on it: one for each parameter, or, where
    /// values are no lists and a parameter is variadic, any number.
    pub fn max_arguments(&self, settings: &Settings) -> usize
        ensures { result ≡ most_arguments settings.now.lists self.now.parameters }
    {
        if !settings.lists && any_variadic(self.parameters.as_slice()) {
            usize::MAX - 1
        } else {
            self.parameters.len()
        }
    }

    /// Refuses a recipe that takes arguments, and so cannot be run by default.
    pub fn check_can_be_default_recipe(&self) -> Result<(), InvocationError<'src>>
        ensures can { OnOk result (least_arguments self.now.parameters ≡ 0) }
        ensures cannot { IfErr result (λ e. CannotBeDefault self.now e) }
    {
        let min_arguments = self.min_arguments();
        if min_arguments == 0 {
            return Ok(());
        }
        Err(InvocationError::DefaultRecipeRequiresArguments {
            recipe: BorrowedText::new(self.name.lexeme()),
            min_arguments,
        })
    }

    /// How many arguments it takes under the settings of what depends on it.
    pub fn argument_range(&self, settings: &Settings) -> ArgumentRange
        ensures least { result.min ≡ least_arguments self.now.parameters }
        ensures most { result.max ≡ most_arguments settings.now.lists self.now.parameters }
    {
        ArgumentRange {
            min: self.min_arguments(),
            max: self.max_arguments(settings),
        }
    }
}

fn least(parameters: &[Parameter]) -> usize
    ensures { result ≡ least_arguments parameters.now }
{
    parameters
        .iter()
        .filter(|parameter| parameter.is_required())
        .count()
}

impl<'src> Recipe<'src> {
    /// The dependencies that run before it.
    pub fn priors(&self) -> &[Dependency<'src>]
        requires { self.now.priors ≤ length self.now.dependencies }
        ensures { result.now ≡ take self.now.priors self.now.dependencies }
    {
        let (priors, _) = self.dependencies.as_slice().split_at(self.priors);
        priors
    }

    /// The dependencies that run after it.
    pub fn subsequents(&self) -> &[Dependency<'src>]
        requires { self.now.priors ≤ length self.now.dependencies }
        ensures { result.now ≡ drop self.now.priors self.now.dependencies }
    {
        let (_, subsequents) = self.dependencies.as_slice().split_at(self.priors);
        subsequents
    }

    /// The path of its module.
    pub fn module_path(&self) -> &Modulepath
        requires { IsSome self.now.module_path }
        ensures { self.now.module_path ≡ Some result.now }
    {
        self.module_path.as_ref().unwrap()
    }

    /// Its path from the root.
    pub fn recipe_path(&self) -> &Modulepath
        requires { IsSome self.now.recipe_path }
        ensures { self.now.recipe_path ≡ Some result.now }
    {
        self.recipe_path.as_ref().unwrap()
    }
}

impl<'src, D> Recipe<'src, D> {
    ghost use Rattle.just_recipe.specs.Script.{is_script};

    /// Whether its body is a script, and not lines for a shell, under these settings.
    pub fn is_script(&self, settings: &Settings) -> bool
        ensures { result ≡ is_script self.now settings.now }
    {
        if is_shell(self.attributes.as_slice()) {
            return false;
        }
        self.shebang || settings.default_script
    }
}

// Whether an attribute says that it is no script.
fn is_shell(attributes: &[NamedAttribute]) -> bool
    ensures { result ≡ list_any is_shell attributes.now }
{
    attributes
        .iter()
        .any(|named| matches!(named.attribute, Attribute::Shell))
}

// What the text says of a recipe, its dependencies aside.
#[derive(Drop)]
struct Said<'src> {
    attributes: Sequence<NamedAttribute<'src>>,
    body: Sequence<Line<'src>>,
    doc: Option<Text>,
    parameters: Sequence<Parameter<'src>>,
}

impl<'src, D> Recipe<'src, D> {
    ghost use Rattle.std.specs.Prelude.{◌≡◌, IfOk};

    fn clone_said(&self) -> Result<Said<'src>, AllocError>
        ensures attributes { IfOk result (λ s. (s.attributes ≡ self.now.attributes) × (s.body ≡ self.now.body)) }
        ensures parameters { IfOk result (λ s. (s.doc ≡ self.now.doc) × (s.parameters ≡ self.now.parameters)) }
    {
        let attributes = self.attributes.clone()?;
        let body = self.body.clone()?;
        let doc = self.doc.clone()?;
        let parameters = self.parameters.clone()?;
        Ok(Said {
            attributes,
            body,
            doc,
            parameters,
        })
    }
}

impl<'src, D: Drop> Recipe<'src, D> {
    ghost use Rattle.std.specs.Prelude.{◌≡◌};
    ghost use Rattle.just_recipe.specs.Resolved.{resolved};

    /// The recipe with these dependencies in place of its own, resolved to these paths.
    pub fn resolved<E: Drop>(
        self,
        dependencies: Sequence<E>,
        module_path: Modulepath,
        recipe_path: Modulepath,
    ) -> Recipe<'src, E>
        ensures { result ≡ resolved self.entry dependencies module_path recipe_path }
    {
        Recipe {
            attributes: self.attributes,
            body: self.body,
            dependencies,
            doc: self.doc,
            file_depth: self.file_depth,
            import_offsets: self.import_offsets,
            name: self.name,
            number: self.number,
            parameters: self.parameters,
            priors: self.priors,
            private: self.private,
            quiet: self.quiet,
            shebang: self.shebang,
            module_path: Some(module_path),
            recipe_path: Some(recipe_path),
            variable_references: self.variable_references,
        }
    }
}

impl<'src, D> Keyed<'src> for Recipe<'src, D> {
    ghost use Rattle.just_names.specs.Token.{lexeme};

    ghost key_of = { λ recipe. lexeme recipe.name.token };

    fn key(&self) -> &'src str {
        self.name()
    }
}

impl<'src, D: Exact> Clone for Recipe<'src, D> {
    ghost is_clone = { λ recipe copy. copy ≡ recipe };

    fn clone(&self) -> Result<Recipe<'src, D>, AllocError> {
        let Said {
            attributes,
            body,
            doc,
            parameters,
        } = self.clone_said()?;
        Ok(Recipe {
            attributes,
            body,
            dependencies: self.dependencies.clone()?,
            doc,
            file_depth: self.file_depth,
            import_offsets: self.import_offsets.clone()?,
            name: self.name.copied(),
            number: self.number,
            parameters,
            priors: self.priors,
            private: self.private,
            quiet: self.quiet,
            shebang: self.shebang,
            module_path: self.module_path.clone()?,
            recipe_path: self.recipe_path.clone()?,
            variable_references: self.variable_references.clone()?,
        })
    }
}

impl<'src, D: Exact> Exact for Recipe<'src, D> {
    ghost exact = { λ x y h. h };
}

// Writes dependencies, each after a blank, and ` &&` before the first of those that are not among the first `priors`.
fn write_dependencies<W: fmt::Write, D: fmt::Display>(
    f: &mut fmt::Formatter<W>,
    priors: usize,
    dependencies: &[D],
) -> fmt::Result
    ensures { DisplaysOnOk W.write_str_gives f.old result (option_map (dependencies_text priors) (all_texts (map D.output dependencies.now))) f.new }
{
    let (priors, subsequents) = dependencies.split_at(priors.min(dependencies.len()));
    write_each(f, " ", priors)?;
    f.write_str(text_if(!subsequents.is_empty(), " &&"))?;
    write_each(f, " ", subsequents)
}

/// A recipe is shown as its heading, and each line of its body on a line of its own.
impl<'src, D: fmt::Display> fmt::Display for Recipe<'src, D> {
    ghost use Rattle.just_recipe.specs.RecipeTexts.{known_recipe_text};

    ghost output = { λ recipe. known_recipe_text D.output recipe };

    fn fmt<W: fmt::Write>(&self, f: &mut fmt::Formatter<W>) -> fmt::Result {
        write!(f, "{}{}", text_if(self.quiet, "@"), self.name)?;
        write_each(f, " ", self.parameters.as_slice())?;
        f.write_str(":")?;
        write_dependencies(f, self.priors, self.dependencies.as_slice())?;
        write_each(f, "\n", self.body.as_slice())
    }
}
