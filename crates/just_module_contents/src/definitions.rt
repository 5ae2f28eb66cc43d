//! What the files of a module say of it.

use crate::labels::doc_of;
use crate::platforms::is_enabled;
use just_data::BorrowedText;
use just_parts::UnresolvedRecipe;
use just_parts::layers::{
    Alias, Assignment, Definition, Expression, FunctionDefinition, Item, ListUse, Name,
    NamedAttribute, Set, Syntax,
};
use std::alloc::{AllocError, Global};

/// What is defined under a name beside recipes.
#[derive(Drop)]
pub enum Naming<'src> {
    /// An alias.
    Alias(Name<'src>),
    /// A module that has a file.
    Module(Name<'src>),
}

impl<'src> Naming<'src> {
    ghost use Rattle.std.specs.Prelude.{◌≡◌, IfOk, option_to_list};
    ghost use Rattle.just_module_contents.specs.Contents.{defined, defined_naming, texts_of_named};
    ghost use Rattle.just_module_contents.specs.Named.{naming_by};

    /// What an item defines under a name beside recipes.
    pub fn of(item: &Item<'src>) -> Option<Naming<'src>>
        ensures { option_to_list result ≡ naming_by item.now }
    {
        match item {
            Item::Alias(alias) => Some(Naming::Alias(alias.name.copied())),
            Item::Module {
                name,
                absolute: Some(_),
                ..
            } => Some(Naming::Module(name.copied())),
            _ => None,
        }
    }

    // Its name.
    fn name(&self) -> &Name<'src>
        ensures { result.now ≡ (defined_naming self.now).name }
    {
        match self {
            Naming::Alias(name) | Naming::Module(name) => name,
        }
    }

    // As what the name is defined.
    fn sort(&self) -> Definition
        ensures { result ≡ (defined_naming self.now).sort }
    {
        match self {
            Naming::Alias(_) => Definition::Alias,
            Naming::Module(_) => Definition::Module,
        }
    }

    /// The names of several, as texts.
    pub fn texts(
        alloc: Global,
        named: &[Naming<'src>],
    ) -> Result<Vec<BorrowedText<'src>>, AllocError>
        ensures { IfOk result (λ texts. texts.items ≡ texts_of_named named.now) }
    {
        let mut texts = Vec::with_capacity(alloc, named.len())?;
        for naming in named {
            texts.push(BorrowedText::new(naming.name().lexeme()))?;
        }
        Ok(texts)
    }

    /// As what the name is defined, and the name.
    pub fn defined(&self) -> (Definition, &Name<'src>)
        ensures { defined result.0 result.1.now ≡ defined_naming self.now }
    {
        (self.sort(), self.name())
    }
}

/// What the files of a module say of it, file after file, before its recipes are resolved.
#[derive(Drop)]
pub struct Definitions<'src, 'a> {
    /// The recipes.
    pub recipes: Vec<&'a UnresolvedRecipe<'src>>,
    /// The functions.
    pub functions: Vec<&'a FunctionDefinition<'src>>,
    /// The variables.
    pub variables: Vec<&'a Assignment<'src>>,
    /// The aliases.
    pub aliases: Vec<&'a Alias<'src>>,
    /// The names of the modules in it.
    pub modules: Vec<Name<'src>>,
    /// What is defined under a name beside recipes: the modules and the aliases, as they are met.
    pub named: Vec<Naming<'src>>,
    /// What the docs of these are evaluated from.
    pub docs: Vec<&'a Expression<'src>>,
    /// The names of the variables that it unexports.
    pub unexports: Vec<Name<'src>>,
    /// What it sets.
    pub sets: Vec<&'a Set<'src>>,
    /// Where it needs lists.
    pub lists: Vec<&'a ListUse<'src>>,
}

impl<'a, 'src> Definitions<'src, 'a> {
    ghost use Rattle.std.specs.Prelude.{◌≡◌, ◌++◌, ◌<◌, [], IfOk, OnOk, Some, length, map, option_to_list, slice_get};
    ghost use Rattle.just_module_contents.specs.Contents.{defined, defined_naming, function_names, no_contents, signatures, with_lists};
    ghost use Rattle.just_module_contents.specs.loops.Contents.{with_module, with_named};
    ghost use Rattle.just_module_contents.specs.Recipes.{recipe_at, recipes_of};
    ghost use Rattle.just_module_contents.specs.Definitions.{aliases_in, contents_in, docs_in, functions_in, lists_in, recipes_in, sets_in, variables_in};
    ghost use Rattle.just_module_contents.specs.Named.{alias_by, function_by, name_by, naming_by, set_by, unexported_by, variable_by};
    ghost use Rattle.just_module_contents.specs.Labels.{doc_by, doc_of};
    ghost use Rattle.just_module_contents.specs.Said.{said};

    /// Nothing.
    pub fn new(alloc: Global) -> Definitions<'src, 'a>
        ensures { contents_in result ≡ no_contents }
    {
        Definitions {
            recipes: Vec::new(alloc),
            functions: Vec::new(alloc),
            variables: Vec::new(alloc),
            aliases: Vec::new(alloc),
            modules: Vec::new(alloc),
            named: Vec::new(alloc),
            docs: Vec::new(alloc),
            unexports: Vec::new(alloc),
            sets: Vec::new(alloc),
            lists: Vec::new(alloc),
        }
    }

    /// Adds what the enabled items say, in the order of the text.
    pub fn add<S: Syntax>(&mut self, items: &'a [Item<'src>], syntax: &S) -> Result<(), AllocError>
        ensures recipes { OnOk result (recipes_in self.new ≡ recipes_in self.old ++ recipes_of (S.answers syntax.now).enabled items.now) }
        ensures functions { OnOk result (functions_in self.new ≡ functions_in self.old ++ said function_by (S.answers syntax.now).enabled items.now) }
        ensures variables { OnOk result (variables_in self.new ≡ variables_in self.old ++ said variable_by (S.answers syntax.now).enabled items.now) }
        ensures aliases { OnOk result (aliases_in self.new ≡ aliases_in self.old ++ said alias_by (S.answers syntax.now).enabled items.now) }
        ensures modules { OnOk result (self.new.modules.items ≡ self.old.modules.items ++ said name_by (S.answers syntax.now).enabled items.now) }
        ensures named { OnOk result (self.new.named.items ≡ self.old.named.items ++ said naming_by (S.answers syntax.now).enabled items.now) }
        ensures docs { OnOk result (docs_in self.new ≡ docs_in self.old ++ said doc_by (S.answers syntax.now).enabled items.now) }
        ensures unexports { OnOk result (self.new.unexports.items ≡ self.old.unexports.items ++ said unexported_by (S.answers syntax.now).enabled items.now) }
        ensures sets { OnOk result (sets_in self.new ≡ sets_in self.old ++ said set_by (S.answers syntax.now).enabled items.now) }
        ensures lists { OnOk result (lists_in self.new ≡ lists_in self.old) }
    {
        for item in items {
            if !is_enabled(item, syntax) {
                continue;
            }
            self.add_naming(item)?;
            match item {
                Item::Alias(alias) => self.aliases.push(alias)?,
                Item::Recipe(recipe) => self.recipes.push(recipe)?,
                Item::Function(function) => self.functions.push(function)?,
                Item::Assignment(variable) => self.variables.push(variable)?,
                Item::Module {
                    name,
                    absolute: Some(_),
                    attributes,
                    ..
                } => self.add_module(name, attributes.as_slice())?,
                Item::Unexport { name } => self.unexports.push(name.copied())?,
                Item::Setting(set) => self.sets.push(set)?,
                _ => continue,
            }
        }
        Ok(())
    }

    // Adds what an item defines under a name beside recipes.
    fn add_naming(&mut self, item: &Item<'src>) -> Result<(), AllocError>
        ensures { OnOk result (contents_in self.new ≡ with_named (contents_in self.old) (naming_by item.now)) }
    {
        if let Some(naming) = Naming::of(item) {
            self.named.push(naming)?;
        }
        Ok(())
    }

    // Adds a module that is declared under a name, with these attributes.
    fn add_module(
        &mut self,
        name: &Name<'src>,
        attributes: &'a [NamedAttribute<'src>],
    ) -> Result<(), AllocError>
        ensures { OnOk result (contents_in self.new ≡ with_module (contents_in self.old) name.now (option_to_list (doc_of attributes.now))) }
    {
        self.modules.push(name.copied())?;
        if let Some(expression) = doc_of(attributes) {
            self.docs.push(expression)?;
        }
        Ok(())
    }

    /// Adds where a file needs lists.
    pub fn add_lists(&mut self, uses: &'a [ListUse<'src>]) -> Result<(), AllocError>
        ensures { OnOk result (contents_in self.new ≡ with_lists (contents_in self.old) uses.now) }
    {
        for used in uses {
            self.lists.push(used)?;
        }
        Ok(())
    }

    /// As what a name is defined at a place of what is defined beside recipes, and the name.
    pub fn naming_at(&self, place: usize) -> (Definition, &Name<'src>)
        requires { place < length self.now.named.items }
        ensures { slice_get (map defined_naming self.now.named.items) place ≡ Some (defined result.0 result.1.now) }
    {
        self.named[place].defined()
    }

    // The recipe that is lent at a place.
    fn lent_at(&self, place: usize) -> &UnresolvedRecipe<'src>
        requires { place < length self.now.recipes.items }
        ensures { slice_get (recipes_in self.now) place ≡ Some result.now }
    {
        &*self.recipes[place]
    }

    /// The recipe at a place.
    pub fn recipe_at(&self, place: usize) -> &UnresolvedRecipe<'src>
        requires { place < length self.now.recipes.items }
        ensures recipe { slice_get (recipes_in self.now) place ≡ Some result.now }
        ensures there { result.now ≡ recipe_at (recipes_in self.now) place }
    {
        self.lent_at(place)
    }

    /// The function at a place.
    pub fn function_at(&self, place: usize) -> &FunctionDefinition<'src>
        requires { place < length self.now.functions.items }
        ensures { slice_get (functions_in self.now) place ≡ Some result.now }
    {
        &*self.functions[place]
    }

    /// What is set at a place.
    pub fn set_at(&self, place: usize) -> &Set<'src>
        requires { place < length self.now.sets.items }
        ensures { slice_get (sets_in self.now) place ≡ Some result.now }
    {
        &*self.sets[place]
    }

    /// The variable at a place.
    pub fn variable_at(&self, place: usize) -> &Assignment<'src>
        requires { place < length self.now.variables.items }
        ensures { slice_get (variables_in self.now) place ≡ Some result.now }
    {
        &*self.variables[place]
    }

    /// What needs lists at a place.
    pub fn list_at(&self, place: usize) -> &ListUse<'src>
        requires { place < length self.now.lists.items }
        ensures { slice_get (lists_in self.now) place ≡ Some result.now }
    {
        &*self.lists[place]
    }

    /// The names of the functions.
    pub fn function_names(&self, alloc: Global) -> Result<Vec<Name<'src>>, AllocError>
        ensures { IfOk result (λ names. names.items ≡ function_names (signatures (functions_in self.now))) }
    {
        let mut names = Vec::new(alloc);
        for place in 0..self.functions.len() {
            names.push(self.function_at(place).name.copied())?;
        }
        Ok(names)
    }
}
