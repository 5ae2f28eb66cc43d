//! The definitions of a source text.
use just_ast_definitions::{Alias, Assignment, FunctionDefinition, NamedAttribute, Set};
use just_ast_expressions::StringLiteral;
use just_data::{Exact, Sequence, Text};
use just_names::{Name, Token};

/// A definition of a source text, whose recipes are `R`. A grammar leaves the absolute path of a file out.
#[derive(Clone)]
pub enum Item<'src, R> {
    /// Another name for a recipe or a module.
    Alias(Alias<'src>),
    /// A variable.
    Assignment(Assignment<'src>),
    /// What stands after a `#`.
    Comment(Token<'src>),
    /// A function.
    Function(FunctionDefinition<'src>),
    /// The items of another file. Where it is optional, the file may be missing.
    Import {
        relative: StringLiteral<'src>,
        absolute: Option<Text>,
        optional: bool,
    },
    /// Another file as a module of its own. Where it is optional, the file may be missing.
    Module {
        name: Name<'src>,
        relative: Option<StringLiteral<'src>>,
        absolute: Option<Text>,
        attributes: Sequence<NamedAttribute<'src>>,
        doc: Option<Text>,
        optional: bool,
    },
    /// An empty line.
    Newline,
    /// A recipe.
    Recipe(R),
    /// A setting.
    Setting(Set<'src>),
    /// A variable that recipes do not have in their environment.
    Unexport {
        name: Name<'src>,
    },
}

// Written out, as with `Error`: an item is taken apart here alone.
impl<'src, R: Drop> Drop for Item<'src, R> {
    fn drop(self) {
        match self {
            Item::Alias(_value) => {}
            Item::Assignment(_value) => {}
            Item::Comment(_value) => {}
            Item::Function(_value) => {}
            Item::Import {
                relative: _relative,
                absolute: _absolute,
                optional: _optional,
            } => {}
            Item::Module {
                name: _name,
                relative: _relative,
                absolute: _absolute,
                attributes: _attributes,
                doc: _doc,
                optional: _optional,
            } => {}
            Item::Recipe(_value) => {}
            Item::Setting(_value) => {}
            Item::Unexport { name: _name } => {}
            Item::Newline => {}
        }
    }
}

impl<'src, R: Exact> Exact for Item<'src, R> {
    ghost use Rattle.std.proofs.Common.{rules};

    ghost exact = { Prim.search rules };
}
