//! How an item leads to a file.
ghost use Rattle.std.specs.Prelude.{◌≡◌, option_map};
ghost use Rattle.just_ast_items.specs.Edge.{edge_of, with_absolute};
ghost use Rattle.just_ast_items.specs.loops.Edge.{lent_edge};

use crate::item::Item;
use just_ast_expressions::StringLiteral;
use just_data::Text;
use just_names::Name;

/// How an item leads to a file. Where it is optional, the file may be missing.
#[derive(Drop)]
pub enum Edge<'item, 'src> {
    /// It imports the file of a quoted text.
    Import {
        relative: &'item StringLiteral<'src>,
        optional: bool,
    },
    /// It declares a module, whose file may have a quoted text.
    Module {
        name: &'item Name<'src>,
        relative: &'item Option<StringLiteral<'src>>,
        optional: bool,
    },
}

impl<'src, R> Item<'src, R> {
    /// How the item leads to a file, where it does.
    pub fn edge<'item>(&'item self) -> Option<Edge<'item, 'src>>
        ensures { option_map lent_edge result ≡ edge_of self.now }
    {
        match self {
            Item::Import {
                relative,
                optional,
                ..
            } => Some(Edge::Import {
                relative,
                optional: *optional,
            }),
            Item::Module {
                name,
                relative,
                optional,
                ..
            } => Some(Edge::Module {
                name,
                relative,
                optional: *optional,
            }),
            _ => None,
        }
    }

    /// Sets the absolute path of the file to which it leads. An item that leads to no file stays as it is.
    pub fn set_absolute(&mut self, path: Option<Text>)
        ensures { self.new ≡ with_absolute path self.old }
    {
        if let Item::Import { absolute, .. } = self {
            *absolute = path;
            return;
        }
        if let Item::Module { absolute, .. } = self {
            *absolute = path;
        }
    }
}
