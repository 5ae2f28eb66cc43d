ghost use Rattle.std.specs.Prelude.{◌≡◌, Some, IsSome};
ghost use Rattle.std.specs.HashMap.{get};
ghost use Rattle.just_parts.specs.Asts.{same_ast_key, root_ast_key};

use just_data::Text;
use just_justfile::{Justfile, Recipes};
use just_parts::layers::{Ast, Number};
use just_paths::Modulepath;
use std::collections::HashMap;

/// What a source map is compiled to.
#[derive(Drop)]
pub struct Compilation<'src, A = Ast<'src>> {
    /// What each file says, under the path of its module and its own.
    pub asts: HashMap<(Modulepath, Text), A>,
    /// The root's module, with those in it.
    pub justfile: Justfile<'src>,
    /// The recipes of all modules, each after those that it depends on.
    pub recipes: Recipes<'src>,
    /// The values that override variables, each under the number of its variable.
    pub overrides: HashMap<Number, Text>,
    /// The path of the root file.
    pub root: Text,
}

// Whether a key is that of the root file.
fn is_root_key(key: &(Modulepath, Text), root: &str) -> bool
    ensures { result ≡ same_ast_key (root_ast_key root.now) key.now }
{
    key.0.components.is_empty() && !key.0.spaced && key.1.as_str() == root
}

impl<'src> Compilation<'src> {
    ghost use Rattle.std.specs.Prelude.{Some, IsSome};
    ghost use Rattle.std.specs.HashMap.{get};
    ghost use Rattle.just_parts.specs.Asts.{same_ast_key, root_ast_key};

    /// What the root file says.
    pub fn root_ast(&self) -> &Ast<'src>
        requires { IsSome (get same_ast_key self.now.asts (root_ast_key self.now.root)) }
        ensures { get same_ast_key self.now.asts (root_ast_key self.now.root) ≡ Some result.now }
    {
        for (key, ast) in &self.asts {
            if is_root_key(key, self.root.as_str()) {
                return ast;
            }
        }
        unreachable!()
    }
}
