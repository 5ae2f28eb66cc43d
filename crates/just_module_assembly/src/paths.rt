//! The paths that are shown of files.
ghost use Rattle.std.specs.Prelude.{IfOk};
ghost use Rattle.std.specs.HashMap.{get};
ghost use Rattle.std.specs.Str.{bytes_eq};
ghost use Rattle.just_module_assembly.specs.Paths.{AreRelative};
ghost use Rattle.just_parts.specs.Asts.{same_ast_key};
ghost use Rattle.just_paths.specs.Clean.{IsClean};

use just_data::Text;
use just_loader::relative_path;
use just_parts::layers::Ast;
use just_paths::{Modulepath, folder_of};
use std::alloc::{AllocError, Global};
use std::collections::HashMap;

/// The path that is shown of each file: from the folder of the root, where it lies below it.
pub fn relative_paths<'src>(
    alloc: Global,
    asts: &HashMap<(Modulepath, Text), Ast<'src>>,
    root: &str,
) -> Result<HashMap<Text, Text>, AllocError>
    requires { IsClean root.now }
    ensures { IfOk result (λ paths. AreRelative root.now (get same_ast_key asts.now) (get bytes_eq paths)) }
{
    let folder = folder_of(root);
    let mut paths = HashMap::new(alloc);
    for (key, _) in asts {
        let shown = relative_path(alloc, folder, key.1.as_str())?;
        let shown = Text::from_str(alloc, shown)?;
        paths.insert(key.1.clone()?, shown)?;
    }
    Ok(paths)
}
