//! How a file came in.
ghost use Rattle.std.specs.Prelude.{◌≡◌, ◌↔◌, ◌⊎◌, ◌+◌, [], ◌∷◌, ◌++◌, Some, None, IfOk, IfErr, IsErrOf, MatchResult};
ghost use Rattle.just_paths.specs.Clean.{IsClean, folder_of};
ghost use Rattle.just_names.specs.Name.{submodule_path};

use just_data::{Chain, Exact, Text};
use just_errors::Error;
use just_names::{Exhausted, Name, Namepath};
use just_paths::folder_of;
use std::alloc::{AllocError, Global};

/// A file of a compilation, and how it came in: `file_depth` imports and modules lead to it from the root, by the files
/// `file_path`, itself the last. It is imported at `import_offsets`, and it belongs to the module `namepath`, none for
/// the root's.
#[derive(Clone, Drop)]
pub struct Source<'src> {
    /// How many imports and modules lead to it from the root.
    pub file_depth: u64,
    /// The paths of the files that lead to it, from the root to itself.
    pub file_path: Chain<Text>,
    /// How many bytes stand before the path of each import that leads to it within its module, the outermost first.
    pub import_offsets: Chain<usize>,
    /// The names that declare its module; none of the root's module.
    pub namepath: Option<Namepath<'src>>,
    /// Its clean path.
    pub path: Text,
    /// The folder of the own file of its module: a clean path, or `/`.
    pub working_directory: Text,
}

impl<'src> Exact for Source<'src> {
    ghost use Rattle.std.proofs.Common.{rules};

    ghost exact = { Prim.search rules };
}

// The path of the module `name` of another, or of the root's.
fn submodule_path<'src>(
    alloc: Global,
    parent: &Option<Namepath<'src>>,
    name: &Name<'src>,
) -> Result<Namepath<'src>, AllocError>
    ensures { IfOk result (λ path. path ≡ submodule_path parent.now name.now) }
{
    match parent {
        Some(path) => path.join(name),
        None => Ok(Namepath::single(alloc, name)),
    }
}

impl<'src> Source<'src> {
    /// The root file, which works in its folder.
    pub fn root(alloc: Global, path: &str) -> Result<Source<'src>, AllocError>
        requires { IsClean path.now }
        ensures depth { IfOk result (λ source. source.file_depth ≡ 0) }
        ensures chain { IfOk result (λ source. source.file_path ≡ path.now ∷ []) }
        ensures offsets { IfOk result (λ source. source.import_offsets ≡ []) }
        ensures module { IfOk result (λ source. source.namepath ≡ None) }
        ensures path { IfOk result (λ source. source.path ≡ path.now) }
        ensures folder { IfOk result (λ source. source.working_directory ≡ folder_of path.now) }
    {
        Ok(Source {
            file_depth: 0,
            file_path: Chain::new().pushed(alloc, Text::from_str(alloc, path)?)?,
            import_offsets: Chain::new(),
            namepath: None,
            path: Text::from_str(alloc, path)?,
            working_directory: Text::from_str(alloc, folder_of(path))?,
        })
    }

    // The depth of a file that this one names.
    fn next_depth(&self) -> Result<u64, Exhausted>
        ensures { MatchResult result (λ depth. depth ≡ self.now.file_depth + 1) (λ _. self.now.file_depth ≡ u64.MAX) }
    {
        if self.file_depth == u64::MAX {
            return Err(Exhausted);
        }
        Ok(self.file_depth + 1)
    }

    /// The file that this one imports at an offset. It belongs to this one's module and works where this one does.
    /// The error is `Exhausted` where it would lie deeper than 64 bits can tell, and else want of memory.
    pub fn import(
        &self,
        alloc: Global,
        path: &str,
        offset: usize,
    ) -> Result<Source<'src>, Error<'src>>
        ensures depth { IfOk result (λ source. source.file_depth ≡ self.now.file_depth + 1) }
        ensures chain { IfOk result (λ source. source.file_path ≡ self.now.file_path ++ path.now ∷ []) }
        ensures offsets { IfOk result (λ source. source.import_offsets ≡ self.now.import_offsets ++ offset ∷ []) }
        ensures module { IfOk result (λ source. source.namepath ≡ self.now.namepath) }
        ensures path { IfOk result (λ source. source.path ≡ path.now) }
        ensures folder { IfOk result (λ source. source.working_directory ≡ self.now.working_directory) }
        ensures exhausted { IsErrOf result Error.Exhausted ↔ (self.now.file_depth ≡ u64.MAX) }
        ensures error { IfErr result (λ e. (e ≡ Error.Exhausted) ⊎ (e ≡ Error.Memory)) }
    {
        let file_depth = self.next_depth()?;
        let import_offsets = self.import_offsets.pushed(alloc, offset)?;
        Ok(Source {
            file_depth,
            file_path: self.file_path.pushed(alloc, Text::from_str(alloc, path)?)?,
            import_offsets,
            namepath: self.namepath.clone()?,
            path: Text::from_str(alloc, path)?,
            working_directory: self.working_directory.clone()?,
        })
    }

    /// The file of the module `name` of this one's module. It works in its own folder.
    /// The errors are those of `import`.
    pub fn module(
        &self,
        alloc: Global,
        name: &Name<'src>,
        path: &str,
    ) -> Result<Source<'src>, Error<'src>>
        requires { IsClean path.now }
        ensures depth { IfOk result (λ source. source.file_depth ≡ self.now.file_depth + 1) }
        ensures chain { IfOk result (λ source. source.file_path ≡ self.now.file_path ++ path.now ∷ []) }
        ensures offsets { IfOk result (λ source. source.import_offsets ≡ []) }
        ensures module { IfOk result (λ source. source.namepath ≡ Some (submodule_path self.now.namepath name.now)) }
        ensures path { IfOk result (λ source. source.path ≡ path.now) }
        ensures folder { IfOk result (λ source. source.working_directory ≡ folder_of path.now) }
        ensures exhausted { IsErrOf result Error.Exhausted ↔ (self.now.file_depth ≡ u64.MAX) }
        ensures error { IfErr result (λ e. (e ≡ Error.Exhausted) ⊎ (e ≡ Error.Memory)) }
    {
        let file_depth = self.next_depth()?;
        let folder = folder_of(path);
        let import_offsets = Chain::new();
        Ok(Source {
            file_depth,
            file_path: self.file_path.pushed(alloc, Text::from_str(alloc, path)?)?,
            import_offsets,
            namepath: Some(submodule_path(alloc, &self.namepath, name)?),
            path: Text::from_str(alloc, path)?,
            working_directory: Text::from_str(alloc, folder)?,
        })
    }
}
