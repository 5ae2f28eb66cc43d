//! Why files could not be loaded.
ghost use Rattle.std.specs.Prelude.{◌≡◌};
ghost use Rattle.just_errors.specs.Messages.{load_name};

use crate::phrases::{At, Listed};
use just_data::{Sequence, Text};
use just_names::{Name, Token};
use thiserror::Error;

/// Why the files could not be loaded.
#[derive(Debug, Drop, Error)]
pub enum LoadError<'src> {
    /// The root is no key of the source map.
    #[error("Could not find the root `{path}` among the files")]
    Load {
        path: Text,
    },
    /// A path begins with `~`, and no home folder is known.
    #[error("The path of an import or of a module begins with `~/`, and no home folder is known")]
    Homedir,
    /// An import names no file.
    #[error("{}: Could not find source file for import {}, which `import?` would let be absent", At(.path), .path.lexeme())]
    MissingImportFile {
        path: Token<'src>,
    },
    /// No file is found for a module.
    #[error("{}: Could not find source file for module `{module}`, looked for as the file at its path, or without a path as `{module}.just`, and as `mod.just`, `justfile` or `.justfile` in the folder of its path or name", At(&.module.token))]
    MissingModuleFile {
        module: Name<'src>,
    },
    /// Several files are found for a module.
    #[error("{}: Found multiple source files for module `{module}`, which may have one: {}", At(&.module.token), Listed(.found.as_slice()))]
    AmbiguousModuleFile {
        module: Name<'src>,
        found: Sequence<Text>,
    },
    /// A file leads back to itself.
    #[error("File `{current}` leads back to itself: it imports `{import}`, or has it as the file of a module")]
    CircularImport {
        current: Text,
        import: Text,
    },
    /// Values are given for variables that are not there. Each is told by the path that leads to it, as paths are shown.
    #[error("Variables that are overridden are not there: {}", Listed(.overrides.as_slice()))]
    UnknownOverrides {
        overrides: Sequence<Text>,
    },
}

impl<'src> LoadError<'src> {
    /// The name of the variant.
    pub fn name(&self) -> &'static str
        ensures { result.now ≡ load_name self.now }
    {
        match self {
            LoadError::Load { .. } => "Load",
            LoadError::Homedir => "Homedir",
            LoadError::MissingImportFile { .. } => "MissingImportFile",
            LoadError::MissingModuleFile { .. } => "MissingModuleFile",
            LoadError::AmbiguousModuleFile { .. } => "AmbiguousModuleFile",
            LoadError::CircularImport { .. } => "CircularImport",
            LoadError::UnknownOverrides { .. } => "UnknownOverrides",
        }
    }
}
