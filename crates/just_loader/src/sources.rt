ghost use Rattle.std.specs.Prelude.{◌≡◌, ◌↔◌, [], IfSome, IfOk, IsErrOf, OnOk, OnErr, List, ℕ, map};
ghost use Rattle.std.specs.Borrow.{Bor};
ghost use Rattle.std.specs.Map.{keys_of};
ghost use Rattle.std.specs.Map.Iter.{ShowsInOrder, deref};
ghost use Rattle.std.specs.Option.{option_map, option_copied};
ghost use Rattle.just_paths.specs.Clean.{IsClean};
ghost use Rattle.just_table.specs.Entries.{find, put};
ghost use Rattle.just_names.specs.Texts.{texts};
ghost use Rattle.just_loader.specs.ModuleFile.{files_in};
ghost use Rattle.just_loader.specs.Sources.{folder_prefix, text_at};

use crate::module_file::{after, is_module_name, slashed};
use just_data::BorrowedText;
use just_parts::layers::SourceError;
use just_paths::is_clean;
use just_table::{Keyed, Table};
use std::alloc::{AllocError, Global};
use std::collections::btree_map::Keys;
use std::marker::Model;

/// A file of a source map.
#[derive(Drop)]
pub struct SourceFile<'src> {
    /// The clean path.
    pub path: BorrowedText<'src>,
    /// What the file holds.
    pub text: BorrowedText<'src>,
}

impl<'src> SourceFile<'src> {
    // The same file again, which takes no memory.
    pub(crate) fn copied(&self) -> SourceFile<'src>
        ensures { result ≡ self.now }
    {
        SourceFile {
            path: self.path.copied(),
            text: self.text.copied(),
        }
    }
}

impl<'src> Keyed<'src> for SourceFile<'src> {
    ghost key_of = { λ file. file.path };

    fn key(&self) -> &'src str {
        self.path.as_str()
    }
}

// The folder of a clean path, with a slash at its end.
fn folder_prefix<'src>(path: &'src str) -> &'src str
    requires { IsClean path.now }
    ensures { result.now ≡ folder_prefix path.now }
{
    match path.rsplit_once('/') {
        Some((_, name)) => path.strip_suffix(name).unwrap_or(path),
        None => path,
    }
}

/// A map from clean paths to texts.
#[derive(Drop)]
pub struct Sources<'src> {
    files: Table<'src, SourceFile<'src>>,
    // Where the files of a folder begin, each with a slash at its end.
    folders: Table<'src, BorrowedText<'src>>,
}

impl<'src> Model for Sources<'src> {
    ghost use Rattle.just_loader.specs.Sources.{Files, AreSources, AreFolders, HoldsFolders};

    ghost Value = { Files };

    ghost view = { λ sources. sources.files };

    ghost invariant = { λ sources. AreSources sources.files × AreFolders sources.folders × HoldsFolders sources.folders sources.files };
}

impl<'src> Sources<'src> {
    /// No files, which takes no memory.
    pub fn new(alloc: Global) -> Sources<'src>
        ensures { result ≡ [] }
    {
        Sources {
            files: Table::new(alloc),
            folders: Table::new(alloc),
        }
    }

    /// Puts a text under a path, in place of one that it had. A path that is not clean is refused, and then, or where
    /// memory is refused, nothing changes.
    pub fn insert(&mut self, path: &'src str, text: &'src str) -> Result<(), SourceError>
        ensures ok { OnOk result (self.new ≡ put path.now (record { path = path.now; text = text.now }) self.old) }
        ensures clean { OnOk result (IsClean path.now) }
        ensures not_clean { IsErrOf result SourceError.NotClean ↔ (IsClean path.now → ⊥) }
        ensures err { OnErr result (self.new ≡ self.old) }
    {
        if !is_clean(path) {
            return Err(SourceError::NotClean);
        }
        let file = SourceFile {
            path: BorrowedText::new(path),
            text: BorrowedText::new(text),
        };
        let folder = BorrowedText::new(folder_prefix(path));
        if self.folders.insert(folder).is_err() {
            return Err(SourceError::Memory);
        }
        match self.files.insert(file) {
            Ok(_) => Ok(()),
            Err(_) => Err(SourceError::Memory),
        }
    }

    /// The text of a path.
    pub fn get(&self, path: &str) -> Option<&'src str>
        ensures { option_map (λ text. text.now) result ≡ text_at self.now path.now }
    {
        match self.files.get(path) {
            Some(file) => Some(file.text.as_str()),
            None => None,
        }
    }

    /// The paths of the files, in byte order.
    pub fn paths(&self) -> Keys<'_, &'src str, SourceFile<'src>>
        ensures rest { map (λ path. path.now) result ≡ keys_of self.now }
        ensures runs { ShowsInOrder (deref {X = Bor (List ℕ)}) }
    {
        self.files.keys()
    }

    // The file of a path.
    pub(crate) fn file(&self, path: &str) -> Option<&SourceFile<'src>>
        ensures found { option_copied result ≡ find path.now self.now }
        ensures path { IfSome result (λ file. file.now.path ≡ path.now) }
        ensures clean { IfSome result (λ _. IsClean path.now) }
    {
        self.files.get(path)
    }

    // The paths of a folder's files that can be a module's, in byte order.
    pub(crate) fn module_files_in(
        &self,
        alloc: Global,
        folder: &str,
    ) -> Result<Vec<&'src str>, AllocError>
        ensures { IfOk result (λ paths. texts paths.items ≡ files_in self.now folder.now) }
    {
        let mut paths = Vec::new(alloc);
        let prefix = slashed(alloc, folder)?;
        let Some(start) = self.folders.get(prefix.as_str()) else {
            return Ok(paths);
        };
        for (path, _) in self.files.range_from(start.as_str()) {
            let Some(name) = after(path, prefix.as_str()) else {
                return Ok(paths);
            };
            if is_module_name(name) {
                paths.push(*path)?;
            }
        }
        Ok(paths)
    }
}
