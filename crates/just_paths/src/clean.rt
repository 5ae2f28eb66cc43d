//! Clean paths, and the folders that they lie in.
ghost use Rattle.std.specs.Prelude.{◌≡◌, ◌↔◌, IsTrue};
ghost use Rattle.just_paths.specs.Clean.{IsClean, is_component, folder_of};

// Whether the text may stand between two slashes of a clean path.
pub(crate) fn is_component(text: &str) -> bool
    ensures { result ≡ is_component text.now }
{
    !(text.is_empty() || text == "." || text == "..")
}

/// Whether a path is clean: it begins with `/`, and its components, at least one, are none of empty, `.` and `..`.
/// A clean path lies in a folder.
pub fn is_clean(path: &str) -> bool
    ensures { IsTrue result ↔ IsClean path.now }
{
    match path.strip_prefix('/') {
        Some(rest) => rest.split('/').all(|component| is_component(component)),
        None => false,
    }
}

/// The folder that a clean path lies in.
pub fn folder_of(path: &str) -> &str
    requires { IsClean path.now }
    ensures { result.now ≡ folder_of path.now }
{
    match path.rsplit_once('/') {
        Some((folder, _)) => { if folder.is_empty() { "/" } else { folder } }
        None => "/",
    }
}
