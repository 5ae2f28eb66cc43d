//! Paths of recipes as command words name them.
use just_paths::Modulepath;
use std::fmt;

/// A path that is shown with a blank between any two names.
#[derive(Drop)]
pub struct SpacedPath<'a> {
    /// The path.
    pub path: &'a Modulepath,
}

impl<'a> fmt::Display for SpacedPath<'a> {
    ghost use Rattle.std.specs.Prelude.{Some, true};
    ghost use Rattle.just_names.specs.Texts.{text_of};

    ghost output = { λ spaced. Some (text_of spaced.path.now.components true) };

    fn fmt<W: fmt::Write>(&self, f: &mut fmt::Formatter<W>) -> fmt::Result {
        if let Some((first, rest)) = self.path.components.as_slice().split_first() {
            write!(f, "{first}")?;
            for name in rest {
                write!(f, " {name}")?;
            }
        }
        Ok(())
    }
}
