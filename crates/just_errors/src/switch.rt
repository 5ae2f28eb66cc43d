//! What names an option.
use just_data::Text;
use std::fmt;

/// What names an option. It is shown as it is written in the words: `--NAME`, or `-c`.
#[derive(Debug, PartialEq, Eq, Drop)]
pub enum Switch {
    /// A long name.
    Long(Text),
    /// A letter.
    Short(char),
}

impl fmt::Display for Switch {
    ghost use Rattle.std.specs.Prelude.{Some};
    ghost use Rattle.just_errors.specs.Wording.{switch_text};

    ghost output = { λ switch. Some (switch_text switch) };

    fn fmt<W: fmt::Write>(&self, f: &mut fmt::Formatter<W>) -> fmt::Result {
        match self {
            Switch::Long(name) => write!(f, "--{name}"),
            Switch::Short(letter) => write!(f, "-{letter}"),
        }
    }
}
