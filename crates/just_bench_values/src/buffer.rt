//! A text that grows.
ghost use Rattle.std.specs.Prelude.{◌≡◌, [], ◌++◌, IfOk, OnOk};

use just_data::Text;
use std::alloc::{AllocError, Global};
use std::marker::Model;

/// A text that grows at its end. Contracts see it as its bytes.
#[derive(Drop)]
pub struct Buffer {
    text: String,
}

impl Model for Buffer {
    ghost use Rattle.std.specs.Prelude.{List, ℕ, string_bytes};

    ghost Value = { List ℕ };

    ghost view = { λ s. string_bytes s.text };
}

impl Buffer {
    /// No text, which takes no memory.
    pub fn new(alloc: Global) -> Buffer
        ensures { result ≡ [] }
    {
        Buffer {
            text: String::new(alloc),
        }
    }

    /// Puts a text at the end.
    pub fn push(&mut self, text: &str) -> Result<(), AllocError>
        ensures { OnOk result (self.new ≡ self.old ++ text.now) }
    {
        self.text.push_str(text)?;
        Ok(())
    }

    /// The text, whose bytes are not copied.
    pub fn into_text(self) -> Result<Text, AllocError>
        ensures { IfOk result (λ text. text ≡ self) }
    {
        let Buffer { text } = self;
        Text::from_string(text)
    }
}
