//! Values of which the last that was put is taken first.
ghost use Rattle.std.specs.Prelude.{◌≡◌, [], ◌∷◌, MatchOption, OnOk};
ghost use Rattle.std.specs.Option.{option_copied};
ghost use Rattle.just_bench_expressions.specs.Stack.{list_top};

use std::alloc::{AllocError, Global};
use std::marker::Model;

/// Values of which the last that was put is taken first. Contracts see it as their list, the next to be taken first.
#[derive(Drop)]
pub struct Stack<T> {
    items: Vec<T>,
}

impl<T> Model for Stack<T> {
    ghost use Rattle.std.specs.Prelude.{List, reverse};
    ghost use Rattle.std.specs.Coded.{coded_list};

    ghost Value = { List T };

    ghost coded = { coded_list T.code };

    ghost view = { λ s. reverse s.items.items };
}

impl<T: Drop> Stack<T> {
    /// No values, which takes no memory.
    pub fn new(alloc: Global) -> Stack<T>
        ensures { result ≡ [] }
    {
        Stack {
            items: Vec::new(alloc),
        }
    }

    /// Puts a value. Where memory is refused it is dropped.
    pub fn push(&mut self, item: T) -> Result<(), AllocError>
        ensures { OnOk result (self.new ≡ item ∷ self.old) }
    {
        self.items.push(item)?;
        Ok(())
    }

    /// Takes the next value.
    pub fn pop(&mut self) -> Option<T>
        ensures { MatchOption result (self.old ≡ []) (λ item. self.old ≡ item ∷ self.new) }
    {
        self.items.pop()
    }

    /// The next value.
    pub fn top(&self) -> Option<&T>
        ensures { option_copied result ≡ list_top self.now }
    {
        self.items.last()
    }
}
