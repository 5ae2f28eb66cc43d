//! Numbers that definitions are told apart by.
ghost use Rattle.std.specs.Prelude.{◌≡◌, ◌+◌, ◌^◌, ◌<◌, ◌≤◌, ℕ, unwrap_or, IfOk, IfSome, OnErr};

use just_data::Exact;
use std::marker::Model;

/// What a definition of a compilation is told apart by.
#[derive(Clone, Copy, PartialEq, Eq, PartialOrd, Ord, Hash)]
pub struct Number(pub u64);

impl Exact for Number {
    ghost exact = { λ x y h. h };
}

/// There is no number left.
#[derive(Clone, Copy, PartialEq, Eq)]
pub struct Exhausted;

/// Gives each number once, in rising order. Contracts see how many it has given.
#[derive(Drop)]
pub struct Numerator {
    // The number that is given next, until all are given.
    next: Option<u64>,
}

impl Model for Numerator {
    ghost Value = { ℕ };

    ghost view = { λ numerator. unwrap_or numerator.next (2 ^ 64) };

    ghost invariant = { λ numerator. IfSome numerator.next (λ number. number < 2 ^ 64) };
}

impl Numerator {
    /// One that has given no number.
    pub fn new() -> Numerator
        ensures { result ≡ 0 }
    {
        Numerator { next: Some(0) }
    }

    /// The next number. Where there is none left, it stays as it is.
    pub fn give(&mut self) -> Result<Number, Exhausted>
        ensures number { IfOk result (λ n. (n.0 ≡ self.old) × (self.new ≡ self.old + 1)) }
        ensures exhausted { OnErr result ((self.old ≡ 2 ^ 64) × (self.new ≡ self.old)) }
        ensures fits { self.new ≤ 2 ^ 64 }
    {
        let Some(number) = self.next else {
            return Err(Exhausted);
        };
        self.next = number.checked_add(1);
        Ok(Number(number))
    }
}
