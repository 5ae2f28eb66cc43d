//! Laws: calls that do nothing, whose contracts say what definitions keep.
ghost use Rattle.std.specs.Prelude.{◌≡◌, ◌≢◌, ◌<◌, ◌⊎◌, List, [], length, IsUtf8};
ghost use Rattle.std.specs.List.{All, AllByRecursion};
ghost use Rattle.just_invocations.specs.Cause.{InvocationFault};
ghost use Rattle.just_tail.specs.Words.{Words};
ghost use Rattle.just_justfile.specs.Closed.{HeldRecipes, IsHeld};
ghost use Rattle.just_invocations.specs.Split.{Counts, Invoked, Invokes, IsSplit, HasWordsFault};
ghost use Rattle.just_justfile.specs.declared.justfile.Justfile.{Justfile};

/// Words are invocations in at most one way.
pub fn one_split()
    ensures { (counts : Counts) (root : Justfile) (recipes : HeldRecipes) (words : Words) (a b : List Invoked) →
        IsSplit counts root recipes words a → IsSplit counts root recipes words b → a ≡ b }
{}

/// No words are one invocation.
pub fn no_words_are_one()
    ensures { (counts : Counts) (root : Justfile) (recipes : HeldRecipes) (is : List Invoked) → IsSplit counts root recipes [] is → length is ≡ 1 }
{}

/// Words that are invocations have no fault.
pub fn no_fault()
    ensures { (counts : Counts) (root : Justfile) (recipes : HeldRecipes) (words : Words) (a : List Invoked) (c : InvocationFault) →
        IsSplit counts root recipes words a → HasWordsFault counts root recipes words c → ⊥ }
{}

/// Words have at most one fault.
pub fn one_fault()
    ensures { (counts : Counts) (root : Justfile) (recipes : HeldRecipes) (words : Words) (a b : InvocationFault) →
        HasWordsFault counts root recipes words a → HasWordsFault counts root recipes words b → a ≡ b }
{}

/// Texts as words are invocations, or have a fault.
pub fn split_or_fault()
    ensures { (counts : Counts) (root : Justfile) (recipes : HeldRecipes) (words : Words) → AllByRecursion IsUtf8 words
        → ((is : List Invoked) × IsSplit counts root recipes words is) ⊎ ((c : InvocationFault) × HasWordsFault counts root recipes words c) }
{}

/// An invocation with which some words begin takes at least one of them.
pub fn takes_some()
    ensures { (counts : Counts) (root : Justfile) (recipes : HeldRecipes) (words after : Words) (i : Invoked) →
        words ≢ [] → Invokes counts root recipes words after i → length after < length words }
{}

/// The recipes of invocations are held.
pub fn holds_recipes()
    ensures { (counts : Counts) (root : Justfile) (recipes : HeldRecipes) (words : Words) (is : List Invoked) →
        IsSplit counts root recipes words is → All (λ i. IsHeld recipes i.recipe) is }
{}
