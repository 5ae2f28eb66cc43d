//! What holds of all words: they begin with one tail or with none, for one reason.
ghost use Rattle.std.specs.Prelude.{◌≡◌, ◌⊎◌, ℕ, List, ◌++◌, IsUtf8};
ghost use Rattle.std.specs.List.{AllByRecursion};
ghost use Rattle.just_ast_definitions.specs.declared.parameter.Parameter.{Parameter};
ghost use Rattle.just_tail.specs.Words.{Words};
ghost use Rattle.just_tail.specs.Cause.{ArgumentFault};
ghost use Rattle.just_tail.specs.Tail.{IsTail, NoTail};
ghost use Rattle.just_tail.specs.Checks.{CountFault, TakesArguments, StopsTail};

/// Words begin with at most one tail.
pub fn one_tail()
    ensures { (ps : List Parameter) (tail other after rest : Words) (found more : ℕ) (groups shown : List Words)
        → tail ++ after ≡ other ++ rest → IsTail ps tail after found groups → IsTail ps other rest more shown
        → (tail ≡ other) × (after ≡ rest) × (found ≡ more) × (groups ≡ shown) }
{}

/// Words that begin with a tail have no fault of a tail.
pub fn no_fault()
    ensures { (ps : List Parameter) (tail after : Words) (found : ℕ) (groups : List Words) (cause : ArgumentFault)
        → IsTail ps tail after found groups → NoTail ps (tail ++ after) cause → ⊥ }
{}

/// Words have at most one fault of a tail.
pub fn one_fault()
    ensures { (ps : List Parameter) (words : Words) (a b : ArgumentFault) → NoTail ps words a → NoTail ps words b → a ≡ b }
{}

/// Texts as words begin with a tail, or have a fault of one.
pub fn tail_or_fault()
    ensures { (ps : List Parameter) (words : Words) → AllByRecursion IsUtf8 words
        → ((tail : Words) × (after : Words) × (found : ℕ) × (groups : List Words) × (words ≡ tail ++ after) × IsTail ps tail after found groups)
        ⊎ ((cause : ArgumentFault) × NoTail ps words cause) }
{}

/// Words begin with arguments in at most one way.
pub fn one_reading()
    ensures { (counts : CountFault) (ps : List Parameter) (tail other after rest : Words) (groups shown : List Words)
        → tail ++ after ≡ other ++ rest
        → TakesArguments counts ps tail after groups → TakesArguments counts ps other rest shown
        → (tail ≡ other) × (after ≡ rest) × (groups ≡ shown) }
{}

/// Words that begin with arguments are not refused.
pub fn no_stop()
    ensures { (counts : CountFault) (ps : List Parameter) (tail after : Words) (groups : List Words) (cause : ArgumentFault)
        → TakesArguments counts ps tail after groups → StopsTail counts ps (tail ++ after) cause → ⊥ }
{}

/// Words are refused for at most one cause.
pub fn one_stop()
    ensures { (counts : CountFault) (ps : List Parameter) (words : Words) (a b : ArgumentFault)
        → StopsTail counts ps words a → StopsTail counts ps words b → a ≡ b }
{}

/// Texts as words begin with arguments, or are refused.
pub fn reading_or_stop()
    ensures { (counts : CountFault) (ps : List Parameter) (words : Words) → AllByRecursion IsUtf8 words
        → ((tail : Words) × (after : Words) × (groups : List Words) × (words ≡ tail ++ after) × TakesArguments counts ps tail after groups)
        ⊎ ((cause : ArgumentFault) × StopsTail counts ps words cause) }
{}
