//! Laws: calls that do nothing, whose contracts say what the grammar keeps.
ghost use Rattle.std.specs.Prelude.{◌≡◌, ◌≤◌, ℕ, Bool, List, Some, map, slice_range};
ghost use Rattle.just_ast_expressions.specs.declared.expression.Expression.{Expression};
ghost use Rattle.just_bench_expressions.specs.declared.expressions.Found.{Found};
ghost use Rattle.just_bench_expressions.specs.declared.lexer.Lexeme.{Lexeme};
ghost use Rattle.just_bench_expressions.specs.declared.lines.TextLine.{TextLine};
ghost use Rattle.just_names.specs.Token.{lexeme as text_of};
ghost use Rattle.just_bench_expressions.specs.Apart.{StandApart};
ghost use Rattle.just_bench_expressions.specs.Expressions.{expression};
ghost use Rattle.just_bench_expressions.specs.Forms.{IsPartOf, spelling};
ghost use Rattle.just_bench_expressions.specs.Lexemes.{lexemes};
ghost use Rattle.just_bench_expressions.specs.Lines.{IsLineOf};
ghost use Rattle.just_bench_expressions.specs.Spelling.{spell};

/// Nothing of a part of a line is lost in its lexemes: they stand in it one after another, and with them only blanks and
/// tabs. The call does nothing.
pub fn lexemes_joined()
    ensures { (path text : List ℕ) (line : TextLine) (start end : ℕ) (all : List Lexeme) →
        IsLineOf text line → start ≤ end → lexemes path text line start end ≡ Some all →
        StandApart (map (λ l. text_of l.token) all) (slice_range line.text start end) }
{}

/// The text of each expression that is read from a part of a line, and of each expression in it, is the spelling of its
/// form; and nothing is lost: the lexemes that it is read from, one after another, are that spelling. The call does
/// nothing.
pub fn texts_are_spellings()
    ensures texts { (path text : List ℕ) (line : TextLine) (start end at : ℕ) (sums : Bool) (all : List Lexeme) (found : Found) (e : Expression) →
        IsLineOf text line → lexemes path text line start end ≡ Some all → expression sums all at ≡ Some found →
        IsPartOf found.made e → e.text ≡ spelling e }
    ensures lexemes { (path text : List ℕ) (line : TextLine) (start end at : ℕ) (sums : Bool) (all : List Lexeme) (found : Found) →
        IsLineOf text line → lexemes path text line start end ≡ Some all → expression sums all at ≡ Some found →
        spell (slice_range all at found.end) ≡ spelling found.made }
{}
