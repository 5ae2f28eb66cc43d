//! Laws: calls that do nothing, whose contracts say what the grammar keeps.
ghost use Rattle.std.specs.Prelude.{◌≡◌, ◌∷◌, ◌++◌, [], ℕ, List, Some, map};
ghost use Rattle.std.specs.List.{join_with_byte};
ghost use Rattle.just_names.specs.declared.name.Name.{Name};
ghost use Rattle.just_ast_definitions.specs.declared.assignment.Assignment.{Assignment};
ghost use Rattle.just_ast_definitions.specs.declared.function_definition.FunctionDefinition.{FunctionDefinition};
ghost use Rattle.just_ast_definitions.specs.declared.setting.Set.{Set};
ghost use Rattle.just_bench_expressions.specs.declared.lexer.Lexeme.{Lexeme};
ghost use Rattle.just_bench_expressions.specs.declared.lines.TextLine.{TextLine};
ghost use Rattle.just_bench_expressions.specs.Lexemes.{IsQuoted, between_quotes};
ghost use Rattle.just_bench_expressions.specs.Lines.{IsLineOf, lines_of};
ghost use Rattle.just_bench_lines.specs.declared.alias.AliasLine.{AliasLine};
ghost use Rattle.just_bench_lines.specs.declared.attributes.Mark.{Mark};
ghost use Rattle.just_bench_lines.specs.declared.body.BodyLine.{BodyLine};
ghost use Rattle.just_bench_lines.specs.declared.heading.Heading.{Heading};
ghost use Rattle.just_bench_lines.specs.declared.meaning.Declaration.{Declaration};
ghost use Rattle.just_bench_lines.specs.declared.meaning.Meaning.TheVariants as meaning;
ghost use Rattle.just_bench_lines.specs.declared.meaning.Statement.{Statement};
ghost use Rattle.just_bench_lines.specs.declared.meaning.Statement.TheVariants as item;
ghost use Rattle.just_bench_lines.specs.Alias.{alias_line};
ghost use Rattle.just_bench_lines.specs.Attributes.{attribute};
ghost use Rattle.just_bench_lines.specs.Body.{body_line};
ghost use Rattle.just_bench_lines.specs.Definitions as definitions;
ghost use Rattle.just_bench_lines.specs.Heading.{heading_in_line};
ghost use Rattle.just_bench_lines.specs.Meaning.{import, module_line, sorted, statement};
ghost use Rattle.just_bench_lines.specs.Pieces.{AreFrom};

/// Nothing of a text is lost: its lines, joined by line ends, are the text. The call does nothing.
pub fn lines_joined(text: &str)
    ensures { join_with_byte 10 (map (λ line. line.text) (lines_of text.now)) ≡ text.now }
{}

/// Nothing of a quoted text is lost: the text between its quotes, put between quotes again, is the whole. The call
/// does nothing.
pub fn quotes_joined(text: &str)
    requires { IsQuoted text.now }
    ensures { 39 ∷ between_quotes text.now ++ 39 ∷ [] ≡ text.now }
{}

/// Nothing of a line of a body is lost: from whichever column on it is read, its fragments are what stands there, each
/// text as it is and each expression as what stands between its braces. The call does nothing.
pub fn fragments_joined()
    ensures { (path text : List ℕ) (line : TextLine) (start : ℕ) (b : BodyLine) →
        IsLineOf text line → body_line path text line start ≡ Some b → AreFrom path text line start b.line.fragments }
{}

/// No line is of two kinds: what reads as a module, as an attribute, as an alias, as an item without attributes or as the
/// heading of a recipe is told as that. So recipes may be called `import` and `mod`. The call does nothing.
pub fn lines_told_apart()
    ensures modules { (all : List Lexeme) (d : Declaration) → module_line all ≡ Some d → sorted all ≡ meaning.Declares d }
    ensures attributes { (all : List Lexeme) (m : Mark) → attribute all ≡ Some m → sorted all ≡ meaning.Marks m }
    ensures aliases { (all : List Lexeme) (a : AliasLine) → alias_line all ≡ Some a → sorted all ≡ meaning.Aliases a }
    ensures statements { (all : List Lexeme) (s : Statement) → statement all ≡ Some s → sorted all ≡ meaning.States s }
    ensures headings { (all : List Lexeme) (h : Heading) → heading_in_line all ≡ Some h → sorted all ≡ meaning.Begins h }
{}

/// No item without attributes is of two kinds: what reads as an import, as a setting, as a variable that is not
/// exported, as a variable or as a function is told as that. So variables may be called `import` and `set`. The call
/// does nothing.
pub fn items_told_apart()
    ensures imports { (all : List Lexeme) (s : Statement) → import all ≡ Some s → statement all ≡ Some s }
    ensures settings { (all : List Lexeme) (s : Set) → definitions.set all ≡ Some s → statement all ≡ Some (item.Sets s) }
    ensures unexports { (all : List Lexeme) (n : Name) → definitions.unexport all ≡ Some n → statement all ≡ Some (item.Unexports n) }
    ensures variables { (all : List Lexeme) (a : Assignment) → definitions.assignment all ≡ Some a → statement all ≡ Some (item.Assigns a) }
    ensures functions { (all : List Lexeme) (f : FunctionDefinition) → definitions.function all ≡ Some f → statement all ≡ Some (item.Defines f) }
{}
