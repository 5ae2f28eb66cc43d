//! Laws: calls that do nothing, whose contracts tie what a line reads as to how far it is read.
ghost use Rattle.std.specs.Prelude.{◌≡◌, ◌&&◌, ◌||◌, ◌==◌, ℕ, List, codes, false, not, length, is_ok, is_some};
ghost use Rattle.just_names.specs.Texts.{Text};
ghost use Rattle.just_bench_expressions.specs.declared.lexer.Lexeme.{Lexeme};
ghost use Rattle.just_bench_expressions.specs.declared.lines.TextLine.{TextLine};
ghost use Rattle.just_bench_expressions.specs.Lexemes.{lexed_to, lexemes};
ghost use Rattle.just_bench_lines.specs.declared.meaning.Meaning.TheVariants as meaning;
ghost use Rattle.just_bench_lines.specs.Alias.{alias_line};
ghost use Rattle.just_bench_lines.specs.Attributes.{attribute};
ghost use Rattle.just_bench_lines.specs.Body.{body_line, interpolation};
ghost use Rattle.just_bench_lines.specs.Definitions as definitions;
ghost use Rattle.just_bench_lines.specs.Heading.{heading_in_line};
ghost use Rattle.just_bench_lines.specs.Meaning.{import, module_line, sorted};
ghost use Rattle.just_bench_stops.specs.declared.stops.Form.{Form};
ghost use Rattle.just_bench_stops.specs.Attributes.{attribute_end};
ghost use Rattle.just_bench_stops.specs.Body.{bad_part};
ghost use Rattle.just_bench_stops.specs.Definitions as ends;
ghost use Rattle.just_bench_stops.specs.Heading.{heading_end};
ghost use Rattle.just_bench_stops.specs.Stops.{form_end};
ghost use Rattle.just_bench_stops.specs.Tokens.{lexemes_between};

/// A line reads as an import, a module, a setting, a variable that is not exported, a variable, a function, an alias, an
/// attribute or the heading of a recipe exactly where reading it as one goes to its end. The call does nothing.
pub fn kinds_go_to_their_ends()
    ensures imports { (all : List Lexeme) → is_some (import all) ≡ is_ok (ends.import_end all) }
    ensures modules { (all : List Lexeme) → is_some (module_line all) ≡ is_ok (ends.module_end all) }
    ensures settings { (all : List Lexeme) → is_some (definitions.set all) ≡ is_ok (ends.set_end all) }
    ensures unexports { (all : List Lexeme) → is_some (definitions.unexport all) ≡ is_ok (ends.unexport_end all) }
    ensures variables { (all : List Lexeme) → is_some (definitions.assignment all) ≡
        (is_ok (ends.assignment_end all 0) || (is_ok (ends.prefixed_end (codes "export") all) || is_ok (ends.prefixed_end (codes "eager") all))) }
    ensures functions { (all : List Lexeme) → is_some (definitions.function all) ≡ is_ok (ends.function_end all) }
    ensures aliases { (all : List Lexeme) → is_some (alias_line all) ≡ is_ok (ends.alias_end all) }
    ensures attributes { (all : List Lexeme) → is_some (attribute all) ≡ is_ok (attribute_end all) }
    ensures headings { (all : List Lexeme) → is_some (heading_in_line all) ≡ is_ok (heading_end all) }
{}

/// A line does not follow the grammar exactly where it is read to its end as none of the kinds of lines; and its parts are
/// all lexemes exactly where these go to its end. The call does nothing.
pub fn lines_go_to_their_ends()
    ensures bad { (all : List Lexeme) → sorted all ≡ meaning.Bad → (it : Form) → is_ok (form_end it all) ≡ false }
    ensures unended { (all : List Lexeme) → ((it : Form) → is_ok (form_end it all) ≡ false) → sorted all ≡ meaning.Bad }
    ensures lexemes { (path text : Text) (line : TextLine) →
        is_some (lexemes path text line 0 (length line.text)) ≡ (lexed_to line 0 (length line.text) == length line.text) }
{}

/// A line of a body is one exactly where none of its parts is told as none; and an interpolation, from behind `{{` to `}}`,
/// exactly where its parts are all lexemes and reading of its expression goes to its end. The call does nothing.
pub fn body_lines_go_to_their_ends()
    ensures lines { (path text : Text) (line : TextLine) (start : ℕ) →
        is_some (body_line path text line start) ≡ not (is_some (bad_part path text line start)) }
    ensures interpolations { (path text : Text) (line : TextLine) (start end : ℕ) →
        is_some (interpolation path text line start end) ≡
        (is_some (lexemes path text line start end) && is_ok (ends.whole_end (lexemes_between path text line start end) 0)) }
{}
