//! What the attributes of a recipe say of its script.
ghost use Rattle.std.specs.Prelude.{◌≡◌};
ghost use Rattle.std.specs.Option.{option_copied};
ghost use Rattle.just_script_body.specs.ScriptAttributes as spec;

use just_ast_definitions::{Attribute, NamedAttribute};
use just_ast_expressions::{Interpreter, StringLiteral};
use just_data::Text;

// The interpreter that an attribute says, which may be left to the settings.
fn script_in<'a, 'src>(
    attribute: &'a Attribute<'src>,
) -> Option<&'a Option<Interpreter<StringLiteral<'src>>>>
    ensures { option_copied result ≡ spec.script_in attribute.now }
{
    match attribute {
        Attribute::Script(interpreter) => Some(interpreter),
        _ => None,
    }
}

/// The interpreter that attributes say: that of the first which says that the recipe is a script.
pub fn script_of<'a, 'src>(
    attributes: &'a [NamedAttribute<'src>],
) -> Option<&'a Option<Interpreter<StringLiteral<'src>>>>
    ensures { option_copied result ≡ spec.script_of attributes.now }
{
    for named in attributes {
        if let Some(interpreter) = script_in(&named.attribute) {
            return Some(interpreter);
        }
    }
    None
}

// The end of a file's name that an attribute says.
fn extension_in<'a, 'src>(attribute: &'a Attribute<'src>) -> Option<&'a Text>
    ensures { option_copied result ≡ spec.extension_in attribute.now }
{
    match attribute {
        Attribute::Extension(literal) => Some(&literal.cooked),
        _ => None,
    }
}

/// The end of a file's name that attributes say: that of the first which says one.
pub fn extension_of<'a, 'src>(attributes: &'a [NamedAttribute<'src>]) -> Option<&'a Text>
    ensures { option_copied result ≡ spec.extension_of attributes.now }
{
    for named in attributes {
        if let Some(extension) = extension_in(&named.attribute) {
            return Some(extension);
        }
    }
    None
}
