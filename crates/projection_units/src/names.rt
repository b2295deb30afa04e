//! Names of units.

ghost use Rattle.std.specs.Prelude.{◌≡◌, map};
ghost use Rattle.std.specs.Char.{to_ascii_lowercase};
ghost use Rattle.std.specs.Str.{bytes_eq};
ghost use Rattle.projection_units.specs.Names.{named_unit, metre_name, centimetre_name, millimetre_name};

use geo_exact::Unit;

/// The unit of a name; `None` for a name that is none of these.
pub(crate) fn unit_named(name: &[u8]) -> Option<Unit>
    ensures { result ≡ named_unit name.now }
{
    if is_metre(name) {
        Some(Unit::M)
    } else if is_centimetre(name) {
        Some(Unit::Cm)
    } else if is_millimetre(name) {
        Some(Unit::Mm)
    } else {
        None
    }
}

/// Whether a name is a word, in capitals or not.
fn is_spelled(name: &[u8], word: &str) -> bool
    ensures { result ≡ bytes_eq (map to_ascii_lowercase name.now) (map to_ascii_lowercase word.now) }
{
    name.eq_ignore_ascii_case(word.as_bytes())
}

/// Whether a name is that of metres.
fn is_metre(name: &[u8]) -> bool
    ensures { result ≡ metre_name name.now }
{
    is_spelled(name, "m")
        || is_spelled(name, "metre")
        || is_spelled(name, "meter")
        || is_spelled(name, "metres")
        || is_spelled(name, "meters")
}

/// Whether a name is that of centimetres.
fn is_centimetre(name: &[u8]) -> bool
    ensures { result ≡ centimetre_name name.now }
{
    is_spelled(name, "cm")
        || is_spelled(name, "centimetre")
        || is_spelled(name, "centimeter")
        || is_spelled(name, "centimetres")
        || is_spelled(name, "centimeters")
}

/// Whether a name is that of millimetres.
fn is_millimetre(name: &[u8]) -> bool
    ensures { result ≡ millimetre_name name.now }
{
    is_spelled(name, "mm")
        || is_spelled(name, "millimetre")
        || is_spelled(name, "millimeter")
        || is_spelled(name, "millimetres")
        || is_spelled(name, "millimeters")
}
