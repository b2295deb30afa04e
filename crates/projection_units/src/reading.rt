//! A projection's text, read byte by byte.

ghost use Rattle.std.specs.Prelude.{◌≡◌, ◌≤◌, ◌<◌, ◌+◌, ◌^◌, length};
ghost use Rattle.projection_units.specs.Projections.{unit_said};
ghost use Rattle.projection_units.specs.own.Readings as readings;
ghost use Rattle.projection_units.specs.own.Readings.{behind_name, behind_word, unit_behind, meets_unit};

use crate::factors::unit_by;
use crate::keywords::{is_globe, is_later, is_plane, is_unit};
use crate::names::unit_named;
use crate::stated::Stated;
use geo_exact::Unit;

/// Where a text stands to the description of a plane.
#[derive(Clone, Copy)]
pub(crate) enum Place {
    /// Before it.
    Before,
    /// In it.
    Within,
    /// Behind it.
    Behind,
}

/// What comes next of a unit.
#[derive(Clone, Copy)]
pub(crate) enum Awaited {
    /// Nothing: no unit is read.
    Nothing,
    /// Its name.
    Name,
    /// The comma behind its name, which is that of this unit.
    Comma(Option<Unit>),
    /// Its factor.
    Factor(Option<Unit>),
}

/// What was read of a text so far.
#[derive(Clone, Copy)]
pub(crate) struct Reading {
    /// Whether a name is open: in one no byte but a quote counts.
    pub(crate) quoted: bool,
    /// Where the word, the name or the number that is read begins.
    pub(crate) word: usize,
    /// Where this is.
    pub(crate) place: Place,
    /// What comes next of a unit.
    pub(crate) awaited: Awaited,
    /// Whether a system of latitudes and longitudes was met.
    pub(crate) globe: bool,
    /// The last unit of the plane.
    pub(crate) unit: Stated,
}

/// What a projection's text says of the unit of coordinates: the last unit in the description of the plane, up to that
/// of heights. Degrees where it describes latitudes and longitudes, and no plane.
///
/// ```
/// let said = unit_in(b"LOCAL_CS[\"site\",UNIT[\"metre\",1]]");
/// // said is Stated::Length(Unit::M)
/// ```
pub fn unit_in(text: &[u8]) -> Stated
    ensures { result ≡ unit_said text.now }
{
    let mut reading = Reading {
        quoted: false,
        word: 0,
        place: Place::Before,
        awaited: Awaited::Nothing,
        globe: false,
        unit: Stated::Unclear,
    };
    for at in 0..text.len() {
        reading = next(text, at, reading);
    }
    said(reading)
}

/// What a text says that was read to its end.
fn said(reading: Reading) -> Stated
    ensures { result ≡ readings.said reading.place reading.globe reading.unit }
{
    match reading.place {
        Place::Before if reading.globe => Stated::Degrees,
        _ => reading.unit,
    }
}

/// What was read with one more byte.
fn next(text: &[u8], at: usize, reading: Reading) -> Reading
    requires at { at < length text.now }
    requires word { reading.word ≤ at }
    ensures next { result ≡ readings.next text.now at reading }
    ensures word { result.word ≤ at + 1 }
{
    let byte = text[at];
    let word = &text[reading.word..at];
    if !reading.quoted {
        outside(byte, word, at, reading)
    } else if byte == b'"' {
        end_name(word, at, reading)
    } else {
        reading
    }
}

/// What was read with one more byte outside of names.
fn outside(byte: u8, word: &[u8], at: usize, reading: Reading) -> Reading
    requires at { at + 1 < 2 ^ 64 }
    requires word { reading.word ≤ at }
    ensures next { result ≡ readings.outside byte word.now at reading }
    ensures word { result.word ≤ at + 1 }
{
    if byte == b'"' {
        Reading {
            quoted: true,
            word: at + 1,
            ..reading
        }
    } else if byte == b'[' || byte == b'(' {
        open(word, at, reading)
    } else if byte == b',' {
        end_word(word, at, true, reading)
    } else if byte == b']' || byte == b')' {
        end_word(word, at, false, reading)
    } else if byte <= b' ' && word.is_empty() {
        Reading {
            word: at + 1,
            ..reading
        }
    } else {
        reading
    }
}

/// What was read behind a name.
fn end_name(name: &[u8], at: usize, reading: Reading) -> Reading
    requires { at + 1 < 2 ^ 64 }
    ensures { result ≡ readings.named name.now at reading }
{
    Reading {
        quoted: false,
        word: at + 1,
        awaited: after_name(name, reading.awaited),
        ..reading
    }
}

/// What comes next behind a name.
fn after_name(name: &[u8], awaited: Awaited) -> Awaited
    ensures { result ≡ behind_name name.now awaited }
{
    match awaited {
        Awaited::Name => Awaited::Comma(unit_named(name)),
        _ => Awaited::Nothing,
    }
}

/// What was read behind a keyword and a bracket.
fn open(word: &[u8], at: usize, reading: Reading) -> Reading
    requires { at + 1 < 2 ^ 64 }
    ensures { result ≡ readings.opened word.now at reading }
{
    let place = place_behind(word, reading.place);
    let met = is_met(word, place);
    Reading {
        quoted: false,
        word: at + 1,
        place,
        awaited: if met { Awaited::Name } else { Awaited::Nothing },
        globe: reading.globe || is_globe(word),
        unit: if met { Stated::Unclear } else { reading.unit },
    }
}

/// Where what stands in a keyword's brackets is.
fn place_behind(word: &[u8], place: Place) -> Place
    ensures { result ≡ readings.place_behind word.now place }
{
    match place {
        Place::Before if is_plane(word) => Place::Within,
        Place::Within if is_later(word) => Place::Behind,
        _ => place,
    }
}

/// Whether a keyword begins a unit of the plane.
fn is_met(word: &[u8], place: Place) -> bool
    ensures { result ≡ meets_unit word.now place }
{
    match place {
        Place::Within => is_unit(word),
        _ => false,
    }
}

/// What was read behind a word that a comma ends, or a bracket.
fn end_word(word: &[u8], at: usize, comma: bool, reading: Reading) -> Reading
    requires { at + 1 < 2 ^ 64 }
    ensures { result ≡ readings.ended word.now at comma reading }
{
    Reading {
        quoted: false,
        word: at + 1,
        awaited: after_word(comma, reading.awaited),
        unit: unit_after(word, reading.awaited, reading.unit),
        ..reading
    }
}

/// What comes next behind a word that a comma ends, or a bracket.
fn after_word(comma: bool, awaited: Awaited) -> Awaited
    ensures { result ≡ behind_word comma awaited }
{
    match awaited {
        Awaited::Comma(named) if comma => Awaited::Factor(named),
        _ => Awaited::Nothing,
    }
}

/// What the last unit says behind a word.
fn unit_after(word: &[u8], awaited: Awaited, before: Stated) -> Stated
    ensures { result ≡ unit_behind word.now awaited before }
{
    match awaited {
        Awaited::Factor(named) => unit_by(named, word),
        _ => before,
    }
}
