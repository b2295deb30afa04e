//! Keywords of well-known text.

ghost use Rattle.std.specs.Prelude.{◌≡◌};
ghost use Rattle.projection_units.specs.Keywords.{plane_word, later_word, globe_word, unit_word};

/// Whether a keyword begins the description of a plane.
pub(crate) fn is_plane(word: &[u8]) -> bool
    ensures { result ≡ plane_word word.now }
{
    word == "PROJCS".as_bytes()
        || word == "PROJCRS".as_bytes()
        || word == "PROJECTEDCRS".as_bytes()
        || word == "LOCAL_CS".as_bytes()
        || word == "ENGCRS".as_bytes()
        || word == "ENGINEERINGCRS".as_bytes()
}

/// Whether a keyword ends the description of a plane: that of heights, of times, or of another system follows.
pub(crate) fn is_later(word: &[u8]) -> bool
    ensures { result ≡ later_word word.now }
{
    word == "VERT_CS".as_bytes()
        || word == "VERTCS".as_bytes()
        || word == "VERTCRS".as_bytes()
        || word == "VERTICALCRS".as_bytes()
        || word == "TIMECRS".as_bytes()
        || word == "TARGETCRS".as_bytes()
}

/// Whether a keyword begins a system of latitudes and longitudes.
pub(crate) fn is_globe(word: &[u8]) -> bool
    ensures { result ≡ globe_word word.now }
{
    word == "GEOGCS".as_bytes()
        || word == "GEOGCRS".as_bytes()
        || word == "GEOGRAPHICCRS".as_bytes()
}

/// Whether a keyword begins a unit of length, or of any kind.
pub(crate) fn is_unit(word: &[u8]) -> bool
    ensures { result ≡ unit_word word.now }
{
    word == "UNIT".as_bytes() || word == "LENGTHUNIT".as_bytes()
}
