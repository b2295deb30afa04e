//! What a projection says.

ghost use Rattle.std.specs.Prelude.{◌≡◌, IfOk};
ghost use Rattle.projection_units.specs.Projections.{unit_of_file};

use crate::plain::plain_text;
use crate::reading::unit_in;
use geo_exact::Unit;
use std::alloc::{AllocError, Global};

/// What a projection says of the unit of coordinates.
#[derive(Clone, Copy, Debug, PartialEq, Eq)]
pub enum Stated {
    /// Millimetres, centimetres or metres.
    Length(Unit),
    /// Degrees: latitudes and longitudes, and no plane.
    Degrees,
    /// A unit of a plane that is none of these, as feet.
    Other,
    /// Nothing that is understood here, or a name and a factor that contradict each other.
    Unclear,
}

/// What a projection's file says of the unit of coordinates.
///
/// # Errors
///
/// [`AllocError`] where an allocation fails.
pub fn unit_of_projection(alloc: Global, file: &[u8]) -> Result<Stated, AllocError>
    ensures { IfOk result (λ stated. stated ≡ unit_of_file file.now) }
{
    let text = plain_text(alloc, file)?;
    Ok(unit_in(text.as_slice()))
}
