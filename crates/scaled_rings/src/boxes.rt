//! The least box of corners.

ghost use Rattle.geo_exact.specs.Bounds.{IsLeastBox};

use geo_exact::{Bounds, Corner};

/// The least box of the corners; where there is none, a box that holds no corner.
pub fn least_box(corners: &[Corner]) -> Bounds
    ensures { IsLeastBox result corners.now }
{
    let mut bounds = Bounds::nowhere();
    for corner in corners {
        bounds = bounds.around(Bounds::of_corner(*corner));
    }
    bounds
}
