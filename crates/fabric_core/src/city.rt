//! The city: the ring that parcels tile.

ghost use Rattle.std.specs.Prelude.{◌≡◌, ◌⊎◌, ◌≤◌, length, IfOk, IfErr, IsErrAnd};
ghost use Rattle.geo_exact.specs.Bounds.{IsLeastBox};
ghost use Rattle.geo_exact.specs.Point.{Point};
ghost use Rattle.fabric_core.specs.declared.city.CityFault.{CityFault};
ghost use Rattle.fabric_core.specs.declared.city.CityFault.TheVariants.{NoMemory};
ghost use Rattle.geo_exact.specs.Rings.{begun_at_least};
ghost use Rattle.geo_exact.specs.declared.limits.TheConstants.{RING_CORNERS};
ghost use Rattle.fabric_core.specs.Tiling.{IsWoundAtMostOnce};
ghost use Rattle.fabric_core.specs.Faults.{IsCityFault};

use geo_exact::{Bounds, RawRing};
use ring_core::{Ring, RingFault, Shape};
use std::alloc::{AllocError, Allocator};
use tri_overlap::folded;

/// A city: a simple ring, begun at its least corner, that goes round each point once or not at all.
///
/// Corners are in whole millimetres; the memory is that of the heap that was lent.
#[derive(Debug, Drop)]
pub struct City<'a, H: Allocator> {
    /// Its ring, counterclockwise, with the corners that were read.
    pub ring: Ring<&'a H>,
    /// The least box of its ring.
    pub bounds: Bounds,
    pub ghost few: { length ring.corners ≤ RING_CORNERS },
    pub ghost least_box: { IsLeastBox bounds ring.corners },
    pub ghost wound_once: { (p : Point) → IsWoundAtMostOnce p ring.corners },
}

/// Why a ring is no city: the first that applies, in this order.
#[derive(Clone, Copy, Debug, PartialEq, Eq)]
pub enum CityFault {
    /// G1 to G3: it is no simple ring.
    Ring(RingFault),
    /// G5: it is folded over itself: these two of the triangles that it is clipped to overlap, the
    /// first two by the first's number and then by the second's, from 0.
    Folded(usize, usize),
    /// An allocation failed.
    NoMemory,
}

impl From<RingFault> for CityFault {
    ghost use Rattle.fabric_core.specs.declared.city.CityFault.TheVariants.{Ring};

    ghost from_gives = { λ fault e. e ≡ Ring fault };

    fn from(fault: RingFault) -> CityFault {
        CityFault::Ring(fault)
    }
}

impl From<AllocError> for CityFault {
    ghost from_gives = { λ _ e. e ≡ NoMemory };

    fn from(_: AllocError) -> CityFault {
        CityFault::NoMemory
    }
}

impl<'a, H: Allocator> City<'a, H> {
    /// The city of a ring of a layer file, which is begun at its least corner before all else. The
    /// ring is dropped on a fault.
    ///
    /// The time grows with the square of the number of corners.
    ///
    /// # Errors
    ///
    /// The first of these that applies: [`CityFault::Ring`] (G1, G3, G2), [`CityFault::Folded`] (G5); and
    /// [`CityFault::NoMemory`] where an allocation fails.
    ///
    /// ```
    /// let city = City::new(heap, ring)?;
    /// ```
    pub fn new(heap: &'a H, ring: RawRing<&'a H>) -> Result<City<'a, H>, CityFault>
        ensures ring { IfOk result (λ city. city.ring.corners ≡ begun_at_least ring.entry.corners) }
        ensures fault { IfErr result (λ fault. IsCityFault (begun_at_least ring.entry.corners) fault
            ⊎ (fault ≡ NoMemory)) }
        ensures refuses { (fault : CityFault) → IsCityFault (begun_at_least ring.entry.corners) fault
            → IsErrAnd result (λ e. (e ≡ fault) ⊎ (e ≡ NoMemory)) }
    {
        let RawRing { mut corners, .. } = ring;
        corners.begin_at_least();
        let ring = Ring::check(corners)?;
        let shape = Shape::clip(heap, ring)?;
        if let Some((i, j)) = folded(&shape) {
            return Err(CityFault::Folded(i, j));
        }
        let Shape { ring, bounds, .. } = shape;
        Ok(City { ring, bounds })
    }
}
