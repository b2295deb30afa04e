//! Areas of a ring in the rows of a tiling.

ghost use Rattle.std.specs.Prelude.{List};
ghost use Rattle.geo_exact.specs.declared.corner.Corner.{Corner};
ghost use Rattle.geo_exact.specs.Area.{area2};
ghost use Rattle.geo_exact.specs.Layers.{NumberedRing};
ghost use Rattle.fabric_core.specs.Tiling.{IsTiling, corner_lists};
ghost use Rattle.common_areas.specs.Fractions.{AreEqual, whole};
ghost use Rattle.common_areas.specs.Common.{common_area2};
ghost use Rattle.common_areas.specs.Sums.{WindsOnce, IsCoveredBy, common_with};

/// The areas that a ring has in common with the zones that tile a city sum to the area that it has in common with the
/// city, exactly; where the city covers the ring, to the ring's whole area.
pub fn areas_in_zones_add_up()
    ensures in_city { (parcel city : List Corner) (zones : List NumberedRing) → IsTiling zones city
        → AreEqual (common_with parcel (corner_lists zones)) (common_area2 parcel city) }
    ensures whole { (parcel city : List Corner) (zones : List NumberedRing) → IsTiling zones city
        → WindsOnce parcel → IsCoveredBy parcel city
        → AreEqual (common_with parcel (corner_lists zones)) (whole (area2 parcel)) }
{}
