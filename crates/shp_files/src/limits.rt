//! The limits of a layer.

ghost use Rattle.std.specs.Prelude.{ℕ, ◌≤◌, List, Option, length};
ghost use Rattle.geo_exact.specs.declared.coord.Unit.{Unit as LengthUnit};
ghost use Rattle.geo_exact.specs.declared.limits.TheConstants.{LAYER_CORNERS, LAYER_RECORDS};
ghost use Rattle.shp_files.specs.LayerFile.{NumberedRing, IsLayerFile, corner_count};
ghost use Rattle.shp_files.specs.Limits.{NumbersRise};

/// A layer file has at most 65,536 rings with at most 1,000,000 corners together, and their numbers
/// rise from ring to ring within 1 to 65,536.
pub fn a_layer_file_is_within_the_limits()
    ensures rings { (main : List ℕ) (index : Option (List ℕ)) (unit : LengthUnit) (rings : List NumberedRing)
        → IsLayerFile main index unit rings → length rings ≤ LAYER_RECORDS }
    ensures corners { (main : List ℕ) (index : Option (List ℕ)) (unit : LengthUnit) (rings : List NumberedRing)
        → IsLayerFile main index unit rings → corner_count rings ≤ LAYER_CORNERS }
    ensures numbers { (main : List ℕ) (index : Option (List ℕ)) (unit : LengthUnit) (rings : List NumberedRing)
        → IsLayerFile main index unit rings → NumbersRise 0 LAYER_RECORDS rings }
{}
