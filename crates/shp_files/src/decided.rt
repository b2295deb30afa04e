//! The law that decides every text: it is a layer, or it has a first fault.

ghost use Rattle.std.specs.Prelude.{ℕ, List, Option};
ghost use Rattle.geo_exact.specs.declared.coord.Unit.{Unit as LengthUnit};
ghost use Rattle.shp_files.specs.FirstFault.{IsDecided};

/// Each text, with an index or none, is a layer's files or has a first fault (and never both, as
/// [`a_layer_file_has_no_fault`](crate::a_layer_file_has_no_fault) says).
pub fn a_text_is_a_layer_or_has_a_fault()
    ensures { (main : List ℕ) (index : Option (List ℕ)) (unit : LengthUnit) → IsDecided main index unit }
{}
