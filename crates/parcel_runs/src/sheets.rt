//! What is reported of a sheet, of a run's or as an office that stays open draws it: that its parcels tile the city,
//! and the files that hold it as a layer.

ghost use Rattle.std.specs.Prelude.{◌≡◌, ◌≤◌, ◌++◌, length, unsigned_abs, IfOk, OnOk, OnErr, codes, decimal};
ghost use Rattle.geo_exact.specs.Area.{area2 as area2_of};
ghost use Rattle.geo_exact.specs.declared.limits.TheConstants.{LAYER_RECORDS, LIST_CORNERS};
ghost use Rattle.shp_files.specs.Written.{written_main, written_index};
ghost use Rattle.fabric_core.specs.Tiling.{corner_lists};
ghost use Rattle.parcel_runs.specs.CheckReport.{tiling_line};
ghost use Rattle.parcel_runs.specs.ExportReport.{exported_line};

use crate::edited::parcel_count;
use crate::export::{Exported, files_behind};
use fabric_core::Sheet;
use geo_exact::area2;
use std::alloc::{AllocError, Allocator};
use text_pieces::{Piece, Sink, push_pieces};

/// Adds `tiling N AREA2`: how many parcels a sheet has, which tile its city, and twice the city's
/// area in square millimetres.
///
/// # Errors
///
/// The sink's fault; a beginning of the piece may have been taken then.
pub fn push_sheet_tiling<'h, H: Allocator, S: Sink>(
    text: &mut S,
    sheet: Sheet<'h, H>,
) -> Result<(), S::Fault>
    requires { length sheet.city ≤ LIST_CORNERS }
    ensures ok { OnOk result (S.takes text.old (tiling_line sheet.entry.now.rows sheet.entry.city) text.new) }
    ensures err { OnErr result (S.breaks_off text.old (tiling_line sheet.entry.now.rows sheet.entry.city) text.new) }
{
    push_tiling(text, parcel_count(&sheet), city_area2(&sheet))
}

/// Twice the area of a sheet's city, in square millimetres.
fn city_area2<'h, H: Allocator>(sheet: &Sheet<'h, H>) -> u128
    requires { length sheet.now.city ≤ LIST_CORNERS }
    ensures { result ≡ unsigned_abs (area2_of sheet.now.city) }
{
    area2(sheet.city()).unsigned_abs()
}

/// Adds the line of a tiling: the number of parcels, and twice the city's area.
fn push_tiling<S: Sink>(text: &mut S, count: usize, area2: u128) -> Result<(), S::Fault>
    ensures ok { OnOk result (S.takes text.old
        (codes "tiling " ++ decimal count ++ codes " " ++ decimal area2 ++ codes "\n") text.new) }
    ensures err { OnErr result (S.breaks_off text.old
        (codes "tiling " ++ decimal count ++ codes " " ++ decimal area2 ++ codes "\n") text.new) }
{
    push_pieces(
        text,
        &[
            Piece::Text("tiling "),
            Piece::Number(count as u64),
            Piece::Text(" "),
            Piece::Area(area2),
            Piece::EndOfLine,
        ],
    )
}

/// The two files of a sheet's parcels as a layer, by ascending id and numbered anew from 1, in
/// millimetres; and the line `exported N`, the number of parcels.
///
/// # Errors
///
/// [`AllocError`] where an allocation fails.
pub fn export_sheet<'h, H: Allocator>(
    heap: &'h H,
    sheet: Sheet<'h, H>,
) -> Result<Exported<&'h H>, AllocError>
    requires { length sheet.now.rows ≤ LAYER_RECORDS }
    ensures main { IfOk result (λ exported. exported.main.items ≡ written_main (corner_lists sheet.entry.now.rows)) }
    ensures index { IfOk result (λ exported. exported.index.items ≡ written_index (corner_lists sheet.entry.now.rows)) }
    ensures lines { IfOk result (λ exported. exported.lines.items ≡ exported_line sheet.entry.now.rows) }
{
    files_behind(heap, &sheet, Vec::new(heap))
}
