//! The report of an overlay.

ghost use Rattle.std.specs.Prelude.{◌≡◌, OnOk, OnErr};
ghost use Rattle.geo_exact.specs.Bytes.{raised};
ghost use Rattle.zone_tables.specs.Report.{WritesReport, WritesBeginning};

use crate::lines::push_report;
use crate::table::Table;
use geo_exact::{ByteOut, Failed};
use std::alloc::Allocator;
use text_pieces::Gathered;

/// Writes a line `entries N`, a line `pair ID ZONE` for each pair, a line `split ID` for each
/// parcel that overlaps two zones or more, and a line `within ID ZONE` for each other parcel, each
/// group ascending. It takes no memory.
///
/// # Errors
///
/// [`Failed`] where the writer failed; a beginning of the report was written then.
///
/// ```
/// write_report(&table, &mut Counted::new(stdout))?;
/// ```
pub fn write_report<'t, 'h, H: Allocator, A: Allocator, W: ByteOut>(
    table: &Table<'t, 'h, H, A>,
    out: &mut W,
) -> Result<(), Failed>
    ensures ok { OnOk result (WritesReport table.now (W.written out.old) (W.written out.new)) }
    ensures begun { OnErr result (WritesBeginning table.now (W.written out.old) (W.written out.new)) }
    ensures failed { OnErr result (W.failure_count out.new ≡ raised (W.failure_count out.old)) }
    ensures no_failure { OnOk result (W.failure_count out.new ≡ W.failure_count out.old) }
{
    table.use_invariant();
    let mut text = Gathered::new(out);
    push_report(&mut text, table.entries(), table.pairs())?;
    text.finish()
}
