//! The area run: a line for each polygon of a layer.

ghost use Rattle.std.specs.Prelude.{◌≡◌, ◌⊎◌, ℕ, List, IfErr, IsErrAnd, IsErrOf, OnOk};
ghost use Rattle.std.specs.Borrow.{Bor};
ghost use Rattle.geo_exact.specs.Bytes.{raised};
ghost use Rattle.shp_files.specs.FirstFault.{IsFirstFault};
ghost use Rattle.shp_files.specs.LayerFile.{IsLayerFile, NumberedRing};
ghost use Rattle.shp_files.specs.declared.fault.FileFault.{FileFault};
ghost use Rattle.city_layers.specs.AreaReport.{WritesReport, WritesBeginning};
ghost use Rattle.city_layers.specs.Sources.{index_of};
ghost use Rattle.city_layers.specs.declared.fault.Role.{Role};

use crate::fault::ToolFault;
use crate::report::area_text;
use crate::sources::Source;
use geo_exact::{ByteOut, Unit};
use std::alloc::Allocator;
use text_pieces::put_all;

/// Writes, for each polygon of a layer in order, a line with its record's number and twice its area without sign, in
/// square millimetres. The files are checked whole before the first byte is written.
///
/// # Errors
///
/// [`ToolFault::File`] with the files' first fault and [`ToolFault::NoMemory`], both before anything is written;
/// [`ToolFault::Output`] where a write failed, after a beginning of the report.
pub fn area<A: Allocator + Copy, W: ByteOut>(
    alloc: A,
    source: &Source<A>,
    unit: Unit,
    out: &mut W,
) -> Result<(), ToolFault<'static>>
    ensures ok { OnOk result
        (WritesReport source.now.main.items (index_of source.now) unit (W.written out.old) (W.written out.new)) }

    // Files that are no layer are refused by their first fault, and nothing is written.
    ensures file { (role : Role) (fault : FileFault) → IsErrOf result (ToolFault.File role fault)
        → (role ≡ Role.File) × IsFirstFault source.now.main.items (index_of source.now) unit fault
        × (out.new ≡ out.old) }
    ensures refuses { (fault : FileFault) → IsFirstFault source.now.main.items (index_of source.now) unit fault
        → IsErrAnd result (λ told. (told ≡ ToolFault.File Role.File fault) ⊎ (told ≡ ToolFault.NoMemory)) }

    // A layer is reported, unless memory runs out or the writer fails.
    ensures reports { (rings : List NumberedRing) → IsLayerFile source.now.main.items (index_of source.now) unit rings
        → IfErr result (λ told. (told ≡ ToolFault.NoMemory) ⊎ (told ≡ ToolFault.Output)) }

    ensures no_path { (path : Bor (List ℕ)) → ¬ IsErrOf result (ToolFault.Unreadable path) }
    ensures no_index_path { (stem : Bor (List ℕ)) → ¬ IsErrOf result (ToolFault.UnreadableIndex stem) }
    ensures no_memory { IsErrOf result ToolFault.NoMemory → out.new ≡ out.old }

    // Only a writer that failed in this call ends the output early.
    ensures output { IsErrOf result ToolFault.Output
        → WritesBeginning source.now.main.items (index_of source.now) unit (W.written out.old) (W.written out.new) }
    ensures failed { IsErrOf result ToolFault.Output → W.failure_count out.new ≡ raised (W.failure_count out.old) }
    ensures no_failure { OnOk result (W.failure_count out.new ≡ W.failure_count out.old) }
{
    let text = area_text(alloc, source.main.as_slice(), source.index_bytes(), unit)?;
    put_all(text.as_slice(), out)?;
    Ok(())
}
