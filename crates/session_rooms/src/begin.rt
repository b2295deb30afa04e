//! The register that a session begins with, from the bytes of its files.

ghost use Rattle.std.specs.Prelude.{◌≡◌, ◌⊎◌, ℕ, [], length, false, IfOk, IfErr, IfSome, IsErrOf};
ghost use Rattle.std.specs.Borrow.{Bor};
ghost use Rattle.city_layers.specs.declared.fault.ToolFault.TheVariants.{NoMemory};
ghost use Rattle.city_layers.specs.TilingFiles.{AreTiles, files_of};
ghost use Rattle.fabric_core.specs.declared.refusal.Refusal.{Refusal as RefusalValue};
ghost use Rattle.journal_replays.specs.declared.journal_edits.ReplayFault.TheVariants.{Refused};
ghost use Rattle.session_lines.specs.Answers.{ready_line};
ghost use Rattle.session_rooms.specs.Starts.{zones_of, AreZonesOf, IsLoadFaultOf, IsOpenedWith, IsBehind};
ghost use Rattle.session_rooms.specs.Starts.{IsStoppedBehind, IsOpenedOver, IsStoppedOver, IsMarked};
ghost use Rattle.session_rooms.specs.Starts.{IfJournal, IsFaultBehind, IsFaultOver};

use city_layers::{Layers, Source, ToolFault, load_layers_by, load_tiles_by};
use fabric_core::{Fabric, Layer};
use geo_exact::Unit;
use journal_records::{JournalFault, Seal};
use journal_replays::{ReplayFault, Replayed, replay, seal_of_layer};
use journal_writers::{FileFailed, JournalFile, JournalWriter};
use session_lines::push_ready;
use std::alloc::{AllocError, Allocator};
use std::thread::Threads;

/// The bytes of a register's layers.
#[derive(Drop)]
pub struct Sources<A: Allocator> {
    /// Of the city's layer.
    pub city: Source<A>,
    /// Of the parcels' layer.
    pub parcels: Source<A>,
    /// Of the zones' layer, where overlays are asked for.
    pub zones: Option<Source<A>>,
}

/// A register behind the edits of its journal.
#[derive(Drop)]
pub struct Begun<'h, H: Allocator> {
    /// The parcels as the edits left them, with an entry for each edit.
    pub fabric: Fabric<'h, H>,
    /// The zones of the same city, where there are some.
    pub zones: Option<Layer<'h, H>>,
    /// The digest of the layer that it was opened with.
    pub layer: Seal,
    /// What was made again of its journal.
    pub replayed: Replayed,
}

/// Why a register does not begin.
#[derive(Debug, Drop)]
pub enum BeginFault {
    /// The layers are not loaded.
    Load(ToolFault<'static>),
    /// The journal is not of this layer, or one of its edits is refused.
    Journal(ReplayFault),
}

/// The register that layers' files and a journal's text give: the layer behind exactly the journal's edits. The text is
/// empty where there is no journal yet.
///
/// # Errors
///
/// [`BeginFault`]: the first fault of the layers; then of the journal.
pub fn begin_register<'h, R: Threads + Sync, H: Allocator + Send + Sync, A: Allocator + Sync>(
    rt: &R,
    workers: usize,
    heap: &'h H,
    sources: &Sources<A>,
    unit: Unit,
    text: &[u8],
) -> Result<Begun<'h, H>, BeginFault>
    // It was opened with the layer of the parcels' files, which tiles the city of the city's files.
    ensures opened { IfOk result (λ begun.
        IsOpenedWith (files_of sources.now.city) (files_of sources.now.parcels) unit begun.fabric) }
    // Its entries are exactly the edits of the journal's records, in order, each by its clerk.
    ensures behind { IfOk result (λ begun. IsBehind text.now begun.fabric begun.replayed begun.layer) }
    // The zones are of the same city, where there are some.
    ensures zones { IfOk result (λ begun. AreZonesOf (zones_of sources.now) unit begun.fabric.city begun.zones) }
    ensures load { IfErr result (λ fault. IsLoadFaultOf sources.now unit fault) }
    // The journal is told as none, or as another layer's, only for what its first line says.
    ensures journal { IfErr result (λ fault. IfJournal fault
        (IsFaultBehind (files_of sources.now.city) (files_of sources.now.parcels) unit text.now)) }
    // An edit that is refused is told by its record: the first that is, behind exactly the edits before it.
    ensures refused { (number : ℕ) (refusal : RefusalValue)
        → IsErrOf result (BeginFault.Journal (Refused number refusal))
        → IsStoppedBehind (Bor H) (files_of sources.now.city) (files_of sources.now.parcels) unit
        text.now number refusal }
{
    let (layer, zones) = match load(rt, workers, heap, sources, unit) {
        Ok(loaded) => loaded,
        Err(fault) => return Err(BeginFault::Load(fault)),
    };
    match open_behind(heap, layer, text) {
        Ok((fabric, layer, replayed)) => Ok(Begun {
            fabric,
            zones,
            layer,
            replayed,
        }),
        Err(fault) => Err(BeginFault::Journal(fault)),
    }
}

/// A layer's fabric behind the edits of a journal, the layer's digest, and what was made again.
fn open_behind<'h, H: Allocator>(
    heap: &'h H,
    layer: Layer<'h, H>,
    text: &[u8],
) -> Result<(Fabric<'h, H>, Seal, Replayed), ReplayFault>
    ensures opened { IfOk result (λ opened. IsOpenedOver layer.entry opened.0) }
    ensures behind { IfOk result (λ opened. IsBehind text.now opened.0 opened.2 opened.1) }
    ensures refused { (number : ℕ) (refusal : RefusalValue) → IsErrOf result (ReplayFault.Refused number refusal)
        → IsStoppedOver (Bor H) layer.entry text.now number refusal }
    ensures fault { IfErr result (IsFaultOver layer.entry text.now) }
{
    let Ok(mut fabric) = Fabric::open(layer) else {
        return Err(ReplayFault::Journal(JournalFault::NoMemory));
    };
    let Ok(seal) = seal_of_layer(heap, &fabric) else {
        return Err(ReplayFault::Journal(JournalFault::NoMemory));
    };
    if text.is_empty() {
        let replayed = Replayed {
            records: 0,
            seal,
            torn: 0,
            lacks_end: false,
        };
        return Ok((fabric, seal, replayed));
    }
    match replay(heap, &mut fabric, &seal, text) {
        Ok(replayed) => {
            fabric.use_invariant();
            Ok((fabric, seal, replayed))
        }
        Err(fault) => Err(fault),
    }
}

/// The parcels, and the zones where there are some: both tile the city.
fn load<'h, R: Threads + Sync, H: Allocator + Send + Sync, A: Allocator + Sync>(
    rt: &R,
    workers: usize,
    heap: &'h H,
    sources: &Sources<A>,
    unit: Unit,
) -> Result<(Layer<'h, H>, Option<Layer<'h, H>>), ToolFault<'static>>
    ensures tiles { IfOk result (λ loaded.
        AreTiles (files_of sources.now.city) (files_of sources.now.parcels) unit loaded.0) }
    ensures zones { IfOk result (λ loaded. AreZonesOf (zones_of sources.now) unit loaded.0.city loaded.1) }
    ensures fault { IfErr result (λ fault. IsLoadFaultOf sources.now unit (BeginFault.Load fault)) }
{
    match &sources.zones {
        Some(zones) => {
            let Layers { parcels, zones } = load_layers_by(
                rt,
                workers,
                heap,
                &sources.city,
                &sources.parcels,
                zones,
                unit,
            )?;
            Ok((parcels, Some(zones)))
        }
        None => {
            let parcels = load_tiles_by(rt, workers, heap, &sources.city, &sources.parcels, unit)?;
            Ok((parcels, None))
        }
    }
}

/// Who writes the journal of a register from its start on, in an empty file: it gets what is whole of the text which
/// the register was begun with, or the header where that is empty.
///
/// # Errors
///
/// [`FileFailed`]. A beginning of the text may be written then.
pub fn begin_writer<'h, H: Allocator, F: JournalFile>(
    heap: &'h H,
    file: F,
    text: &[u8],
    layer: &Seal,
    replayed: &Replayed,
) -> Result<JournalWriter<F, &'h H>, FileFailed>
    requires empty { IfSome (F.bytes file) (λ bytes. bytes ≡ []) }
    requires marked { IsMarked (Bor H) text.now replayed.now layer.now }
    ensures file { IfOk result (λ writer. writer.file ≡ F.which file) }
    ensures records { IfOk result (λ writer. writer.records ≡ replayed.now.records) }
    ensures layer { IfOk result (λ writer. writer.layer ≡ layer.now.digits) }
    ensures whole { IfOk result (λ writer. writer.is_broken ≡ false) }
{
    if text.is_empty() {
        return JournalWriter::begin(heap, file, layer);
    }
    let Replayed {
        records,
        seal,
        torn,
        lacks_end,
    } = *replayed;
    let whole = text.len().saturating_sub(torn);
    JournalWriter::go_on(file, layer, records, seal, &text[..whole], lacks_end)
}

/// What the operator is told once all is ready.
///
/// # Errors
///
/// [`AllocError`] where an allocation fails.
pub fn ready_text<'h, H: Allocator>(
    heap: &'h H,
    fabric: &Fabric<'h, H>,
) -> Result<Vec<u8, &'h H>, AllocError>
    ensures { IfOk result (λ text. text.items ≡ ready_line (length fabric.now.journal)) }
{
    let mut text = Vec::new(heap);
    push_ready(&mut text, fabric.entries())?;
    Ok(text)
}
