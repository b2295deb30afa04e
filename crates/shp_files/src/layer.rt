//! The layer of a main file and its index.

ghost use Rattle.std.specs.Prelude.{◌≡◌, ◌≤◌, ◌<◌, ◌^◌, ◌⊎◌, ℕ, [], length, List, Option, None, option_copied, IfOk};
ghost use Rattle.std.specs.Prelude.{OnOk, MatchResult, IsErrAnd, IsErrOf};
ghost use Rattle.geo_exact.specs.declared.coord.Unit.{Unit as LengthUnit};
ghost use Rattle.shp_files.specs.declared.fault.FileFault.{FileFault};
ghost use Rattle.shp_files.specs.LayerFile.{NumberedRing, rings_of, IsLayerFile};
ghost use Rattle.shp_files.specs.declared.fault.FileName.TheVariants.{Main};
ghost use Rattle.shp_files.specs.Checks.{first_failure, header_checks, declared_end};
ghost use Rattle.shp_files.specs.FirstFault.{IsMainFault, IsFirstFault};
ghost use Rattle.shp_files.specs.Taken.{HoldsLayer, HoldsRings};

use crate::fault::{FileName, LayerFault};
use crate::header::{HEADER, read_header};
use crate::index::check_index;
use crate::record::{RecordHead, read_record};
use crate::taking::{RingList, TakeEach};
use geo_exact::{RawRing, Unit};
use std::alloc::Allocator;

/// Reads the rings of a layer's main file (`.shp`), each with its record's number, and checks its
/// index (`.shx`) where one is given.
///
/// The rings are those of the file's polygons, in the file's order; a null shape gives none. Their
/// corners are in millimetres, without the closing repeat, in normal form ([`RawRing`]):
/// counterclockwise, with equal neighbours kept once. Bytes behind a file's declared length are
/// ignored.
///
/// # Errors
///
/// [`LayerFault::File`] with the first fault in the order of the checks, those of the main file first, and
/// [`LayerFault::NoMemory`] only where an allocation failed.
///
/// ```
/// let rings = read_layer(alloc, main.as_slice(), Some(index.as_slice()), Unit::Mm)?;
/// let area = area2(rings[0].corners.as_slice());
/// ```
pub fn read_layer<A: Allocator + Copy>(
    alloc: A,
    main: &[u8],
    index: Option<&[u8]>,
    unit: Unit,
) -> Result<Vec<RawRing<A>, A>, LayerFault>
    // What is answered is the layer of the files, or their first fault.
    ensures layer { IfOk result
        (λ rings. IsLayerFile main.now (option_copied index.entry) unit (rings_of rings.items)) }
    ensures fault { (fault : FileFault) → IsErrOf result (LayerFault.File fault)
        → IsFirstFault main.now (option_copied index.entry) unit fault }
    // A layer is read, unless memory runs out.
    ensures reads { (rings : List NumberedRing) → IsLayerFile main.now (option_copied index.entry) unit rings →
        MatchResult result (λ found. rings_of found.items ≡ rings) (λ e. e ≡ LayerFault.NoMemory) }
    // The first fault is answered, unless memory runs out.
    ensures refuses { (fault : FileFault) → IsFirstFault main.now (option_copied index.entry) unit fault →
        IsErrAnd result (λ e. (e ≡ LayerFault.File fault) ⊎ (e ≡ LayerFault.NoMemory)) }
{
    let mut list = RingList {
        rings: Vec::new(alloc),
    };
    read_each(alloc, main, index, unit, &mut list)?;
    Ok(list.rings)
}

/// Reads the rings of a layer as [`read_layer`] does, and hands each on as soon as it is read: nothing else of the
/// layer is kept. `rings` has taken none yet. Those that it took before a fault was found are the rings of no layer.
///
/// # Errors
///
/// Those of [`read_layer`]; a ring that was not taken is [`LayerFault::NoMemory`].
///
/// ```
/// let mut report = AreaText::new(alloc);
/// read_each(alloc, main.as_slice(), Some(index.as_slice()), Unit::Mm, &mut report)?;
/// ```
pub fn read_each<A: Allocator + Copy, T: TakeEach<RawRing<A>>>(
    alloc: A,
    main: &[u8],
    index: Option<&[u8]>,
    unit: Unit,
    rings: &mut T,
) -> Result<(), LayerFault>
    requires none_yet { T.holds rings.old [] }
    // What is taken are the rings of the files' layer, or their first fault is answered.
    ensures layer { OnOk result (HoldsLayer main.now (option_copied index.entry) unit (T.holds rings.new)) }
    ensures fault { (fault : FileFault) → IsErrOf result (LayerFault.File fault)
        → IsFirstFault main.now (option_copied index.entry) unit fault }
    // A layer is taken, unless memory runs out.
    ensures reads { (found : List NumberedRing) → IsLayerFile main.now (option_copied index.entry) unit found →
        MatchResult result (λ _. HoldsRings found (T.holds rings.new)) (λ e. e ≡ LayerFault.NoMemory) }
    // The first fault is answered, unless memory runs out.
    ensures refuses { (fault : FileFault) → IsFirstFault main.now (option_copied index.entry) unit fault →
        IsErrAnd result (λ e. (e ≡ LayerFault.File fault) ⊎ (e ≡ LayerFault.NoMemory)) }
{
    read_checked(alloc, main, index, unit, rings)
}

/// Reads the main file, and then checks the index against it.
fn read_checked<A: Allocator + Copy, T: TakeEach<RawRing<A>>>(
    alloc: A,
    main: &[u8],
    index: Option<&[u8]>,
    unit: Unit,
    rings: &mut T,
) -> Result<(), LayerFault>
    requires none_yet { T.holds rings.old [] }
    ensures layer { OnOk result (HoldsLayer main.now (option_copied index.entry) unit (T.holds rings.new)) }
    ensures fault { (fault : FileFault) → IsErrOf result (LayerFault.File fault)
        → IsFirstFault main.now (option_copied index.entry) unit fault }
{
    let end = read_header(FileName::Main, main)?;
    read_records(alloc, main, end, unit, rings)?;
    if let Some(index) = index {
        check_index(main, end, index)?;
    }
    Ok(())
}

/// Reads the records of a main file whose header passes its checks, up to its declared end.
fn read_records<A: Allocator + Copy, T: TakeEach<RawRing<A>>>(
    alloc: A,
    main: &[u8],
    end: usize,
    unit: Unit,
    rings: &mut T,
) -> Result<(), LayerFault>
    requires header { first_failure (header_checks Main main.now) ≡ None }
    requires end { end ≡ declared_end main.now }
    requires bound { end < 2 ^ 32 }
    requires room { 100 ≤ end }
    requires within { end ≤ length main.now }
    requires none_yet { T.holds rings.old [] }
    ensures layer { OnOk result (HoldsLayer main.now None unit (T.holds rings.new)) }
    ensures fault { (fault : FileFault) → IsErrOf result (LayerFault.File fault) → IsMainFault main.now unit fault }
{
    let mut head = RecordHead {
        position: 1,
        start: HEADER,
    };
    let mut corners_before = 0;
    while head.start != end {
        let found = read_record(alloc, main, unit, end, head, corners_before)?;
        corners_before += found.drawn;
        let next = RecordHead {
            position: head.position + 1,
            start: found.end,
        };
        if let Some(ring) = found.ring {
            rings.take(ring)?;
        }
        head = next;
    }
    Ok(())
}

/// A text is a layer's main file, with its index where there is one, of one list of rings at most.
pub fn a_layer_file_has_one_list_of_rings()
    ensures { (main : List ℕ) (index : Option (List ℕ)) (unit : LengthUnit) (a b : List NumberedRing) →
        IsLayerFile main index unit a → IsLayerFile main index unit b → a ≡ b }
{}

/// A layer's files have no first fault.
pub fn a_layer_file_has_no_fault()
    ensures { (main : List ℕ) (index : Option (List ℕ)) (unit : LengthUnit) (rings : List NumberedRing)
        (fault : FileFault) →
        IsLayerFile main index unit rings → IsFirstFault main index unit fault → ⊥ }
{}

/// A text, with an index or none, has one first fault at most.
pub fn a_text_has_one_first_fault()
    ensures { (main : List ℕ) (index : Option (List ℕ)) (unit : LengthUnit) (a b : FileFault) →
        IsFirstFault main index unit a → IsFirstFault main index unit b → a ≡ b }
{}
