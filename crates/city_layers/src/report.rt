//! The text of an area run, made as the rings are read.

ghost use Rattle.std.specs.Prelude.{◌≡◌, ◌⊎◌, ◌++◌, [], List, OnOk, IfOk, IfErr, IsErrAnd};
ghost use Rattle.std.specs.Option.{option_copied};
ghost use Rattle.shp_files.specs.FirstFault.{IsFirstFault};
ghost use Rattle.shp_files.specs.LayerFile.{IsLayerFile, NumberedRing, numbered, rings_of};
ghost use Rattle.shp_files.specs.declared.fault.FileFault.{FileFault};
ghost use Rattle.city_layers.specs.AreaReport.{area_line, area_report};
ghost use Rattle.city_layers.specs.own.AreaTexts.{IsAreaReport};
ghost use Rattle.city_layers.specs.own.LayerFaults.{IsLayerFault};

use crate::fault::{Role, ToolFault};
use geo_exact::{RawRing, Unit, area2};
use shp_files::{TakeEach, read_each};
use std::alloc::{AllocError, Allocator};
use text_pieces::push_number;

/// The report of an area run: a line for each ring that it has taken, in order. The rings are not kept.
#[derive(Drop)]
struct AreaText<A: Allocator> {
    text: Vec<u8, A>,
}

impl<A: Allocator> AreaText<A> {
    fn new(alloc: A) -> AreaText<A>
        ensures { result.text.items ≡ [] }
    {
        AreaText {
            text: Vec::new(alloc),
        }
    }
}

impl<A: Allocator> TakeEach<RawRing<A>> for AreaText<A> {
    ghost holds = { λ report rings. report.text.items ≡ area_report (rings_of rings) };

    fn take(&mut self, ring: RawRing<A>) -> Result<(), AllocError> {
        push_line(&mut self.text, &ring)
    }
}

/// Reads a layer's main file, with its index where there is one, and makes the report of its rings as they are read.
pub fn area_text<A: Allocator + Copy>(
    alloc: A,
    main: &[u8],
    index: Option<&[u8]>,
    unit: Unit,
) -> Result<Vec<u8, A>, ToolFault<'static>>
    ensures ok { IfOk result (λ text. IsAreaReport main.now (option_copied index.entry) unit text.items) }
    ensures err { IfErr result (IsLayerFault Role.File main.now (option_copied index.entry) unit) }
    // A layer is reported, unless memory runs out.
    ensures reads { (rings : List NumberedRing) → IsLayerFile main.now (option_copied index.entry) unit rings
        → IfErr result (λ told. told ≡ ToolFault.NoMemory) }
    // Its first fault is told, unless memory runs out.
    ensures refuses { (fault : FileFault) → IsFirstFault main.now (option_copied index.entry) unit fault
        → IsErrAnd result (λ told. (told ≡ ToolFault.File Role.File fault) ⊎ (told ≡ ToolFault.NoMemory)) }
{
    let mut report = AreaText::new(alloc);
    match read_each(alloc, main, index, unit, &mut report) {
        Ok(()) => Ok(report.text),
        Err(fault) => Err(ToolFault::from((Role::File, fault))),
    }
}

/// Adds the line of a ring: its number, a space, and twice its area without sign.
fn push_line<A: Allocator>(text: &mut Vec<u8, A>, ring: &RawRing<A>) -> Result<(), AllocError>
    ensures { OnOk result (text.new.items ≡ text.old.items ++ area_line (numbered ring.now.number ring.now.corners)) }
{
    push_number(text, ring.number)?;
    text.push(b' ')?;
    push_number(text, area2(ring.corners.as_slice()).unsigned_abs())?;
    text.push(b'\n')?;
    Ok(())
}
