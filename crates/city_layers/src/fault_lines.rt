//! The lines of all faults of a layer that does not tile its city.

ghost use Rattle.std.specs.Prelude.{◌≡◌, ◌++◌, OnOk, IfOk};
ghost use Rattle.std.specs.List.{flat_map};
ghost use Rattle.city_layers.specs.FaultLines.{ring_line, edge_text, edge_line, fault_lines as fault_lines_of};

use fabric_core::AllFaults;
use geo_exact::Corner;
use ring_core::RingFault;
use std::alloc::{AllocError, Allocator};
use text_pieces::{push_corner, push_number, push_ring_fault};

/// The lines of all faults, where there are some: `ring R FAULT` for each ring, or `edge AX AY BX BY
/// net N` for each edge, corners in millimetres.
pub fn fault_lines<A: Allocator, B: Allocator>(
    alloc: A,
    all: &Option<AllFaults<B>>,
) -> Result<Vec<u8, A>, AllocError>
    ensures { IfOk result (λ text. text.items ≡ fault_lines_of all.now) }
{
    match all {
        None => Ok(Vec::new(alloc)),
        Some(AllFaults::Rings(faults)) => ring_lines(alloc, faults.as_slice()),
        Some(AllFaults::Gaps(gaps)) => edge_lines(alloc, gaps.as_slice()),
    }
}

/// The lines of rings that are refused.
fn ring_lines<A: Allocator>(alloc: A, faults: &[(u32, RingFault)]) -> Result<Vec<u8, A>, AllocError>
    ensures { IfOk result (λ text. text.items ≡ flat_map ring_line faults.now) }
{
    let mut text = Vec::new(alloc);
    for told in faults {
        push_ring_line(&mut text, told.0, told.1)?;
    }
    Ok(text)
}

/// The lines of edges that are unbalanced.
fn edge_lines<A: Allocator>(
    alloc: A,
    gaps: &[(Corner, Corner, i64)],
) -> Result<Vec<u8, A>, AllocError>
    ensures { IfOk result (λ text. text.items ≡ flat_map edge_line gaps.now) }
{
    let mut text = Vec::new(alloc);
    for gap in gaps {
        push_edge_line(&mut text, gap.0, gap.1, gap.2)?;
    }
    Ok(text)
}

/// Adds the line of a ring that is refused.
fn push_ring_line<A: Allocator>(
    text: &mut Vec<u8, A>,
    number: u32,
    fault: RingFault,
) -> Result<(), AllocError>
    ensures { OnOk result (text.new.items ≡ text.old.items ++ ring_line (number, fault)) }
{
    text.extend_from_slice(b"ring ")?;
    push_number(text, number)?;
    text.push(b' ')?;
    push_ring_fault(text, fault)?;
    text.push(b'\n')?;
    Ok(())
}

/// Adds the line of an edge that is unbalanced.
fn push_edge_line<A: Allocator>(
    text: &mut Vec<u8, A>,
    a: Corner,
    b: Corner,
    net: i64,
) -> Result<(), AllocError>
    ensures { OnOk result (text.new.items ≡ text.old.items ++ edge_line (a, b, net)) }
{
    push_edge(text, a, b)?;
    text.extend_from_slice(b" net ")?;
    push_number(text, net)?;
    text.push(b'\n')?;
    Ok(())
}

/// Adds an edge, without its net number.
fn push_edge<A: Allocator>(text: &mut Vec<u8, A>, a: Corner, b: Corner) -> Result<(), AllocError>
    ensures { OnOk result (text.new.items ≡ text.old.items ++ edge_text a b) }
{
    text.extend_from_slice(b"edge ")?;
    push_corner(text, a)?;
    text.push(b' ')?;
    push_corner(text, b)?;
    Ok(())
}
