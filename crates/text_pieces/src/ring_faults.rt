//! Faults of rings in texts.

ghost use Rattle.std.specs.Prelude.{OnOk, OnErr};
ghost use Rattle.ring_core.specs.declared.ring.RingFault.TheVariants.{EdgesMeet};
ghost use Rattle.text_pieces.specs.RingFaultText.{ring_fault_text};

use crate::lists::push_numbers;
use crate::sink::Sink;
use ring_core::RingFault;

/// Adds the text of a ring's fault: `G1`, `G3`, or `G2 I J`.
///
/// # Errors
///
/// The sink's fault; a beginning of the piece may have been taken then.
pub fn push_ring_fault<S: Sink>(text: &mut S, fault: RingFault) -> Result<(), S::Fault>
    ensures ok { OnOk result (S.takes text.old (ring_fault_text fault) text.new) }
    ensures err { OnErr result (S.breaks_off text.old (ring_fault_text fault) text.new) }
{
    match fault {
        RingFault::ZeroArea => text.push_piece("G1"),
        RingFault::Clockwise => text.push_piece("G3"),
        RingFault::EdgesMeet(i, j) => push_edges(text, i, j),
    }
}

/// Adds which edges of a ring meet: `G2 I J`.
fn push_edges<S: Sink>(text: &mut S, i: usize, j: usize) -> Result<(), S::Fault>
    ensures ok { OnOk result (S.takes text.old (ring_fault_text (EdgesMeet i j)) text.new) }
    ensures err { OnErr result (S.breaks_off text.old (ring_fault_text (EdgesMeet i j)) text.new) }
{
    text.push_piece("G2")?;
    push_numbers(text, &[i as u64, j as u64])
}
