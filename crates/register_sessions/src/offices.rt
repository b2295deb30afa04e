//! The office of a session, and who sits where.

ghost use Rattle.std.specs.Prelude.{◌≡◌, ◌+◌, max, min};
ghost use Rattle.desk_lock.specs.declared.opening.TheConstants.{MOST_PLACES};

use crate::desks::Desk;
use crate::pipes::Paths;
use desk_lock::{Card, MOST_PLACES, Naming, Window};
use session_rooms::Chair;
use std::alloc::{AllocError, Allocator};

/// How many clerks a session with so many desks has: where there is none, the operator is the one.
pub(crate) fn clerks_of(desks: usize) -> usize
    ensures { result ≡ max desks 1 }
{
    desks.max(1)
}

/// How many windows a session with so many desks has: each desk one, and the operator, if there is one left.
pub(crate) fn windows_of(desks: usize) -> usize
    ensures { result ≡ min (desks + 1) MOST_PLACES }
{
    desks.saturating_add(1).min(MOST_PLACES)
}

/// The desks, and the operator's chair: card K and window K go to desk K; without desks, the operator gets the card. A
/// window that is left is the operator's.
pub(crate) fn seat_all<'p, 'h, H: Allocator, J: Naming<H>>(
    heap: &'h H,
    paths: &'p [Paths<&'h H>],
    cards: Vec<Card<'h, H, J>, &'h H>,
    windows: Vec<Window<'h, H, J>, &'h H>,
) -> Result<(Vec<Desk<'p, 'h, H, J>, &'h H>, Chair<'h, H, J>), AllocError> {
    let mut desks = Vec::new(heap);
    let mut cards = cards.into_iter();
    let mut windows = windows.into_iter();
    for pair in paths {
        let chair = Chair {
            card: cards.next(),
            window: windows.next(),
        };
        desks.push(Desk { paths: pair, chair })?;
    }
    let operators = Chair {
        card: cards.next(),
        window: windows.next(),
    };
    Ok((desks, operators))
}
