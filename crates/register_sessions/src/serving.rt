//! How all desks of a session are served, and how it ends.

use crate::desks::{Desk, serve_desk};
use crate::ends::close_desks;
use crate::journal_file::{DiskFile, Machine};
use crate::operator::{Operator, serve_operator};
use crate::pipes::{Paths, Pipes};
use crate::post::write_out;
use crate::reports::Exports;
use crate::start_fault::StartFault;
use crate::threads::{Done, Host, Task, run_beside};
use city_layers::ToolFault;
use desk_lock::{Card, CloseFault, Naming, Office};
use geo_exact::ByteOut;
use journal_writers::DiskHas;
use session_lines::{SessionFault, push_closed, push_error};
use session_rooms::{Chair, Clocked, Room};
use std::alloc::{AllocError, Allocator};
use std::io::{BufReader, Read};
use std::sync::Wait;
use std::thread::Threads;
use text_pieces::put_all;

/// What all threads of a session share.
#[derive(Drop)]
struct Shared<'s, 'r, 'h, P, H: Allocator, J: Naming<H>, R: Wait, K: Clocked> {
    room: &'s Room<'r, 'h, H, J, R, DiskFile, K>,
    disk: &'s P,
    paths: &'s [Paths<&'h H>],
}

impl<
    's,
    'r,
    'p,
    'h,
    P: Pipes,
    H: Allocator + Send + Sync,
    J: Naming<H> + Send + Sync,
    R: Wait,
    K: Clocked,
> Task<Shared<'s, 'r, 'h, P, H, J, R, K>> for Desk<'p, 'h, H, J> {
    fn run(self, with: &Shared<'s, 'r, 'h, P, H, J, R, K>) -> Desk<'p, 'h, H, J> {
        serve_desk(with.room, with.disk, self)
    }
}

/// The operator's desk, where its lines come from, and where its answers go.
#[derive(Drop)]
pub(crate) struct Reception<'h, H: Allocator, J: Naming<H>, I, W> {
    pub(crate) operator: Operator<'h, H, J>,
    pub(crate) reader: BufReader<I, &'h H>,
    /// What the operator is told first, once all is ready.
    pub(crate) text: Vec<u8, &'h H>,
    pub(crate) out: W,
}

impl<
    's,
    'r,
    'h,
    P: Pipes + Exports + Machine,
    H: Allocator,
    J: Naming<H>,
    R: Wait,
    K: Clocked,
    I: Read + Drop,
    W: ByteOut + Drop,
> Host<Shared<'s, 'r, 'h, P, H, J, R, K>> for Reception<'h, H, J, I, W> {
    /// Tells the operator that all is ready, answers its lines, and has all desks end once it closes the session or its
    /// lines end, or at once where it can't be told or a desk has no thread.
    fn receive(
        self,
        with: &Shared<'s, 'r, 'h, P, H, J, R, K>,
        is_whole: bool,
    ) -> Reception<'h, H, J, I, W> {
        let Reception {
            mut operator,
            mut reader,
            mut text,
            mut out,
        } = self;
        if is_whole && write_out(&mut text, &mut out).is_ok() {
            let _ = serve_operator(with.room, with.disk, &mut operator, &mut reader, &mut out);
        }
        let room = with.room;
        close_desks(room.rt, &room.door, with.disk, with.paths);
        Reception {
            operator,
            reader,
            text,
            out,
        }
    }
}

/// Serves each desk in a thread of its own, and the operator's in this one, until the session is closed, and closes its
/// office.
///
/// # Errors
///
/// O7 where the system refuses a desk its thread; S2 where the operator could not be told of the end.
pub(crate) fn serve<
    'a,
    'r,
    'p,
    'h,
    P: Pipes + Exports + Machine + Sync,
    R: Threads + Wait + Sync,
    H: Allocator + Send + Sync,
    J: Naming<H> + Send + Sync,
    K: Clocked + Send + Sync,
    I: Read + Drop,
    W: ByteOut + Drop,
>(
    room: Room<'r, 'h, H, J, R, DiskFile, K>,
    disk: &P,
    paths: &'p [Paths<&'h H>],
    desks: Vec<Desk<'p, 'h, H, J>, &'h H>,
    reception: Reception<'h, H, J, I, W>,
) -> Result<(), StartFault<'a, &'h H>> {
    let (rt, heap) = (room.rt, room.heap);
    let done = {
        let shared = Shared {
            room: &room,
            disk,
            paths,
        };
        run_beside(rt, heap, &shared, desks, reception)
    };
    let Done {
        tasks,
        refused,
        host,
    } = done;
    // Counted from 0.
    if let Some(desk) = refused {
        return Err(StartFault::Run(ToolFault::NoThread(desk)));
    }
    let Reception {
        operator,
        mut text,
        mut out,
        ..
    } = host;
    let Operator { chair, .. } = operator;
    let cards = cards_of(heap, tasks, chair);
    let (office, kept) = room.end();
    text.clear();
    push_end_of(rt, office, cards, kept, &mut text)?;
    match put_all(text.as_slice(), &mut out) {
        Ok(()) => Ok(()),
        Err(_) => Err(StartFault::Run(ToolFault::Output)),
    }
}

/// The cards of desks, and the operator's.
fn cards_of<'p, 'h, H: Allocator, J: Naming<H>>(
    heap: &'h H,
    desks: Vec<Desk<'p, 'h, H, J>, &'h H>,
    operators: Chair<'h, H, J>,
) -> Vec<Card<'h, H, J>, &'h H> {
    let mut cards = Vec::new(heap);
    for desk in desks {
        let Desk { chair, .. } = desk;
        let Chair { card, .. } = chair;
        keep_card(&mut cards, card);
    }
    let Chair { card, .. } = operators;
    keep_card(&mut cards, card);
    cards
}

/// Keeps a card for the close. One for which there is no memory is missing then.
fn keep_card<'h, H: Allocator, J: Naming<H>>(
    cards: &mut Vec<Card<'h, H, J>, &'h H>,
    card: Option<Card<'h, H, J>>,
) {
    if let Some(card) = card {
        let _ = cards.push(card);
    }
}

/// Closes an office, and adds what the operator is told of it: of entries only those that the disk has, where so many
/// are kept there.
fn push_end_of<'h, H: Allocator, J: Naming<H>, R: Wait>(
    rt: &R,
    office: Office<'h, H, J, &R>,
    cards: Vec<Card<'h, H, J>, &'h H>,
    kept: Option<DiskHas>,
    text: &mut Vec<u8, &'h H>,
) -> Result<(), AllocError> {
    match office.close(rt, cards) {
        Ok(fabric) => match kept {
            Some(on_disk) => push_closed(text, on_disk.records()),
            None => push_closed(text, fabric.entries()),
        },
        Err((_, _, CloseFault::CardsMissing(clerks, cards))) => {
            push_error(text, SessionFault::CardsMissing(clerks, cards))
        }
    }
}
