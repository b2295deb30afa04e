//! A clerk's job at an office: their edits, submitted line by line.

ghost use Rattle.std.specs.Prelude.{◌≡◌, ◌⊎◌, [], OnOk};
ghost use Rattle.clerk_runs.specs.own.Working.{run_at, IsAccepted, IsRefused, HasSaid, IsWorked};

use crate::lines::{push_ok_line, push_refused_line};
use desk_lock::{Card, Naming, Office, Receipt};
use job_threads::Job;
use ring_edits::Edit;
use std::alloc::{AllocError, Allocator};
use std::sync::Wait;

/// What clerks go to: the office, and what waits for its lock.
#[derive(Drop)]
pub(crate) struct Counter<'r, 'h, H: Allocator, J: Naming<H>, R: Wait> {
    pub(crate) office: Office<'h, H, J, &'r R>,
    pub(crate) rt: &'r R,
    ghost opened: { J.office.origin.journal ≡ [] },
}

/// A clerk's job: their card and their edits, and what comes of them: the line of each, and the receipt
/// of each that was accepted.
#[derive(Drop)]
pub(crate) struct ClerkJob<'h, H: Allocator, J: Naming<H>> {
    pub(crate) card: Card<'h, H, J>,
    pub(crate) edits: Vec<(u64, Edit<&'h H>), &'h H>,
    pub(crate) lines: Vec<u8, &'h H>,
    pub(crate) receipts: Vec<Receipt<'h, H, J>, &'h H>,
    /// Whether memory was refused for the lines or the receipts.
    pub(crate) refused: bool,
    pub(crate) heap: &'h H,
}

impl<'r, 'h, H: Allocator + Send + Sync, J: Naming<H> + Send + Sync, R: Wait + Sync> Job<
    Counter<'r, 'h, H, J, R>,
> for ClerkJob<'h, H, J> {
    ghost stays = { λ old new.
        IsWorked (run_at J.office) old.card old.edits.items new.card new.refused new.lines.items new.receipts.items };

    ghost rank_of = { λ job. job.card.clerk };

    fn rank(&self) -> usize {
        self.card.clerk() as usize
    }

    fn work(self, with: &Counter<'r, 'h, H, J, R>) -> ClerkJob<'h, H, J> {
        let ClerkJob {
            mut card,
            edits,
            heap,
            ..
        } = self;
        let mut lines = Vec::new(heap);
        let mut receipts = Vec::new(heap);
        let done = submit_all(with, &mut card, edits.as_slice(), &mut lines, &mut receipts);
        ClerkJob {
            card,
            edits,
            lines,
            receipts,
            refused: done.is_err(),
            heap,
        }
    }
}

/// Submits a clerk's edits in order, and keeps what is said to each.
fn submit_all<'r, 'h, H: Allocator, J: Naming<H>, R: Wait>(
    counter: &Counter<'r, 'h, H, J, R>,
    card: &mut Card<'h, H, J>,
    edits: &[(u64, Edit<&'h H>)],
    lines: &mut Vec<u8, &'h H>,
    receipts: &mut Vec<Receipt<'h, H, J>, &'h H>,
) -> Result<(), AllocError>
    requires no_lines { lines.old.items ≡ [] }
    requires no_receipts { receipts.old.items ≡ [] }
    ensures clerk { card.new.clerk ≡ card.old.clerk }
    ensures said { OnOk result (card.old.made ≡ []
        → HasSaid (run_at J.office) card.new.met card.old.clerk edits.now card.new.made lines.new.items
        receipts.new.items) }
{
    for told in edits {
        submit_edit(counter, card, told, lines, receipts)?;
    }
    Ok(())
}

/// Submits an edit, and keeps what is said to it.
fn submit_edit<'r, 'h, H: Allocator, J: Naming<H>, R: Wait>(
    counter: &Counter<'r, 'h, H, J, R>,
    card: &mut Card<'h, H, J>,
    told: &(u64, Edit<&'h H>),
    lines: &mut Vec<u8, &'h H>,
    receipts: &mut Vec<Receipt<'h, H, J>, &'h H>,
) -> Result<(), AllocError>
    ensures clerk { card.new.clerk ≡ card.old.clerk }
    ensures said { OnOk result
        (IsAccepted card.old told.now card.new lines.old.items lines.new.items receipts.old.items receipts.new.items
        ⊎ IsRefused (run_at J.office) card.old told.now card.new lines.old.items lines.new.items receipts.old.items
        receipts.new.items) }
{
    let clerk = card.clerk();
    match counter.office.submit(counter.rt, card, &told.1) {
        Ok(receipt) => {
            push_ok_line(lines, clerk, told.0, receipt.number())?;
            receipts.push(receipt)?;
            Ok(())
        }
        Err(refusal) => push_refused_line(lines, clerk, told.0, refusal),
    }
}
