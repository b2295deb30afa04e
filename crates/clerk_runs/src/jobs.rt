//! The jobs of all clerks: made of their cards and edits, and taken together once they are done.

ghost use Rattle.std.specs.Prelude.{◌≡◌, false, true, length, map, All, IfOk};
ghost use Rattle.std.specs.List.{flat_map};
ghost use Rattle.clerk_runs.specs.own.Windows.{IsLearnt};

use crate::files::ClerkEdits;
use crate::job::ClerkJob;
use crate::locating::learn_all;
use desk_lock::{Card, Naming, Window};
use std::alloc::{AllocError, Allocator};

/// The jobs of clerks, each of their card and their edits.
pub(crate) fn jobs_of<'h, H: Allocator, J: Naming<H>>(
    heap: &'h H,
    cards: Vec<Card<'h, H, J>, &'h H>,
    clerks: Vec<ClerkEdits<&'h H>, &'h H>,
) -> Result<Vec<ClerkJob<'h, H, J>, &'h H>, AllocError>
    requires { length cards.items ≡ length clerks.items }
    ensures cards { IfOk result (λ jobs. map (λ job. job.card) jobs.items ≡ cards.entry.items) }
    ensures edits { IfOk result (λ jobs. map (λ job. job.edits.items) jobs.items ≡ clerks.entry.items) }
{
    let mut jobs = Vec::new(heap);
    let mut left = cards.into_iter();
    for clerk in clerks {
        // There are as many cards as clerks.
        let Some(card) = left.next() else {
            unreachable!()
        };
        let job = ClerkJob {
            card,
            edits: clerk.edits,
            lines: Vec::new(heap),
            receipts: Vec::new(heap),
            refused: false,
            heap,
        };
        jobs.push(job)?;
    }
    Ok(jobs)
}

/// What clerks leave whose jobs are done: their cards, their lines, one clerk's after the other's,
/// and whether a version with each of their entries was published.
#[derive(Drop)]
pub(crate) struct Done<'h, H: Allocator, J: Naming<H>> {
    pub(crate) cards: Vec<Card<'h, H, J>, &'h H>,
    pub(crate) lines: Vec<u8, &'h H>,
    pub(crate) published: bool,
}

/// What jobs leave, none of which was refused memory. A window learns their receipts.
///
/// # Errors
///
/// [`AllocError`] where one was, or memory is refused here.
pub(crate) fn take_all_in<'h, H: Allocator, J: Naming<H>>(
    heap: &'h H,
    jobs: Vec<ClerkJob<'h, H, J>, &'h H>,
    window: &mut Window<'h, H, J>,
) -> Result<Done<'h, H, J>, AllocError>
    ensures cards { IfOk result (λ done. done.cards.items ≡ map (λ job. job.card) jobs.entry.items) }
    ensures lines { IfOk result (λ done. done.lines.items ≡ flat_map (λ job. job.lines.items) jobs.entry.items) }
    ensures none_refused { IfOk result (λ done. All (λ job. job.refused ≡ false) jobs.entry.items) }
    ensures opening { window.new.opening ≡ window.old.opening }
    ensures learnt { IfOk result (λ done. done.published ≡ true
        → All (λ job. All (IsLearnt window.new.seen) job.receipts.items) jobs.entry.items) }
{
    let mut cards = Vec::new(heap);
    let mut lines = Vec::new(heap);
    let mut published = true;
    for job in jobs {
        if job.refused {
            return Err(AllocError);
        }
        lines.extend_from_slice(job.lines.as_slice())?;
        published &= learn_all(window, job.receipts.as_slice());
        cards.push(job.card)?;
    }
    Ok(Done {
        cards,
        lines,
        published,
    })
}
