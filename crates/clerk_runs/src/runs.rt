//! Runs of clerks' edits.

ghost use Rattle.std.specs.Prelude.{◌≡◌, ◌⊎◌, ◌<◌, ◌≤◌, [], length, IfOk, IfErr};
ghost use Rattle.desk_lock.specs.Offices.{origin_of};
ghost use Rattle.desk_lock.specs.declared.opening.TheConstants.{MOST_PLACES};
ghost use Rattle.fabric_core.specs.Journal.{opening_state};
ghost use Rattle.fabric_core.specs.Tiling.{IsTiling};
ghost use Rattle.clerk_runs.specs.ClerkRuns.{register_of, AreMade, AreLocated};
ghost use Rattle.clerk_runs.specs.declared.runs.RunFault.TheVariants.{NoWindow, NoMemory};
ghost use Rattle.clerk_runs.specs.own.Working.{AreMadeIn};

use crate::files::ClerkEdits;
use crate::job::Counter;
use crate::jobs::{Done, jobs_of, take_all_in};
use crate::locating::locate_all;
use desk_lock::{Name, Naming, Office, OpenFault};
use fabric_core::{At, Fabric, Layer, Sheet};
use geo_exact::Corner;
use job_threads::{AllDone, do_all};
use std::alloc::{AllocError, AllocFailed, Allocator};
use std::marker::Brand;
use std::sync::Wait;
use std::thread::Threads;

/// What clerks' edits lead to.
#[derive(Drop)]
pub struct Edited<'h, H: Allocator> {
    /// The parcels after the edits, and the journal.
    pub sheet: Sheet<'h, H>,
    /// The line of each edit, `clerk K line L ok NUMBER` or `clerk K line L refused TEXT`, by clerk and line.
    pub lines: Vec<u8, &'h H>,
    /// Where each corner lies among the parcels after the edits, in the order in which the corners were asked for.
    pub places: Vec<At<&'h H>, &'h H>,
}

/// Why clerks' edits are not made.
#[derive(Clone, Copy, Debug, PartialEq, Eq)]
pub enum RunFault {
    /// K3: the office's window of this number, from 1, was given no reader.
    NoWindow(usize),
    /// An allocation failed.
    NoMemory,
}

impl From<AllocError> for RunFault {
    ghost from_gives = { λ _ fault. fault ≡ NoMemory };

    fn from(_: AllocError) -> RunFault {
        RunFault::NoMemory
    }
}

impl<T: Drop> From<AllocFailed<T>> for RunFault {
    ghost from_gives = { λ _ fault. fault ≡ NoMemory };

    fn from(_: AllocFailed<T>) -> RunFault {
        RunFault::NoMemory
    }
}

/// Opens an office with one window for the clerks, each of whom makes their edits line by line in a
/// thread of their own, or in this thread, once the others are joined, where the system refuses one.
/// An edit that is refused, also because memory ran out, changes nothing, and the clerk goes on with the
/// next. Where the corners lie is asked at the window, once it learnt the receipts of all clerks,
/// or of the sheet that is drawn then where a receipt was not published.
///
/// # Errors
///
/// [`RunFault::NoWindow`] (K3), and [`RunFault::NoMemory`].
pub fn edit_by_clerks<'h, R: Threads + Wait + Sync, H: Allocator + Send + Sync>(
    rt: &R,
    heap: &'h H,
    layer: Layer<'h, H>,
    clerks: Vec<ClerkEdits<&'h H>, &'h H>,
    corners: &[Corner],
) -> Result<Edited<'h, H>, RunFault>
    requires some { 0 < length clerks.items }
    requires few { length clerks.items ≤ MOST_PLACES }
    ensures made { IfOk result (λ edited. AreMade layer.entry clerks.entry.items (register_of edited.sheet)
        edited.lines.items) }
    ensures opening { IfOk result (λ edited. edited.sheet.opening
        ≡ opening_state layer.entry.rows layer.entry.refined) }
    ensures city { IfOk result (λ edited. edited.sheet.city ≡ layer.entry.city) }
    ensures places { IfOk result (λ edited. AreLocated edited.sheet.now.rows corners.now edited.places.items) }
    ensures fault { IfErr result (λ fault. (fault ≡ NoWindow 1) ⊎ (fault ≡ NoMemory)) }
{
    let Ok(fabric) = Fabric::open(layer) else {
        unreachable!()
    };
    let name = Name::new(heap)?;
    edit_at_office::<R, H, Brand>(rt, heap, name, fabric, clerks, corners)
}

/// The same at the office that the name names, with a fabric that has no entry yet.
fn edit_at_office<
    'h,
    R: Threads + Wait + Sync,
    H: Allocator + Send + Sync,
    J: Naming<H> + Send + Sync,
>(
    rt: &R,
    heap: &'h H,
    name: Name<&'h H>,
    fabric: Fabric<'h, H>,
    clerks: Vec<ClerkEdits<&'h H>, &'h H>,
    corners: &[Corner],
) -> Result<Edited<'h, H>, RunFault>
    requires book { name.book ≡ J.book }
    requires office { J.office
        ≡ record { cards = name.cards; clerks = length clerks.items; origin = origin_of fabric } }
    requires some { 0 < length clerks.items }
    requires few { length clerks.items ≤ MOST_PLACES }
    requires fresh { fabric.journal ≡ [] }
    ensures made { IfOk result
        (λ edited. AreMadeIn (record { clerks = length clerks.entry.items; opening = fabric.entry.opening })
        clerks.entry.items (register_of edited.sheet) edited.lines.items) }
    ensures opening { IfOk result (λ edited. edited.sheet.opening ≡ fabric.entry.opening) }
    ensures city { IfOk result (λ edited. edited.sheet.city ≡ fabric.entry.city) }
    ensures tiling { IfOk result (λ edited. IsTiling edited.sheet.now.rows edited.sheet.city) }
    ensures places { IfOk result (λ edited. AreLocated edited.sheet.now.rows corners.now edited.places.items) }
    ensures fault { IfErr result (λ fault. (fault ≡ NoWindow 1) ⊎ (fault ≡ NoMemory)) }
{
    let (office, cards, mut windows) = match Office::<H, J, &R>::open(
        rt,
        heap,
        name,
        fabric,
        clerks.len(),
        1,
    ) {
        Ok(opened) => opened,
        Err((_, OpenFault::NoWindow(window))) => return Err(RunFault::NoWindow(window)),
        Err((_, OpenFault::NoMemory)) => return Err(RunFault::NoMemory),
        // There are as many clerks, and windows, as an office may have.
        Err((_, OpenFault::Places(_))) => unreachable!(),
    };
    // The office was opened with one window.
    let Some(mut window) = windows.pop() else {
        unreachable!()
    };
    let counter = Counter { office, rt };
    let jobs = jobs_of(heap, cards, clerks)?;
    let Ok(AllDone { jobs, .. }) = do_all(rt, &counter, jobs) else {
        return Err(RunFault::NoMemory);
    };
    let Done {
        mut cards,
        lines,
        published,
    } = take_all_in(heap, jobs, &mut window)?;
    let sheet = counter.office.sheet(rt, cards.as_mut_slice())?;
    sheet.use_invariant();
    let places = locate_all(heap, &mut window, published, &sheet, corners)?;
    let Counter { office, .. } = counter;
    let _ = office.close(rt, cards);
    Ok(Edited {
        sheet,
        lines,
        places,
    })
}
