//! Windows, at which it is asked where a point lies, and which ring a parcel has.
ghost use Rattle.std.specs.Prelude.{◌≡◌, ◌≢◌, ◌<◌, ◌≤◌, ◌++◌, length, IfOk, IfErr, IfSome, IfNone, MatchBool};
ghost use Rattle.std.specs.Prelude.{MatchOption};
ghost use Rattle.std.specs.List.{Contains};
ghost use mathlib.Core.List.{IsPrefix};
ghost use Rattle.geo_exact.specs.Point.{corner_point};
ghost use Rattle.geo_exact.specs.Layers.{NumberedRing, numbered};
ghost use Rattle.geo_exact.specs.declared.limits.TheConstants.{RING_CORNERS};
ghost use Rattle.fabric_core.specs.Limits.{AreWithinLimits};
ghost use Rattle.fabric_core.specs.Locate.{IsLocatedAt};
ghost use Rattle.fabric_core.specs.Tiling.{IsTiling};
ghost use Rattle.fabric_core.specs.Journal.{replay};
ghost use Rattle.fabric_core.specs.EditResults.{IsLawful};
ghost use Rattle.desk_lock.specs.Offices.{Learns, AreOfClerks, behind};
ghost use Rattle.desk_lock.specs.declared.window.LocateFault.TheVariants.{NoVersion};

use crate::copied::Copied;
use crate::name::Naming;
use crate::receipt::{Notice, Receipt};
use entry_history::Front;
use fabric_core::{At, Entry, Fabric};
use geo_exact::{Corner, Corners};
use left_right::{ReadGuard, ReadHandle};
use published_copies::Version;
use std::alloc::{AllocError, Allocator};
use std::marker::Model;

/// Why a window does not answer.
#[derive(Clone, Copy, Debug, PartialEq, Eq)]
pub enum LocateFault {
    /// K4: there is no version to answer from, as may be once the office is closed, or none as new as
    /// what the window was told.
    NoVersion,
    /// An allocation failed.
    NoMemory,
}

impl From<AllocError> for LocateFault {
    ghost use Rattle.std.specs.Prelude.{◌≡◌};
    ghost use Rattle.desk_lock.specs.declared.window.LocateFault.TheVariants.{NoMemory};

    ghost from_gives = { λ _ e. e ≡ NoMemory };

    fn from(_: AllocError) -> LocateFault {
        LocateFault::NoMemory
    }
}

/// A version of an office's fabric.
type VersionOf<'a, H, J> = Version<Copied<'a, H, J>, Entry<&'a H>, J>;

/// A window of an office: it answers where a point lies and which ring a parcel has, from a published
/// version, and waits for nobody. It may go to a thread of its own.
///
/// Contracts see the state in which the office's fabric was opened, and the entries that the
/// versions which the window entered and the receipts which it learnt rest on.
pub struct Window<'a, H: Allocator, J: Naming<H>> {
    pub(crate) reader: ReadHandle<VersionOf<'a, H, J>, &'a H>,
    pub(crate) front: Front<Entry<&'a H>, J>,
    // Where the versions lie.
    pub(crate) heap: &'a H,
}

// Not derived: whoever drops it makes one call, and what that does is proved once, here.
impl<'a, H: Allocator, J: Naming<H>> Drop for Window<'a, H, J> {
    fn drop(self) {
        let Window {
            reader: _,
            front: _,
            heap: _,
        } = self;
    }
}

impl<'a, H: Allocator, J: Naming<H>> Model for Window<'a, H, J> {
    ghost use Rattle.std.specs.Prelude.{◌++◌};
    ghost use Rattle.std.specs.Borrow.{Bor};
    ghost use Rattle.desk_lock.specs.Offices.{WindowState};

    ghost Value = { WindowState (Bor H) };

    ghost view = { λ window. record {
      opening = J.office.origin.opening;
      seen = J.office.origin.journal ++ window.front;
    } };
}

impl<'a, H: Allocator, J: Naming<H>> Window<'a, H, J> {
    /// Learns a receipt: each later answer has at least the entries that it tells. One that was not
    /// published tells nothing.
    pub fn learn(&mut self, receipt: &Receipt<'a, H, J>)
        ensures { Learns self.old receipt.now.told self.new }
    {
        if let Some(notice) = &receipt.notice {
            self.learn_notice(notice);
        }
    }

    /// Learns a notice, as a receipt.
    pub fn learn_notice(&mut self, notice: &Notice<'a, H, J>)
        ensures { Learns self.old notice.now self.new }
    {
        self.front.learn(notice.shown.front());
    }

    /// How many entries the newest version has that this window finds: all that it had seen or was
    /// told, and those published since. It has seen them then.
    ///
    /// # Errors
    ///
    /// [`LocateFault::NoVersion`] (K4), as [`Window::locate`]; nothing has changed then.
    ///
    /// ```
    /// let entries = window.entries()?;
    /// ```
    pub fn entries(&mut self) -> Result<u64, LocateFault>
        ensures opening { self.new.opening ≡ self.old.opening }
        ensures origin { IsPrefix J.office.origin.journal self.new.seen }
        ensures begins { IsPrefix self.old.seen self.new.seen }
        ensures count { IfOk result (λ entries. entries ≡ length self.new.seen) }
        ensures lawful { IfOk result (λ entries. IsLawful self.new.opening self.new.seen) }
        ensures of_clerks { IfOk result (λ entries. AreOfClerks J.office.clerks
            (behind J.office.origin self.new.seen)) }
        // The parcels that it answers from tile the city.
        ensures tiling { IfOk result (λ entries. IsTiling (replay self.new.opening self.new.seen).rows
            J.office.origin.city) }
        ensures fault { IfErr result (λ fault. fault ≡ NoVersion) }
        ensures no_version { IfErr result (λ fault. fault ≡ NoVersion → self.new ≡ self.old) }
    {
        let Some(version) = enter(&mut self.reader, &mut self.front) else {
            return Err(LocateFault::NoVersion);
        };
        Ok(fabric_of(&version).entries())
    }

    /// The ring of the parcel with this id after some of the entries, begun at its least corner, with
    /// how many entries these are, as [`Window::locate`] counts them; no ring where the id is no
    /// parcel's then. It is found at once, and copied.
    ///
    /// # Errors
    ///
    /// As [`Window::locate`].
    ///
    /// ```
    /// let (entries, ring) = window.parcel(id)?;
    /// ```
    pub fn parcel(&mut self, id: u64) -> Result<(u64, Option<Corners<&'a H>>), LocateFault>
        ensures opening { self.new.opening ≡ self.old.opening }
        ensures origin { IsPrefix J.office.origin.journal self.new.seen }
        ensures begins { IsPrefix self.old.seen self.new.seen }
        ensures count { IfOk result (λ answer. answer.0 ≡ length self.new.seen) }
        ensures lawful { IfOk result (λ answer. IsLawful self.new.opening self.new.seen) }
        ensures of_clerks { IfOk result (λ answer. AreOfClerks J.office.clerks (behind J.office.origin self.new.seen)) }
        // The parcels that it answers from tile the city.
        ensures tiling { IfOk result (λ answer. IsTiling (replay self.new.opening self.new.seen).rows
            J.office.origin.city) }
        ensures parcel { IfOk result (λ answer. MatchOption answer.1
            ((row : NumberedRing) → Contains (replay self.new.opening self.new.seen).rows row → row.number ≢ id)
            (λ ring. Contains (replay self.new.opening self.new.seen).rows (numbered id ring))) }
        ensures few { IfOk result (λ answer. IfSome answer.1 (λ ring. length ring ≤ RING_CORNERS)) }
        ensures no_version { IfErr result (λ fault. fault ≡ NoVersion → self.new ≡ self.old) }
    {
        let Some(version) = enter(&mut self.reader, &mut self.front) else {
            return Err(LocateFault::NoVersion);
        };
        let fabric = fabric_of(&version);
        let ring = copied_ring(fabric, id)?;
        Ok((fabric.entries(), ring))
    }

    /// Where a corner lies among the parcels after some of the entries, with how many entries these
    /// are: all that this window had seen or was told, and those published since, as far as it finds
    /// them.
    ///
    /// # Errors
    ///
    /// [`LocateFault::NoVersion`] (K4) where there is no version, as may be once the office is
    /// closed, or none as new as what this window was told: nothing has changed then. And
    /// [`LocateFault::NoMemory`] where an allocation fails; the window may have seen more
    /// entries then.
    ///
    /// ```
    /// window.learn(&receipt);
    /// let (entries, at) = window.locate(corner)?;
    /// ```
    pub fn locate(&mut self, corner: Corner) -> Result<(u64, At<&'a H>), LocateFault>
        ensures opening { self.new.opening ≡ self.old.opening }
        ensures origin { IsPrefix J.office.origin.journal self.new.seen }
        ensures begins { IsPrefix self.old.seen self.new.seen }
        ensures count { IfOk result (λ answer. answer.0 ≡ length self.new.seen) }
        ensures lawful { IfOk result (λ answer. IsLawful self.new.opening self.new.seen) }
        ensures of_clerks { IfOk result (λ answer. AreOfClerks J.office.clerks (behind J.office.origin self.new.seen)) }
        // The parcels that it answers from tile the city.
        ensures tiling { IfOk result (λ answer. IsTiling (replay self.new.opening self.new.seen).rows
            J.office.origin.city) }
        ensures at { IfOk result (λ answer.
            IsLocatedAt (replay self.new.opening self.new.seen).rows (corner_point corner) answer.1) }
        ensures no_version { IfErr result (λ fault. fault ≡ NoVersion → self.new ≡ self.old) }
    {
        let Some(version) = enter(&mut self.reader, &mut self.front) else {
            return Err(LocateFault::NoVersion);
        };
        let fabric = fabric_of(&version);
        let at = fabric.locate(corner)?;
        Ok((fabric.entries(), at))
    }
}

/// Enters the newest version that is found, where it is as new as what was told, and learns it.
fn enter<'r, 'a, H: Allocator, J: Naming<H>>(
    reader: &'r mut ReadHandle<VersionOf<'a, H, J>, &'a H>,
    front: &mut Front<Entry<&'a H>, J>,
) -> Option<ReadGuard<'r, VersionOf<'a, H, J>, &'a H>>
    ensures begins { IsPrefix front.old front.new }
    ensures entered { MatchOption result (front.new ≡ front.old) (λ version. version.reading.part.value ≡ front.new) }
{
    let version = reader.enter()?;
    as_new(version, front)
}

/// A version, where it is as new as what was told, which learns it then; it is given up exactly where it is older.
fn as_new<'r, 'a, H: Allocator, J: Naming<H>>(
    version: ReadGuard<'r, VersionOf<'a, H, J>, &'a H>,
    front: &mut Front<Entry<&'a H>, J>,
) -> Option<ReadGuard<'r, VersionOf<'a, H, J>, &'a H>>
    ensures begins { IsPrefix front.old front.new }
    ensures entered { MatchOption result (front.new ≡ front.old) (λ version. version.reading.part.value ≡ front.new) }
    ensures older { IfNone result (length version.entry.reading.part.value < length front.old) }
    ensures not_older { IfSome result (λ version. length front.old ≤ length version.reading.part.value) }
{
    if is_older(version.front(), front) {
        return None;
    }
    front.learn(version.front());
    Some(version)
}

/// Whether a version has fewer entries than a window was told.
fn is_older<E, J: entry_history::Naming>(version: &Front<E, J>, told: &Front<E, J>) -> bool
    ensures { MatchBool result (length version.now < length told.now) (length told.now ≤ length version.now) }
{
    version.len() < told.len()
}

/// The fabric of a version: its journal is that of the fabric which was handed in, and behind it the
/// entries that the version has followed.
fn fabric_of<'v, 'a, H: Allocator, J: Naming<H>>(
    version: &'v VersionOf<'a, H, J>,
) -> &'v Fabric<'a, H>
    ensures journal { result.now.journal ≡ J.office.origin.journal ++ version.now }
    ensures lawful { IsLawful J.office.origin.opening (J.office.origin.journal ++ version.now) }
    ensures of_clerks { AreOfClerks J.office.clerks (behind J.office.origin (J.office.origin.journal ++ version.now)) }
    ensures now { result.now.now ≡ replay J.office.origin.opening (J.office.origin.journal ++ version.now) }
    ensures tiling { IsTiling result.now.now.rows J.office.origin.city }
    ensures within { AreWithinLimits result.now.now.rows }
{
    let fabric = version.value().fabric();
    fabric.use_invariant();
    fabric
}

/// A copy of the ring of the parcel with this id; `None` where the id is no parcel's. It has no more
/// corners than a ring of a layer within its limits.
fn copied_ring<'a, H: Allocator>(
    fabric: &Fabric<'a, H>,
    id: u64,
) -> Result<Option<Corners<&'a H>>, AllocError>
    requires within { AreWithinLimits fabric.now.now.rows }
    ensures found { IfOk result (λ ring. MatchOption ring
        ((row : NumberedRing) → Contains fabric.now.now.rows row → row.number ≢ id)
        (λ corners. Contains fabric.now.now.rows (numbered id corners))) }
    ensures few { IfOk result (λ ring. IfSome ring (λ corners. length corners ≤ RING_CORNERS)) }
{
    let Some(ring) = fabric.ring(id) else {
        return Ok(None);
    };
    let corners = ring.corners.clone()?;
    Ok(Some(corners))
}
