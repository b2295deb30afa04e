//! A round: the parcels of a sheet dealt to hands, to be laid over zones.

ghost use Rattle.std.specs.Prelude.{◌≡◌, ◌⊎◌, ◌↔◌, [], ℕ, map, flat_map, length, IsTrue, IfOk, IfErr};
ghost use Rattle.std.specs.Prelude.{OnOk, IsErrAnd, IsErrOf, IsPermutation};
ghost use Rattle.fabric_core.specs.Rows.{numbers};
ghost use Rattle.overlay_work.specs.declared.round.TheConstants.{MOST_HANDS};
ghost use Rattle.overlay_work.specs.declared.round.RoundFault.{RoundFault};
ghost use Rattle.overlay_work.specs.declared.round.RoundFault.TheVariants.{NoMemory};
ghost use Rattle.overlay_work.specs.declared.close.CloseFault.{CloseFault};
ghost use Rattle.overlay_work.specs.declared.close.CloseFault.TheVariants.{NoMemory as NoRoom};
ghost use Rattle.overlay_work.specs.Sharing.{HasHands, IsSharing};
ghost use Rattle.std.specs.Arc.{arc_value};
ghost use Rattle.zone_tables.specs.Overlap.{IsOverlapTable};
ghost use Rattle.overlay_claims.specs.Claims.{all_places};
ghost use Rattle.overlay_claims.specs.Claimants.{fresh_hands as fresh_claimants};
ghost use Rattle.overlay_work.specs.Rounds.{fresh_hands, AreHandsOf};
ghost use Rattle.overlay_work.specs.Faults.{IsRoundFault, NeedsNoMemory, IsCloseFault};
ghost use Rattle.overlay_work.specs.own.Gathered.{AreDone, AreSortedPairsOf};
ghost use Rattle.overlay_work.specs.own.Starting.{CanBegin};

use crate::close::{CloseFault, RoundBack};
use crate::hand::Hand;
use crate::hands_in::{check_hands, confirm};
use crate::pairs::sorted_pairs;
use crate::sharing::{least_out_of_place, lengths_of};
use crate::work::Work;
use fabric_core::{Layer, Sheet};
use geo_exact::Corner;
use job_threads::OwnThreads;
use overlay_claims::{Claimant, Claims};
use std::alloc::{AllocError, AllocFailed, Allocator};
use std::marker::Model;
use std::sync::Arc;
use zone_tables::Table;

/// The most hands that a round has.
pub const MOST_HANDS: usize = 64;

/// An overlay is shared among at most 64 workers, and not one fewer.
pub fn an_overlay_has_at_most_so_many_workers()
    ensures { MOST_HANDS ≡ 64 }
{}

/// Why a round is not begun: the first that applies, in this order.
#[derive(Clone, Copy, Debug, PartialEq, Eq)]
pub enum RoundFault {
    /// O3: so many lists, of which there are none or more than 64.
    HandCount(usize),
    /// O2: the zones' city is another than the sheet's.
    OtherCity,
    /// O1: the least id that does not stand exactly once in the lists, or is no parcel of the sheet.
    NotASharing(u64),
    /// An allocation failed.
    NoMemory,
}

impl From<AllocError> for RoundFault {
    ghost from_gives = { λ _ e. e ≡ NoMemory };

    fn from(_: AllocError) -> RoundFault {
        RoundFault::NoMemory
    }
}

/// A round of an overlay: a sheet's parcels, dealt to hands in lists, are tested against the zones
/// of its city. The round is begun with its hands, which may go to threads, and is closed with
/// them.
///
/// Contracts see its task: the lists, the parcels' rows and the zones', the city and the count of
/// the sheet's journal entries.
#[derive(Drop)]
pub struct Round<'t, 'h, H: Allocator> {
    work: Arc<Work<'t, 'h, H>, &'h H>,
}

impl<'t, 'h, H: Allocator> Model for Round<'t, 'h, H> {
    ghost use Rattle.std.specs.Arc.{arc_value};
    ghost use Rattle.overlay_work.specs.Rounds.{Task};

    ghost Value = { Task };

    ghost view = { λ round. arc_value round.work };
}

impl<'t, 'h, H: Allocator> Round<'t, 'h, H> {
    /// A round over a sheet's parcels and the zones of its city, and its hands, one for each list of
    /// the sharing and numbered from 0 in their order. The lists together are the sheet's ids, each
    /// once. They are dropped on a fault.
    ///
    /// # Errors
    ///
    /// The first of these that applies: [`RoundFault::HandCount`] (O3), [`RoundFault::OtherCity`]
    /// (O2), [`RoundFault::NotASharing`] (O1); and [`RoundFault::NoMemory`] where an allocation is
    /// refused, but never in place of O3 and O2.
    pub fn new(
        heap: &'h H,
        sheet: &'t Sheet<'h, H>,
        zones: &'t Layer<'h, H>,
        sharing: Vec<Vec<u64, &'h H>, &'h H>,
    ) -> Result<(Round<'t, 'h, H>, Vec<Hand<'t, 'h, H>, &'h H>), RoundFault>
        ensures lists { IfOk result (λ made. made.0.lists ≡ map (λ list. list.items) sharing.entry.items) }
        ensures shares { IfOk result (λ made. IsSharing (numbers sheet.now.now.rows) made.0.lists) }
        ensures rows { IfOk result (λ made. made.0.rows ≡ sheet.now.now.rows) }
        ensures zones { IfOk result (λ made. made.0.zones ≡ zones.now.rows) }
        ensures city { IfOk result (λ made. (made.0.city ≡ sheet.now.city) × (zones.now.city ≡ sheet.now.city)) }
        ensures entries { IfOk result (λ made. made.0.entries ≡ length sheet.now.journal) }
        ensures hands { IfOk result (λ made. made.1.items ≡ fresh_hands made.0 (length sharing.entry.items)) }
        ensures of_round { IfOk result (λ made. AreHandsOf made.0 made.1.items) }
        // A fault that is answered is the round's, and a round with a fault is refused by it, unless memory runs out.
        ensures fault { IfErr result (λ fault. IsRoundFault (numbers sheet.now.now.rows) sheet.now.city zones.now.city
            (map (λ list. list.items) sharing.entry.items) fault ⊎ (fault ≡ NoMemory)) }
        ensures refuses { (fault : RoundFault) → IsRoundFault (numbers sheet.now.now.rows) sheet.now.city zones.now.city
            (map (λ list. list.items) sharing.entry.items) fault → IsErrAnd result (λ e. (e ≡ fault) ⊎ (e ≡ NoMemory)) }
        // O3 and O2 are told before any memory is asked for.
        ensures exact { (fault : RoundFault) → IsRoundFault (numbers sheet.now.now.rows) sheet.now.city zones.now.city
            (map (λ list. list.items) sharing.entry.items) fault → NeedsNoMemory fault → IsErrOf result fault }
    {
        if let Err(fault) = check(heap, sheet, zones, sharing.as_slice()) {
            return Err(fault);
        }
        let (work, claimants) = begin(heap, sheet, zones, sharing)?;
        let hands = hands_of(heap, &work, claimants)?;
        Ok((Round { work }, hands))
    }

    /// What its hands share.
    pub(crate) fn work(&self) -> &Work<'t, 'h, H>
        ensures { result.now ≡ self.now }
    {
        &self.work
    }

    /// The table of all pairs of a parcel and a zone whose interiors have a common point, for every
    /// sharing of the parcels and every schedule of the hands. Each parcel was claimed by one hand
    /// and done by it once; the close does none itself, and waits for nobody.
    ///
    /// # Errors
    ///
    /// The first of these that applies: [`CloseFault::HandsMissing`] (O6), [`CloseFault::Holding`]
    /// (O5), [`CloseFault::NotDone`] (O4); and [`CloseFault::NoMemory`] where an allocation is
    /// refused. The round and the hands come back as they were.
    ///
    /// ```
    /// let table = round.close(hands)?; // once a hand has answered Done
    /// ```
    pub fn close(
        self,
        hands: Vec<Hand<'t, 'h, H>, &'h H>,
    ) -> Result<Table<'t, 'h, H, &'h H>, RoundBack<'t, 'h, H>>
        requires { AreHandsOf self hands.items }
        ensures table { IfOk result (λ table. IsOverlapTable self.entry.rows self.entry.zones table.pairs) }
        ensures rows { IfOk result (λ table. (table.rows ≡ self.entry.rows) × (table.zones ≡ self.entry.zones)) }
        ensures city { IfOk result (λ table. table.city ≡ self.entry.city) }
        ensures entries { IfOk result (λ table. table.entries ≡ self.entry.entries) }
        // Each place of the lists was claimed by one hand, once, and each parcel done by one, once.
        ensures claimed { OnOk result (IsPermutation (flat_map (λ hand. hand.claimed) hands.entry.items)
            (all_places 0 (map (λ list. length list) self.entry.lists))) }
        ensures once { OnOk result (IsPermutation (flat_map (λ hand. hand.did) hands.entry.items)
            (numbers self.entry.rows)) }
        ensures back { IfErr result (λ back. (back.round ≡ self.entry) × (back.hands.items ≡ hands.entry.items)) }
        ensures no_threads { IfErr result (λ back. back.threads ≡ []) }
        // A fault that is answered is the round's, or memory is wanting; and a round with a fault is
        // refused by that one, also where memory is wanting.
        ensures fault { IfErr result (λ back. IsCloseFault self.entry hands.entry.items back.fault
            ⊎ (back.fault ≡ NoRoom)) }
        ensures refuses { (fault : CloseFault) → IsCloseFault self.entry hands.entry.items fault
            → IsErrAnd result (λ back. back.fault ≡ fault) }
    {
        if let Err(fault) = check_hands(self.work(), hands.as_slice()) {
            let threads = OwnThreads::none(self.work().heap());
            return Err(RoundBack {
                round: self,
                hands,
                threads,
                fault,
            });
        }
        let Ok(pairs) = sorted_pairs(self.work().heap(), hands.as_slice()) else {
            let threads = OwnThreads::none(self.work().heap());
            return Err(RoundBack {
                round: self,
                hands,
                threads,
                fault: CloseFault::NoMemory,
            });
        };
        Ok(self.gather(hands, pairs))
    }

    /// The table of the sorted pairs of hands that are done.
    fn gather(
        self,
        hands: Vec<Hand<'t, 'h, H>, &'h H>,
        pairs: Vec<(u64, u64), &'h H>,
    ) -> Table<'t, 'h, H, &'h H>
        requires at_work { AreHandsOf self hands.items }
        requires done { AreDone self hands.items }
        requires pairs { AreSortedPairsOf hands.items pairs.items }
        ensures table { IsOverlapTable self.entry.rows self.entry.zones result.pairs }
        ensures rows { (result.rows ≡ self.entry.rows) × (result.zones ≡ self.entry.zones) }
        ensures city { result.city ≡ self.entry.city }
        ensures entries { result.entries ≡ self.entry.entries }
        ensures claimed { IsPermutation (flat_map (λ hand. hand.claimed) hands.entry.items)
            (all_places 0 (map (λ list. length list) self.entry.lists)) }
        ensures once { IsPermutation (flat_map (λ hand. hand.did) hands.entry.items) (numbers self.entry.rows) }
    {
        let work = self.work();
        let (sheet, zones) = (work.sheet(), work.zones());
        let _ = sheet.ids();
        confirm(work, hands);
        Table::gather(sheet, zones, pairs)
    }
}

/// Whether a round can be begun, or the first fault that it has.
fn check<'h, H: Allocator>(
    heap: &'h H,
    sheet: &Sheet<'h, H>,
    zones: &Layer<'h, H>,
    lists: &[Vec<u64, &'h H>],
) -> Result<(), RoundFault>
    ensures ok { OnOk result (CanBegin (numbers sheet.now.now.rows) sheet.now.city zones.now.city
        (map (λ list. list.items) lists.now)) }
    ensures fault { IfErr result (λ fault. IsRoundFault (numbers sheet.now.now.rows) sheet.now.city zones.now.city
        (map (λ list. list.items) lists.now) fault ⊎ (fault ≡ NoMemory)) }
    ensures exact { (fault : RoundFault) → IsRoundFault (numbers sheet.now.now.rows) sheet.now.city zones.now.city
        (map (λ list. list.items) lists.now) fault → NeedsNoMemory fault → IsErrOf result fault }
{
    check_early(sheet, zones, lists)?;
    let _ = sheet.ids();
    match least_out_of_place(heap, sheet, lists)? {
        Some(id) => Err(RoundFault::NotASharing(id)),
        None => Ok(()),
    }
}

/// Whether there are lists enough, of one city, or the first of these faults. It has no heap: it asks for no memory.
fn check_early<'h, H: Allocator>(
    sheet: &Sheet<'h, H>,
    zones: &Layer<'h, H>,
    lists: &[Vec<u64, &'h H>],
) -> Result<(), RoundFault>
    ensures hands { OnOk result (HasHands (map (λ list. list.items) lists.now)) }
    ensures city { OnOk result (zones.now.city ≡ sheet.now.city) }
    ensures fault { IfErr result (IsRoundFault (numbers sheet.now.now.rows) sheet.now.city zones.now.city
        (map (λ list. list.items) lists.now)) }
{
    if lists.is_empty() || lists.len() > MOST_HANDS {
        return Err(RoundFault::HandCount(lists.len()));
    }
    if !are_same(zones.city(), sheet.city()) {
        return Err(RoundFault::OtherCity);
    }
    Ok(())
}

/// Whether two lists of corners are the same.
fn are_same(a: &[Corner], b: &[Corner]) -> bool
    ensures { IsTrue result ↔ (a.now ≡ b.now) }
{
    a == b
}

/// The work of a round, and who claims its parcels.
fn begin<'t, 'h, H: Allocator>(
    heap: &'h H,
    sheet: &'t Sheet<'h, H>,
    zones: &'t Layer<'h, H>,
    lists: Vec<Vec<u64, &'h H>, &'h H>,
) -> Result<(Arc<Work<'t, 'h, H>, &'h H>, Vec<Claimant, &'h H>), AllocError>
    requires sharing { IsSharing (numbers sheet.now.now.rows) (map (λ list. list.items) lists.items) }
    requires city { zones.now.city ≡ sheet.now.city }
    ensures lists { IfOk result (λ made. (arc_value made.0).lists ≡ map (λ list. list.items) lists.entry.items) }
    ensures rows { IfOk result (λ made. (arc_value made.0).rows ≡ sheet.now.now.rows) }
    ensures zones { IfOk result (λ made. (arc_value made.0).zones ≡ zones.now.rows) }
    ensures city { IfOk result (λ made. (arc_value made.0).city ≡ sheet.now.city) }
    ensures entries { IfOk result (λ made. (arc_value made.0).entries ≡ length sheet.now.journal) }
    ensures claimants { IfOk result (λ made. made.1.items
        ≡ fresh_claimants (arc_value made.0).claims (length lists.entry.items)) }
{
    sheet.use_invariant();
    let lengths = lengths_of(heap, lists.as_slice())?;
    let (claims, claimants) = Claims::open(heap, lengths)?;
    let work = Arc::new(heap, Work::new(claims, lists, sheet, zones))?;
    Ok((work, claimants))
}

/// A hand for each claimant.
fn hands_of<'t, 'h, H: Allocator>(
    heap: &'h H,
    work: &Arc<Work<'t, 'h, H>, &'h H>,
    claimants: Vec<Claimant, &'h H>,
) -> Result<Vec<Hand<'t, 'h, H>, &'h H>, AllocError>
    requires { (count : ℕ) × (claimants.items ≡ fresh_claimants (arc_value work.now).claims count) }
    ensures { IfOk result (λ hands. hands.items ≡ fresh_hands (arc_value work.now) (length claimants.entry.items)) }
{
    let mut hands = Vec::with_capacity(heap, claimants.len())?;
    for claimant in claimants {
        hands.push(Hand::new(heap, Arc::try_clone(work)?, claimant))?;
    }
    Ok(hands)
}
