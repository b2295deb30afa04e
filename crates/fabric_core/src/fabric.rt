//! The fabric: a layer that clerks edit, with its journal.

ghost use Rattle.std.specs.Prelude.{◌≡◌, ◌≢◌, ◌⊎◌, ◌↔◌, ◌+◌, ◌≤◌, ◌≤ℤ◌, ℕ, List, [], ◌∷◌, ◌++◌, length, map, IfOk};
ghost use Rattle.std.specs.Prelude.{IfErr, IsErrAnd, IsErrOf, IsOk, OnOk, OnErr, MatchOption};
ghost use Rattle.std.specs.List.{All, Contains};
ghost use Rattle.std.specs.List.Sorted.{IsStrictlyIncreasing};
ghost use Rattle.geo_exact.specs.declared.corner.Corner.{Corner};
ghost use Rattle.geo_exact.specs.Point.{corner_point};
ghost use Rattle.geo_exact.specs.Bounds.{HoldsCorner};
ghost use Rattle.geo_exact.specs.Interiors.{InteriorsMeet};
ghost use Rattle.geo_exact.specs.Layers.{NumberedRing, numbered};
ghost use Rattle.geo_exact.specs.declared.limits.TheConstants.{LAYER_RECORDS, RING_CORNERS};
ghost use Rattle.ring_core.specs.Simple.{IsSimpleRing};
ghost use Rattle.ring_edits.specs.declared.edit.Edit.TheVariants.{Straighten};
ghost use Rattle.ring_edits.specs.Edits.{CoversAlike};
ghost use Rattle.fabric_core.specs.declared.refusal.Refusal.{Refusal};
ghost use Rattle.fabric_core.specs.declared.refusal.Refusal.TheVariants.{NoMemory, NotFlat};
ghost use Rattle.fabric_core.specs.Tiling.{IsTiling};
ghost use Rattle.fabric_core.specs.Rows.{numbers};
ghost use Rattle.fabric_core.specs.Faults.{AreSimple};
ghost use Rattle.fabric_core.specs.Limits.{AreWithinLimits};
ghost use Rattle.fabric_core.specs.GridIndex.{IsIndexed, IsCandidate};
ghost use Rattle.fabric_core.specs.Locate.{IsLocatedAt};
ghost use Rattle.fabric_core.specs.Journal.{opening_state, after_entry, replay};
ghost use Rattle.fabric_core.specs.EditResults.{IsEntryOf, IsLawful, IsDue};
ghost use Rattle.fabric_core.specs.declared.follow.FollowFault.TheVariants.{NotDue, NoMemory as NoRoom};
ghost use Rattle.fabric_core.specs.Refusals.{IsCityBent, IsFirstBent, IsRefusal, NeedsNoMemory};
ghost use Rattle.geo_exact.specs.declared.corner.Corner.{Corner as CornerValue};
ghost use Rattle.scaled_rings.specs.Tenfold.{IsLeastFar, IsLeastFarOf};
ghost use Rattle.fabric_core.specs.declared.tenfold.ScaleFault.TheVariants.{TooFar, NoMemory as NoScaleMemory};
ghost use Rattle.fabric_core.specs.Tenfold.{IsScaleFault, IsTenfoldBook, corners_of_book};

use crate::carry_out::carry_out;
use crate::draft::draft_of;
use crate::follow::FollowFault;
use crate::journal::{Entry, JOURNAL_ENTRIES};
use crate::layer::Layer;
use crate::locate::At;
use crate::opening::{Opening, count_corners};
use crate::refusal::Refusal;
use crate::tenfold::{ScaleFault, least_far_of_entries, tenfold_entries};
use crate::tiled::Tiled;
use geo_exact::Corner;
use parcel_table::{Ids, Shapes};
use ring_core::{Ring, Shape};
use ring_edits::Edit;
use scaled_rings::least_far;
use std::alloc::{AllocError, Allocator};
use std::marker::Model;

/// A fabric of parcels: a layer that clerks edit, with the journal of all edits since it was
/// opened. At each moment the parcels tile the city, the grid index has exactly the parcels in its
/// cells, and the journal, replayed on the rows that were opened, gives the rows. An accepted edit
/// adds one entry to the journal; a refused one changes nothing.
///
/// Contracts see the city's ring as it was read, the state in which the fabric was opened and the
/// state now (the rows by ascending id, the city's refined ring, the next id), the index, and the
/// journal. Corners are in whole millimetres.
pub struct Fabric<'a, H: Allocator> {
    tiled: Tiled<'a, H>,
    opening: Opening<'a, H>,
    journal: Vec<Entry<&'a H>, &'a H>,
    // How many corners the parcels' rings have together.
    corners: usize,
}

/// A fabric as it was at a moment: a copy of one's own, which stays as it is while the fabric goes on. A map is drawn
/// from it, and parcels are laid over zones. How many entries its journal has names the moment.
pub type Sheet<'a, H> = Fabric<'a, H>;

// As that of `Tiled`: whoever drops a fabric does it by one call.
impl<'a, H: Allocator> Drop for Fabric<'a, H> {
    fn drop(self) {
        let Fabric {
            tiled: _,
            opening: _,
            journal: _,
            corners: _,
        } = self;
    }
}

impl<'a, H: Allocator> Model for Fabric<'a, H> {
    ghost use Rattle.std.specs.Borrow.{Bor};
    ghost use Rattle.fabric_core.specs.Journal.{Book};
    ghost use Rattle.fabric_core.specs.own.Books.{IsBook};
    ghost use Rattle.fabric_core.specs.own.Changes.{state_of};

    ghost Value = { Book (Bor H) };

    ghost view = { λ fabric. record {
      city = fabric.tiled.city;
      opening = fabric.opening;
      now = state_of fabric.tiled;
      index = fabric.tiled.index;
      journal = fabric.journal.items;
    } };

    ghost invariant = { λ fabric. IsBook fabric.opening fabric.journal.items fabric.tiled fabric.corners };
}

impl<'a, H: Allocator> Fabric<'a, H> {
    /// Opens a layer to be edited; its ids stay, and the next id is one above the greatest. The journal is empty.
    /// Nothing is copied, since only clauses read what the layer was, and nothing is allocated.
    ///
    /// # Errors
    ///
    /// None: the layer would come back for want of memory, and none is asked for.
    ///
    /// ```
    /// let mut fabric = Fabric::open(layer)?;
    /// ```
    pub fn open(layer: Layer<'a, H>) -> Result<Fabric<'a, H>, Layer<'a, H>>
        ensures opens { IsOk result }
        ensures city { IfOk result (λ fabric. fabric.city ≡ layer.entry.city) }
        ensures opening { IfOk result (λ fabric. fabric.opening ≡ opening_state layer.entry.rows layer.entry.refined) }
        ensures now { IfOk result (λ fabric. fabric.now ≡ fabric.opening) }
        ensures index { IfOk result (λ fabric. fabric.index ≡ layer.entry.index) }
        ensures journal { IfOk result (λ fabric. fabric.journal ≡ []) }
    {
        let tiled = layer.into_tiled();
        tiled.use_invariant();
        let opening = Opening::of_tiled(&tiled);
        let corners = count_corners(tiled.shapes());
        let journal = Vec::new(tiled.allocator());
        Ok(Fabric {
            tiled,
            opening,
            journal,
            corners,
        })
    }

    /// A copy: the same opening, state and journal.
    ///
    /// # Errors
    ///
    /// [`AllocError`] where an allocation fails.
    pub fn copy(&self) -> Result<Fabric<'a, H>, AllocError>
        ensures { IfOk result (λ copy. copy ≡ self.now) }
    {
        let tiled = self.tiled.copy()?;
        let opening = self.opening.again(&self.tiled);
        let journal = self.journal.clone()?;
        Ok(Fabric {
            tiled,
            opening,
            journal,
            corners: self.corners,
        })
    }

    /// A sheet: a copy of one's own, which stays as it is while the fabric goes on.
    ///
    /// # Errors
    ///
    /// [`AllocError`] where an allocation fails.
    ///
    /// ```
    /// let sheet = fabric.sheet()?;
    /// ```
    pub fn sheet(&self) -> Result<Sheet<'a, H>, AllocError>
        ensures { IfOk result (λ sheet. sheet ≡ self.now) }
    {
        self.copy()
    }

    /// The fabric of a grid ten times as fine: each coordinate of the city, the parcels, the opening and the
    /// journal is ten times what it is here, and all ids and numbers are the same. So a register in
    /// centimetres becomes one in millimetres.
    ///
    /// # Errors
    ///
    /// [`ScaleFault::TooFar`] (M1) with the least corner that is more than 10,000,000,000 from 0 along an axis, and
    /// [`ScaleFault::NoMemory`].
    ///
    /// ```
    /// let fine = fabric.tenfold()?; // (60, 100) is (600, 1000) there
    /// ```
    pub fn tenfold(&self) -> Result<Fabric<'a, H>, ScaleFault>
        ensures tenfold { IfOk result (IsTenfoldBook self.now) }
        ensures fault { IfErr result (λ fault. IsScaleFault (corners_of_book self.now) fault
            ⊎ (fault ≡ NoScaleMemory)) }
        ensures refuses { (corner : CornerValue) → IsLeastFar (corners_of_book self.now) corner
            → IsErrAnd result (λ e. (e ≡ TooFar corner) ⊎ (e ≡ NoScaleMemory)) }
    {
        if let Some(corner) = self.least_far() {
            return Err(ScaleFault::TooFar(corner));
        }
        let heap = self.tiled.allocator();
        let tiled = self.tiled.tenfold()?;
        let opening = self.opening.tenfold(&self.tiled);
        let journal = tenfold_entries(heap, self.journal())?;
        let corners = self.corners;
        Ok(Fabric {
            tiled,
            opening,
            journal,
            corners,
        })
    }

    /// The least corner, by x and then by y, that is too far to be ten times as far.
    fn least_far(&self) -> Option<Corner>
        ensures { IsLeastFarOf (corners_of_book self.now) result }
    {
        let found = least_far(self.city(), None);
        let found = self.opening.least_far(found);
        let found = self.tiled.least_far(found);
        least_far_of_entries(self.journal(), found)
    }

    /// Only teaches the prover: the parcels are simple rings that tile the city, and are within the limits of a layer,
    /// in their number too; the city is no longer than a ring may be; in the cells of the grid index stand exactly the
    /// parcels; the city's refined ring is simple, covers what the city's ring covers, and bends only where a parcel
    /// does; and the journal is lawful, and leads from the opening to what is now.
    pub fn use_invariant(&self)
        ensures tiling { IsTiling self.now.now.rows self.now.city }
        ensures simple { AreSimple self.now.now.rows }
        ensures within { AreWithinLimits self.now.now.rows }
        ensures number { length self.now.now.rows ≤ LAYER_RECORDS }
        ensures city { length self.now.city ≤ RING_CORNERS }
        ensures indexed { IsIndexed self.now.now.rows self.now.city self.now.index }
        ensures ground { CoversAlike self.now.city self.now.now.refined }
        ensures simple_city { IsSimpleRing self.now.now.refined }
        ensures city_bends { (at : CornerValue) → ¬ IsCityBent self.now.now at }
        ensures lawful { IsLawful self.now.opening self.now.journal }
        ensures replays { replay self.now.opening self.now.journal ≡ self.now.now }
    {
        self.tiled.use_invariant();
    }

    /// The journal: all entries since the fabric was opened, in order.
    pub fn journal(&self) -> &[Entry<&'a H>]
        ensures { result.now ≡ self.now.journal }
    {
        self.journal.as_slice()
    }

    /// How many entries the journal has.
    pub fn entries(&self) -> u64
        ensures { result ≡ length self.now.journal }
    {
        self.journal().len() as u64
    }

    /// The parcels' ids, ascending.
    pub fn ids(&self) -> Ids<'_, &'a H>
        ensures ids { result ≡ numbers self.now.now.rows }
        ensures ascending { IsStrictlyIncreasing result }
    {
        self.tiled.ids()
    }

    /// The ring of a parcel, begun at its least corner; `None` where the id is no parcel's. It is found at once.
    pub fn ring(&self, id: u64) -> Option<&Ring<&'a H>>
        ensures { MatchOption result
            ((row : NumberedRing) → Contains self.now.now.rows row → row.number ≢ id)
            (λ ring. Contains self.now.now.rows (numbered id ring.now.corners)) }
    {
        let shape = self.shape(id)?;
        Some(&shape.ring)
    }

    /// The shape of a parcel, which is its ring with the triangles that it is clipped to; `None`
    /// where the id is no parcel's. It is found at once.
    pub fn shape(&self, id: u64) -> Option<&Shape<&'a H>>
        ensures { MatchOption result
            ((row : NumberedRing) → Contains self.now.now.rows row → row.number ≢ id)
            (λ shape. Contains self.now.now.rows (numbered id shape.now.ring.corners)) }
    {
        self.tiled.shape(id)
    }

    /// The shapes of all parcels, each beside its id, by ascending id.
    pub fn shapes(&self) -> Shapes<'_, &'a H>
        ensures { map (λ shape. numbered shape.0 shape.1.ring.corners) result ≡ self.now.now.rows }
    {
        self.tiled.shapes()
    }

    /// Where a corner lies among the parcels, as [`Layer::locate`].
    ///
    /// # Errors
    ///
    /// [`AllocError`] where the list of ids is refused.
    pub fn locate(&self, corner: Corner) -> Result<At<&'a H>, AllocError>
        ensures { IfOk result (λ at. IsLocatedAt self.now.now.rows (corner_point corner) at) }
    {
        self.tiled.locate(corner)
    }

    /// The ids, ascending, of the parcels that stand in some cell of the grid index between the cells
    /// of two corners, as [`Layer::candidates`].
    ///
    /// # Errors
    ///
    /// [`AllocError`] where the list of ids is refused.
    pub fn candidates(&self, low: Corner, high: Corner) -> Result<Vec<u64, &'a H>, AllocError>
        requires eastward { low.x ≤ℤ high.x }
        requires northward { low.y ≤ℤ high.y }
        ensures ascend { IfOk result (λ ids. IsStrictlyIncreasing ids.items) }
        ensures exactly { IfOk result (λ ids. (id : ℕ)
            → Contains ids.items id ↔ IsCandidate self.now.now.rows self.now.city low high id) }
        ensures meeting { IfOk result (λ ids. (row : NumberedRing) (ring : List Corner) → Contains self.now.now.rows row
            → All (HoldsCorner (record { low = low; high = high })) ring → InteriorsMeet row.corners ring
            → Contains ids.items row.number) }
    {
        self.tiled.candidates(low, high)
    }

    /// The city's ring, with the corners that were read, begun at its least corner.
    pub fn city(&self) -> &[Corner]
        ensures { result.now ≡ self.now.city }
    {
        self.tiled.city()
    }

    /// The city's ring with all corners of the parcels in it that lie inside its edges.
    pub fn refined(&self) -> &[Corner]
        ensures { result.now ≡ self.now.now.refined }
    {
        self.tiled.refined()
    }

    /// Makes an edit, if nothing refuses it: the parcels that it names go, those that it makes come,
    /// and the journal gets an entry. The time grows with the rings concerned and the city's refined
    /// ring, and not with the other parcels.
    ///
    /// # Errors
    ///
    /// The first of these that applies; nothing has changed then. [`Refusal::JournalFull`] (E9); for
    /// each id that the edit names, in its order, [`Refusal::Unknown`] (E1) or [`Refusal::Retired`]
    /// (E2); what the edit asks for itself: for a split [`Refusal::BadPath`] (E3), for a merge and a
    /// move [`Refusal::NotNeighbours`] (E4) and [`Refusal::SharedTwice`] (E5), for a move then
    /// [`Refusal::BadPath`] (E3), for an insert [`Refusal::NoSuchEdge`] (E7) and
    /// [`Refusal::NotOnEdge`] (E8), for a straightening [`Refusal::NoSuchCorner`] (E11) and
    /// [`Refusal::NotFlat`] (E12); [`Refusal::TooMany`] (E10); [`Refusal::Ring`] (E6). And
    /// [`Refusal::NoMemory`] where an allocation fails; but E9, E1 to E5, E7 and E11 are told even then.
    ///
    /// ```
    /// // Of parcels 1 and 2, neighbours: the new parcel is 3.
    /// let entry = fabric.edit(clerk, &Edit::Merge { a: 1, b: 2 })?;
    /// ```
    pub fn edit(&mut self, clerk: u32, edit: &Edit<&'a H>) -> Result<Entry<&'a H>, Refusal>
        // An accepted edit: the entry is that of this edit by this clerk on the state before, under the next number.
        ensures is_entry { IfOk result (λ entry. IsEntryOf self.old.now entry) }
        ensures edit { IfOk result (λ entry. entry.edit ≡ edit.now) }
        ensures clerk { IfOk result (λ entry. entry.clerk ≡ clerk) }
        ensures number { IfOk result (λ entry. entry.number ≡ length self.old.journal + 1) }
        // It changes the state as the journal's replay does, and stands last in the journal.
        ensures now { IfOk result (λ entry. self.new.now ≡ after_entry self.old.now entry) }
        ensures journal { IfOk result (λ entry. self.new.journal ≡ self.old.journal ++ entry ∷ []) }
        ensures city { self.new.city ≡ self.old.city }
        ensures opening { self.new.opening ≡ self.old.opening }
        // A refused one changes nothing.
        ensures unchanged { OnErr result (self.new ≡ self.old) }
        ensures refusal { IfErr result (λ refusal. IsRefusal self.old.now self.old.journal edit.now refusal
            ⊎ (refusal ≡ NoMemory)) }
        ensures refuses { (refusal : Refusal) → IsRefusal self.old.now self.old.journal edit.now refusal
            → IsErrAnd result (λ e. (e ≡ refusal) ⊎ (e ≡ NoMemory)) }
        // E12 tells the first parcel whose ring bends: where none does, nor does the city's refined ring.
        ensures bent { (at : CornerValue) (id : ℕ) → edit.now ≡ Straighten at → IsErrOf result (NotFlat id)
            → IsFirstBent self.old.now.rows at id }
        // E9, E1 to E5, E7 and E11 are told whatever memory there is.
        ensures exact { (refusal : Refusal) → IsRefusal self.old.now self.old.journal edit.now refusal
            → NeedsNoMemory refusal
            → IsErrOf result refusal }
    {
        if self.journal.len() >= JOURNAL_ENTRIES {
            return Err(Refusal::JournalFull);
        }
        let number = self.journal.len() as u64 + 1;
        let draft = draft_of(&self.tiled, self.corners, number, clerk, edit)?;
        let entry = draft.entry.clone()?;
        self.corners = carry_out(&mut self.tiled, &mut self.journal, draft)?;
        Ok(entry)
    }

    /// Makes the edit of an entry that another fabric's journal has, if the entry is due here: if it
    /// has the next number, and takes out and brings what its edit does here and now. So a copy
    /// follows its original.
    ///
    /// # Errors
    ///
    /// [`FollowFault::NotDue`] exactly where the entry is not due, and [`FollowFault::NoMemory`]
    /// where an allocation fails; nothing has changed then.
    pub fn follow(&mut self, entry: &Entry<&'a H>) -> Result<(), FollowFault>
        ensures due { OnOk result (IsDue self.old entry.now) }
        ensures now { OnOk result (self.new.now ≡ after_entry self.old.now entry.now) }
        ensures journal { OnOk result (self.new.journal ≡ self.old.journal ++ entry.now ∷ []) }
        ensures city { self.new.city ≡ self.old.city }
        ensures opening { self.new.opening ≡ self.old.opening }
        ensures unchanged { OnErr result (self.new ≡ self.old) }
        ensures fault { IfErr result (λ fault. ((fault ≡ NotDue) × (¬ IsDue self.old entry.now)) ⊎ (fault ≡ NoRoom)) }
    {
        let full = self.journal.len() >= JOURNAL_ENTRIES;
        if full {
            return Err(FollowFault::NotDue);
        }
        let number = self.journal.len() as u64 + 1;
        if number != entry.number() {
            return Err(FollowFault::NotDue);
        }
        let drafted = draft_of(
            &self.tiled,
            self.corners,
            number,
            entry.clerk(),
            entry.edit(),
        );
        let draft = match drafted {
            Ok(draft) => draft,
            Err(refusal) => return Err(FollowFault::from(refusal)),
        };
        if !draft.entry.changes_as(entry) {
            return Err(FollowFault::NotDue);
        }
        self.corners = carry_out(&mut self.tiled, &mut self.journal, draft)?;
        Ok(())
    }
}
