//! The layer: parcels that tile a city.

ghost use Rattle.std.specs.Prelude.{◌≡◌, ◌≢◌, ◌⊎◌, ◌↔◌, ◌≤◌, ◌≤ℤ◌, ℕ, ℤ, length, map, List, IfOk, IfErr, IsErrOf};
ghost use Rattle.std.specs.Prelude.{IsErrAnd, MatchResult, MatchOption};
ghost use Rattle.std.specs.List.{All, Contains};
ghost use Rattle.std.specs.List.Sorted.{IsStrictlyIncreasing};
ghost use Rattle.geo_exact.specs.declared.corner.Corner.{Corner};
ghost use Rattle.geo_exact.specs.Point.{corner_point};
ghost use Rattle.geo_exact.specs.Bounds.{HoldsCorner, IsLeastBox};
ghost use Rattle.geo_exact.specs.Interiors.{InteriorsMeet};
ghost use Rattle.geo_exact.specs.Layers.{NumberedRing, numbered, rings_of, corner_count, NumbersRise};
ghost use Rattle.geo_exact.specs.declared.limits.TheConstants.{LAYER_CORNERS, LAYER_RECORDS, RING_CORNERS};
ghost use Rattle.ring_core.specs.Simple.{IsSimpleRing};
ghost use Rattle.fabric_core.specs.declared.layer.LoadFault.{LoadFault};
ghost use Rattle.fabric_core.specs.declared.layer.LoadFault.TheVariants.{Gap, NoMemory};
ghost use Rattle.fabric_core.specs.Tiling.{IsTiling};
ghost use Rattle.fabric_core.specs.Rows.{AreRefined, numbers, IsUntiledBeside};
ghost use Rattle.fabric_core.specs.Limits.{AreWithinLimits};
ghost use Rattle.fabric_core.specs.GridIndex.{IsIndexed, IsCandidate};
ghost use Rattle.fabric_core.specs.Locate.{IsLocatedAt};
ghost use Rattle.fabric_core.specs.Faults.{AreSimple, IsLoadFault, IsLoadRefusal, IsOutOfMemory};
ghost use Rattle.fabric_core.specs.own.Checks.{HaveNoFault, IsChecked};
ghost use Rattle.fabric_core.specs.own.Kept.{IsFresh, IsShownBy};
ghost use Rattle.fabric_core.specs.own.Lists.{numbered_rows, corners_of_shapes};

use crate::all_faults::{Asked, LoadRefusal, load_refined, load_refined_by};
use crate::city::City;
use crate::locate::At;
use crate::refine::{refine, refine_by};
use crate::tiled::Tiled;
use geo_exact::{Bounds, Corner, Corners, RawRing};
use parcel_table::{Ids, Shapes};
use ring_core::{Ring, RingFault, Shape};
use std::alloc::{AllocError, AllocFailed, Allocator};
use std::marker::Model;
use std::thread::Threads;

/// Why rings are no layer of a city: the first that applies, in this order.
#[derive(Clone, Copy, Debug, PartialEq, Eq)]
pub enum LoadFault {
    /// H3: the first record whose noded ring has more than 4,096 corners, or with the rings before it
    /// more than 1,000,000.
    TooMany(u32),
    /// H1: the first record whose noded ring, begun at its least corner, is no simple ring.
    Ring(u32, RingFault),
    /// H2: the least edge, by its first corner and then by its second, that the rings do not have as
    /// often as the city: its two corners in order, and how much oftener the rings have it, each edge
    /// counted less the edge back.
    Gap(Corner, Corner, i64),
    /// An allocation failed.
    NoMemory,
}

impl From<AllocError> for LoadFault {
    ghost from_gives = { λ _ e. e ≡ NoMemory };

    fn from(_: AllocError) -> LoadFault {
        LoadFault::NoMemory
    }
}

impl<T: Drop> From<AllocFailed<T>> for LoadFault {
    ghost from_gives = { λ _ e. e ≡ NoMemory };

    fn from(_: AllocFailed<T>) -> LoadFault {
        LoadFault::NoMemory
    }
}

/// A layer of parcels that tiles its city, exactly: off all edges each point of the city is in one
/// parcel, and no other point is in any. Contracts see its rows (each parcel's ring under its id,
/// by ascending id), the city's ring as it was read, and that ring with the layer's corners in it.
///
/// Every corner of the layer and the city that lies inside an edge of a parcel or of the city is a
/// corner of that ring, so that neighbours have whole edges in common. Each ring begins at its
/// least corner. Corners are in whole millimetres; the memory is that of the heap that was lent.
#[derive(Drop)]
pub struct Layer<'a, H: Allocator> {
    tiled: Tiled<'a, H>,
}

impl<'a, H: Allocator> Model for Layer<'a, H> {
    ghost use Rattle.fabric_core.specs.Rows.{Tiles};
    ghost use Rattle.fabric_core.specs.own.Kept.{IsFresh};

    ghost Value = { Tiles };

    ghost view = { λ layer. record {
      rows = layer.tiled.rows;
      city = layer.tiled.city;
      refined = layer.tiled.refined;
      index = layer.tiled.index;
    } };

    ghost invariant = { λ layer. IsFresh layer.tiled };
}

impl<'a, H: Allocator> Layer<'a, H> {
    /// The layer of the rings of a layer file, in a city. All rings and the city's are noded for all
    /// corners of all of them first; each is then begun at its least corner. The rings are dropped on
    /// a fault.
    ///
    /// The time grows with the number of all corners (times its logarithm), and with the square of
    /// the number of corners of each ring.
    ///
    /// # Errors
    ///
    /// The first of these that applies: [`LoadFault::TooMany`] (H3), [`LoadFault::Ring`] (H1),
    /// [`LoadFault::Gap`] (H2); and [`LoadFault::NoMemory`] where an allocation fails. No tiling
    /// is refused by H2.
    ///
    /// ```
    /// let layer = Layer::load(heap, &city, records)?;
    /// ```
    pub fn load(
        heap: &'a H,
        city: &City<'a, H>,
        records: Vec<RawRing<&'a H>, &'a H>,
    ) -> Result<Layer<'a, H>, LoadFault>
        requires numbers { NumbersRise 0 LAYER_RECORDS (rings_of records.items) }
        requires corners { corner_count (rings_of records.items) ≤ LAYER_CORNERS }
        // The rows are all records' rings, noded for all corners, under the record numbers.
        ensures rows { IfOk result (λ layer. AreRefined (rings_of records.entry.items) city.now.ring.corners
            layer.rows layer.refined) }
        ensures city { IfOk result (λ layer. layer.city ≡ city.now.ring.corners) }
        ensures tiling { IfOk result (λ layer. IsTiling layer.rows city.now.ring.corners) }
        ensures indexed { IfOk result (λ layer. IsIndexed layer.rows city.now.ring.corners layer.index) }
        // A fault that is answered is the first of the layer, and a layer with a first fault is refused
        // by it, unless memory runs out.
        ensures fault { IfErr result (λ fault. IsLoadFault (rings_of records.entry.items) city.now.ring.corners fault
            ⊎ (fault ≡ NoMemory)) }
        ensures refuses { (fault : LoadFault) → IsLoadFault (rings_of records.entry.items) city.now.ring.corners fault
            → IsErrAnd result (λ e. (e ≡ fault) ⊎ (e ≡ NoMemory)) }
        // No tiling is refused: simple rings within the limits that tile the city are loaded, unless memory runs out.
        ensures loads { (rows : List NumberedRing) (refined : List Corner)
            → AreRefined (rings_of records.entry.items) city.now.ring.corners rows refined
            → AreWithinLimits rows → AreSimple rows → IsTiling rows city.now.ring.corners
            → MatchResult result (λ layer. layer.rows ≡ rows) (λ e. e ≡ NoMemory) }
        // Beside an edge that is told as a gap, the rows do not go round each point as often as the city.
        ensures gap { (rows : List NumberedRing) (refined : List Corner) (a b : Corner) (net : ℤ)
            → AreRefined (rings_of records.entry.items) city.now.ring.corners rows refined
            → IsErrOf result (Gap a b net) → IsUntiledBeside rows city.now.ring.corners refined a b }
    {
        match Layer::load_or_all(heap, city, records, Asked::First) {
            Ok(layer) => Ok(layer),
            Err(refusal) => Err(refusal.first),
        }
    }

    /// As [`load`](Layer::load), but with all faults of the first's kind beside the first, where they
    /// are asked for.
    ///
    /// # Errors
    ///
    /// The first fault that applies, as `load` answers it: [`LoadFault::TooMany`] (H3),
    /// [`LoadFault::Ring`] (H1), [`LoadFault::Gap`] (H2); and [`LoadFault::NoMemory`] where an
    /// allocation fails.
    pub fn load_or_all(
        heap: &'a H,
        city: &City<'a, H>,
        records: Vec<RawRing<&'a H>, &'a H>,
        asked: Asked,
    ) -> Result<Layer<'a, H>, LoadRefusal<&'a H>>
        requires numbers { NumbersRise 0 LAYER_RECORDS (rings_of records.items) }
        requires corners { corner_count (rings_of records.items) ≤ LAYER_CORNERS }
        ensures rows { IfOk result (λ layer. AreRefined (rings_of records.entry.items) city.now.ring.corners
            layer.rows layer.refined) }
        ensures city { IfOk result (λ layer. layer.city ≡ city.now.ring.corners) }
        ensures tiling { IfOk result (λ layer. IsTiling layer.rows city.now.ring.corners) }
        ensures indexed { IfOk result (λ layer. IsIndexed layer.rows city.now.ring.corners layer.index) }
        // The fault that is answered is the first of the layer, beside it all of its kind are answered
        // where they are asked for, and a layer with a first fault is refused by it, unless memory runs
        // out.
        ensures faults { IfErr result (λ refusal. IsLoadRefusal asked (rings_of records.entry.items)
            city.now.ring.corners refusal
            ⊎ IsOutOfMemory refusal) }
        ensures refuses { (fault : LoadFault) → IsLoadFault (rings_of records.entry.items) city.now.ring.corners fault
            → IsErrAnd result (λ refusal. (refusal.first ≡ fault) ⊎ (refusal.first ≡ NoMemory)) }
    {
        let refined = refine(heap, &city.ring.corners, records)?;
        load_refined(heap, city.bounds, refined, asked)
    }

    /// What the layer keeps, in which no parcel has gone.
    pub(crate) fn into_tiled(self) -> Tiled<'a, H>
        ensures shown { IsShownBy result self.entry }
        ensures fresh { IsFresh result }
    {
        let Layer { tiled } = self;
        tiled
    }

    /// Only teaches the prover: the rows are simple rings that tile the city, and are within the limits of a layer, in
    /// their number too; the city is no longer than a ring may be, and its refined ring is simple; and in the cells of
    /// the grid index stand exactly the rows.
    pub fn use_invariant(&self)
        ensures tiling { IsTiling self.now.rows self.now.city }
        ensures simple { AreSimple self.now.rows }
        ensures simple_city { IsSimpleRing self.now.refined }
        ensures within { AreWithinLimits self.now.rows }
        ensures number { length self.now.rows ≤ LAYER_RECORDS }
        ensures city { length self.now.city ≤ RING_CORNERS }
        ensures indexed { IsIndexed self.now.rows self.now.city self.now.index }
    {
        self.tiled.use_invariant();
    }

    /// The parcels' ids, ascending.
    pub fn ids(&self) -> Ids<'_, &'a H>
        ensures ids { result ≡ numbers self.now.rows }
        ensures ascending { IsStrictlyIncreasing result }
    {
        self.tiled.ids()
    }

    /// The ring of a parcel, begun at its least corner; `None` where the id is no parcel's. It is found at once.
    pub fn ring(&self, id: u64) -> Option<&Ring<&'a H>>
        ensures { MatchOption result
            ((row : NumberedRing) → Contains self.now.rows row → row.number ≢ id)
            (λ ring. Contains self.now.rows (numbered id ring.now.corners)) }
    {
        let shape = self.shape(id)?;
        Some(&shape.ring)
    }

    /// The shape of a parcel, which is its ring with the triangles that it is clipped to; `None`
    /// where the id is no parcel's. It is found at once.
    pub fn shape(&self, id: u64) -> Option<&Shape<&'a H>>
        ensures { MatchOption result
            ((row : NumberedRing) → Contains self.now.rows row → row.number ≢ id)
            (λ shape. Contains self.now.rows (numbered id shape.now.ring.corners)) }
    {
        self.tiled.shape(id)
    }

    /// The shapes of all parcels, each beside its id, by ascending id: a shape is a parcel's ring,
    /// begun at its least corner, with the triangles that it is clipped to.
    pub fn shapes(&self) -> Shapes<'_, &'a H>
        ensures { map (λ shape. numbered shape.0 shape.1.ring.corners) result ≡ self.now.rows }
    {
        self.tiled.shapes()
    }

    /// Where a corner lies among the parcels: on the edges of all that have it on one, by ascending
    /// id, where there is any; else inside the one that it is inside of; else outside, as each corner
    /// beyond the city is. It is found among the parcels that stand in the corner's cell of the grid
    /// index: the time grows with the number of these, and with the corners of those whose boxes hold
    /// it.
    ///
    /// # Errors
    ///
    /// [`AllocError`] where the list of ids is refused.
    ///
    /// ```
    /// // Parcels from 0 to 60 and from 60 to 100, asked for (60, 50): OnEdge of 1 and 2.
    /// let at = layer.locate(corner)?;
    /// ```
    pub fn locate(&self, corner: Corner) -> Result<At<&'a H>, AllocError>
        ensures { IfOk result (λ at. IsLocatedAt self.now.rows (corner_point corner) at) }
    {
        self.tiled.locate(corner)
    }

    /// The ids, ascending, of the parcels that stand in some cell of the grid index between the cells
    /// of two corners, these included; a coordinate that lies outside the city's box is first brought
    /// to its nearer end. These are the candidates of a search: no other parcel's interior meets that
    /// of a ring between the corners. The time grows with the number of these cells, and with the
    /// number of parcels that stand in each.
    ///
    /// # Errors
    ///
    /// [`AllocError`] where the list of ids is refused.
    ///
    /// ```
    /// let near = layer.candidates(shape.bounds.low, shape.bounds.high)?;
    /// ```
    pub fn candidates(&self, low: Corner, high: Corner) -> Result<Vec<u64, &'a H>, AllocError>
        requires eastward { low.x ≤ℤ high.x }
        requires northward { low.y ≤ℤ high.y }
        ensures ascend { IfOk result (λ ids. IsStrictlyIncreasing ids.items) }
        ensures exactly { IfOk result (λ ids. (id : ℕ)
            → Contains ids.items id ↔ IsCandidate self.now.rows self.now.city low high id) }
        // No parcel that a search between the corners has to find is left out.
        ensures meeting { IfOk result (λ ids. (row : NumberedRing) (ring : List Corner) → Contains self.now.rows row
            → All (HoldsCorner (record { low = low; high = high })) ring → InteriorsMeet row.corners ring
            → Contains ids.items row.number) }
    {
        self.tiled.candidates(low, high)
    }

    /// The city's ring, with the corners that were read, begun at its least corner.
    pub fn city(&self) -> &[Corner]
        ensures { result.now ≡ self.now.city }
    {
        self.tiled.city()
    }

    /// The city's ring with all corners of the layer in it that lie inside its edges.
    pub fn refined(&self) -> &[Corner]
        ensures { result.now ≡ self.now.refined }
    {
        self.tiled.refined()
    }
}

impl<'a, H: Allocator + Send + Sync> Layer<'a, H> {
    /// As [`load`](Layer::load), by so many threads at the most. For each number of them, and however they take turns,
    /// what comes out is the same: the layer, or its first fault. What the system refuses a thread is done in this one.
    ///
    /// # Errors
    ///
    /// As `load`: [`LoadFault::TooMany`] (H3), [`LoadFault::Ring`] (H1), [`LoadFault::Gap`] (H2); and
    /// [`LoadFault::NoMemory`] where an allocation fails.
    ///
    /// ```
    /// let layer = Layer::load_by(rt, 4, heap, &city, records)?;
    /// ```
    pub fn load_by<R: Threads + Sync>(
        rt: &R,
        workers: usize,
        heap: &'a H,
        city: &City<'a, H>,
        records: Vec<RawRing<&'a H>, &'a H>,
    ) -> Result<Layer<'a, H>, LoadFault>
        requires numbers { NumbersRise 0 LAYER_RECORDS (rings_of records.items) }
        requires corners { corner_count (rings_of records.items) ≤ LAYER_CORNERS }
        // The rows are all records' rings, noded for all corners, under the record numbers.
        ensures rows { IfOk result (λ layer. AreRefined (rings_of records.entry.items) city.now.ring.corners
            layer.rows layer.refined) }
        ensures city { IfOk result (λ layer. layer.city ≡ city.now.ring.corners) }
        ensures tiling { IfOk result (λ layer. IsTiling layer.rows city.now.ring.corners) }
        ensures indexed { IfOk result (λ layer. IsIndexed layer.rows city.now.ring.corners layer.index) }
        // A fault that is answered is the first of the layer, and a layer with a first fault is refused
        // by it, unless memory runs out.
        ensures fault { IfErr result (λ fault. IsLoadFault (rings_of records.entry.items) city.now.ring.corners fault
            ⊎ (fault ≡ NoMemory)) }
        ensures refuses { (fault : LoadFault) → IsLoadFault (rings_of records.entry.items) city.now.ring.corners fault
            → IsErrAnd result (λ e. (e ≡ fault) ⊎ (e ≡ NoMemory)) }
        // No tiling is refused: simple rings within the limits that tile the city are loaded, unless memory runs out.
        ensures loads { (rows : List NumberedRing) (refined : List Corner)
            → AreRefined (rings_of records.entry.items) city.now.ring.corners rows refined
            → AreWithinLimits rows → AreSimple rows → IsTiling rows city.now.ring.corners
            → MatchResult result (λ layer. layer.rows ≡ rows) (λ e. e ≡ NoMemory) }
        // Beside an edge that is told as a gap, the rows do not go round each point as often as the city.
        ensures gap { (rows : List NumberedRing) (refined : List Corner) (a b : Corner) (net : ℤ)
            → AreRefined (rings_of records.entry.items) city.now.ring.corners rows refined
            → IsErrOf result (Gap a b net) → IsUntiledBeside rows city.now.ring.corners refined a b }
    {
        match Layer::load_or_all_by(rt, workers, heap, city, records, Asked::First) {
            Ok(layer) => Ok(layer),
            Err(refusal) => Err(refusal.first),
        }
    }

    /// As [`load_or_all`](Layer::load_or_all), by so many threads at the most, as in [`load_by`](Layer::load_by).
    ///
    /// # Errors
    ///
    /// As `load_or_all`.
    pub fn load_or_all_by<R: Threads + Sync>(
        rt: &R,
        workers: usize,
        heap: &'a H,
        city: &City<'a, H>,
        records: Vec<RawRing<&'a H>, &'a H>,
        asked: Asked,
    ) -> Result<Layer<'a, H>, LoadRefusal<&'a H>>
        requires numbers { NumbersRise 0 LAYER_RECORDS (rings_of records.items) }
        requires corners { corner_count (rings_of records.items) ≤ LAYER_CORNERS }
        ensures rows { IfOk result (λ layer. AreRefined (rings_of records.entry.items) city.now.ring.corners
            layer.rows layer.refined) }
        ensures city { IfOk result (λ layer. layer.city ≡ city.now.ring.corners) }
        ensures tiling { IfOk result (λ layer. IsTiling layer.rows city.now.ring.corners) }
        ensures indexed { IfOk result (λ layer. IsIndexed layer.rows city.now.ring.corners layer.index) }
        // The fault that is answered is the first of the layer, beside it all of its kind are answered
        // where they are asked for, and a layer with a first fault is refused by it, unless memory runs
        // out.
        ensures faults { IfErr result (λ refusal. IsLoadRefusal asked (rings_of records.entry.items)
            city.now.ring.corners refusal
            ⊎ IsOutOfMemory refusal) }
        ensures refuses { (fault : LoadFault) → IsLoadFault (rings_of records.entry.items) city.now.ring.corners fault
            → IsErrAnd result (λ refusal. (refusal.first ≡ fault) ⊎ (refusal.first ≡ NoMemory)) }
    {
        let refined = refine_by(rt, workers, heap, &city.ring.corners, records)?;
        load_refined_by(rt, workers, heap, city.bounds, refined, asked)
    }
}

/// The layer of shapes whose rings have no fault, in a city that is refined.
pub(crate) fn layer_of<'a, H: Allocator>(
    heap: &'a H,
    area: Bounds,
    numbers: &[u32],
    shapes: Vec<Shape<&'a H>, &'a H>,
    city: Corners<&'a H>,
    refined: Corners<&'a H>,
) -> Result<Layer<'a, H>, AllocError>
    requires checked { IsChecked numbers.now (corners_of_shapes shapes.items) city refined }
    requires area { IsLeastBox area city }
    ensures rows { IfOk result (λ layer. layer.rows
        ≡ numbered_rows numbers.now (corners_of_shapes shapes.entry.items)) }
    ensures city { IfOk result (λ layer. layer.city ≡ city.entry) }
    ensures refined { IfOk result (λ layer. layer.refined ≡ refined.entry) }
    ensures no_fault { IfOk result (λ layer. HaveNoFault layer.rows layer.refined) }
    ensures tiling { IfOk result (λ layer. IsTiling layer.rows layer.city) }
    ensures indexed { IfOk result (λ layer. IsIndexed layer.rows layer.city layer.index) }
{
    let tiled = Tiled::new(heap, area, numbers, shapes, city, refined)?;
    tiled.use_invariant();
    Ok(Layer { tiled })
}
