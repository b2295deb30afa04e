//! The net numbers of directed edges over rings that are added and taken.

ghost use Rattle.std.specs.Prelude.{◌≡◌, ℕ, ◌+◌, ◌≤◌, ◌<◌, ℤ, pos, ◌+ℤ◌, ◌-ℤ◌, if◌then◌else◌, cond, length};
ghost use Rattle.std.specs.Prelude.{List, [], ◌∷◌, ◌++◌, ◌*◌};
ghost use Rattle.std.specs.Prelude.{OnOk, OnErr, IfOk, IfSome, IfNone};
ghost use Rattle.std.specs.HashMap.{spare};
ghost use Rattle.std.specs.Map.{lookup};
ghost use Rattle.geo_exact.specs.Limit.{IsWithin};
ghost use Rattle.geo_exact.specs.Point.{Point};
ghost use Rattle.geo_exact.specs.Rings.{edges};
ghost use Rattle.geo_exact.specs.declared.limits.TheConstants.{COUNTED_EDGES};
ghost use Rattle.edge_chains.specs.Counts.{is_same_edge, number_at, net_at, AreCounts, AreNetOf, is_edge_before};
ghost use Rattle.edge_chains.specs.Counts.{IsFirstUnbalanced};
ghost use Rattle.edge_chains.specs.Unbalanced.{AreUnbalanced};
ghost use Rattle.edge_chains.specs.own.Sides.{entry_of, signed};
ghost use Rattle.edge_chains.specs.Net.{net_of_edges, winding_of_rings, area2_of_rings};
ghost use Rattle.edge_chains.specs.Noding.{AreFullyNoded};
ghost use Rattle.edge_chains.specs.Jump.{IsJump};

use crate::order::comes_first;
use geo_exact::{Corner, comes_before};
use std::alloc::{AllocError, Allocator};
use std::collections::HashMap;
use std::hash::{BuildHasherDefault, FoldHasher};
use std::marker::Model;

/// The undirected edges a, b with a before b, each with its net number.
type Numbers<A> = HashMap<(Corner, Corner), i64, BuildHasherDefault<FoldHasher>, A>;

/// Net numbers of directed edges over the rings added so far, less those over the rings taken.
///
/// It is a map from undirected edges a, b with a before b to the number of directed edges from a to
/// b minus the number from b to a, and it has no entry for 0. So two sets of rings, one added and
/// the other taken, have the same net edges exactly where
/// [`first_unbalanced`](EdgeSum::first_unbalanced) finds none. An edge of no length changes no net
/// number; [`edges`](EdgeSum::edges) counts it. A ring of n corners takes time in proportion to n,
/// whatever was counted before.
#[derive(Drop)]
pub struct EdgeSum<A: Allocator> {
    pub(crate) numbers: Numbers<A>,
    edges: u64,
}

impl<A: Allocator> Model for EdgeSum<A> {
    ghost use Rattle.edge_chains.specs.Counts.{Counts, AreCounts};

    ghost Value = { Counts };

    ghost view = { λ sum. record { counts = sum.numbers.entries; edges = sum.edges } };

    ghost invariant = { λ sum. AreCounts sum.numbers.entries sum.edges };
}

impl<A: Allocator + Copy> EdgeSum<A> {
    /// No edge yet; nothing is allocated.
    ///
    /// ```
    /// let mut sum = EdgeSum::new(alloc);
    /// sum.add(parcel)?;
    /// sum.take(city)?;
    /// ```
    pub fn new(alloc: A) -> EdgeSum<A>
        ensures net { AreNetOf result [] [] }
        ensures edges { result.edges ≡ 0 }
    {
        EdgeSum {
            numbers: HashMap::new(alloc),
            edges: 0,
        }
    }

    /// How many edges were added and taken so far.
    pub fn edges(&self) -> u64
        ensures { result ≡ self.now.edges }
    {
        self.edges
    }

    /// Counts each edge of a ring: at most 1,000,000,000,000 edges in all.
    ///
    /// # Errors
    ///
    /// [`AllocError`] where an allocation is refused; nothing has changed then.
    pub fn add(&mut self, ring: &[Corner]) -> Result<(), AllocError>
        requires total { self.old.edges + length ring.now ≤ COUNTED_EDGES }
        ensures net { OnOk result ((a b : Corner) → net_at self.new.counts a b
            ≡ net_at self.old.counts a b +ℤ net_of_edges (edges ring.now) a b) }
        ensures net_so_far { OnOk result ((added taken : List (List Corner)) → AreNetOf self.old added taken
            → AreNetOf self.new (added ++ ring.now ∷ []) taken) }
        ensures edges { OnOk result (self.new.edges ≡ self.old.edges + length ring.now) }
        ensures err { OnErr result (self.new ≡ self.old) }
    {
        self.count(ring, Side::Added)
    }

    /// Takes each edge of a ring off: at most 1,000,000,000,000 edges in all.
    ///
    /// # Errors
    ///
    /// [`AllocError`] where an allocation is refused; nothing has changed then.
    pub fn take(&mut self, ring: &[Corner]) -> Result<(), AllocError>
        requires total { self.old.edges + length ring.now ≤ COUNTED_EDGES }
        ensures net { OnOk result ((a b : Corner) → net_at self.new.counts a b
            ≡ net_at self.old.counts a b -ℤ net_of_edges (edges ring.now) a b) }
        ensures net_so_far { OnOk result ((added taken : List (List Corner)) → AreNetOf self.old added taken
            → AreNetOf self.new added (taken ++ ring.now ∷ [])) }
        ensures edges { OnOk result (self.new.edges ≡ self.old.edges + length ring.now) }
        ensures err { OnErr result (self.new ≡ self.old) }
    {
        self.count(ring, Side::Taken)
    }

    /// The least edge with a number other than 0, by its first corner and then by its second, and
    /// that number; `None` where all are 0. It takes no memory, and time in proportion to the edges.
    ///
    /// ```
    /// // Parcels from 0 to 60 and from 61 to 100: ((60, 0), (60, 100), 1).
    /// let gap = sum.first_unbalanced();
    /// ```
    pub fn first_unbalanced(&self) -> Option<(Corner, Corner, i64)>
        ensures none { IfNone result ((a b : Corner) → net_at self.now.counts a b ≡ pos 0) }
        // Where there is none, both sides go round each point equally often and have the same area.
        ensures windings { IfNone result ((added taken : List (List Corner)) → AreNetOf self.now added taken
            → (p : Point) → winding_of_rings p added ≡ winding_of_rings p taken) }
        ensures areas { IfNone result ((added taken : List (List Corner)) → AreNetOf self.now added taken
            → area2_of_rings added ≡ area2_of_rings taken) }
        ensures first { IfSome result (λ edge. IsFirstUnbalanced self.now edge.0 edge.1 edge.2) }
        // In fully noded rings the edge found is no false alarm.
        ensures jump { IfSome result (λ edge. (added taken : List (List Corner)) → AreNetOf self.now added taken
            → AreFullyNoded (added ++ taken)
            → (left : Point) × (right : Point) × IsJump added taken edge.0 edge.1 left right) }
    {
        let mut first = None;
        for (edge, number) in self.numbers.iter() {
            first = Some(earlier(first, (*edge, *number)));
        }
        let ((a, b), number) = first?;
        Some((a, b, number))
    }

    /// All edges with a number other than 0, each with its lesser corner first and with that number,
    /// by their first corners and then by their second. The time grows with the number of edges,
    /// times its logarithm.
    ///
    /// # Errors
    ///
    /// [`AllocError`] where an allocation is refused.
    pub fn unbalanced(&self, alloc: A) -> Result<Vec<(Corner, Corner, i64), A>, AllocError>
        ensures { IfOk result (λ edges. AreUnbalanced self.now edges.items) }
    {
        let mut edges = Vec::with_capacity(alloc, self.numbers.len())?;
        for ((a, b), number) in self.numbers.iter() {
            edges.push((*a, *b, *number))?;
        }
        edges.sort_unstable();
        Ok(edges)
    }

    fn count(&mut self, ring: &[Corner], side: Side) -> Result<(), AllocError>
        requires total { self.old.edges + length ring.now ≤ COUNTED_EDGES }
        ensures net { OnOk result ((a b : Corner) → net_at self.new.counts a b
            ≡ net_at self.old.counts a b +ℤ signed side (net_of_edges (edges ring.now) a b)) }
        ensures edges { OnOk result (self.new.edges ≡ self.old.edges + length ring.now) }
        ensures err { OnErr result (self.new ≡ self.old) }
    {
        self.numbers.reserve(ring.len())?;
        count_ring(&mut self.numbers, ring, side);
        self.edges += ring.len() as u64;
        Ok(())
    }
}

/// Whether a ring's edges count as they run, or the other way.
#[derive(Clone, Copy)]
enum Side {
    Added,
    Taken,
}

/// Adds `by` to the number of an edge, which has no entry where its number is 0.
fn change<A: Allocator + Copy>(numbers: &mut Numbers<A>, edge: (Corner, Corner), by: i64)
    requires room { 0 < spare numbers.old }
    requires small { IsWithin (2 * COUNTED_EDGES) (number_at numbers.old.entries edge.0 edge.1) }
    requires one { IsWithin 1 by }
    ensures changed { (q : Corner × Corner) → lookup (is_same_edge q) numbers.new.entries
        ≡ cond (is_same_edge edge q) (entry_of (number_at numbers.old.entries edge.0 edge.1 +ℤ by))
        (lookup (is_same_edge q) numbers.old.entries) }
    ensures room { spare numbers.old ≤ spare numbers.new + 1 }
{
    let number = numbers.get(&edge).copied().unwrap_or(0) + by;
    if number == 0 {
        numbers.remove(&edge);
    } else {
        let _kept = numbers.insert(edge, number);
    }
}

/// Of numbered edges, the one that comes first.
fn earlier(
    first: Option<((Corner, Corner), i64)>,
    next: ((Corner, Corner), i64),
) -> ((Corner, Corner), i64)
    ensures only { IfNone first (result ≡ next) }
    ensures first { IfSome first (λ f. result ≡ (if is_edge_before next.0 f.0 then next else f)) }
{
    match first {
        Some(first) if !comes_first(next.0, first.0) => first,
        _ => next,
    }
}

/// Counts the directed edge from one corner to another.
fn count_directed<A: Allocator + Copy>(numbers: &mut Numbers<A>, from: Corner, to: Corner)
    requires room { 0 < spare numbers.old }
    requires kept { AreCounts numbers.old.entries (2 * COUNTED_EDGES) }
    ensures net { (a b : Corner) → net_at numbers.new.entries a b
        ≡ net_at numbers.old.entries a b +ℤ net_of_edges (record { from = from; to = to } ∷ []) a b }
    ensures kept { (n : ℕ) → AreCounts numbers.old.entries n → AreCounts numbers.new.entries (n + 1) }
    ensures room { spare numbers.old ≤ spare numbers.new + 1 }
{
    if comes_before(from, to) {
        change(numbers, (from, to), 1);
    } else if comes_before(to, from) {
        change(numbers, (to, from), -1);
    }
}

/// Counts the edge from one corner to another as it runs, or the other way.
fn count_edge<A: Allocator + Copy>(numbers: &mut Numbers<A>, from: Corner, to: Corner, side: Side)
    requires room { 0 < spare numbers.old }
    requires kept { AreCounts numbers.old.entries (2 * COUNTED_EDGES) }
    ensures net { (a b : Corner) → net_at numbers.new.entries a b
        ≡ net_at numbers.old.entries a b +ℤ signed side (net_of_edges (record { from = from; to = to } ∷ []) a b) }
    ensures kept { (n : ℕ) → AreCounts numbers.old.entries n → AreCounts numbers.new.entries (n + 1) }
    ensures room { spare numbers.old ≤ spare numbers.new + 1 }
{
    match side {
        Side::Added => count_directed(numbers, from, to),
        Side::Taken => count_directed(numbers, to, from),
    }
}

/// Counts all edges of a ring.
fn count_ring<A: Allocator + Copy>(numbers: &mut Numbers<A>, ring: &[Corner], side: Side)
    requires room { length ring.now ≤ spare numbers.old }
    requires kept { AreCounts numbers.old.entries COUNTED_EDGES }
    requires size { length ring.now ≤ COUNTED_EDGES }
    ensures net { (a b : Corner) → net_at numbers.new.entries a b
        ≡ net_at numbers.old.entries a b +ℤ signed side (net_of_edges (edges ring.now) a b) }
    ensures kept { (n : ℕ) → AreCounts numbers.old.entries n → AreCounts numbers.new.entries (n + length ring.now) }
{
    if let Some((first, rest)) = ring.split_first() {
        let mut from = *first;
        for to in rest {
            count_edge(numbers, from, *to, side);
            from = *to;
        }
        count_edge(numbers, from, *first, side);
    }
}
