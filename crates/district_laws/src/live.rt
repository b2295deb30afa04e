//! Laws: districts whose registers are edited while they are asked, and parcels that are filed in several layers.

ghost use Rattle.std.specs.Prelude.{◌≡◌, List, ◌∷◌, [], map};
ghost use Rattle.std.specs.List.{AllByRecursion, flat_map};
ghost use Rattle.geo_exact.specs.declared.corner.Corner.{Corner};
ghost use Rattle.geo_exact.specs.Point.{Point};
ghost use Rattle.geo_exact.specs.Layers.{NumberedRing};
ghost use Rattle.geo_exact.specs.Area.{area2};
ghost use Rattle.ring_core.specs.declared.triangle.Tri.{Tri};
ghost use Rattle.ring_core.specs.Sums.{MakeUp};
ghost use Rattle.edge_chains.specs.Net.{net_count, area2_of_rings};
ghost use Rattle.edge_chains.specs.Noding.{IsNoded};
ghost use Rattle.fabric_core.specs.Journal.{Book, replay};
ghost use Rattle.fabric_core.specs.Tiling.{corner_lists, IsTiling, IsWoundAtMostOnce};
ghost use Rattle.district_laws.specs.Districts.{AreDistricts, all_rows};
ghost use Rattle.district_laws.specs.Live.{LiveDistrict, Version, district_at, IsWholeVersion, AreLiveDistricts};
ghost use Rattle.district_laws.specs.Live.{net_of_files};

use std::alloc::Allocator;

/// Districts tile a city, and each is held by an office of its own. Then whatever versions of the districts are taken
/// together, one of each, their rows tile the city, and their twice-areas sum to the city's: it does not matter how far
/// the one district's edits are seen and the other's.
///
/// A version that a window answers from tiles the district's outline (`Window::locate`: `tiling`), and so does what a
/// desk holds (`Desk::use_invariant`: `tiling`, `replays`). The districts at these versions are as the other laws of
/// this crate ask, so those hold of them, too: a point is located by its district, and the overlay's pairs are those of
/// the districts.
pub fn any_versions_of_districts_tile_their_city<A: Allocator>()
    ensures districts { (districts : List LiveDistrict) (city : List Corner) (versions : List (Version A))
        → AreLiveDistricts districts city → map (λ version. version.of) versions ≡ districts
        → AllByRecursion IsWholeVersion versions → AreDistricts (map district_at versions) city }
    ensures tiling { (districts : List LiveDistrict) (city : List Corner) (versions : List (Version A))
        → AreLiveDistricts districts city → map (λ version. version.of) versions ≡ districts
        → AllByRecursion IsWholeVersion versions → IsTiling (all_rows (map district_at versions)) city }
    ensures areas { (districts : List LiveDistrict) (city : List Corner) (versions : List (Version A))
        → AreLiveDistricts districts city → map (λ version. version.of) versions ≡ districts
        → AllByRecursion IsWholeVersion versions
        → area2_of_rings (corner_lists (all_rows (map district_at versions))) ≡ area2 city }
    ensures of_desk { (row : NumberedRing) (book : Book A) → IsTiling book.now.rows book.city
        → replay book.opening book.journal ≡ book.now → IsWholeVersion (record {
          of = record { row = row; outline = book.city; opening = book.opening };
          entries = book.journal;
        }) }
{}

/// Parcels that are filed in several layers tile their city together where the net numbers of the layers' edges, all
/// added up, are the city's: in which file a parcel stands makes no difference.
pub fn parcels_tile_their_city_however_they_are_filed()
    ensures { (files : List (List NumberedRing)) (city corners refined : List Corner)
        → AllByRecursion (AllByRecursion (λ row. (ts : List Tri) × MakeUp ts row.corners)) files
        → ((p : Point) → IsWoundAtMostOnce p city) → IsNoded city corners refined
        → ((a b : Corner) → net_of_files files a b ≡ net_count (refined ∷ []) a b)
        → IsTiling (flat_map (λ file. file) files) city }
{}
