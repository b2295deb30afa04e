//! A program of one's own over the crates: it reads a city and its parcels, makes an edit, locates a point, and prints
//! twice the area of each parcel. `docs/library.md` goes through it.
#![tactic(auto)]

ghost use Rattle.std.specs.Prelude.{◌≡◌};
ghost use Rattle.edge_chains.specs.Net.{area2_of_rings};
ghost use Rattle.fabric_core.specs.Tiling.{corner_lists};

use anyhow::{Context, Result, bail};
use fabric_core::{At, City, Fabric, Layer};
use geo_exact::{Corner, LIST_CORNERS, Unit, area2};
use ring_edits::Edit;
use shp_files::{a_layer_file_is_within_the_limits, read_layer};
use std::alloc::Allocator;
use std::{env, fs};

/// The only ring of a city's file.
fn city_of<'h, H: Allocator>(heap: &'h H, main: &[u8]) -> Result<City<'h, H>> {
    let Ok(mut rings) = read_layer(heap, main, None, Unit::Cm) else {
        bail!("the city's file is damaged");
    };
    let Some(ring) = rings.pop() else {
        bail!("the city's file has no polygon");
    };
    match City::new(heap, ring) {
        Ok(city) => Ok(city),
        Err(_) => bail!("the city's ring is not simple"),
    }
}

/// The parcels of a file, opened to be edited. A layer that does not tile the city is refused.
fn fabric_of<'h, H: Allocator>(
    heap: &'h H,
    city: &City<'h, H>,
    main: &[u8],
) -> Result<Fabric<'h, H>> {
    let Ok(rings) = read_layer(heap, main, None, Unit::Cm) else {
        bail!("the parcels' file is damaged");
    };
    // What `Layer::load` requires of the rings is what `read_layer` says of them.
    a_layer_file_is_within_the_limits();
    let Ok(layer) = Layer::load(heap, city, rings) else {
        bail!("the parcels do not tile the city");
    };
    match Fabric::open(layer) {
        Ok(fabric) => Ok(fabric),
        Err(_) => bail!("out of memory"),
    }
}

/// Twice the area of all parcels together, in square millimetres.
///
/// It adds nothing up: at each moment a fabric's parcels tile its city, so that their areas sum to the city's. The
/// contract is proved from the fabric's own promise, which `use_invariant` brings in.
fn area2_of_parcels<H: Allocator>(fabric: &Fabric<'_, H>) -> i128
    ensures sums { result ≡ area2_of_rings (corner_lists fabric.now.now.rows) }
{
    fabric.use_invariant();
    area2(fabric.city())
}

/// Unites two parcels, and prints what became of them.
fn unite<'h, R: Print, H: Allocator>(
    rt: &R,
    fabric: &mut Fabric<'h, H>,
    a: u64,
    b: u64,
) -> Result<()> {
    match fabric.edit(1, &Edit::Merge { a, b }) {
        Ok(entry) => println!(rt; "entry {}: {a} and {b} are united", entry.number())?,
        Err(_) => println!(rt; "{a} and {b} are not united")?,
    }
    Ok(())
}

/// Prints where a point lies.
fn say_where<R: Print, H: Allocator>(rt: &R, fabric: &Fabric<'_, H>, point: Corner) -> Result<()> {
    match fabric.locate(point)? {
        At::Inside(id) => println!(rt; "({}, {}) is inside parcel {id}", point.x, point.y)?,
        At::OnEdge(_) => println!(rt; "({}, {}) is on an edge", point.x, point.y)?,
        At::Outside => println!(rt; "({}, {}) is outside", point.x, point.y)?,
    }
    Ok(())
}

/// Prints twice the area of each parcel.
fn say_areas<R: Print, H: Allocator>(rt: &R, fabric: &Fabric<'_, H>) -> Result<()> {
    for id in fabric.ids() {
        if let Some(ring) = fabric.ring(id) {
            let corners = ring.corners.as_slice();
            // What `area2` requires. No parcel has so many corners; to test it is the shortest proof.
            if corners.len() <= LIST_CORNERS {
                println!(rt; "parcel {id}: {}", area2(corners))?;
            }
        }
    }
    Ok(())
}

fn main(rt: HostRuntime) -> Result<()> {
    let mut words = Vec::new(rt.alloc());
    for word in env::args(&rt)? {
        words.push(word)?;
    }
    let [_, city, parcels] = words.as_slice() else {
        bail!("usage: own_program CITY PARCELS");
    };
    let heap = rt.alloc();
    let city = city_of(&heap, &fs::read(&rt, city).context("reading the city")?)?;
    let parcels = fs::read(&rt, parcels).context("reading the parcels")?;
    let mut fabric = fabric_of(&heap, &city, &parcels)?;
    unite(&rt, &mut fabric, 4, 5)?;
    unite(&rt, &mut fabric, 1, 5)?;
    if let Some(point) = Corner::new(100_000, 60_000) {
        say_where(&rt, &fabric, point)?;
    }
    say_areas(&rt, &fabric)?;
    println!(rt; "all: {}", area2_of_parcels(&fabric))?;
    Ok(())
}
