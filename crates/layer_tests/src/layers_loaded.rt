//! Layers that are loaded from files without a run: of parcels, and of parcels and zones, and why they are not.

use city_layers::{
    Layers, ToolFault, load_layers, load_layers_by, load_tiles, load_tiles_or_lines,
    load_tiles_or_lines_by,
};
use geo_exact::Unit;
use std::alloc::{AllocError, Global};
use std::test::Fail;
use test_layers::{BEYOND, CITY, EAST, Place, WEST, alone, layer};

/// The lower half of the city.
const LOW: [Place; 4] = [(0, 0), (100, 0), (100, 50), (0, 50)];

/// The upper half.
const HIGH: [Place; 4] = [(0, 50), (100, 50), (100, 100), (0, 100)];

/// How many parcels a layer of these rings has in the city; the fault where it does not tile it.
fn told(alloc: Global, rings: &[&[Place]]) -> Result<String, AllocError> {
    let city = alone(layer(alloc, &[&CITY])?);
    let parcels = alone(layer(alloc, rings)?);
    match load_tiles(&alloc, &city, &parcels, Unit::Mm) {
        Ok(tiles) => format!(in alloc; "{} parcels", tiles.ids().len()),
        Err(fault) => format!(in alloc; "{fault}"),
    }
}

#[test]
fn loads_what_tiles_its_city(rt: HostRuntime) -> Result<(), Fail> {
    let two = told(rt.alloc(), &[&WEST, &EAST])?;
    assert_eq!(rt; two.as_str(), "2 parcels");
    let gap = told(rt.alloc(), &[&WEST, &BEYOND])?;
    assert_eq!(rt; gap.as_str(), "parcels: H2 60 0 60 100 net 1");
    Ok(())
}

/// The same, with the lines of all faults before the first.
fn told_in_full(alloc: Global, rings: &[&[Place]]) -> Result<String, AllocError> {
    let city = alone(layer(alloc, &[&CITY])?);
    let parcels = alone(layer(alloc, rings)?);
    match load_tiles_or_lines(&alloc, &city, &parcels, Unit::Mm) {
        Ok(tiles) => format!(in alloc; "{} parcels", tiles.ids().len()),
        Err(refusal) => {
            let lines = String::from_utf8_lossy(alloc, refusal.lines())?;
            format!(in alloc; "{lines}{}", refusal.fault)
        }
    }
}

#[test]
fn tells_all_faults_before_the_first(rt: HostRuntime) -> Result<(), Fail> {
    let two = told_in_full(rt.alloc(), &[&WEST, &EAST])?;
    assert_eq!(rt; two.as_str(), "2 parcels");
    let gap = told_in_full(rt.alloc(), &[&WEST, &BEYOND])?;
    assert_eq!(rt;
        gap.as_str(),
        "edge 60 0 60 100 net 1\nedge 60 0 61 0 net -1\nedge 60 100 61 100 net 1\nedge 61 0 61 100 net -1\n\
         parcels: H2 60 0 60 100 net 1"
    );
    Ok(())
}

/// How many parcels and zones there are; the fault where one of the two does not tile the city.
fn counted(
    alloc: Global,
    loaded: Result<Layers<'_, Global>, ToolFault<'static>>,
) -> Result<String, AllocError> {
    match loaded {
        Ok(Layers { parcels, zones }) => {
            format!(in alloc;
                "{} parcels, {} zones",
                parcels.ids().len(),
                zones.ids().len()
            )
        }
        Err(fault) => format!(in alloc; "{fault}"),
    }
}

/// The same of these zones, and of two parcels.
fn told_of_both(alloc: Global, zones: &[&[Place]]) -> Result<String, AllocError> {
    let city = alone(layer(alloc, &[&CITY])?);
    let parcels = alone(layer(alloc, &[&WEST, &EAST])?);
    let zones = alone(layer(alloc, zones)?);
    let loaded = load_layers(&alloc, &city, &parcels, &zones, Unit::Mm);
    counted(alloc, loaded)
}

#[test]
fn loads_parcels_and_zones(rt: HostRuntime) -> Result<(), Fail> {
    let both = told_of_both(rt.alloc(), &[&LOW, &HIGH, &[]])?;
    assert_eq!(rt; both.as_str(), "2 parcels, 2 zones");
    let gap = told_of_both(rt.alloc(), &[&WEST, &BEYOND])?;
    assert_eq!(rt; gap.as_str(), "zones: H2 60 0 60 100 net 1");
    Ok(())
}

/// Layers in the city, some of which do not tile it.
const LAYERS: [&[&[Place]]; 5] = [
    &[&WEST, &EAST],
    &[&LOW, &HIGH, &[]],
    &[&WEST, &BEYOND],
    &[&LOW],
    &[],
];

/// How many threads load a layer.
const WORKERS: [usize; 4] = [0, 1, 3, 64];

#[test]
fn threads_load_what_one_loads(rt: HostRuntime) -> Result<(), Fail> {
    let alloc = rt.alloc();
    let city = alone(layer(alloc, &[&CITY])?);
    for parcels in LAYERS {
        let parcels = alone(layer(alloc, parcels)?);
        // Where both are refused, the parcels' fault is told.
        for zones in LAYERS {
            let zones = alone(layer(alloc, zones)?);
            let one = load_layers(&alloc, &city, &parcels, &zones, Unit::Mm);
            let one = counted(alloc, one)?;
            for workers in WORKERS {
                let some = load_layers_by(&rt, workers, &alloc, &city, &parcels, &zones, Unit::Mm);
                assert_eq!(rt; counted(alloc, some)?.as_str(), one.as_str());
            }
        }
    }
    Ok(())
}

#[test]
fn threads_tell_all_faults_that_one_tells(rt: HostRuntime) -> Result<(), Fail> {
    let alloc = rt.alloc();
    let city = alone(layer(alloc, &[&CITY])?);
    for rings in LAYERS {
        let parcels = alone(layer(alloc, rings)?);
        let one = match load_tiles_or_lines(&alloc, &city, &parcels, Unit::Mm) {
            Ok(_) => format!(in alloc; "a tiling")?,
            Err(refusal) => {
                let lines = String::from_utf8_lossy(alloc, refusal.lines())?;
                format!(in alloc; "{lines}{}", refusal.fault)?
            }
        };
        for workers in WORKERS {
            let some = match load_tiles_or_lines_by(
                &rt,
                workers,
                &alloc,
                &city,
                &parcels,
                Unit::Mm,
            ) {
                Ok(_) => format!(in alloc; "a tiling")?,
                Err(refusal) => {
                    let lines = String::from_utf8_lossy(alloc, refusal.lines())?;
                    format!(in alloc; "{lines}{}", refusal.fault)?
                }
            };
            assert_eq!(rt; some.as_str(), one.as_str());
        }
    }
    Ok(())
}
