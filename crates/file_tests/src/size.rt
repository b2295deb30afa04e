//! A layer of the greatest number of records, and a ring of the greatest number of corners.

use geo_exact::{Corner, LAYER_RECORDS, RING_CORNERS, Unit};
use shp_files::{read_layer, write_layer};
use std::test::Fail;
use test_builders::{ring_file, saw, squares_in_a_row};

#[test]
fn reads_the_most_records(rt: HostRuntime) -> Result<(), Fail> {
    let alloc = rt.alloc();
    let (main, index) = squares_in_a_row(alloc, 65_536)?;
    let rings = read_layer(alloc, &main, Some(index.as_slice()), Unit::Mm)?;
    assert_eq!(rt; rings.len(), LAYER_RECORDS as usize);
    let mut number = 0u32;
    for ring in rings.iter() {
        number = number.saturating_add(1);
        assert_eq!(rt; ring.number, number);
        let (low, high) = (i64::from(number), i64::from(number) + 100);
        let [a, b, c, d] = ring.corners.as_slice() else {
            return Err(Fail::new("not four corners"));
        };
        assert_eq!(rt;
            (a.x, a.y, b.x, b.y),
            (low, low, high, low),
            "in ring {number}"
        );
        assert_eq!(rt;
            (c.x, c.y, d.x, d.y),
            (high, high, low, high),
            "in ring {number}"
        );
    }
    Ok(())
}

#[test]
fn writes_and_reads_the_longest_ring(rt: HostRuntime) -> Result<(), Fail> {
    let alloc = rt.alloc();
    let longest = saw(alloc, 4096)?;
    if longest.len() != RING_CORNERS {
        return Err(Fail::new("not the longest ring"));
    }
    let file = ring_file(alloc, longest.as_slice())?;
    let Some(ring) = read_layer(alloc, &file, None, Unit::Mm)?.pop() else {
        return Err(Fail::new("no ring"));
    };
    assert!(rt; ring.corners == longest);
    let (main, index) = write_layer(alloc, &[ring])?;
    let Some(again) = read_layer(alloc, &main, Some(index.as_slice()), Unit::Mm)?.pop() else {
        return Err(Fail::new("no ring again"));
    };
    assert!(rt; again.corners == longest);
    assert_eq!(rt; again.corners.as_slice()[4095], Corner { x: 0, y: 100 });
    Ok(())
}
