//! Rings that wind, whose edges the check looks at in the order of their places.

use geo_exact::{Corner, Corners};
use ring_core::{Ring, RingFault};
use std::alloc::Global;
use std::test::Fail;
use test_builders::corner;

/// Corner `k` of a way that winds: on the four diagonals in turn, so far from the middle in x and in y.
fn corner_of(k: u16, far: u16) -> Result<Corner, Fail> {
    let far = i64::from(far);
    match k & 3 {
        0 => corner((-far, -far)),
        1 => corner((far, -far)),
        2 => corner((far, far)),
        _ => corner((-far, far)),
    }
}

/// A band of 1,200 corners that winds inwards, along its outer side and back along its inner one. Corner 100 lies so
/// much further out.
fn spiral(alloc: Global, out: u8) -> Result<Corners<Global>, Fail> {
    let mut list = Corners::new(alloc);
    for k in 0..600u16 {
        let more = if k == 100 { u16::from(out) } else { 0 };
        list.push(corner_of(k, 10_000 - 5 * k + more)?)?;
    }
    for back in 0..600u16 {
        let k = 599 - back;
        list.push(corner_of(k, 9_990 - 5 * k)?)?;
    }
    Ok(list)
}

/// The fault of the band.
fn fault(alloc: Global, out: u8) -> Result<Option<RingFault>, Fail> {
    let list = spiral(alloc, out)?;
    if list.len() != 1200 {
        return Err(Fail::new("not 1,200 corners"));
    }
    Ok(Ring::check(list).err())
}

/// With corner 100 by 15 further out edges 99 and 1,103 cross, and 100 and 1,102.
#[test]
fn finds_where_a_spiral_meets_itself(rt: HostRuntime) -> Result<(), Fail> {
    assert!(rt; fault(rt.alloc(), 0)? == None);
    assert!(rt; fault(rt.alloc(), 15)? == Some(RingFault::EdgesMeet(99, 1103)));
    Ok(())
}
