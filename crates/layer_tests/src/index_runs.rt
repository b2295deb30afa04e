//! Layers with an index beside them, whole and torn.

use city_layers::Source;
use geo_exact::Unit;
use std::alloc::{AllocError, Global};
use std::test::Fail;
use test_layers::{
    HUNDRED, POINTS, changed, header, index, null_and_polygon, polygon, run, square, squares,
};

/// The bits of 0, of 1 and of 100.
const ZERO: u64 = HUNDRED.0;

const ONE: u64 = 0x3FF0_0000_0000_0000;

const FAR: u64 = HUNDRED.1;

/// What a run over a main file and an index prints, in millimetres.
fn printed(alloc: Global, main: Vec<u8>, index: Vec<u8>) -> Result<String, AllocError> {
    let source = Source {
        main,
        index: Some(index),
    };
    run(alloc, source, Unit::Mm)
}

#[test]
fn reports_the_most_rings(rt: HostRuntime) -> Result<(), Fail> {
    let alloc = rt.alloc();
    let (main, index) = squares(alloc, 65_536)?;
    let mut want = String::new(alloc);
    for number in 1..=65_536u32 {
        want.push_str(format!(in alloc; "{number} 20000\n")?.as_str())?;
    }
    assert_eq!(rt; printed(alloc, main, index)?.as_str(), want.as_str());
    Ok(())
}

#[test]
fn reads_each_direction_and_repeated_points(rt: HostRuntime) -> Result<(), Fail> {
    let alloc = rt.alloc();
    for (far, unit, want) in [
        (FAR, Unit::Mm, "1 20000\n"),
        (FAR, Unit::Cm, "1 2000000\n"),
        (ONE, Unit::M, "1 2000000\n"),
    ] {
        let points = [
            (ZERO, ZERO),
            (far, ZERO),
            (far, ZERO),
            (far, far),
            (ZERO, far),
            (ZERO, ZERO),
        ];
        let main = polygon(alloc, points.as_slice())?;
        let text = run(alloc, Source { main, index: None }, unit)?;
        assert_eq!(rt; text.as_str(), want);
    }
    Ok(())
}

#[test]
fn counts_null_shapes(rt: HostRuntime) -> Result<(), Fail> {
    let alloc = rt.alloc();
    let main = null_and_polygon(alloc, &POINTS)?;
    assert_eq!(rt; main.len(), 248);
    for (entries, want) in [
        ([(50, 2), (56, 64)].as_slice(), "2 20000\n"),
        (
            [(50, 2)].as_slice(),
            "error: file: F10 index record 2 at 108",
        ),
        (
            [(50, 2), (56, 64), (124, 2)].as_slice(),
            "error: file: F10 index record 3 at 116",
        ),
    ] {
        let text = printed(
            alloc,
            null_and_polygon(alloc, &POINTS)?,
            index(alloc, entries)?,
        )?;
        assert_eq!(rt; text.as_str(), want);
    }
    Ok(())
}

#[test]
fn compares_the_index(rt: HostRuntime) -> Result<(), Fail> {
    let alloc = rt.alloc();
    for (place, byte, want) in [
        (0, 0, "1 20000\n"),
        (103, 0x33, "error: file: F10 index record 1 at 100"),
        (107, 0x41, "error: file: F10 index record 1 at 104"),
        (3, 0x0B, "error: file: F2 index record 0 at 0"),
        (27, 0x37, "error: file: F1 index record 0 at 108"),
        (28, 0xE9, "error: file: F3 index record 0 at 28"),
        (32, 3, "error: file: F4 index record 0 at 32"),
    ] {
        let file = index(alloc, &[(50, 64)])?;
        let text = printed(
            alloc,
            square(alloc, HUNDRED)?,
            changed(alloc, &file, place, &[byte])?,
        )?;
        assert_eq!(rt; text.as_str(), want, "at {place}");
    }
    let empty = printed(
        alloc,
        header(alloc, 50, [0; 4])?,
        index(alloc, &[(50, 64)])?,
    )?;
    assert_eq!(rt; empty.as_str(), "error: file: F10 index record 1 at 100");
    Ok(())
}

#[test]
fn checks_the_main_file_first(rt: HostRuntime) -> Result<(), Fail> {
    let alloc = rt.alloc();
    let mut main = square(alloc, HUNDRED)?;
    main.truncate(235);
    let text = printed(alloc, main, Vec::new(alloc))?;
    assert_eq!(rt; text.as_str(), "error: file: F1 main record 0 at 235");
    let text = printed(alloc, square(alloc, HUNDRED)?, Vec::new(alloc))?;
    assert_eq!(rt; text.as_str(), "error: file: F1 index record 0 at 0");
    Ok(())
}

#[test]
fn ignores_what_is_not_compared(rt: HostRuntime) -> Result<(), Fail> {
    let alloc = rt.alloc();
    let mut longer = square(alloc, HUNDRED)?;
    longer.extend_from_slice(&[0xFF; 7])?;
    let file = square(alloc, HUNDRED)?;
    let numbered = changed(alloc, &file, 100, &[0, 0, 0, 9])?;
    for main in [longer, changed(alloc, &numbered, 36, &[0; 32])?] {
        let text = printed(alloc, main, index(alloc, &[(50, 64)])?)?;
        assert_eq!(rt; text.as_str(), "1 20000\n");
    }
    Ok(())
}
