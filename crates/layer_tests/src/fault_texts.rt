//! The text of each refusal of a layer.

use city_layers::{Role, ToolFault};
use fabric_core::{CityFault, LoadFault};
use geo_exact::{CoordFault, Corner};
use ring_core::RingFault;
use shp_files::{FaultKind, FileFault, FileName};
use std::test::Fail;

#[test]
fn tells_faults(rt: HostRuntime) -> Result<(), Fail> {
    for (fault, want) in [
        (ToolFault::Unreadable("a b/city.shp"), "S1 a b/city.shp"),
        (ToolFault::UnreadableIndex("a b/city"), "S1 a b/city.shx"),
        (ToolFault::Output, "S2"),
        (ToolFault::ClerkCount(9), "K1 9"),
        (ToolFault::ClerkLine(2, 5), "clerk 2: L1 5"),
        (ToolFault::PointLine(3), "points: L1 3"),
        (ToolFault::NoParcel(6), "parcels: H4 6"),
        (ToolFault::NoThread(63), "O7 63"),
        (ToolFault::NoWindow(1), "K3 1"),
        (ToolFault::NoMemory, "no memory"),
    ] {
        assert_eq!(rt; format!(in rt.alloc(); "{fault}")?.as_str(), want);
    }
    Ok(())
}

#[test]
fn tells_faults_of_tilings(rt: HostRuntime) -> Result<(), Fail> {
    let a = Corner { x: 60, y: 0 };
    let b = Corner { x: 60, y: -100 };
    for (fault, want) in [
        (ToolFault::CityCount(3), "city: S3 3"),
        (
            ToolFault::CityRing(CityFault::Ring(RingFault::ZeroArea)),
            "city: G1",
        ),
        (
            ToolFault::CityRing(CityFault::Ring(RingFault::EdgesMeet(1, 3))),
            "city: G2 1 3",
        ),
        (
            ToolFault::CityRing(CityFault::Ring(RingFault::Clockwise)),
            "city: G3",
        ),
        (ToolFault::CityRing(CityFault::Folded(0, 2)), "city: G5 0 2"),
        (
            ToolFault::NoTiling(Role::Parcels, LoadFault::TooMany(7)),
            "parcels: H3 7",
        ),
        (
            ToolFault::NoTiling(
                Role::Parcels,
                LoadFault::Ring(2, RingFault::EdgesMeet(1, 3)),
            ),
            "parcels: H1 2 G2 1 3",
        ),
        (
            ToolFault::NoTiling(Role::Zones, LoadFault::Gap(a, b, -1)),
            "zones: H2 60 0 60 -100 net -1",
        ),
    ] {
        assert_eq!(rt; format!(in rt.alloc(); "{fault}")?.as_str(), want);
    }
    Ok(())
}

/// Faults of files, and what is told of each at record 3, byte 108.
const FILE_FAULTS: [(Role, FileName, FaultKind, &str); 13] = [
    (
        Role::File,
        FileName::Main,
        FaultKind::Short,
        "file: F1 main record 3 at 108",
    ),
    (
        Role::City,
        FileName::Index,
        FaultKind::FileCode,
        "city: F2 index record 3 at 108",
    ),
    (
        Role::Parcels,
        FileName::Main,
        FaultKind::Version,
        "parcels: F3 main record 3 at 108",
    ),
    (
        Role::Zones,
        FileName::Main,
        FaultKind::ShapeType,
        "zones: F4 main record 3 at 108",
    ),
    (
        Role::File,
        FileName::Main,
        FaultKind::Content,
        "file: F5 main record 3 at 108",
    ),
    (
        Role::File,
        FileName::Main,
        FaultKind::Parts,
        "file: F6 main record 3 at 108",
    ),
    (
        Role::File,
        FileName::Main,
        FaultKind::NotClosed,
        "file: F7 main record 3 at 108",
    ),
    (
        Role::File,
        FileName::Main,
        FaultKind::FewPoints,
        "file: F8 main record 3 at 108",
    ),
    (
        Role::File,
        FileName::Main,
        FaultKind::Coord(CoordFault::NotNumber),
        "file: F9 C1 main record 3 at 108",
    ),
    (
        Role::File,
        FileName::Main,
        FaultKind::Coord(CoordFault::OffGrid),
        "file: F9 C2 main record 3 at 108",
    ),
    (
        Role::File,
        FileName::Main,
        FaultKind::Coord(CoordFault::TooFar),
        "file: F9 C3 main record 3 at 108",
    ),
    (
        Role::File,
        FileName::Index,
        FaultKind::IndexDisagrees,
        "file: F10 index record 3 at 108",
    ),
    (
        Role::File,
        FileName::Main,
        FaultKind::TooMany,
        "file: F11 main record 3 at 108",
    ),
];

#[test]
fn tells_file_faults(rt: HostRuntime) -> Result<(), Fail> {
    for (role, file, kind, want) in FILE_FAULTS {
        let fault = FileFault {
            file,
            position: 3,
            place: 108,
            kind,
        };
        let text = format!(in rt.alloc(); "{}", ToolFault::File(role, fault))?;
        assert_eq!(rt; text.as_str(), want);
    }
    Ok(())
}
