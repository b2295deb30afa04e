//! Command lines, and what each asks for or is refused for.

use clap::error::ErrorKind;
use geo_exact::{Corner, LIMIT};
use std::test::Fail;
use tool_arguments::{Points, Request, parse};

/// The version of the program whose command lines are read.
const VERSION: &str = "7.8.9 (a kit, proved, texts 0a1b)";

/// Command lines, and what each asks for.
const REQUESTS: [(&str, &str); 16] = [
    (
        "parcel_tool area city.shp --unit mm",
        "Area { main: \"city.shp\", unit: Mm }",
    ),
    (
        "parcel_tool area --unit=m -- --unit",
        "Area { main: \"--unit\", unit: M }",
    ),
    (
        "parcel_tool check --unit m a.shp b.shp",
        "Check { inputs: Inputs { city: \"a.shp\", parcels: \"b.shp\", unit: M, clerks: [], workers: None }, \
         all: false }",
    ),
    (
        "parcel_tool check a --clerk d --all b --unit cm --clerk c --workers 3",
        "Check { inputs: Inputs { city: \"a\", parcels: \"b\", unit: Cm, clerks: [\"d\", \"c\"], \
         workers: Some(Workers { count: 3 }) }, all: true }",
    ),
    (
        "parcel_tool export a b --unit mm --out new/town --clerk c",
        "Export { inputs: Inputs { city: \"a\", parcels: \"b\", unit: Mm, clerks: [\"c\"], workers: None }, \
         base: \"new/town\", force: false }",
    ),
    (
        "parcel_tool locate --points - a b --unit m --clerk c --clerk c",
        "Locate { inputs: Inputs { city: \"a\", parcels: \"b\", unit: M, clerks: [\"c\", \"c\"], workers: None }, \
         points: File(\"-\") }",
    ),
    (
        "parcel_tool overlay a b c --unit cm --clerk d",
        "Overlay { inputs: Inputs { city: \"a\", parcels: \"b\", unit: Cm, clerks: [\"d\"], workers: None }, \
         zones: \"c\", areas: false }",
    ),
    (
        "parcel_tool overlay a --workers 64 b c --unit m",
        "Overlay { inputs: Inputs { city: \"a\", parcels: \"b\", unit: M, clerks: [], \
         workers: Some(Workers { count: 64 }) }, zones: \"c\", areas: false }",
    ),
    (
        "parcel_tool overlay a b --areas c --unit m",
        "Overlay { inputs: Inputs { city: \"a\", parcels: \"b\", unit: M, clerks: [], workers: None }, \
         zones: \"c\", areas: true }",
    ),
    (
        "parcel_tool part a b --out c/d 18446744073709551615 --unit cm",
        "Part { districts: Districts { city: \"a\", districts: \"b\", unit: Cm, wanted: One(18446744073709551615), \
         workers: None }, base: \"c/d\", force: false }",
    ),
    (
        "parcel_tool part a b --all --out c/d --unit m --workers 1",
        "Part { districts: Districts { city: \"a\", districts: \"b\", unit: M, wanted: All, \
         workers: Some(Workers { count: 1 }) }, base: \"c/d\", force: false }",
    ),
    (
        "parcel_tool export a b --workers=2 --unit mm --force --out shp",
        "Export { inputs: Inputs { city: \"a\", parcels: \"b\", unit: Mm, clerks: [], \
         workers: Some(Workers { count: 2 }) }, base: \"shp\", force: true }",
    ),
    (
        "parcel_tool locate a b --workers 64 --unit mm --points p",
        "Locate { inputs: Inputs { city: \"a\", parcels: \"b\", unit: Mm, clerks: [], \
         workers: Some(Workers { count: 64 }) }, points: File(\"p\") }",
    ),
    ("parcel_tool explain", "Explain { code: [] }"),
    (
        "parcel_tool explain F9 C2",
        "Explain { code: [\"F9\", \"C2\"] }",
    ),
    (
        "parcel_tool area --hints a --unit mm",
        "Area { main: \"a\", unit: Mm }",
    ),
];

/// Command lines of sessions, and what each asks for.
const SESSIONS: [(&str, &str); 3] = [
    (
        "parcel_tool session a b --unit mm",
        "Session(Session { city: \"a\", parcels: \"b\", unit: Mm, zones: None, journal: None, clerk: None, desks: [], \
         workers: None })",
    ),
    (
        "parcel_tool session --desk d a --journal j b --workers 64 --zones z --desk c --unit m --desk d",
        "Session(Session { city: \"a\", parcels: \"b\", unit: M, zones: Some(\"z\"), journal: Some(\"j\"), \
         clerk: None, desks: [\"d\", \"c\", \"d\"], workers: Some(Workers { count: 64 }) })",
    ),
    (
        "parcel_tool session a b --unit cm --clerk e",
        "Session(Session { city: \"a\", parcels: \"b\", unit: Cm, zones: None, journal: None, clerk: Some(\"e\"), \
         desks: [], workers: None })",
    ),
];

#[test]
fn reads_requests(rt: HostRuntime) -> Result<(), Fail> {
    for (line, want) in REQUESTS {
        let words: Vec<&str> = line.split(' ').collect(rt.alloc())?;
        match parse(rt.alloc(), VERSION, words.as_slice()) {
            Ok(request) => {
                let told = format!(in rt.alloc(); "{request:?}")?;
                assert_eq!(rt; told.as_str(), want);
            }
            Err(error) => return Err(Fail::new(error)),
        }
    }
    Ok(())
}

#[test]
fn reads_sessions(rt: HostRuntime) -> Result<(), Fail> {
    for (line, want) in SESSIONS {
        let words: Vec<&str> = line.split(' ').collect(rt.alloc())?;
        match parse(rt.alloc(), VERSION, words.as_slice()) {
            Ok(request) => {
                let told = format!(in rt.alloc(); "{request:?}")?;
                assert_eq!(rt; told.as_str(), want);
            }
            Err(error) => return Err(Fail::new(error)),
        }
    }
    Ok(())
}

/// Command lines of sessions that are refused: the kind of error, and what its text says.
const REFUSED_SESSIONS: [(&str, ErrorKind, &str); 4] = [
    (
        "parcel_tool session a b",
        ErrorKind::MissingRequiredArgument,
        "--unit <UNIT>",
    ),
    (
        "parcel_tool session a b --unit mm --journal j --journal j",
        ErrorKind::ArgumentConflict,
        "cannot be used multiple times",
    ),
    (
        "parcel_tool session a b --unit mm --clerk c --clerk d",
        ErrorKind::ArgumentConflict,
        "cannot be used multiple times",
    ),
    (
        "parcel_tool session a b --unit mm --workers 65",
        ErrorKind::ValueValidation,
        "65",
    ),
];

#[test]
fn refuses_sessions(rt: HostRuntime) -> Result<(), Fail> {
    for (line, kind, help) in REFUSED_SESSIONS {
        let words: Vec<&str> = line.split(' ').collect(rt.alloc())?;
        let Err(error) = parse(rt.alloc(), VERSION, words.as_slice()) else {
            return Err(Fail::new(line));
        };
        assert_eq!(rt; (error.kind(), error.exit_code()), (kind, 2), "{line}");
        assert!(rt;
            format!(in rt.alloc(); "{error}")?.as_str().contains(help),
            "{line}"
        );
    }
    Ok(())
}

#[test]
fn reads_points(rt: HostRuntime) -> Result<(), Fail> {
    let line = "parcel_tool locate a.shp --at -5 0010 b.shp --unit mm --at 100000000000 -0";
    let words: Vec<&str> = line.split(' ').collect(rt.alloc())?;
    match parse(rt.alloc(), VERSION, words.as_slice()) {
        Ok(Request::Locate { inputs, points }) => {
            let paths = (inputs.city, inputs.parcels, inputs.clerks.len());
            assert_eq!(rt; paths, ("a.shp", "b.shp", 0));
            let Points::At(corners) = points else {
                return Err(Fail::new("a file of points"));
            };
            let want = [Corner { x: -5, y: 10 }, Corner { x: LIMIT, y: 0 }];
            assert_eq!(rt; corners.as_slice(), want.as_slice());
            Ok(())
        }
        Ok(_) => Err(Fail::new("no points")),
        Err(error) => Err(Fail::new(error)),
    }
}

/// Command lines that are refused: the kind of error, and what its text says.
const REFUSED: [(&str, ErrorKind, &str); 21] = [
    (
        "parcel_tool",
        ErrorKind::DisplayHelpOnMissingArgumentOrSubcommand,
        "Usage: parcel_tool [OPTIONS] <COMMAND>",
    ),
    (
        "parcel_tool measure",
        ErrorKind::InvalidSubcommand,
        "'measure'",
    ),
    (
        "parcel_tool area a.shp",
        ErrorKind::MissingRequiredArgument,
        "--unit <UNIT>",
    ),
    (
        "parcel_tool area --unit mm",
        ErrorKind::MissingRequiredArgument,
        "<MAIN>",
    ),
    (
        "parcel_tool area a.shp --unit km",
        ErrorKind::InvalidValue,
        "[possible values: mm, cm, m]",
    ),
    (
        "parcel_tool export a.shp b.shp --unit mm",
        ErrorKind::MissingRequiredArgument,
        "--out <BASE>",
    ),
    (
        "parcel_tool locate a.shp b.shp --unit mm",
        ErrorKind::MissingRequiredArgument,
        "--points <FILE>",
    ),
    (
        "parcel_tool part a.shp b.shp --unit mm --out c",
        ErrorKind::MissingRequiredArgument,
        "<ID|--all>",
    ),
    (
        "parcel_tool part a.shp b.shp 1 --all --unit mm --out c",
        ErrorKind::ArgumentConflict,
        "cannot be used with '--all'",
    ),
    (
        "parcel_tool part a.shp b.shp --all --unit mm --out c --workers 0",
        ErrorKind::ValueValidation,
        "0 is not in 1..=64",
    ),
    (
        "parcel_tool check a.shp b.shp --unit mm --workers 65",
        ErrorKind::ValueValidation,
        "65 is not in 1..=64",
    ),
    (
        "parcel_tool part a.shp b.shp 18446744073709551616 --unit mm --out c",
        ErrorKind::ValueValidation,
        "'18446744073709551616'",
    ),
    (
        "parcel_tool part a.shp b.shp 1 --unit mm --out c --clerk d",
        ErrorKind::UnknownArgument,
        "'--clerk'",
    ),
    (
        "parcel_tool locate a.shp b.shp --unit mm --points c --at 0 0",
        ErrorKind::ArgumentConflict,
        "cannot be used with",
    ),
    (
        "parcel_tool locate a.shp b.shp --unit mm --at 0 100000000001",
        ErrorKind::ValueValidation,
        "at most 100000000000",
    ),
    (
        "parcel_tool area a.shp b.shp --unit mm",
        ErrorKind::UnknownArgument,
        "'b.shp'",
    ),
    (
        "parcel_tool area a.shp --unit mm --fast",
        ErrorKind::UnknownArgument,
        "'--fast'",
    ),
    (
        "parcel_tool export a.shp b.shp --unit mm --out ",
        ErrorKind::ValueValidation,
        "--out takes a path without its ending",
    ),
    (
        "parcel_tool export a.shp b.shp --unit mm --out new.Shp",
        ErrorKind::ValueValidation,
        "--out takes a path without its ending",
    ),
    (
        "parcel_tool part a.shp b.shp --all --unit mm --out .SHP",
        ErrorKind::ValueValidation,
        "--out takes a path without its ending",
    ),
    (
        "parcel_tool area a.shp --unit mm --unit mm",
        ErrorKind::ArgumentConflict,
        "cannot be used multiple times",
    ),
];

#[test]
fn refuses_command_lines(rt: HostRuntime) -> Result<(), Fail> {
    for (line, kind, help) in REFUSED {
        let words: Vec<&str> = line.split(' ').collect(rt.alloc())?;
        let Err(error) = parse(rt.alloc(), VERSION, words.as_slice()) else {
            return Err(Fail::new(line));
        };
        assert_eq!(rt; (error.kind(), error.exit_code()), (kind, 2), "{line}");
        assert!(rt; error.use_stderr());
        assert!(rt;
            format!(in rt.alloc(); "{error}")?.as_str().contains(help),
            "{line}"
        );
    }
    Ok(())
}

#[test]
fn shows_help_and_version(rt: HostRuntime) -> Result<(), Fail> {
    for (line, text) in [
        (
            "parcel_tool --help",
            "Usage: parcel_tool [OPTIONS] <COMMAND>",
        ),
        (
            "parcel_tool area --help",
            "Usage: parcel_tool area [OPTIONS] --unit <UNIT> <MAIN>",
        ),
        (
            "parcel_tool export --help",
            "Usage: parcel_tool export [OPTIONS] --unit <UNIT> --out <BASE> <CITY> <PARCELS>",
        ),
        (
            "parcel_tool locate --help",
            "Usage: parcel_tool locate [OPTIONS] --unit <UNIT> <--at <X> <Y>|--points <FILE>> <CITY> <PARCELS>",
        ),
        (
            "parcel_tool part --help",
            "Usage: parcel_tool part [OPTIONS] --unit <UNIT> --out <BASE> <ID|--all> <CITY> <DISTRICTS>",
        ),
        (
            "parcel_tool --version",
            "parcel_tool 7.8.9 (a kit, proved, texts 0a1b)",
        ),
    ] {
        let words: Vec<&str> = line.split(' ').collect(rt.alloc())?;
        let Err(error) = parse(rt.alloc(), VERSION, words.as_slice()) else {
            return Err(Fail::new(line));
        };
        assert_eq!(rt; error.exit_code(), 0, "{line}");
        assert!(rt; !error.use_stderr());
        assert!(rt;
            format!(in rt.alloc(); "{error}")?.as_str().contains(text),
            "{line}"
        );
    }
    Ok(())
}
