//! Files as they are read, and paths that cannot be.

use city_layers::{Disk, ToolFault, read_source, read_text};
use std::fs;
use std::test::Fail;
use test_layers::{HUNDRED, index, square};

#[test]
fn reads_the_index_beside_the_main_file(rt: HostRuntime) -> Result<(), Fail> {
    let alloc = rt.alloc();
    let main = square(alloc, HUNDRED)?;
    let beside = index(alloc, &[(50, 64)])?;
    fs::write(&rt, "both.shp", main.as_slice())?;
    fs::write(&rt, "both.shx", beside.as_slice())?;
    fs::write(&rt, "upper.SHP", main.as_slice())?;
    fs::write(&rt, "upper.shx", beside.as_slice())?;
    fs::write(&rt, "alone.shp", main.as_slice())?;
    for (path, has_index) in [
        ("both.shp", true),
        ("upper.SHP", false),
        ("alone.shp", false),
    ] {
        match read_source(&Disk(&rt), alloc, path) {
            Ok(source) => {
                assert_eq!(rt; source.main.as_slice(), main.as_slice());
                let want = if has_index {
                    Some(beside.as_slice())
                } else {
                    None
                };
                assert_eq!(rt; source.index_bytes(), want, "beside {path}");
            }
            Err(fault) => assert_eq!(rt; Err(fault), Ok(()), "at {path}"),
        }
    }
    Ok(())
}

#[test]
fn names_the_file_that_it_could_not_read(rt: HostRuntime) -> Result<(), Fail> {
    let alloc = rt.alloc();
    fs::write(&rt, "torn.shp", square(alloc, HUNDRED)?.as_slice())?;
    fs::create_dir(&rt, "torn.shx")?;
    fs::create_dir(&rt, "folder.shp")?;
    for (path, want) in [
        ("missing.shp", ToolFault::Unreadable("missing.shp")),
        ("folder.shp", ToolFault::Unreadable("folder.shp")),
        ("torn.shp", ToolFault::UnreadableIndex("torn")),
    ] {
        let answer = read_source(&Disk(&rt), alloc, path).map(|_| ());
        assert_eq!(rt; answer, Err(want), "at {path}");
    }
    Ok(())
}

#[test]
fn reads_a_text_at_its_path(rt: HostRuntime) -> Result<(), Fail> {
    let alloc = rt.alloc();
    fs::write(&rt, "points.txt", "0 0\n")?;
    match read_text(&Disk(&rt), alloc, "points.txt") {
        Ok(text) => assert_eq!(rt; text.as_slice(), b"0 0\n".as_slice()),
        Err(fault) => return Err(Fail::new(fault)),
    }
    fs::create_dir(&rt, "folder.txt")?;
    for path in ["missing.txt", "folder.txt"] {
        let answer = read_text(&Disk(&rt), alloc, path).map(|_| ());
        assert_eq!(rt; answer, Err(ToolFault::Unreadable(path)), "at {path}");
    }
    Ok(())
}
