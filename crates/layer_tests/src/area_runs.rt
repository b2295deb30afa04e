//! Runs of `area`: their texts, refusals and failing writers.

use city_layers::area::area;
use city_layers::{Source, ToolFault};
use geo_exact::{Counted, FailAt, Unit};
use std::alloc::{AllocError, Global};
use std::io;
use std::io::Write;
use std::test::Fail;
use test_layers::{ByteByByte, FARTHEST, HUNDRED, changed, header, index, run, square};

/// What a run over these bytes of a main file prints, on whichever stream.
fn printed(alloc: Global, main: Vec<u8>) -> Result<String, AllocError> {
    run(alloc, Source { main, index: None }, Unit::Mm)
}

#[test]
fn prints_areas(rt: HostRuntime) -> Result<(), Fail> {
    let alloc = rt.alloc();
    assert_eq!(rt;
        printed(alloc, square(alloc, HUNDRED)?)?.as_str(),
        "1 20000\n"
    );
    let farthest = printed(alloc, square(alloc, FARTHEST)?)?;
    assert_eq!(rt; farthest.as_str(), "1 80000000000000000000000\n");
    let empty = printed(alloc, header(alloc, 50, [0; 4])?)?;
    assert_eq!(rt; empty.as_str(), "");
    Ok(())
}

#[test]
fn tells_the_first_fault(rt: HostRuntime) -> Result<(), Fail> {
    let alloc = rt.alloc();
    for (place, bytes, want) in [
        (144, [2u8, 0], "error: file: F6 main record 1 at 144"),
        (234, [0xF0, 0x3F], "error: file: F7 main record 1 at 220"),
        (162, [0xF0, 0x7F], "error: file: F9 C1 main record 1 at 156"),
    ] {
        let file = changed(alloc, &square(alloc, HUNDRED)?, place, bytes.as_slice())?;
        let text = printed(alloc, file)?;
        assert_eq!(rt; text.as_str(), want);
    }
    Ok(())
}

#[test]
fn refuses_each_torn_file(rt: HostRuntime) -> Result<(), Fail> {
    let alloc = rt.alloc();
    for length in 0..236usize {
        let mut file = square(alloc, HUNDRED)?;
        file.truncate(length);
        let want = format!(in alloc; "error: file: F1 main record 0 at {length}")?;
        assert_eq!(rt; printed(alloc, file)?.as_str(), want.as_str());
    }
    Ok(())
}

#[test]
fn tells_each_failed_write(rt: HostRuntime) -> Result<(), Fail> {
    let alloc = rt.alloc();
    let text = "1 20000\n";
    for call in 1..=9u64 {
        let source = Source {
            main: square(alloc, HUNDRED)?,
            index: None,
        };
        let writer = Counted::new(ByteByByte(Vec::new(alloc)));
        let mut out = FailAt::new(writer, call);
        let answer = area(alloc, &source, Unit::Mm, &mut out);
        let held = out.into_inner().into_inner().0;
        let want = if call < 9 {
            Err(ToolFault::Output)
        } else {
            Ok(())
        };
        assert_eq!(rt; answer, want, "at call {call}");
        assert_eq!(rt; held.len() as u64, call - 1);
        assert!(rt; text.as_bytes().starts_with(held.as_slice()));
    }
    Ok(())
}
