//! Which texts are lists of points, and the first line of those that are none.

use crate::locate_runs::told_of_two;
use std::test::Fail;

#[test]
fn reads_lines(rt: HostRuntime) -> Result<(), Fail> {
    for (text, want) in [
        (b"".as_slice(), ""),
        (b"\n".as_slice(), ""),
        (b"\r\n\n#\n# any \xFF bytes\r\n#0 0".as_slice(), ""),
        (b"0 0".as_slice(), "0 0 edge 1\n"),
        (b"0 0\n".as_slice(), "0 0 edge 1\n"),
        (b"0 0\r\n1 1\r\n".as_slice(), "0 0 edge 1\n1 1 inside 1\n"),
        (
            b"# a\n1 1\n\n2 2\n".as_slice(),
            "1 1 inside 1\n2 2 inside 1\n",
        ),
        (b"-0 000".as_slice(), "0 0 edge 1\n"),
        (b"0000000000000000005 -5".as_slice(), "5 -5 outside\n"),
        (b"100000000000 0".as_slice(), "100000000000 0 outside\n"),
        (b"0 -100000000000".as_slice(), "0 -100000000000 outside\n"),
        (
            b"-0000000100000000000 1".as_slice(),
            "-100000000000 1 outside\n",
        ),
    ] {
        assert_eq!(rt; told_of_two(&rt, rt.alloc(), text)?.as_str(), want);
    }
    Ok(())
}

#[test]
fn names_the_first_bad_line(rt: HostRuntime) -> Result<(), Fail> {
    for (text, line) in [
        (b"0 0\r".as_slice(), 1),
        (b"1 1\n0 0\r".as_slice(), 2),
        (b"0 0\r\r\n".as_slice(), 1),
        (b"\r\r\n".as_slice(), 1),
        (b"0\r 0\n".as_slice(), 1),
        (b"0  0".as_slice(), 1),
        (b"0 0 ".as_slice(), 1),
        (b" 0 0".as_slice(), 1),
        (b" #".as_slice(), 1),
        (b"\n#\n0 0\n \n".as_slice(), 4),
        (b"0\t0".as_slice(), 1),
        (b"0".as_slice(), 1),
        (b"0 ".as_slice(), 1),
        (b"0 0 0".as_slice(), 1),
        (b"- 0".as_slice(), 1),
        (b"0 -".as_slice(), 1),
        (b"--5 0".as_slice(), 1),
        (b"+5 0".as_slice(), 1),
        (b"5- 0".as_slice(), 1),
        (b"0x5 0".as_slice(), 1),
        (b"1.0 0".as_slice(), 1),
        (b"00000000000000000000 0".as_slice(), 1),
        (b"0 -00000000000000000005".as_slice(), 1),
        (b"9999999999999999999 0".as_slice(), 1),
        (b"100000000001 0".as_slice(), 1),
        (b"0 -100000000001".as_slice(), 1),
        (b"1 1\n\n# x\nx\ny\n".as_slice(), 4),
    ] {
        let want = format!(in rt.alloc(); "error: points: L1 {line}")?;
        assert_eq!(rt; told_of_two(&rt, rt.alloc(), text)?.as_str(), want.as_str());
    }
    Ok(())
}
