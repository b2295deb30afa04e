//! Each allocation of a run refused in turn: its answer is that memory ran out, nothing was printed, and
//! the same run with memory prints what it has to print.

use crate::edit_runs::run_files;
use crate::overlay_runs::HALVES;
use city_layers::area::area;
use city_layers::{Source, ToolFault};
use geo_exact::{Counted, Unit};
use parcel_runs::RunFiles;
use parcel_runs::check::{check, check_all};
use parcel_runs::export::export;
use parcel_runs::locate::locate_text;
use parcel_runs::overlay::overlay;
use parcel_runs::part::part;
use refusing_alloc::Refusing;
use std::alloc::{AllocError, Global};
use std::sync::Wait;
use std::test::Fail;
use std::thread::Threads;
use test_layers::{BEYOND, CITY, EAST, HUNDRED, Place, WEST, alone, layer, square};
use text_pieces::put_all;

/// No run here makes so many allocations.
const MOST: u64 = 1000;

/// The heap of the runs here.
type Heap = Refusing<Global>;

/// A run.
#[derive(Clone, Copy)]
enum Which {
    /// Of the areas of a square.
    Areas,
    /// Of the two rectangles.
    Check,
    /// Of two rectangles with a gap between them.
    AllFaults,
    /// Of the two rectangles, with all faults asked for.
    NoFaults,
    /// Of the two rectangles.
    Export,
    /// Of five points in the two rectangles.
    Places,
    /// Of the two rectangles with the halves of the city.
    Overlay,
    /// Of the second of the two rectangles.
    Part,
}

/// A run, and what it prints with memory.
struct Row {
    which: Which,
    want: &'static str,
    /// With a clerk's file that merges the two rectangles: what is printed where this edit alone is refused.
    unedited: Option<&'static str>,
}

/// The runs.
const RUNS: [Row; 12] = [
    Row {
        which: Which::Areas,
        want: "1 20000\n",
        unedited: None,
    },
    Row {
        which: Which::Check,
        want: "tiling 2 20000\n",
        unedited: None,
    },
    Row {
        which: Which::AllFaults,
        want: "edge 60 0 60 100 net 1\nedge 60 0 61 0 net -1\nedge 60 100 61 100 net 1\nedge 61 0 61 100 net -1\n",
        unedited: None,
    },
    Row {
        which: Which::Export,
        want: "exported 2\n",
        unedited: None,
    },
    Row {
        which: Which::Places,
        want: "0 0 edge 1\n1 1 inside 1\n1 0 edge 1\n-1 0 outside\n62 2 inside 2\n",
        unedited: None,
    },
    Row {
        which: Which::Overlay,
        want: "entries 0\npair 1 1\npair 1 2\npair 2 2\nsplit 1\nwithin 2 2\n",
        unedited: None,
    },
    Row {
        which: Which::Part,
        want: "part 2 8000\n",
        unedited: None,
    },
    Row {
        which: Which::Check,
        want: "clerk 1 line 1 ok 1\ntiling 1 20000\n",
        unedited: Some("clerk 1 line 1 refused no memory\ntiling 2 20000\n"),
    },
    Row {
        which: Which::NoFaults,
        want: "clerk 1 line 1 ok 1\ntiling 1 20000\n",
        unedited: Some("clerk 1 line 1 refused no memory\ntiling 2 20000\n"),
    },
    Row {
        which: Which::Export,
        want: "clerk 1 line 1 ok 1\nexported 1\n",
        unedited: Some("clerk 1 line 1 refused no memory\nexported 2\n"),
    },
    Row {
        which: Which::Places,
        want: "clerk 1 line 1 ok 1\n0 0 edge 3\n1 1 inside 3\n1 0 edge 3\n-1 0 outside\n62 2 inside 3\n",
        unedited: Some(
            "clerk 1 line 1 refused no memory\n0 0 edge 1\n1 1 inside 1\n1 0 edge 1\n-1 0 outside\n62 2 inside 2\n",
        ),
    },
    Row {
        which: Which::Overlay,
        want: "clerk 1 line 1 ok 1\nentries 1\npair 3 1\npair 3 2\nsplit 3\n",
        unedited: Some(
            "clerk 1 line 1 refused no memory\nentries 0\npair 1 1\npair 1 2\npair 2 2\nsplit 1\nwithin 2 2\n",
        ),
    },
];

/// The files of the runs.
struct Inputs<'h> {
    heap: &'h Heap,
    square: Source<&'h Heap>,
    /// Of the two rectangles.
    two: RunFiles<Global>,
    /// Of the two rectangles, with a clerk's file that merges them.
    merged: RunFiles<Global>,
    /// Of two rectangles with a gap between them.
    gap: RunFiles<Global>,
    zones: Source<Global>,
}

// Not derived: whoever drops it makes one call, and what that does is proved once, here.
impl<'h> Drop for Inputs<'h> {
    fn drop(self) {
        let Inputs {
            heap: _,
            square: _,
            two: _,
            merged: _,
            gap: _,
            zones: _,
        } = self;
    }
}

/// What a run of these parcels in the city is given, with clerks' files of these texts.
fn files_of(
    alloc: Global,
    parcels: &[&[Place]],
    texts: &[&str],
) -> Result<RunFiles<Global>, AllocError> {
    let city = alone(layer(alloc, &[&CITY])?);
    run_files(alloc, city, alone(layer(alloc, parcels)?), texts)
}

fn inputs_in<'h>(heap: &'h Heap, alloc: Global) -> Result<Inputs<'h>, AllocError> {
    Ok(Inputs {
        heap,
        square: Source {
            main: Vec::from_slice(heap, square(alloc, HUNDRED)?.as_slice())?,
            index: None,
        },
        two: files_of(alloc, &[&WEST, &EAST], &[])?,
        merged: files_of(alloc, &[&WEST, &EAST], &["merge 1 2"])?,
        gap: files_of(alloc, &[&WEST, &BEYOND], &[])?,
        zones: alone(layer(alloc, &HALVES)?),
    })
}

/// What a run answers, which prints on this output.
fn answer<'h, R: Threads + Wait + Sync>(
    rt: &R,
    row: &Row,
    inputs: &Inputs<'h>,
    out: &mut Counted<Vec<u8>>,
) -> Result<(), ToolFault<'static>> {
    let heap = inputs.heap;
    let files = if row.unedited.is_some() {
        &inputs.merged
    } else {
        &inputs.two
    };
    match row.which {
        Which::Areas => area(heap, &inputs.square, Unit::Mm, out),
        Which::Check => check(rt, 1, heap, files, out),
        Which::AllFaults => check_all(rt, 1, heap, &inputs.gap, out),
        Which::NoFaults => check_all(rt, 1, heap, files, out),
        Which::Export => {
            let exported = export(rt, 1, heap, files)?;
            put_all(exported.lines.as_slice(), out)?;
            Ok(())
        }
        Which::Places => {
            let points = b"0 0\n1 1\n1 0\n-1 0\n62 2";
            locate_text(rt, 1, heap, files, points, out)
        }
        Which::Overlay => overlay(rt, 2, heap, files, &inputs.zones, out),
        Which::Part => {
            let written = part(rt, 1, heap, &files.city, &files.parcels, files.unit, 2)?;
            put_all(written.lines.as_slice(), out)?;
            Ok(())
        }
    }
}

/// Ends the refusing of allocations; whether one was refused.
fn was_refused(heap: &Heap) -> bool {
    let is_refused = heap.is_spent();
    heap.refuse(0);
    is_refused
}

/// Whether a run printed all that it prints with memory.
fn is_whole(row: &Row, answer: &Result<(), ToolFault<'static>>, printed: &[u8]) -> bool {
    matches!(answer, Ok(()) | Err(ToolFault::NoTiling(_, _))) && printed == row.want.as_bytes()
}

/// Whether a run may answer this where an allocation was refused: that memory ran out, with nothing
/// printed. With a clerk's file the office may lack its window, the edit alone may be refused, and
/// some allocations could be done without.
fn is_wanting(row: &Row, answer: &Result<(), ToolFault<'static>>, printed: &[u8]) -> bool {
    match row.unedited {
        None => *answer == Err(ToolFault::NoMemory) && printed.is_empty(),
        Some(unedited) => match answer {
            Ok(()) => printed == unedited.as_bytes() || printed == row.want.as_bytes(),
            Err(fault) => {
                matches!(fault, ToolFault::NoMemory | ToolFault::NoWindow(1)) && printed.is_empty()
            }
        },
    }
}

/// Whether a run with this allocation refused answers as it may, and the same run with memory then prints all; where
/// there was no such allocation, `None`, once it printed all.
fn is_told<'h, R: Threads + Wait + Sync>(
    rt: &R,
    alloc: Global,
    row: &Row,
    inputs: &Inputs<'h>,
    number: u64,
) -> Option<bool> {
    let mut out = Counted::new(Vec::new(alloc));
    inputs.heap.refuse(number);
    let told = answer(rt, row, inputs, &mut out);
    let is_refused = was_refused(inputs.heap);
    let printed = out.into_inner();
    if !is_refused {
        return if is_whole(row, &told, printed.as_slice()) {
            None
        } else {
            Some(false)
        };
    }
    let mut again = Counted::new(Vec::new(alloc));
    let whole = answer(rt, row, inputs, &mut again);
    let behind = again.into_inner();
    Some(is_wanting(row, &told, printed.as_slice()) && is_whole(row, &whole, behind.as_slice()))
}

#[test]
fn tells_each_refused_allocation(rt: HostRuntime) -> Result<(), Fail> {
    let heap = &Refusing::new(rt.alloc(), 0);
    let inputs = inputs_in(heap, rt.alloc())?;
    for row in &RUNS {
        let mut allocations = 0u64;
        for number in 1..MOST {
            match is_told(&rt, rt.alloc(), row, &inputs, number) {
                Some(is_so) => assert!(rt; is_so, "at allocation {number}"),
                None => break,
            }
            allocations = number;
        }
        assert!(rt; allocations > 1 && allocations < MOST - 1);
    }
    Ok(())
}
