//! Each allocation of an overlay with areas refused in turn: its answer is that memory ran out, nothing was printed,
//! and the same run with memory prints what it has to print.

use crate::edit_runs::run_files;
use area_runs::overlay_areas;
use city_layers::{Source, ToolFault};
use geo_exact::Counted;
use parcel_runs::RunFiles;
use refusing_alloc::Refusing;
use std::alloc::{AllocError, Global};
use std::sync::Wait;
use std::test::Fail;
use std::thread::Threads;
use test_layers::{CITY, EAST, Place, WEST, alone, layer};

/// No run here makes so many allocations.
const MOST: u64 = 1000;

/// The heap of the runs here.
type Heap = Refusing<Global>;

/// Three strips of the city: the western rectangle has some of each, and the eastern one lies in the last.
const STRIPS: [&[Place]; 3] = [
    &[(0, 0), (20, 0), (20, 100), (0, 100)],
    &[(20, 0), (50, 0), (50, 100), (20, 100)],
    &[(50, 0), (100, 0), (100, 100), (50, 100)],
];

/// What is printed for the two rectangles and the strips.
const PRINTED: &str = "entries 0\npair 1 1\npair 1 2\npair 1 3\npair 2 3\nsplit 1\nwithin 2 3\n\
     area 1 1 4000\narea 1 2 6000\narea 1 3 2000\narea 2 3 8000\n";

/// The files of the runs.
struct Inputs<'h> {
    heap: &'h Heap,
    files: RunFiles<Global>,
    zones: Source<Global>,
}

// Not derived: whoever drops it makes one call, and what that does is proved once, here.
impl<'h> Drop for Inputs<'h> {
    fn drop(self) {
        let Inputs {
            heap: _,
            files: _,
            zones: _,
        } = self;
    }
}

fn inputs_in<'h>(heap: &'h Heap, alloc: Global) -> Result<Inputs<'h>, AllocError> {
    let city = alone(layer(alloc, &[&CITY])?);
    let parcels = alone(layer(alloc, &[&WEST, &EAST])?);
    Ok(Inputs {
        heap,
        files: run_files(alloc, city, parcels, &[])?,
        zones: alone(layer(alloc, &STRIPS)?),
    })
}

/// What the run answers by one worker or by two, which prints on this output.
fn answer<'h, R: Threads + Wait + Sync>(
    rt: &R,
    is_shared: bool,
    inputs: &Inputs<'h>,
    out: &mut Counted<Vec<u8>>,
) -> Result<(), ToolFault<'static>> {
    let workers = if is_shared { 2 } else { 1 };
    overlay_areas(rt, workers, inputs.heap, &inputs.files, &inputs.zones, out)
}

/// Whether the run printed all.
fn is_whole(answer: &Result<(), ToolFault<'static>>, printed: &[u8]) -> bool {
    *answer == Ok(()) && printed == PRINTED.as_bytes()
}

/// Whether the run with this allocation refused answers that memory ran out, with nothing printed, and the same run
/// with memory then prints all; where there was no such allocation, `None`, once it printed all.
fn is_told<'h, R: Threads + Wait + Sync>(
    rt: &R,
    alloc: Global,
    is_shared: bool,
    inputs: &Inputs<'h>,
    number: u64,
) -> Option<bool> {
    let mut out = Counted::new(Vec::new(alloc));
    inputs.heap.refuse(number);
    let told = answer(rt, is_shared, inputs, &mut out);
    let is_refused = inputs.heap.is_spent();
    inputs.heap.refuse(0);
    let printed = out.into_inner();
    if !is_refused {
        return if is_whole(&told, printed.as_slice()) {
            None
        } else {
            Some(false)
        };
    }
    let mut again = Counted::new(Vec::new(alloc));
    let whole = answer(rt, is_shared, inputs, &mut again);
    let behind = again.into_inner();
    Some(
        told == Err(ToolFault::NoMemory)
            && printed.is_empty()
            && is_whole(&whole, behind.as_slice()),
    )
}

#[test]
fn tells_each_refused_allocation_of_areas(rt: HostRuntime) -> Result<(), Fail> {
    let heap = &Refusing::new(rt.alloc(), 0);
    let inputs = inputs_in(heap, rt.alloc())?;
    for is_shared in [false, true] {
        let mut allocations = 0u64;
        for number in 1..MOST {
            match is_told(&rt, rt.alloc(), is_shared, &inputs, number) {
                Some(is_so) => assert!(rt; is_so, "at allocation {number}"),
                None => break,
            }
            allocations = number;
        }
        assert!(rt; allocations > 1 && allocations < MOST - 1);
    }
    Ok(())
}
