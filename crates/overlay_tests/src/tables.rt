//! Tables of parcels and zones, and what they tell of each parcel.

use crate::pairs::all_pairs;
use crate::reports::report_of;
use crate::zones::{HALVES, LEFT, RIGHT};
use refusing_alloc::Refusing;
use std::alloc::Allocator;
use std::test::Fail;
use test_builders::{Place, Refuses, was_refused};
use test_cities::{EAST, RINGS, SQUARE, WEST, city, layer_in, sheet_in};
use zone_tables::Table;

const BELOW: [Place; 3] = [(0, 0), (100, 0), (100, 100)];

const ABOVE: [Place; 3] = [(0, 0), (100, 100), (0, 100)];

const WIDE_BELOW: [Place; 4] = [(0, 0), (100, 0), (100, 100), (50, 51)];

const NARROW_ABOVE: [Place; 4] = [(0, 0), (50, 51), (100, 100), (0, 100)];

/// Parcels and zones of the square, and what their table tells: its pairs, the split-zoned parcels,
/// the zone that each id's parcel is within, 0 where it is within none, and the report.
struct Case {
    parcels: [&'static [Place]; 2],
    zones: [&'static [Place]; 2],
    pairs: &'static [(u64, u64)],
    split: &'static [u64],
    within: &'static [(u64, u64)],
    report: &'static str,
}

/// Halves, the parcels themselves, and zones that differ from the parcels by no whole point.
static CASES: [Case; 3] = [
    Case {
        parcels: [&WEST, &EAST],
        zones: [&LEFT, &RIGHT],
        pairs: &[(1, 1), (1, 2), (2, 2)],
        split: &[1],
        within: &[(1, 0), (2, 2), (3, 0)],
        report: "entries 0\npair 1 1\npair 1 2\npair 2 2\nsplit 1\nwithin 2 2\n",
    },
    Case {
        parcels: [&WEST, &EAST],
        zones: [&WEST, &EAST],
        pairs: &[(1, 1), (2, 2)],
        split: &[],
        within: &[(1, 1), (2, 2), (3, 0)],
        report: "entries 0\npair 1 1\npair 2 2\nwithin 1 1\nwithin 2 2\n",
    },
    Case {
        parcels: [&BELOW, &ABOVE],
        zones: [&WIDE_BELOW, &NARROW_ABOVE],
        pairs: &[(1, 1), (2, 1), (2, 2)],
        split: &[2],
        within: &[(1, 1), (2, 0), (3, 0)],
        report: "entries 0\npair 1 1\npair 2 1\npair 2 2\nsplit 2\nwithin 1 1\n",
    },
];

/// Whether the parcels with these ids are within these zones; 0 is none.
fn are_within<H: Allocator, A: Allocator>(
    table: &Table<'_, '_, H, A>,
    zones: &[(u64, u64)],
) -> bool {
    for (id, zone) in zones {
        if table.within(*id).unwrap_or(0) != *zone {
            return false;
        }
    }
    true
}

/// Whether a table of no entries tells this.
fn tells<H: Allocator, A: Allocator + Copy>(
    table: &Table<'_, '_, H, A>,
    case: &Case,
) -> Result<bool, Fail> {
    let split = table.split_zoned()?;
    Ok(
        table.entries() == 0
            && table.pairs() == case.pairs
            && split.as_slice() == case.split
            && are_within(table, case.within),
    )
}

/// Whether the table of these parcels and zones tells this, and so does its report.
fn is_told<H: Allocator>(heap: &H, case: &Case) -> Result<bool, Fail> {
    let city = city(heap, &SQUARE)?;
    let sheet = sheet_in(heap, &city, &case.parcels)?;
    let zones = layer_in(heap, &city, &case.zones)?;
    let pairs = all_pairs(heap, &sheet, &zones)?;
    let table = Table::gather(&sheet, &zones, pairs);
    let text = report_of(heap, &table)?;
    Ok(tells(&table, case)? && text.as_slice() == case.report.as_bytes())
}

#[test]
fn tells_of_each_parcel(rt: HostRuntime) -> Result<(), Fail> {
    let heap = &rt.alloc();
    for case in &CASES {
        assert!(rt; is_told(heap, case)?, "{}", case.report);
    }
    Ok(())
}

/// No list here has so many growths.
const MOST: u64 = 20;

/// The split-zoned parcels are told, or growth `number` is refused, and then they are told with
/// memory; whether it was refused.
fn is_refused<'h, H: Refuses>(
    heap: &'h H,
    table: &Table<'_, 'h, H, &'h H>,
    number: u64,
) -> Result<bool, Fail> {
    heap.refuse(number);
    let is_wanting = table.split_zoned().is_err();
    let is_refused = was_refused(heap);
    if is_wanting != is_refused || table.split_zoned()?.as_slice() != [1].as_slice() {
        return Err(Fail::new("a refusal is told, and nothing else is"));
    }
    Ok(is_refused)
}

/// The first growth that is not refused, since there are fewer.
fn first_unrefused<'h, H: Refuses>(
    heap: &'h H,
    table: &Table<'_, 'h, H, &'h H>,
) -> Result<u64, Fail> {
    for number in 1..MOST {
        if !is_refused(heap, table, number)? {
            return Ok(number);
        }
    }
    Err(Fail::new("each growth was refused"))
}

/// The same, of the table of a parcel in two zones.
fn first_unrefused_of_two<H: Refuses>(heap: &H) -> Result<u64, Fail> {
    let city = city(heap, &SQUARE)?;
    let sheet = sheet_in(heap, &city, &RINGS)?;
    let zones = layer_in(heap, &city, &HALVES)?;
    let table = Table::gather(&sheet, &zones, all_pairs(heap, &sheet, &zones)?);
    first_unrefused(heap, &table)
}

#[test]
fn refuses_each_growth(rt: HostRuntime) -> Result<(), Fail> {
    let heap = Refusing::new(rt.alloc(), 0);
    assert!(rt; first_unrefused_of_two(&heap)? > 1);
    Ok(())
}
