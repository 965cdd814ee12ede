// Images whose bytes say the range.
//
// MAXINT stands at byte 6, the number of cells at 14, that of the sets at 18, the first set at 20.

use bk_code::Memory;
use bk_image::{LoadFault, load, write};
use std::alloc::Global;
use std::process::Abort;
use std::test::Fail;

const START: [u8; 6] = [0x42, 0x4B, 0x49, 0x4D, 0, 2];

const RET: u8 = 0x12;

// An image with this MAXINT, and the bytes that stand behind it.
fn image_of(alloc: Global, max: i64, behind: &[u8]) -> Result<Vec<u8>, Memory> {
    let mut bytes = Vec::from_slice(alloc, &START)?;
    bytes.extend_from_slice(&max.to_be_bytes())?;
    bytes.extend_from_slice(behind)?;
    Ok(bytes)
}

fn fault_of(alloc: Global, max: i64, behind: &[u8]) -> Result<Option<LoadFault>, Memory> {
    let bytes = image_of(alloc, max, behind)?;
    Ok(load(alloc, &bytes).err())
}

// One cell, no set, no operation, and a Ret.
const PLAIN: [u8; 13] = [0, 0, 0, 1, 0, 0, 0, 0, 0, 0, 0, 1, RET];

const RANGES: [i64; 6] = [1, 2, 127, 2147483646, 2147483648, 4611686018427387903];

fn compare_written(rt: &impl Abort, alloc: Global, ranges: &[i64]) -> Result<(), Fail> {
    for max in ranges {
        let bytes = image_of(alloc, *max, &PLAIN)?;
        let image = load(alloc, &bytes)?;
        assert_eq!(rt; image.int_max(), *max);
        let written = write(alloc, &image)?;
        assert!(rt; written.as_slice() == bytes.as_slice(), "{max}");
    }
    Ok(())
}

#[test]
fn ranges_are_loaded_and_written(rt: HostRuntime) -> Result<(), Fail> {
    compare_written(&rt, rt.alloc(), &RANGES)
}

// The range of the first version is among them.
const NO_RANGES: [i64; 6] = [
    0,
    -1,
    2147483647,
    4611686018427387904,
    9223372036854775807,
    -9223372036854775808,
];

fn compare_refused(rt: &impl Abort, alloc: Global, numbers: &[i64]) -> Result<(), Fail> {
    for number in numbers {
        assert_eq!(rt;
            fault_of(alloc, *number, &PLAIN)?,
            Some(LoadFault::BadSlot(6)),
            "{number}"
        );
    }
    Ok(())
}

#[test]
fn other_numbers_are_no_ranges(rt: HostRuntime) -> Result<(), Fail> {
    compare_refused(&rt, rt.alloc(), &NO_RANGES)
}

// MAXINT, the bytes behind it, and the fault.
type Row = (i64, &'static [u8], Option<LoadFault>);

fn compare(rt: &impl Abort, alloc: Global, rows: &[Row]) -> Result<(), Fail> {
    for (max, behind, fault) in rows {
        assert_eq!(rt; fault_of(alloc, *max, behind)?, *fault, "{max}, {behind:?}");
    }
    Ok(())
}

const PLACES: [Row; 6] = [
    // too many cells
    (
        1,
        &[0xFF, 0xFF, 0xFF, 0xFF, 0, 0, 0, 0, 0, 0, 0, 1, RET],
        Some(LoadFault::BadSlot(14)),
    ),
    // MAXINT stands before them
    (
        0,
        &[0xFF, 0xFF, 0xFF, 0xFF, 0, 0, 0, 0, 0, 0, 0, 1, RET],
        Some(LoadFault::BadSlot(6)),
    ),
    // no instruction
    (
        1,
        &[0, 0, 0, 1, 0, 0, 0, 0, 0, 0, 0, 0],
        Some(LoadFault::BadJump(22)),
    ),
    // the layout is looked at first
    (
        0,
        &[0, 0, 0, 1, 0, 0, 0, 0, 0, 0, 0, 1, 0],
        Some(LoadFault::BadInst(26)),
    ),
    (
        0,
        &[0, 0, 0, 1, 0, 0, 0, 0, 0, 0, 0, 1, RET, 0],
        Some(LoadFault::Extra(27)),
    ),
    (
        0,
        &[0, 0, 0, 1, 0, 0, 0, 0, 0, 0, 0, 1],
        Some(LoadFault::Short(26)),
    ),
];

#[test]
fn places(rt: HostRuntime) -> Result<(), Fail> {
    compare(&rt, rt.alloc(), &PLACES)
}

const WHOLE: [u8; 27] = [
    0x42, 0x4B, 0x49, 0x4D, 0, 2, 0, 0, 0, 0, 0, 0, 0, 127, // up to MAXINT
    0, 0, 0, 1, 0, 0, 0, 0, 0, 0, 0, 1, RET,
];

#[test]
fn each_prefix_is_short_at_its_end(rt: HostRuntime) {
    for end in 0..WHOLE.len() {
        assert_eq!(rt;
            load(rt.alloc(), &WHOLE[..end]).err(),
            Some(LoadFault::Short(end))
        );
    }
}

// No cell and one or two sets, whose elements have the names a to d.
const ELEMENTS: [Row; 5] = [
    (
        1,
        &[
            0, 0, 0, 0, 0, 1, 0, 2, 0, 1, 0x61, 0, 1, 0x62, 0, 0, 0, 0, 0, 1, RET,
        ],
        None,
    ),
    (
        1,
        &[
            0, 0, 0, 0, 0, 1, 0, 3, 0, 1, 0x61, 0, 1, 0x62, 0, 1, 0x63, 0, 0, 0, 0, 0, 1, RET,
        ],
        Some(LoadFault::BadSlot(20)),
    ),
    (
        2,
        &[
            0, 0, 0, 0, 0, 1, 0, 3, 0, 1, 0x61, 0, 1, 0x62, 0, 1, 0x63, 0, 0, 0, 0, 0, 1, RET,
        ],
        None,
    ),
    // the second set, behind one of one element
    (
        1,
        &[
            0, 0, 0, 0, 0, 2, 0, 1, 0, 1, 0x61, 0, 3, 0, 1, 0x62, 0, 1, 0x63, 0, 1, 0x64, 0, 0, 0,
            0, 0, 1, RET,
        ],
        Some(LoadFault::BadSlot(25)),
    ),
    // a set stands before the number of instructions
    (
        1,
        &[
            0, 0, 0, 0, 0, 1, 0, 3, 0, 1, 0x61, 0, 1, 0x62, 0, 1, 0x63, 0, 0, 0, 0, 0, 0,
        ],
        Some(LoadFault::BadSlot(20)),
    ),
];

#[test]
fn elements_of_sets(rt: HostRuntime) -> Result<(), Fail> {
    compare(&rt, rt.alloc(), &ELEMENTS)
}

// A Push of the number, and a Store, with this MAXINT.
fn push_fault(alloc: Global, max: i64, number: i64) -> Result<Option<LoadFault>, Memory> {
    let mut behind = Vec::from_slice(alloc, &[0, 0, 0, 1, 0, 0, 0, 0, 0, 0, 0, 3, 1])?;
    behind.extend_from_slice(&number.to_be_bytes())?;
    behind.extend_from_slice(&[3, 0, 0, 0, 0, RET])?;
    fault_of(alloc, max, &behind)
}

// MAXINT, a number, and whether it lies in the range.
const PUSHES: [(i64, i64, bool); 12] = [
    (1, 1, true),
    (1, -1, true),
    (1, 2, false),
    (1, -2, false),
    (127, -127, true),
    (127, -128, false),
    (2147483648, 2147483648, true),
    (2147483648, -2147483649, false),
    (4611686018427387903, 4611686018427387903, true),
    (4611686018427387903, -4611686018427387903, true),
    (4611686018427387903, 4611686018427387904, false),
    (4611686018427387903, -9223372036854775808, false),
];

fn compare_pushes(rt: &impl Abort, alloc: Global, rows: &[(i64, i64, bool)]) -> Result<(), Fail> {
    for (max, number, inside) in rows {
        let fault = if *inside {
            None
        } else {
            Some(LoadFault::BadSlot(27))
        };
        assert_eq!(rt; push_fault(alloc, *max, *number)?, fault, "{max}, {number}");
    }
    Ok(())
}

#[test]
fn pushed_numbers(rt: HostRuntime) -> Result<(), Fail> {
    compare_pushes(&rt, rt.alloc(), &PUSHES)
}

// The index of an array on the stack, a read of the array, and a Store, with this MAXINT.
fn array_fault(alloc: Global, max: i64, low: i64, count: u32) -> Result<Option<LoadFault>, Memory> {
    let mut behind = Vec::from_slice(alloc, &[0, 0, 0, 3, 0, 0, 0, 0, 0, 0, 0, 4])?;
    behind.extend_from_slice(&[1, 0, 0, 0, 0, 0, 0, 0, 0, 4, 0, 0, 0, 0])?;
    behind.extend_from_slice(&low.to_be_bytes())?;
    behind.extend_from_slice(&count.to_be_bytes())?;
    behind.extend_from_slice(&[3, 0, 0, 0, 0, RET])?;
    fault_of(alloc, max, &behind)
}

// MAXINT, the first index of an array, how many elements it has, and the fault.
type ArrayRow = (i64, i64, u32, Option<LoadFault>);

const ARRAYS: [ArrayRow; 6] = [
    (1, -1, 3, None),
    (1, 0, 3, Some(LoadFault::BadSlot(40))),
    (1, -2, 3, Some(LoadFault::BadSlot(40))),
    (2147483648, 2147483646, 3, None),
    (2147483648, 2147483647, 3, Some(LoadFault::BadSlot(40))),
    (
        4611686018427387903,
        4611686018427387902,
        3,
        Some(LoadFault::BadSlot(40)),
    ),
];

fn compare_arrays(rt: &impl Abort, alloc: Global, rows: &[ArrayRow]) -> Result<(), Fail> {
    for (max, low, count, fault) in rows {
        assert_eq!(rt;
            array_fault(alloc, *max, *low, *count)?,
            *fault,
            "{max}, {low}, {count}"
        );
    }
    Ok(())
}

#[test]
fn indices_of_arrays(rt: HostRuntime) -> Result<(), Fail> {
    compare_arrays(&rt, rt.alloc(), &ARRAYS)
}

// An image of this version, with MAXINT as in the second.
fn with_version(alloc: Global, version: u8) -> Result<Option<LoadFault>, Memory> {
    let mut bytes = Vec::from_slice(alloc, &WHOLE)?;
    if let Some(old) = bytes.get_mut(5) {
        *old = version;
    }
    Ok(load(alloc, &bytes).err())
}

#[test]
fn other_versions(rt: HostRuntime) -> Result<(), Fail> {
    assert_eq!(rt; with_version(rt.alloc(), 0)?, Some(LoadFault::Version(0)));
    assert_eq!(rt; with_version(rt.alloc(), 3)?, Some(LoadFault::Version(3)));
    Ok(())
}
