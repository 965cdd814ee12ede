use bk_code::{CellKind, Inst, OpEntry, Parameter};
use bk_image::{LoadFault, Memory, load, write};
use std::alloc::Global;
use std::process::Abort;
use std::test::Fail;

// The image of the machine Counter: three operations, and 12 instructions from byte 68 on.
const COUNTER: [u8; 124] = [
    0x42, 0x4B, 0x49, 0x4D, 0, 1, 0, 0, 0, 2, 0, 0, 0, 3, // the header
    0, 5, 0x72, 0x65, 0x73, 0x65, 0x74, 0, 0, 0, 3, 0, 0, 0, 0, // reset
    0, 6, 0x73, 0x65, 0x74, 0x6D, 0x61, 0x78, 0, 0, 0, 6, 0, 0, 0, 0, // setmax
    0, 3, 0x67, 0x65, 0x74, 0, 0, 0, 9, 0, 0, 0, 1, 0, 0, 0, 0, 0, 1, // get
    0, 0, 0, 0x0C, // the number of instructions
    1, 0, 0, 0, 0, 0, 0, 0, 0, 3, 0, 0, 0, 0, 0x12, // INITIALISATION
    1, 0, 0, 0, 0, 0, 0, 0, 0, 3, 0, 0, 0, 0, 0x12, // reset
    1, 0, 0, 0, 0, 0, 0, 0, 0x0A, 3, 0, 0, 0, 0, 0x12, // setmax
    2, 0, 0, 0, 0, 3, 0, 0, 0, 1, 0x12, // get
];

// Code after this stands at byte 18. There are two cells, no set and no operation.
const HEADER: [u8; 14] = [0x42, 0x4B, 0x49, 0x4D, 0, 1, 0, 0, 0, 2, 0, 0, 0, 0];

const PUSH: [u8; 9] = [1, 0, 0, 0, 0, 0, 0, 0, 0];

const RET: u8 = 0x12;

fn fault(alloc: Global, bytes: &[u8]) -> Option<LoadFault> {
    load(alloc, bytes).err()
}

// The counter's image with another byte at a place.
fn changed(alloc: Global, place: usize, byte: u8) -> Result<Vec<u8>, Memory> {
    let mut bytes = Vec::from_slice(alloc, &COUNTER)?;
    if let Some(old) = bytes.get_mut(place) {
        *old = byte;
    }
    Ok(bytes)
}

// The image of so many instructions, which are these bytes.
fn image_of(alloc: Global, count: u32, code: &[u8]) -> Result<Vec<u8>, Memory> {
    let mut bytes = Vec::from_slice(alloc, &HEADER)?;
    bytes.extend_from_slice(&count.to_be_bytes())?;
    bytes.extend_from_slice(code)?;
    Ok(bytes)
}

fn fault_of_code(alloc: Global, count: u32, code: &[u8]) -> Result<Option<LoadFault>, Memory> {
    let bytes = image_of(alloc, count, code)?;
    Ok(fault(alloc, &bytes))
}

const GOT: [Parameter; 1] = [Parameter {
    kind: CellKind::Integer,
    slot: 1,
}];

// Whether these are the operations reset, setmax and get.
fn are_operations(ops: &[OpEntry]) -> bool {
    match ops {
        [_, setmax, get] => {
            setmax.name.as_slice() == b"setmax".as_slice()
                && setmax.start == 6
                && get.outputs.as_slice() == GOT.as_slice()
        }
        _ => false,
    }
}

fn is_code(code: &[Inst]) -> bool {
    code.len() == 12 && code[6] == Inst::Push(10) && code[10] == Inst::Store(1)
}

#[test]
fn the_counter_is_loaded(rt: HostRuntime) -> Result<(), Fail> {
    let image = load(rt.alloc(), &COUNTER)?;
    assert!(rt; image.cells == 2 && image.sets.as_slice().is_empty());
    assert!(rt; are_operations(image.ops.as_slice()));
    assert!(rt; is_code(image.code.as_slice()));
    Ok(())
}

#[test]
fn the_counter_is_written_as_it_was(rt: HostRuntime) -> Result<(), Fail> {
    let image = load(rt.alloc(), &COUNTER)?;
    let bytes = write(rt.alloc(), &image)?;
    assert!(rt; bytes.as_slice() == COUNTER.as_slice());
    Ok(())
}

#[test]
fn each_prefix_is_short_at_its_end(rt: HostRuntime) {
    for end in 0..COUNTER.len() {
        assert_eq!(rt;
            fault(rt.alloc(), &COUNTER[..end]),
            Some(LoadFault::Short(end))
        );
    }
}

#[test]
fn a_byte_more_is_left_over(rt: HostRuntime) -> Result<(), Fail> {
    let mut bytes = Vec::from_slice(rt.alloc(), &COUNTER)?;
    bytes.push(0)?;
    assert_eq!(rt; fault(rt.alloc(), &bytes), Some(LoadFault::Extra(124)));
    Ok(())
}

#[test]
fn too_many_cells(rt: HostRuntime) -> Result<(), Fail> {
    let mut bytes = Vec::from_slice(rt.alloc(), &COUNTER[..6])?;
    bytes.extend_from_slice(&[0xFF, 0xFF, 0xFF, 0xFF])?;
    bytes.extend_from_slice(&COUNTER[10..])?;
    assert_eq!(rt; fault(rt.alloc(), &bytes), Some(LoadFault::BadSlot(6)));
    Ok(())
}

// So many sets without elements, no operation, and the bytes that begin with the number of instructions.
fn fault_of_empty_sets(
    alloc: Global,
    count: u16,
    code: &[u8],
) -> Result<Option<LoadFault>, Memory> {
    let mut bytes = Vec::from_slice(alloc, &HEADER[..10])?;
    bytes.extend_from_slice(&count.to_be_bytes())?;
    for _ in 0..count {
        bytes.extend_from_slice(&[0, 0])?;
    }
    bytes.extend_from_slice(&[0, 0])?;
    bytes.extend_from_slice(code)?;
    Ok(fault(alloc, &bytes))
}

// A number of sets, the bytes after them, and the fault.
type SetsRow = (u16, &'static [u8], Option<LoadFault>);

fn compare_sets(rt: &impl Abort, alloc: Global, rows: &[SetsRow]) -> Result<(), Fail> {
    for (count, code, fault) in rows {
        assert_eq!(rt;
            fault_of_empty_sets(alloc, *count, code)?,
            *fault,
            "{count}"
        );
    }
    Ok(())
}

const SETS: [SetsRow; 2] = [
    (65534, &[0, 0, 0, 1, RET], None),
    (65535, &[0, 0, 0, 1, RET], Some(LoadFault::BadSlot(10))),
];

#[test]
fn too_many_sets(rt: HostRuntime) -> Result<(), Fail> {
    compare_sets(&rt, rt.alloc(), &SETS)
}

const SETS_AND_OTHER_FAULTS: [SetsRow; 3] = [
    (65535, &[0, 0, 0, 0], Some(LoadFault::BadSlot(10))),
    (65535, &[0, 0, 0, 1, 0], Some(LoadFault::BadInst(131088))),
    (65535, &[0, 0, 0, 1, RET, 0], Some(LoadFault::Extra(131089))),
];

#[test]
fn too_many_sets_among_other_faults(rt: HostRuntime) -> Result<(), Fail> {
    compare_sets(&rt, rt.alloc(), &SETS_AND_OTHER_FAULTS)
}

// A place of the counter's image, another byte there, and the fault.
const CHANGED: [(usize, u8, LoadFault); 12] = [
    (0, 0, LoadFault::Magic),
    (5, 9, LoadFault::Version(9)),
    (24, 0x0C, LoadFault::BadSlot(21)),
    (59, 2, LoadFault::BadSlot(58)),
    (63, 2, LoadFault::BadSlot(60)),
    (67, 0, LoadFault::Extra(68)),
    (69, 0x80, LoadFault::BadSlot(69)),
    (82, 0, LoadFault::BadInst(82)),
    (82, 0x13, LoadFault::BadInst(82)),
    (82, 0x0F, LoadFault::Stack(82)),
    (117, 2, LoadFault::BadSlot(114)),
    (123, 0x0F, LoadFault::BadJump(123)),
];

fn compare_changed(
    rt: &impl Abort,
    alloc: Global,
    rows: &[(usize, u8, LoadFault)],
) -> Result<(), Fail> {
    for (place, byte, expected) in rows {
        let bytes = changed(alloc, *place, *byte)?;
        assert_eq!(rt; fault(alloc, &bytes), Some(*expected), "{place}");
    }
    Ok(())
}

#[test]
fn one_changed_byte(rt: HostRuntime) -> Result<(), Fail> {
    compare_changed(&rt, rt.alloc(), &CHANGED)
}

// A number of instructions, their bytes, and the fault.
type CodeRow = (u32, &'static [u8], Option<LoadFault>);

fn compare_code(rt: &impl Abort, alloc: Global, rows: &[CodeRow]) -> Result<(), Fail> {
    for (count, code, fault) in rows {
        assert_eq!(rt; fault_of_code(alloc, *count, code)?, *fault, "{code:?}");
    }
    Ok(())
}

const NO_INSTRUCTIONS: [CodeRow; 1] = [(0, &[], Some(LoadFault::BadJump(14)))];

#[test]
fn no_instructions(rt: HostRuntime) -> Result<(), Fail> {
    compare_code(&rt, rt.alloc(), &NO_INSTRUCTIONS)
}

// Past the end, and before the beginning.
const JUMPS_TO_NO_PLACE: [CodeRow; 2] = [
    (2, &[0x10, 0, 0, 0, 2, RET], Some(LoadFault::BadJump(18))),
    (
        2,
        &[0x10, 0xFF, 0xFF, 0xFF, 0xFF, RET],
        Some(LoadFault::BadJump(18)),
    ),
];

#[test]
fn jumps_to_no_place(rt: HostRuntime) -> Result<(), Fail> {
    compare_code(&rt, rt.alloc(), &JUMPS_TO_NO_PLACE)
}

// The index of an array on the stack, a read of the array, and a Store, with Ret at the end.
fn array_fault(
    alloc: Global,
    base: u32,
    low: i64,
    count: u32,
) -> Result<Option<LoadFault>, Memory> {
    let mut code = Vec::from_slice(alloc, &PUSH)?;
    code.push(4)?;
    code.extend_from_slice(&base.to_be_bytes())?;
    code.extend_from_slice(&low.to_be_bytes())?;
    code.extend_from_slice(&count.to_be_bytes())?;
    code.extend_from_slice(&[3, 0, 0, 0, 0, RET])?;
    fault_of_code(alloc, 4, &code)
}

// The first cell of an array, its first index, how many elements it has, and the fault.
type ArrayRow = (u32, i64, u32, Option<LoadFault>);

const ARRAYS: [ArrayRow; 8] = [
    (0, 0, 2, None),
    (1, 0, 2, Some(LoadFault::BadSlot(28))),
    (2, 0, 0, Some(LoadFault::BadSlot(40))),
    (3, 0, 0, Some(LoadFault::BadSlot(28))),
    (0, 2147483646, 2, None),
    (0, 2147483647, 2, Some(LoadFault::BadSlot(32))),
    (0, -2147483648, 2, Some(LoadFault::BadSlot(32))),
    (0, -2147483648, 0, Some(LoadFault::BadSlot(40))),
];

fn compare_arrays(rt: &impl Abort, alloc: Global, rows: &[ArrayRow]) -> Result<(), Fail> {
    for (base, low, count, fault) in rows {
        assert_eq!(rt;
            array_fault(alloc, *base, *low, *count)?,
            *fault,
            "{base}, {low}, {count}"
        );
    }
    Ok(())
}

#[test]
fn arrays(rt: HostRuntime) -> Result<(), Fail> {
    compare_arrays(&rt, rt.alloc(), &ARRAYS)
}

const DEPTHS: [CodeRow; 2] = [
    // Nothing reaches the Store after the Ret.
    (3, &[RET, 3, 0, 0, 0, 0, RET], Some(LoadFault::Stack(19))),
    // The place reaches itself alone.
    (2, &[RET, 0x10, 0, 0, 0, 0], None),
];

#[test]
fn depths_of_places(rt: HostRuntime) -> Result<(), Fail> {
    compare_code(&rt, rt.alloc(), &DEPTHS)
}

// A Jump to a Store at the place 3, and after this a Jump back to the place 1, where a first instruction stands before a
// Ret.
const BELOW_ZERO: [CodeRow; 3] = [
    // The Push stands at a depth of -1 and pops nothing; the Store pops below 0.
    (
        5,
        &[
            0x10, 0, 0, 0, 3, // the Jump
            1, 0, 0, 0, 0, 0, 0, 0, 0, // the Push
            RET, 3, 0, 0, 0, 0, 0x10, 0xFF, 0xFF, 0xFF, 0xFD,
        ],
        Some(LoadFault::Stack(33)),
    ),
    // The first Ret stands at a depth of -1, which isn't 0.
    (
        5,
        &[
            0x10, 0, 0, 0, 3, // the Jump
            RET, RET, 3, 0, 0, 0, 0, 0x10, 0xFF, 0xFF, 0xFF, 0xFD,
        ],
        Some(LoadFault::Stack(23)),
    ),
    // The Not pops at a depth of -1.
    (
        5,
        &[
            0x10, 0, 0, 0, 3, // the Jump
            0x0F, RET, 3, 0, 0, 0, 0, 0x10, 0xFF, 0xFF, 0xFF, 0xFD,
        ],
        Some(LoadFault::Stack(23)),
    ),
];

#[test]
fn only_a_pop_falls_below_zero(rt: HostRuntime) -> Result<(), Fail> {
    compare_code(&rt, rt.alloc(), &BELOW_ZERO)
}

// A Push and a Jump back to it, alone and after a Ret.
const TWO_DEPTHS: [CodeRow; 2] = [
    (
        2,
        &[1, 0, 0, 0, 0, 0, 0, 0, 0, 0x10, 0xFF, 0xFF, 0xFF, 0xFF],
        Some(LoadFault::Stack(18)),
    ),
    (
        3,
        &[RET, 1, 0, 0, 0, 0, 0, 0, 0, 0, 0x10, 0xFF, 0xFF, 0xFF, 0xFF],
        Some(LoadFault::Stack(19)),
    ),
];

#[test]
fn two_depths(rt: HostRuntime) -> Result<(), Fail> {
    compare_code(&rt, rt.alloc(), &TWO_DEPTHS)
}

// So many Pushes and a Ret.
fn pushes(alloc: Global, count: u32) -> Result<Option<LoadFault>, Memory> {
    let mut code = Vec::new(alloc);
    for _ in 0..count {
        code.extend_from_slice(&PUSH)?;
    }
    code.push(RET)?;
    fault_of_code(alloc, count.saturating_add(1), &code)
}

// So many Pushes, and the fault.
const PUSHES: [(u32, Option<LoadFault>); 4] = [
    (0, None),
    (1, Some(LoadFault::Stack(27))),
    (1001, Some(LoadFault::Stack(9027))),
    (1002, Some(LoadFault::Stack(9027))),
];

fn compare_pushes(
    rt: &impl Abort,
    alloc: Global,
    rows: &[(u32, Option<LoadFault>)],
) -> Result<(), Fail> {
    for (count, fault) in rows {
        assert_eq!(rt; pushes(alloc, *count)?, *fault, "{count}");
    }
    Ok(())
}

#[test]
fn depth_of_a_thousand(rt: HostRuntime) -> Result<(), Fail> {
    compare_pushes(&rt, rt.alloc(), &PUSHES)
}

// From the first place to the last, and from each back to the one before it, down to a Ret.
fn jumps_back(alloc: Global, count: u32) -> Result<Option<LoadFault>, Memory> {
    let mut code = Vec::from_slice(alloc, &[0x10])?;
    code.extend_from_slice(&count.saturating_add(1).to_be_bytes())?;
    code.push(RET)?;
    for _ in 0..count {
        code.extend_from_slice(&[0x10, 0xFF, 0xFF, 0xFF, 0xFF])?;
    }
    fault_of_code(alloc, count.saturating_add(2), &code)
}

#[test]
fn a_million_jumps_back(rt: HostRuntime) -> Result<(), Fail> {
    assert_eq!(rt; jumps_back(rt.alloc(), 1000000)?, None);
    Ok(())
}

// A fault and its text.
const SHOWN: [(LoadFault, &str); 2] = [
    (LoadFault::Version(9), "Version at 4"),
    (LoadFault::Short(17), "Short at 17"),
];

fn compare_shown(rt: &impl Abort, alloc: Global, rows: &[(LoadFault, &str)]) -> Result<(), Fail> {
    for (fault, text) in rows {
        assert!(rt;
            std::format!(in alloc; "{fault}")?.as_str() == *text,
            "{text}"
        );
    }
    Ok(())
}

#[test]
fn faults_are_shown(rt: HostRuntime) -> Result<(), Fail> {
    compare_shown(&rt, rt.alloc(), &SHOWN)
}
