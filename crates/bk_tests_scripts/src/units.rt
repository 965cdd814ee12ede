// The executable part of the counter.

use crate::counter::counter;
use bk_b0::{B0Unit, Slot, b0};
use bk_gsl::{Sub, SubNode};
use std::alloc::Global;
use std::test::Fail;

// The implementation's n and its output; the machine's have the numbers 0 and 1.
const SLOTS: [Slot; 2] = [
    Slot {
        variable: 2,
        cells: 1,
    },
    Slot {
        variable: 3,
        cells: 1,
    },
];

fn counter_unit(alloc: Global) -> Result<B0Unit, Fail> {
    let dev = counter(alloc)?;
    if dev.is_complete() {
        Ok(b0(alloc, &dev)?)
    } else {
        Err(Fail::from("no implementation"))
    }
}

// It has four variables and three operations, and no constants, arrays or sets.
fn has_these_counts(unit: &B0Unit) -> bool {
    unit.values().is_empty()
        && unit.arrays().rows().is_empty()
        && unit.table().variables() == 4
        && unit.sets().is_empty()
        && unit.heads().len() == 3
        && unit.bodies().len() == 3
}

fn is_assignment(sub: &Sub) -> bool {
    matches!(&*sub.node, SubNode::Assign(_))
}

#[test]
fn a_unit_has_these_parts(rt: HostRuntime) -> Result<(), Fail> {
    let unit = counter_unit(rt.alloc())?;
    assert!(rt; unit.slots() == SLOTS.as_slice());
    assert!(rt; has_these_counts(&unit));
    assert!(rt; is_assignment(unit.init()));
    Ok(())
}
