//! Variables with their cells.

/// A variable with cells: its number, and how many cells it has. An array has one for each index, so there may be more than 64
/// bits count.
#[derive(Clone, Copy, PartialEq, Eq, Debug)]
pub struct Slot {
    pub variable: u32,
    pub cells: u128,
}
