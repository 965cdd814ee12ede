//! The instructions of the machine and the traps that stop it.

/// One instruction. A slot or a base is a cell's number from 0; a jump's distance counts from its own place.
#[derive(Clone, Copy, PartialEq, Eq, Debug)]
pub enum Inst {
    Push(i64),
    Load(u32),
    Store(u32),
    /// Reads the element of an array at a popped index, the least index being `low`.
    ALoad { base: u32, low: i64, count: u32 },
    /// Pops a value and then an index, and writes the value to the array's element.
    AStore { base: u32, low: i64, count: u32 },
    Add,
    Sub,
    Mul,
    Div,
    Mod,
    Neg,
    Eq,
    Lt,
    Le,
    Not,
    Jump(i32),
    JumpZero(i32),
    Ret,
}

/// Why an instruction stops the call.
#[derive(Clone, Copy, PartialEq, Eq, Debug)]
pub enum Trap {
    Overflow,
    DivZero,
    ModRange,
    Index,
}
