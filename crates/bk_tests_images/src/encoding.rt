// Images of one operation, from their bytes.

ghost use Rattle.std.specs.Prelude.{IfOk};
ghost use Rattle.bk_code.specs.Checks.{IsChecked};

use bk_code::{Image, Inst, Memory};
use bk_image::{LoadFault, load};
use std::alloc::Global;

// Three cells, and one operation without a name, which takes cells 0 and 1 and gives cell 2. Its code starts at place 1.
const HEADER: [u8; 42] = [
    0x42, 0x4B, 0x49, 0x4D, 0, 1, 0, 0, 0, 3, 0, 0, 0, 1, // one operation
    0, 0, 0, 0, 0, 1, // its name and its place
    0, 2, 0, 0, 0, 0, 0, 0, 0, 0, 0, 0, 0, 1, // two inputs
    0, 1, 0, 0, 0, 0, 0, 2, // one output
];

fn opcode(inst: Inst) -> u8 {
    match inst {
        Inst::Push(_) => 0x01,
        Inst::Load(_) => 0x02,
        Inst::Store(_) => 0x03,
        Inst::ALoad { .. } => 0x04,
        Inst::AStore { .. } => 0x05,
        Inst::Add => 0x06,
        Inst::Sub => 0x07,
        Inst::Mul => 0x08,
        Inst::Div => 0x09,
        Inst::Mod => 0x0A,
        Inst::Neg => 0x0B,
        Inst::Eq => 0x0C,
        Inst::Lt => 0x0D,
        Inst::Le => 0x0E,
        Inst::Not => 0x0F,
        Inst::Jump(_) => 0x10,
        Inst::JumpZero(_) => 0x11,
        Inst::Ret => 0x12,
    }
}

fn add_i64(number: i64, bytes: &mut Vec<u8>) -> Result<(), Memory> {
    bytes.extend_from_slice(&number.to_be_bytes())?;
    Ok(())
}

fn add_i32(number: i32, bytes: &mut Vec<u8>) -> Result<(), Memory> {
    bytes.extend_from_slice(&number.to_be_bytes())?;
    Ok(())
}

fn add_u32(number: u32, bytes: &mut Vec<u8>) -> Result<(), Memory> {
    bytes.extend_from_slice(&number.to_be_bytes())?;
    Ok(())
}

fn add_array(base: u32, low: i64, count: u32, bytes: &mut Vec<u8>) -> Result<(), Memory> {
    add_u32(base, bytes)?;
    add_i64(low, bytes)?;
    add_u32(count, bytes)
}

fn add_operands(inst: Inst, bytes: &mut Vec<u8>) -> Result<(), Memory> {
    match inst {
        Inst::Push(number) => add_i64(number, bytes),
        Inst::Load(slot) => add_u32(slot, bytes),
        Inst::Store(slot) => add_u32(slot, bytes),
        Inst::Jump(distance) => add_i32(distance, bytes),
        Inst::JumpZero(distance) => add_i32(distance, bytes),
        Inst::ALoad { base, low, count } => add_array(base, low, count, bytes),
        Inst::AStore { base, low, count } => add_array(base, low, count, bytes),
        _ => Ok(()),
    }
}

fn add_code(code: &[Inst], bytes: &mut Vec<u8>) -> Result<(), Memory> {
    for inst in code {
        bytes.push(opcode(*inst))?;
        add_operands(*inst, bytes)?;
    }
    Ok(())
}

// The initialisation is a Ret at place 0, and the operation's code is given.
fn encoded(alloc: Global, body: &[Inst]) -> Result<Vec<u8>, Memory> {
    let mut bytes = Vec::from_slice(alloc, &HEADER)?;
    let count = u32::try_from(body.len())
        .unwrap_or(u32::MAX)
        .saturating_add(1);
    add_u32(count, &mut bytes)?;
    add_code(&[Inst::Ret], &mut bytes)?;
    add_code(body, &mut bytes)?;
    Ok(bytes)
}

#[tactic(auto, using(bk_code::proofs::DeadCode::loadable_is_checked))]
fn loaded(alloc: Global, bytes: &[u8]) -> Result<Image, LoadFault>
    ensures { IfOk result IsChecked }
{
    load(alloc, bytes)
}

/// The image with three cells whose operation, which takes cells 0 and 1 and gives cell 2, has this code.
pub(crate) fn image(alloc: Global, body: &[Inst]) -> Result<Image, LoadFault>
    ensures { IfOk result IsChecked }
{
    let bytes = encoded(alloc, body)?;
    loaded(alloc, &bytes)
}
