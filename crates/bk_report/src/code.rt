//! The listing of code: its instructions with their places.

ghost use Rattle.std.specs.Prelude.{◌≡◌, ◌++◌, IfOk, OnOk};
ghost use Rattle.bk_report.specs.Listing as texts;

use crate::numbers::{write_count, write_number};
use bk_code::{Image, Inst};
use std::alloc::{AllocError, Global};

/// The listing of an image: its code, with a heading before that of the initialisation and of each operation.
pub fn listing(alloc: Global, image: &Image) -> Result<Vec<u8>, AllocError>
    ensures { IfOk result (λ text. text.items ≡ texts.listing image.now) }
{
    let code = image.code.as_slice();
    let mut text = Vec::new(alloc);
    let mut from = 0;
    write_heading(&mut text, b"INITIALISATION")?;
    for op in image.ops.as_slice() {
        let start = op.start as usize;
        write_lines(&mut text, code, from, start)?;
        write_heading(&mut text, op.name.as_slice())?;
        from = start;
    }
    write_lines(&mut text, code, from, code.len())?;
    Ok(text)
}

fn write_heading(text: &mut Vec<u8>, name: &[u8]) -> Result<(), AllocError>
    ensures { OnOk result (text.new.items ≡ text.old.items ++ texts.heading name.now) }
{
    text.extend_from_slice(name)?;
    text.extend_from_slice(b":\n")?;
    Ok(())
}

// The lines of the instructions from one place on, up to another.
fn write_lines(text: &mut Vec<u8>, code: &[Inst], from: usize, to: usize) -> Result<(), AllocError>
    ensures { OnOk result (text.new.items ≡ text.old.items ++ texts.lines_between code.now from to) }
{
    for place in from..to.min(code.len()) {
        write_line(text, place, code[place])?;
    }
    Ok(())
}

fn write_line(text: &mut Vec<u8>, place: usize, inst: Inst) -> Result<(), AllocError>
    ensures { OnOk result (text.new.items ≡ text.old.items ++ texts.instruction_line place inst) }
{
    write_count(text, b"", place)?;
    text.extend_from_slice(b" ")?;
    write_instruction(text, inst)?;
    text.extend_from_slice(b"\n")?;
    Ok(())
}

// The instruction's name, and its operands with a space before each.
fn write_instruction(text: &mut Vec<u8>, inst: Inst) -> Result<(), AllocError>
    ensures { OnOk result (text.new.items ≡ text.old.items ++ texts.instruction_text inst) }
{
    match inst {
        Inst::Push(n) => write_number(text, b"Push ", n),
        Inst::Load(slot) => write_count(text, b"Load ", slot as usize),
        Inst::Store(slot) => write_count(text, b"Store ", slot as usize),
        Inst::ALoad { base, low, count } => write_array(text, b"ALoad ", base, low, count),
        Inst::AStore { base, low, count } => write_array(text, b"AStore ", base, low, count),
        Inst::Add => text.extend_from_slice(b"Add"),
        Inst::Sub => text.extend_from_slice(b"Sub"),
        Inst::Mul => text.extend_from_slice(b"Mul"),
        Inst::Div => text.extend_from_slice(b"Div"),
        Inst::Mod => text.extend_from_slice(b"Mod"),
        Inst::Neg => text.extend_from_slice(b"Neg"),
        Inst::Eq => text.extend_from_slice(b"Eq"),
        Inst::Lt => text.extend_from_slice(b"Lt"),
        Inst::Le => text.extend_from_slice(b"Le"),
        Inst::Not => text.extend_from_slice(b"Not"),
        Inst::Jump(distance) => write_number(text, b"Jump ", i64::from(distance)),
        Inst::JumpZero(distance) => write_number(text, b"JumpZero ", i64::from(distance)),
        Inst::Ret => text.extend_from_slice(b"Ret"),
    }
}

// The operands of an instruction on an array.
fn write_array(
    text: &mut Vec<u8>,
    name: &[u8],
    base: u32,
    low: i64,
    count: u32,
) -> Result<(), AllocError>
    ensures { OnOk result (text.new.items ≡ text.old.items ++ (name.now ++ texts.array_text base low count)) }
{
    write_count(text, name, base as usize)?;
    write_number(text, b" ", low)?;
    write_count(text, b" ", count as usize)
}
