//! The layout of an image, read from left to right.
//!
//! Each function answers what it read and the bytes after it. `len` is the length of the whole file, where a file that
//! ends too early is at fault.
ghost use Rattle.std.specs.Prelude.{◌≡◌, ◌<◌, ◌^◌, length, Some, None};
ghost use Rattle.std.specs.Int.{w16, w32, w64};
ghost use Rattle.bk_image.specs.Reading.{Gives, number_at, signed_at, text_at, set_at, counted_at, kind_of, parameter_at};
ghost use Rattle.bk_image.specs.Reading.{parameters_at, entry_at, plain_inst, array_at, operands_at, inst_at, magic_at};
ghost use Rattle.bk_image.specs.Reading.{version_at, max_at, code_at, parts_at, image_at, layout_of, items_at};

use crate::LoadFault;
use crate::version::ImageVersion;
use bk_code::{
    CellKind, Code, DEFAULT_MAX, ElemNames, Image, Inst, NameText, NameTexts, OpEntries, OpEntry,
    Parameter, Parameters, Sequence,
};
use std::alloc::Global;

/// The bytes that each image begins with, as a number.
const MAGIC: u32 = 0x424B494D;

#[tactic(auto, unfolding(crate::specs::Reading::number_at))]
fn u16_at(len: usize, bytes: &[u8]) -> Result<(u16, &[u8]), LoadFault>
    ensures { Gives (λ x. (x.0, x.1.now)) result (number_at len w16 bytes.now) }
{
    if bytes.len() < 2 {
        return Err(LoadFault::Short(len));
    }
    let (front, rest) = bytes.split_at(2);
    let number = u16::from_be_bytes([front[0], front[1]]);
    Ok((number, rest))
}

#[tactic(auto, unfolding(crate::specs::Reading::number_at))]
fn u32_at(len: usize, bytes: &[u8]) -> Result<(u32, &[u8]), LoadFault>
    ensures { Gives (λ x. (x.0, x.1.now)) result (number_at len w32 bytes.now) }
{
    if bytes.len() < 4 {
        return Err(LoadFault::Short(len));
    }
    let (front, rest) = bytes.split_at(4);
    let number = u32::from_be_bytes([front[0], front[1], front[2], front[3]]);
    Ok((number, rest))
}

#[tactic(auto, unfolding(crate::specs::Reading::number_at))]
fn u64_at(len: usize, bytes: &[u8]) -> Result<(u64, &[u8]), LoadFault>
    ensures { Gives (λ x. (x.0, x.1.now)) result (number_at len w64 bytes.now) }
{
    if bytes.len() < 8 {
        return Err(LoadFault::Short(len));
    }
    let (front, rest) = bytes.split_at(8);
    let number = u64::from_be_bytes([
        front[0], front[1], front[2], front[3], front[4], front[5], front[6], front[7],
    ]);
    Ok((number, rest))
}

#[tactic(auto, unfolding(crate::specs::Reading::signed_at))]
fn i32_at(len: usize, bytes: &[u8]) -> Result<(i32, &[u8]), LoadFault>
    ensures { Gives (λ x. (x.0, x.1.now)) result (signed_at len w32 bytes.now) }
{
    let (number, rest) = u32_at(len, bytes)?;
    Ok((number.cast_signed(), rest))
}

#[tactic(auto, unfolding(crate::specs::Reading::signed_at))]
fn i64_at(len: usize, bytes: &[u8]) -> Result<(i64, &[u8]), LoadFault>
    ensures { Gives (λ x. (x.0, x.1.now)) result (signed_at len w64 bytes.now) }
{
    let (number, rest) = u64_at(len, bytes)?;
    Ok((number.cast_signed(), rest))
}

#[tactic(auto, unfolding(crate::specs::Reading::text_at))]
fn name_at(alloc: Global, len: usize, bytes: &[u8]) -> Result<(NameText, &[u8]), LoadFault>
    ensures { Gives (λ x. (x.0, x.1.now)) result (text_at len bytes.now) }
{
    let (size, rest) = u16_at(len, bytes)?;
    let size = usize::from(size);
    if rest.len() < size {
        return Err(LoadFault::Short(len));
    }
    let (text, rest) = rest.split_at(size);
    Ok((Sequence::from_vec(Vec::from_slice(alloc, text)?), rest))
}

fn names_at(
    alloc: Global,
    len: usize,
    count: u16,
    bytes: &[u8],
) -> Result<(Vec<NameText>, &[u8]), LoadFault>
    ensures { Gives (λ x. (x.0.items, x.1.now)) result (items_at (text_at len) count bytes.now) }
{
    let mut names = Vec::new(alloc);
    let mut rest = bytes;
    for _ in 0..count {
        let (name, after) = name_at(alloc, len, rest)?;
        names.push(name)?;
        rest = after;
    }
    Ok((names, rest))
}

#[tactic(auto, unfolding(crate::specs::Reading::counted_at))]
fn elements_at(alloc: Global, len: usize, bytes: &[u8]) -> Result<(NameTexts, &[u8]), LoadFault>
    ensures { Gives (λ x. (x.0, x.1.now)) result (set_at len bytes.now) }
{
    let (count, rest) = u16_at(len, bytes)?;
    let (names, rest) = names_at(alloc, len, count, rest)?;
    Ok((Sequence::from_vec(names), rest))
}

fn sets_at(
    alloc: Global,
    len: usize,
    count: u16,
    bytes: &[u8],
) -> Result<(Vec<NameTexts>, &[u8]), LoadFault>
    ensures { Gives (λ x. (x.0.items, x.1.now)) result (items_at (set_at len) count bytes.now) }
{
    let mut sets = Vec::new(alloc);
    let mut rest = bytes;
    for _ in 0..count {
        let (names, after) = elements_at(alloc, len, rest)?;
        sets.push(names)?;
        rest = after;
    }
    Ok((sets, rest))
}

fn kind(number: u16) -> CellKind
    ensures { result ≡ kind_of number }
{
    match number {
        0 => CellKind::Integer,
        1 => CellKind::Bool,
        _ => CellKind::Set(u32::from(number) - 2),
    }
}

#[tactic(auto, unfolding(crate::specs::Reading::parameter_at))]
fn one_parameter_at(len: usize, bytes: &[u8]) -> Result<(Parameter, &[u8]), LoadFault>
    ensures { Gives (λ x. (x.0, x.1.now)) result (parameter_at len bytes.now) }
{
    let (number, rest) = u16_at(len, bytes)?;
    let (slot, rest) = u32_at(len, rest)?;
    let kind = kind(number);
    Ok((Parameter { kind, slot }, rest))
}

fn some_parameters_at(
    alloc: Global,
    len: usize,
    count: u16,
    bytes: &[u8],
) -> Result<(Vec<Parameter>, &[u8]), LoadFault>
    ensures { Gives (λ x. (x.0.items, x.1.now)) result (items_at (parameter_at len) count bytes.now) }
{
    let mut parameters = Vec::new(alloc);
    let mut rest = bytes;
    for _ in 0..count {
        let (parameter, after) = one_parameter_at(len, rest)?;
        parameters.push(parameter)?;
        rest = after;
    }
    Ok((parameters, rest))
}

#[tactic(auto, unfolding(crate::specs::Reading::counted_at))]
fn all_parameters_at(
    alloc: Global,
    len: usize,
    bytes: &[u8],
) -> Result<(Parameters, &[u8]), LoadFault>
    ensures { Gives (λ x. (x.0, x.1.now)) result (parameters_at len bytes.now) }
{
    let (count, rest) = u16_at(len, bytes)?;
    let (parameters, rest) = some_parameters_at(alloc, len, count, rest)?;
    Ok((Sequence::from_vec(parameters), rest))
}

#[tactic(auto, unfolding(crate::specs::Reading::entry_at))]
fn operation_at(alloc: Global, len: usize, bytes: &[u8]) -> Result<(OpEntry, &[u8]), LoadFault>
    ensures { Gives (λ x. (x.0, x.1.now)) result (entry_at len bytes.now) }
{
    let (name, rest) = name_at(alloc, len, bytes)?;
    let (start, rest) = u32_at(len, rest)?;
    let (inputs, rest) = all_parameters_at(alloc, len, rest)?;
    let (outputs, rest) = all_parameters_at(alloc, len, rest)?;
    let entry = OpEntry {
        name,
        start,
        inputs,
        outputs,
    };
    Ok((entry, rest))
}

fn operations_at(
    alloc: Global,
    len: usize,
    count: u16,
    bytes: &[u8],
) -> Result<(Vec<OpEntry>, &[u8]), LoadFault>
    ensures { Gives (λ x. (x.0.items, x.1.now)) result (items_at (entry_at len) count bytes.now) }
{
    let mut entries = Vec::new(alloc);
    let mut rest = bytes;
    for _ in 0..count {
        let (entry, after) = operation_at(alloc, len, rest)?;
        entries.push(entry)?;
        rest = after;
    }
    Ok((entries, rest))
}

#[tactic(auto, unfolding(crate::specs::Reading::plain_inst))]
fn without_operands(opcode: u8) -> Option<Inst>
    ensures { result ≡ plain_inst opcode }
{
    match opcode {
        0x06 => Some(Inst::Add),
        0x07 => Some(Inst::Sub),
        0x08 => Some(Inst::Mul),
        0x09 => Some(Inst::Div),
        0x0A => Some(Inst::Mod),
        0x0B => Some(Inst::Neg),
        0x0C => Some(Inst::Eq),
        0x0D => Some(Inst::Lt),
        0x0E => Some(Inst::Le),
        0x0F => Some(Inst::Not),
        0x12 => Some(Inst::Ret),
        _ => None,
    }
}

#[tactic(auto, unfolding(crate::specs::Reading::array_at))]
fn operands_of_array(len: usize, bytes: &[u8]) -> Result<((u32, i64, u32), &[u8]), LoadFault>
    ensures { Gives (λ x. ((x.0.0, x.0.1, x.0.2), x.1.now)) result (array_at len bytes.now) }
{
    let (base, rest) = u32_at(len, bytes)?;
    let (low, rest) = i64_at(len, rest)?;
    let (count, rest) = u32_at(len, rest)?;
    Ok(((base, low, count), rest))
}

// The instruction with that opcode, whose operands the bytes begin with. Where there is none, `fault` is answered.
#[tactic(auto, unfolding(crate::specs::Reading::operands_at))]
fn with_operands_at(
    len: usize,
    fault: LoadFault,
    opcode: u8,
    bytes: &[u8],
) -> Result<(Inst, &[u8]), LoadFault>
    ensures { Gives (λ x. (x.0, x.1.now)) result (operands_at len fault opcode bytes.now) }
{
    match opcode {
        0x01 => {
            let (n, rest) = i64_at(len, bytes)?;
            Ok((Inst::Push(n), rest))
        }
        0x02 => {
            let (slot, rest) = u32_at(len, bytes)?;
            Ok((Inst::Load(slot), rest))
        }
        0x03 => {
            let (slot, rest) = u32_at(len, bytes)?;
            Ok((Inst::Store(slot), rest))
        }
        0x04 => {
            let ((base, low, count), rest) = operands_of_array(len, bytes)?;
            Ok((Inst::ALoad { base, low, count }, rest))
        }
        0x05 => {
            let ((base, low, count), rest) = operands_of_array(len, bytes)?;
            Ok((Inst::AStore { base, low, count }, rest))
        }
        0x10 => {
            let (distance, rest) = i32_at(len, bytes)?;
            Ok((Inst::Jump(distance), rest))
        }
        0x11 => {
            let (distance, rest) = i32_at(len, bytes)?;
            Ok((Inst::JumpZero(distance), rest))
        }
        _ => Ok((without_operands(opcode).ok_or(fault)?, bytes)),
    }
}

#[tactic(auto, unfolding(crate::specs::Reading::inst_at))]
fn instruction_at(len: usize, bytes: &[u8]) -> Result<(Inst, &[u8]), LoadFault>
    ensures { Gives (λ x. (x.0, x.1.now)) result (inst_at len bytes.now) }
{
    match bytes {
        [] => Err(LoadFault::Short(len)),
        [opcode, rest @ ..] => {
            let fault = LoadFault::BadInst(len.saturating_sub(bytes.len()));
            with_operands_at(len, fault, *opcode, rest)
        }
    }
}

fn instructions_at(
    alloc: Global,
    len: usize,
    count: u32,
    bytes: &[u8],
) -> Result<(Vec<Inst>, &[u8]), LoadFault>
    ensures { Gives (λ x. (x.0.items, x.1.now)) result (items_at (inst_at len) count bytes.now) }
{
    let mut code = Vec::new(alloc);
    let mut rest = bytes;
    for _ in 0..count {
        let (inst, after) = instruction_at(len, rest)?;
        code.push(inst)?;
        rest = after;
    }
    Ok((code, rest))
}

#[tactic(auto, unfolding(crate::specs::Reading::code_at))]
fn counted_code_at(alloc: Global, len: usize, bytes: &[u8]) -> Result<(Code, &[u8]), LoadFault>
    ensures { Gives (λ x. (x.0, x.1.now)) result (code_at len bytes.now) }
{
    let (count, rest) = u32_at(len, bytes)?;
    let (code, rest) = instructions_at(alloc, len, count, rest)?;
    Ok((Sequence::from_vec(code), rest))
}

#[tactic(auto, unfolding(crate::specs::Reading::counted_at))]
fn all_sets_at(alloc: Global, len: usize, bytes: &[u8]) -> Result<(ElemNames, &[u8]), LoadFault>
    ensures { Gives (λ x. (x.0, x.1.now)) result (counted_at len (set_at len) bytes.now) }
{
    let (count, rest) = u16_at(len, bytes)?;
    let (sets, rest) = sets_at(alloc, len, count, rest)?;
    Ok((Sequence::from_vec(sets), rest))
}

#[tactic(auto, unfolding(crate::specs::Reading::counted_at))]
fn all_operations_at(
    alloc: Global,
    len: usize,
    bytes: &[u8],
) -> Result<(OpEntries, &[u8]), LoadFault>
    ensures { Gives (λ x. (x.0, x.1.now)) result (counted_at len (entry_at len) bytes.now) }
{
    let (count, rest) = u16_at(len, bytes)?;
    let (ops, rest) = operations_at(alloc, len, count, rest)?;
    Ok((Sequence::from_vec(ops), rest))
}

#[tactic(auto, unfolding(crate::specs::Reading::magic_at))]
fn checked_magic_at(len: usize, bytes: &[u8]) -> Result<(u32, &[u8]), LoadFault>
    ensures { Gives (λ x. (x.0, x.1.now)) result (magic_at len bytes.now) }
{
    let (magic, rest) = u32_at(len, bytes)?;
    if magic != MAGIC {
        return Err(LoadFault::Magic);
    }
    Ok((magic, rest))
}

#[tactic(auto, unfolding(crate::specs::Reading::version_at))]
fn known_version_at(len: usize, bytes: &[u8]) -> Result<(ImageVersion, &[u8]), LoadFault>
    ensures { Gives (λ x. (x.0, x.1.now)) result (version_at len bytes.now) }
{
    let (version, rest) = u16_at(len, bytes)?;
    match version {
        1 => Ok((ImageVersion::First, rest)),
        2 => Ok((ImageVersion::Second, rest)),
        _ => Err(LoadFault::Version(version)),
    }
}

#[tactic(auto, unfolding(crate::specs::Reading::max_at))]
fn greatest_at(len: usize, version: ImageVersion, bytes: &[u8]) -> Result<(i64, &[u8]), LoadFault>
    ensures { Gives (λ x. (x.0, x.1.now)) result (max_at len version bytes.now) }
{
    match version {
        ImageVersion::First => Ok((DEFAULT_MAX, bytes)),
        ImageVersion::Second => i64_at(len, bytes),
    }
}

#[tactic(auto, unfolding(crate::specs::Reading::parts_at))]
fn all_parts_at(
    alloc: Global,
    len: usize,
    version: ImageVersion,
    bytes: &[u8],
) -> Result<(Image, &[u8]), LoadFault>
    ensures { Gives (λ x. (x.0, x.1.now)) result (parts_at len version bytes.now) }
{
    let (max, rest) = greatest_at(len, version, bytes)?;
    let (cells, rest) = u32_at(len, rest)?;
    let (sets, rest) = all_sets_at(alloc, len, rest)?;
    let (ops, rest) = all_operations_at(alloc, len, rest)?;
    let (code, rest) = counted_code_at(alloc, len, rest)?;
    let image = Image {
        max,
        cells,
        sets,
        ops,
        code,
    };
    Ok((image, rest))
}

#[tactic(auto, unfolding(crate::specs::Reading::image_at))]
fn whole_image_at(
    alloc: Global,
    len: usize,
    bytes: &[u8],
) -> Result<((ImageVersion, Image), &[u8]), LoadFault>
    ensures { Gives (λ x. ((x.0.0, x.0.1), x.1.now)) result (image_at len bytes.now) }
{
    let (_, rest) = checked_magic_at(len, bytes)?;
    let (version, rest) = known_version_at(len, rest)?;
    let (image, rest) = all_parts_at(alloc, len, version, rest)?;
    Ok(((version, image), rest))
}

/// The image whose layout the bytes are, with the version of the layout.
#[tactic(auto, unfolding(crate::specs::Reading::layout_of))]
pub fn layout(alloc: Global, bytes: &[u8]) -> Result<(ImageVersion, Image), LoadFault>
    ensures read { Gives (λ x. (x.0, x.1)) result (layout_of bytes.now) }
    ensures room { length bytes.now < 2 ^ 64 }
{
    let (read, rest) = whole_image_at(alloc, bytes.len(), bytes)?;
    if !rest.is_empty() {
        return Err(LoadFault::Extra(bytes.len().saturating_sub(rest.len())));
    }
    Ok(read)
}
