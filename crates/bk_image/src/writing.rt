//! The spelling of an image.
ghost use Rattle.std.specs.Prelude.{◌≡◌, ◌<◌, ◌^◌, ◌++◌, length, map, OnOk, IfOk, All};
ghost use Rattle.std.specs.Int.{w16, w32, w64};
ghost use Rattle.std.specs.List.{flat_map};
ghost use Rattle.bk_code.specs.Checks.{IsLoadable};
ghost use Rattle.bk_image.specs.Spelling as spell;

use crate::numbers::version_of;
use crate::version::ImageVersion;
use bk_code::{CellKind, Image, Inst, Memory, NameText, NameTexts, OpEntry, Parameter};
use std::alloc::Global;

#[tactic(auto, unfolding(crate::specs::Spelling::number))]
fn put_u16(out: &mut Vec<u8>, n: u16) -> Result<(), Memory>
    ensures { OnOk result (out.new.items ≡ out.old.items ++ spell.number w16 n) }
{
    out.extend_from_slice(&n.to_be_bytes())?;
    Ok(())
}

#[tactic(auto, unfolding(crate::specs::Spelling::number))]
fn put_u32(out: &mut Vec<u8>, n: u32) -> Result<(), Memory>
    ensures { OnOk result (out.new.items ≡ out.old.items ++ spell.number w32 n) }
{
    out.extend_from_slice(&n.to_be_bytes())?;
    Ok(())
}

#[tactic(auto, unfolding(crate::specs::Spelling::signed))]
fn put_i32(out: &mut Vec<u8>, n: i32) -> Result<(), Memory>
    ensures { OnOk result (out.new.items ≡ out.old.items ++ spell.signed w32 n) }
{
    out.extend_from_slice(&n.to_be_bytes())?;
    Ok(())
}

#[tactic(auto, unfolding(crate::specs::Spelling::signed))]
fn put_i64(out: &mut Vec<u8>, n: i64) -> Result<(), Memory>
    ensures { OnOk result (out.new.items ≡ out.old.items ++ spell.signed w64 n) }
{
    out.extend_from_slice(&n.to_be_bytes())?;
    Ok(())
}

#[tactic(auto, unfolding(crate::specs::Spelling::text))]
fn put_text(out: &mut Vec<u8>, text: &[u8]) -> Result<(), Memory>
    requires { spell.IsCountable text.now }
    ensures { OnOk result (out.new.items ≡ out.old.items ++ spell.text text.now) }
{
    put_u16(out, text.len() as u16)?;
    out.extend_from_slice(text)?;
    Ok(())
}

#[tactic(auto, unfolding(crate::specs::Spelling::set))]
fn put_set(out: &mut Vec<u8>, names: &[NameText]) -> Result<(), Memory>
    requires { spell.FitsSet names.now }
    ensures { OnOk result (out.new.items ≡ out.old.items ++ spell.set names.now) }
{
    put_u16(out, names.len() as u16)?;
    for name in names {
        put_text(out, name.as_slice())?;
    }
    Ok(())
}

#[tactic(auto, unfolding(crate::specs::Spelling::sets))]
fn put_sets(out: &mut Vec<u8>, sets: &[NameTexts]) -> Result<(), Memory>
    requires few { spell.IsCountable sets.now }
    requires each { All spell.FitsSet sets.now }
    ensures { OnOk result (out.new.items ≡ out.old.items ++ spell.sets sets.now) }
{
    put_u16(out, sets.len() as u16)?;
    for names in sets {
        put_set(out, names.as_slice())?;
    }
    Ok(())
}

fn kind_number(kind: CellKind) -> u16
    requires { spell.kind_number kind < 2 ^ 16 }
    ensures { result ≡ spell.kind_number kind }
{
    match kind {
        CellKind::Integer => 0,
        CellKind::Bool => 1,
        CellKind::Set(set) => 2 + set as u16,
    }
}

#[tactic(auto, unfolding(crate::specs::Spelling::parameter))]
fn put_parameter(out: &mut Vec<u8>, parameter: Parameter) -> Result<(), Memory>
    requires { spell.FitsParameter parameter }
    ensures { OnOk result (out.new.items ≡ out.old.items ++ spell.parameter parameter) }
{
    put_u16(out, kind_number(parameter.kind))?;
    put_u32(out, parameter.slot)
}

#[tactic(auto, unfolding(crate::specs::Spelling::parameters))]
fn put_parameters(out: &mut Vec<u8>, parameters: &[Parameter]) -> Result<(), Memory>
    requires { spell.FitsParameters parameters.now }
    ensures { OnOk result (out.new.items ≡ out.old.items ++ spell.parameters parameters.now) }
{
    put_u16(out, parameters.len() as u16)?;
    for parameter in parameters {
        put_parameter(out, *parameter)?;
    }
    Ok(())
}

#[tactic(auto, unfolding(crate::specs::Spelling::entry))]
fn put_entry(out: &mut Vec<u8>, entry: &OpEntry) -> Result<(), Memory>
    requires { spell.FitsEntry entry.now }
    ensures { OnOk result (out.new.items ≡ out.old.items ++ spell.entry entry.now) }
{
    put_text(out, entry.name.as_slice())?;
    put_u32(out, entry.start)?;
    put_parameters(out, entry.inputs.as_slice())?;
    put_parameters(out, entry.outputs.as_slice())
}

#[tactic(auto, unfolding(crate::specs::Spelling::entries))]
fn put_entries(out: &mut Vec<u8>, entries: &[OpEntry]) -> Result<(), Memory>
    requires few { spell.IsCountable entries.now }
    requires each { All spell.FitsEntry entries.now }
    ensures { OnOk result (out.new.items ≡ out.old.items ++ spell.entries entries.now) }
{
    put_u16(out, entries.len() as u16)?;
    for entry in entries {
        put_entry(out, entry)?;
    }
    Ok(())
}

#[tactic(auto, unfolding(crate::specs::Spelling::array))]
fn put_array(out: &mut Vec<u8>, base: u32, low: i64, count: u32) -> Result<(), Memory>
    ensures { OnOk result (out.new.items ≡ out.old.items ++ spell.array base low count) }
{
    put_u32(out, base)?;
    put_i64(out, low)?;
    put_u32(out, count)
}

fn opcode(inst: Inst) -> u8
    ensures { result ≡ spell.opcode inst }
{
    match inst {
        Inst::Push(_) => 0x01,
        Inst::Load(_) => 0x02,
        Inst::Store(_) => 0x03,
        Inst::ALoad { .. } => 0x04,
        Inst::AStore { .. } => 0x05,
        Inst::Add => 0x06,
        Inst::Sub => 0x07,
        Inst::Mul => 0x08,
        Inst::Div => 0x09,
        Inst::Mod => 0x0A,
        Inst::Neg => 0x0B,
        Inst::Eq => 0x0C,
        Inst::Lt => 0x0D,
        Inst::Le => 0x0E,
        Inst::Not => 0x0F,
        Inst::Jump(_) => 0x10,
        Inst::JumpZero(_) => 0x11,
        Inst::Ret => 0x12,
    }
}

#[tactic(auto, unfolding(crate::specs::Spelling::inst))]
fn put_inst(out: &mut Vec<u8>, inst: Inst) -> Result<(), Memory>
    ensures { OnOk result (out.new.items ≡ out.old.items ++ spell.inst inst) }
{
    out.push(opcode(inst))?;
    match inst {
        Inst::Push(n) => put_i64(out, n),
        Inst::Load(slot) => put_u32(out, slot),
        Inst::Store(slot) => put_u32(out, slot),
        Inst::ALoad { base, low, count } => put_array(out, base, low, count),
        Inst::AStore { base, low, count } => put_array(out, base, low, count),
        Inst::Jump(distance) => put_i32(out, distance),
        Inst::JumpZero(distance) => put_i32(out, distance),
        _ => Ok(()),
    }
}

fn put_code(out: &mut Vec<u8>, code: &[Inst]) -> Result<(), Memory>
    ensures { OnOk result (out.new.items ≡ out.old.items ++ flat_map spell.inst code.now) }
{
    for inst in code {
        put_inst(out, *inst)?;
    }
    Ok(())
}

#[tactic(auto, unfolding(crate::specs::Spelling::version))]
fn put_version(out: &mut Vec<u8>, version: ImageVersion, max: i64) -> Result<(), Memory>
    ensures { OnOk result (out.new.items ≡ out.old.items ++ spell.version version max) }
{
    match version {
        ImageVersion::First => put_u16(out, 1),
        ImageVersion::Second => {
            put_u16(out, 2)?;
            put_i64(out, max)
        }
    }
}

#[tactic(auto, unfolding(crate::specs::Spelling::header, crate::specs::Spelling::magic))]
fn put_header(out: &mut Vec<u8>, version: ImageVersion, image: &Image) -> Result<(), Memory>
    requires { spell.FitsFields version image.now }
    ensures { OnOk result (out.new.items ≡ out.old.items ++ spell.header version image.now) }
{
    out.extend_from_slice(b"BKIM")?;
    put_version(out, version, image.int_max())?;
    put_u32(out, image.cells)?;
    put_sets(out, image.sets.as_slice())?;
    put_entries(out, image.ops.as_slice())?;
    put_u32(out, image.code.as_slice().len() as u32)
}

/// The one spelling of an image that the loader takes. It is in the first version where the image's MAXINT is `DEFAULT_MAX`, and in
/// the second, which has a field for it, where it is another.
#[tactic(auto, unfolding(crate::specs::Spelling::laid_out))]
pub fn write(alloc: Global, image: &Image) -> Result<Vec<u8>, Memory>
    requires loadable { IsLoadable image.now }
    requires spelling { spell.HasSpelling image.now }
    ensures { IfOk result (λ bytes. bytes.items ≡ spell.spelling image.now) }
{
    let mut out = Vec::new(alloc);
    put_header(&mut out, version_of(image), image)?;
    put_code(&mut out, image.code.as_slice())?;
    Ok(out)
}
