//! The numbers of an image: the first that is outside its range, in the order of the bytes.
//!
//! `at` is the place where a part begins.
ghost use Rattle.std.specs.Prelude.{◌≡◌, ◌<◌, ◌≤◌, ◌+◌, ◌*◌, ◌^◌, ◌↔◌, IsTrue, length, All, pos, ◌+ℤ◌, ◌-ℤ◌, ◌<ℤ◌, MatchOption, MatchBool};
ghost use Rattle.std.specs.List.{flat_map};
ghost use Rattle.bk_code.specs.Numbers.{int_max, IsRange, IsWithin};
ghost use Rattle.bk_code.specs.Checks as checks;
ghost use Rattle.bk_image.specs.Spelling as spell;
ghost use Rattle.bk_image.specs.Spelling.{version_of};
ghost use Rattle.bk_image.specs.Soundness.{IsSound, AreSound, IsRightMax, AreRight, HaveFewElements};
ghost use Rattle.bk_image.specs.Faults.{IsFirst, IsFaultIn, IsParameterFault, IsParametersFault, IsEntryFault, IsArrayFault};
ghost use Rattle.bk_image.specs.Faults.{HasIndexOutside, IsOperandFault, IsOneInstFault, IsSetFault, IsNumberFault};
ghost use Rattle.bk_image.specs.Faults.{cells_place, ops_place, count_place};

use crate::LoadFault;
use crate::version::ImageVersion;
use bk_code::{CellKind, DEFAULT_MAX, Image, Inst, NameText, NameTexts, OpEntry, Parameter};
use bk_limits::{GREATEST_MAXINT, MOST_CELLS, MOST_SETS};

fn is_in_range(image: &Image, n: i64) -> bool
    requires { IsRange (int_max image.now) }
    ensures { IsTrue result ↔ IsWithin (int_max image.now) n }
{
    let max = image.int_max();
    -max <= n && n <= max
}

fn is_kind(image: &Image, kind: CellKind) -> bool
    ensures { IsTrue result ↔ checks.IsKind image.now kind }
{
    match kind {
        CellKind::Integer => true,
        CellKind::Bool => true,
        CellKind::Set(set) => (set as usize) < image.sets.as_slice().len(),
    }
}

#[tactic(auto, using(crate::proofs::Sizes::parameter_size))]
fn parameter_fault(image: &Image, at: usize, parameter: Parameter) -> Option<LoadFault>
    requires { at + length (spell.parameter parameter) < 2 ^ 64 }
    ensures { MatchOption result (checks.IsGoodParameter image.now parameter)
        (λ e. IsFirst (IsParameterFault image.now 0 at parameter) e) }
{
    if !is_kind(image, parameter.kind) {
        return Some(LoadFault::BadSlot(at));
    }
    if parameter.slot >= image.cells {
        return Some(LoadFault::BadSlot(at + 2));
    }
    None
}

fn parameters_fault(image: &Image, at: usize, parameters: &[Parameter]) -> Option<LoadFault>
    requires { at + length (spell.parameters parameters.now) < 2 ^ 64 }
    ensures { MatchOption result (All (checks.IsGoodParameter image.now) parameters.now)
        (λ e. IsFirst (IsParametersFault image.now at parameters.now) e) }
{
    let mut place = at + 2;
    for parameter in parameters {
        if let Some(fault) = parameter_fault(image, place, *parameter) {
            return Some(fault);
        }
        place += 6;
    }
    None
}

// The number of bytes of inputs or outputs.
#[tactic(auto, using(crate::proofs::Sizes::parameters_size))]
fn parameters_size(parameters: &[Parameter]) -> usize
    requires { length (spell.parameters parameters.now) < 2 ^ 64 }
    ensures { result ≡ length (spell.parameters parameters.now) }
{
    2 + 6 * parameters.len()
}

#[tactic(auto, using(crate::proofs::Sizes::text_size))]
fn text_size(text: &[u8]) -> usize
    requires { length (spell.text text.now) < 2 ^ 64 }
    ensures { result ≡ length (spell.text text.now) }
{
    2 + text.len()
}

#[tactic(auto, using(crate::proofs::Sizes::entry_size, crate::proofs::Judged::first_start, crate::proofs::Judged::first_inputs, crate::proofs::Judged::judged_entry))]
fn entry_fault(image: &Image, at: usize, entry: &OpEntry) -> Option<LoadFault>
    requires { at + length (spell.entry entry.now) < 2 ^ 64 }
    ensures { MatchOption result (checks.IsGoodEntry image.now entry.now)
        (λ e. IsFirst (IsEntryFault image.now 0 at entry.now) e) }
{
    let start = at + text_size(entry.name.as_slice());
    if entry.start as usize >= image.code.as_slice().len() {
        return Some(LoadFault::BadSlot(start));
    }
    let inputs = start + 4;
    if let Some(fault) = parameters_fault(image, inputs, entry.inputs.as_slice()) {
        return Some(fault);
    }
    let outputs = inputs + parameters_size(entry.inputs.as_slice());
    parameters_fault(image, outputs, entry.outputs.as_slice())
}

// The number of bytes of an operation.
#[tactic(auto, using(crate::proofs::Sizes::entry_size))]
fn entry_size(entry: &OpEntry) -> usize
    requires { length (spell.entry entry.now) < 2 ^ 64 }
    ensures { result ≡ length (spell.entry entry.now) }
{
    text_size(entry.name.as_slice())
        + 4
        + parameters_size(entry.inputs.as_slice())
        + parameters_size(entry.outputs.as_slice())
}

fn entries_fault(image: &Image, at: usize, entries: &[OpEntry]) -> Option<LoadFault>
    requires { at + length (flat_map spell.entry entries.now) < 2 ^ 64 }
    ensures { MatchOption result (All (checks.IsGoodEntry image.now) entries.now)
        (λ e. IsFirst (IsFaultIn spell.entry (IsEntryFault image.now) at entries.now) e) }
{
    let mut place = at;
    for entry in entries {
        if let Some(fault) = entry_fault(image, place, entry) {
            return Some(fault);
        }
        place += entry_size(entry);
    }
    None
}

// Whether an index of an array is outside the range.
fn has_index_outside(image: &Image, low: i64, count: u32) -> bool
    requires range { IsRange (int_max image.now) }
    requires some { 0 < count }
    ensures { MatchBool result (HasIndexOutside (int_max image.now) low count)
        (IsWithin (int_max image.now) low
        × IsWithin (int_max image.now) (low +ℤ pos count -ℤ pos 1)) }
{
    !is_in_range(image, low) || !is_in_range(image, low + i64::from(count) - 1)
}

#[tactic(auto, using(crate::proofs::Arrays::inside))]
fn array_fault(image: &Image, at: usize, base: u32, low: i64, count: u32) -> Option<LoadFault>
    requires range { IsRange (int_max image.now) }
    requires room { at + 16 < 2 ^ 64 }
    ensures { MatchOption result (checks.IsArray image.now base low count)
        (λ e. IsFirst (IsArrayFault image.now at base low count) e) }
{
    if u64::from(base) + u64::from(count) > u64::from(image.cells) {
        return Some(LoadFault::BadSlot(at));
    }
    if count == 0 {
        return Some(LoadFault::BadSlot(at + 12));
    }
    if has_index_outside(image, low, count) {
        return Some(LoadFault::BadSlot(at + 4));
    }
    None
}

fn is_target(image: &Image, from: usize, distance: i32) -> bool
    requires { from < 2 ^ 32 }
    ensures { IsTrue result ↔ checks.IsTarget image.now (pos from +ℤ distance) }
{
    let target = from as i64 + i64::from(distance);
    target >= 0 && (target as usize) < image.code.as_slice().len()
}

// An operand that is at fault. The instruction stands at the place `from` of the code.
#[tactic(auto, using(crate::proofs::Sizes::inst_size))]
fn operand_fault(image: &Image, from: usize, at: usize, inst: Inst) -> Option<LoadFault>
    requires range { IsRange (int_max image.now) }
    requires place { from < 2 ^ 32 }
    requires room { at + length (spell.inst inst) < 2 ^ 64 }
    ensures { MatchOption result (checks.IsGoodInst image.now from inst)
        (λ e. IsFirst (IsOperandFault image.now from at inst) e) }
{
    match inst {
        Inst::Push(n) if !is_in_range(image, n) => Some(LoadFault::BadSlot(at + 1)),
        Inst::Load(slot) if slot >= image.cells => Some(LoadFault::BadSlot(at + 1)),
        Inst::Store(slot) if slot >= image.cells => Some(LoadFault::BadSlot(at + 1)),
        Inst::ALoad { base, low, count } => array_fault(image, at + 1, base, low, count),
        Inst::AStore { base, low, count } => array_fault(image, at + 1, base, low, count),
        Inst::Jump(distance) if !is_target(image, from, distance) => Some(LoadFault::BadJump(at)),
        Inst::JumpZero(distance) if !is_target(image, from, distance) => {
            Some(LoadFault::BadJump(at))
        }
        _ => None,
    }
}

fn is_leaving(inst: Inst) -> bool
    ensures { IsTrue result ↔ checks.IsLeaving inst }
{
    matches!(inst, Inst::Jump(_) | Inst::Ret)
}

fn inst_fault(image: &Image, from: usize, at: usize, inst: Inst) -> Option<LoadFault>
    requires range { IsRange (int_max image.now) }
    requires place { from < 2 ^ 32 }
    requires room { at + length (spell.inst inst) < 2 ^ 64 }
    ensures { MatchOption result (IsSound image.now from inst)
        (λ e. IsFirst (IsOneInstFault image.now from at inst) e) }
{
    let is_last = from + 1 == image.code.as_slice().len();
    if is_last && !is_leaving(inst) {
        return Some(LoadFault::BadJump(at));
    }
    operand_fault(image, from, at, inst)
}

/// The number of bytes of an instruction.
#[tactic(auto, using(crate::proofs::Sizes::inst_size))]
pub fn inst_size(inst: Inst) -> usize
    ensures { result ≡ length (spell.inst inst) }
{
    match inst {
        Inst::Push(_) => 9,
        Inst::Load(_) | Inst::Store(_) | Inst::Jump(_) | Inst::JumpZero(_) => 5,
        Inst::ALoad { .. } | Inst::AStore { .. } => 17,
        _ => 1,
    }
}

fn code_fault(image: &Image, at: usize) -> Option<LoadFault>
    requires range { IsRange (int_max image.now) }
    requires few { length image.now.code < 2 ^ 32 }
    requires room { at + length (flat_map spell.inst image.now.code) < 2 ^ 64 }
    ensures { MatchOption result (AreSound image.now image.now.code (length image.now.code))
        (λ e. IsFirst (IsFaultIn spell.inst (IsOneInstFault image.now) at image.now.code) e) }
{
    let mut place = at;
    for (from, inst) in image.code.as_slice().iter().enumerate() {
        if let Some(fault) = inst_fault(image, from, place, *inst) {
            return Some(fault);
        }
        place += inst_size(*inst);
    }
    None
}

// Where the names of a set's elements end, of which the first begins at the place.

fn names_end(at: usize, names: &[NameText]) -> usize
    requires { at + length (flat_map spell.text names.now) < 2 ^ 64 }
    ensures { result ≡ at + length (flat_map spell.text names.now) }
{
    let mut place = at;
    for name in names {
        place += text_size(name.as_slice());
    }
    place
}

// Where the sets end.

fn sets_end(at: usize, sets: &[NameTexts]) -> usize
    requires { at + length (flat_map spell.set sets.now) < 2 ^ 64 }
    ensures { result ≡ at + length (flat_map spell.set sets.now) }
{
    let mut place = at;
    for names in sets {
        place = names_end(place + 2, names.as_slice());
    }
    place
}

// Where the operations end.

fn entries_end(at: usize, entries: &[OpEntry]) -> usize
    requires { at + length (flat_map spell.entry entries.now) < 2 ^ 64 }
    ensures { result ≡ at + length (flat_map spell.entry entries.now) }
{
    let mut place = at;
    for entry in entries {
        place += entry_size(entry);
    }
    place
}

// The version of an image by its MAXINT.
#[tactic(auto, using(crate::proofs::Versions::is_first, crate::proofs::Versions::is_second))]
pub fn version_of(image: &Image) -> ImageVersion
    ensures { result ≡ version_of image.now }
{
    if image.int_max() == DEFAULT_MAX {
        ImageVersion::First
    } else {
        ImageVersion::Second
    }
}

// Where the number of cells stands.
fn cells_begin(version: ImageVersion) -> usize
    ensures place { result ≡ cells_place version }
    ensures few { result ≤ 14 }
{
    match version {
        ImageVersion::First => 6,
        ImageVersion::Second => 14,
    }
}

// Where the operations begin.
fn ops_begin(version: ImageVersion, image: &Image) -> usize
    requires { ops_place version image.now < 2 ^ 64 }
    ensures { result ≡ ops_place version image.now }
{
    sets_end(cells_begin(version) + 6, image.sets.as_slice()) + 2
}

/// Where the instructions begin.
pub fn code_begin(image: &Image) -> usize
    requires { length (spell.spelling image.now) < 2 ^ 64 }
    ensures { result ≡ count_place (version_of image.now) image.now + 4 }
{
    entries_end(ops_begin(version_of(image), image), image.ops.as_slice()) + 4
}

// Whether the MAXINT of an image in this version is one, and in the second another than that of the first.
fn has_right_max(version: ImageVersion, image: &Image) -> bool
    ensures { IsTrue result ↔ IsRightMax version (int_max image.now) }
{
    let max = image.int_max();
    match version {
        ImageVersion::First => true,
        ImageVersion::Second => 1 <= max && max <= GREATEST_MAXINT && max != DEFAULT_MAX,
    }
}

fn has_too_many_sets(image: &Image) -> bool
    ensures { MatchBool result (MOST_SETS < length image.now.sets) (length image.now.sets ≤ MOST_SETS) }
{
    image.sets.as_slice().len() > MOST_SETS
}

// Whether there are more elements than 0 to MAXINT can number.
fn has_too_many_elements(image: &Image, names: &[NameText]) -> bool
    ensures { MatchBool result ((int_max image.now +ℤ pos 1) <ℤ pos (length names.now)) (spell.HasFewElements (int_max image.now) names.now) }
{
    names.len() as i128 > i128::from(image.int_max()) + 1
}

// The first of the sets that has too many elements; they begin at the place.
fn sets_fault(image: &Image, at: usize, sets: &[NameTexts]) -> Option<LoadFault>
    requires { at + length (flat_map spell.set sets.now) < 2 ^ 64 }
    ensures { MatchOption result (All (λ names. spell.HasFewElements (int_max image.now) names) sets.now)
        (λ e. IsFirst (IsFaultIn spell.set (IsSetFault image.now) at sets.now) e) }
{
    let mut place = at;
    for names in sets {
        if has_too_many_elements(image, names.as_slice()) {
            return Some(LoadFault::BadSlot(place));
        }
        place = names_end(place + 2, names.as_slice());
    }
    None
}

/// The first number of an image in this version that is outside its range.
pub fn number_fault(version: ImageVersion, image: &Image) -> Option<LoadFault>
    requires fits { spell.FitsFields version image.now }
    requires room { length (spell.laid_out version image.now) < 2 ^ 64 }
    ensures { MatchOption result (AreRight version image.now) (λ e. IsFirst (IsNumberFault version image.now) e) }
{
    if !has_right_max(version, image) {
        return Some(LoadFault::BadSlot(6));
    }
    let cells = cells_begin(version);
    if image.cells > MOST_CELLS {
        return Some(LoadFault::BadSlot(cells));
    }
    if has_too_many_sets(image) {
        return Some(LoadFault::BadSlot(cells + 4));
    }
    if let Some(fault) = sets_fault(image, cells + 6, image.sets.as_slice()) {
        return Some(fault);
    }
    number_fault_behind(version, image)
}

// The first number behind the sets that is outside its range, where all up to there are right.
fn number_fault_behind(version: ImageVersion, image: &Image) -> Option<LoadFault>
    requires max { IsRightMax version (int_max image.now) }
    requires fits { spell.FitsFields version image.now }
    requires room { length (spell.laid_out version image.now) < 2 ^ 64 }
    requires cells { image.now.cells ≤ MOST_CELLS }
    requires sets { length image.now.sets ≤ MOST_SETS }
    requires elements { HaveFewElements image.now }
    ensures { MatchOption result (AreRight version image.now) (λ e. IsFirst (IsNumberFault version image.now) e) }
{
    let ops = ops_begin(version, image);
    if let Some(fault) = entries_fault(image, ops, image.ops.as_slice()) {
        return Some(fault);
    }
    let count = entries_end(ops, image.ops.as_slice());
    if image.code.as_slice().is_empty() {
        return Some(LoadFault::BadJump(count));
    }
    code_fault(image, count + 4)
}
