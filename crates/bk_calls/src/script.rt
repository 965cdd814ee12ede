//! Call scripts.
ghost use Rattle.std.specs.Prelude.{◌≡◌, ℕ, ◌<◌, ◌≤◌, ◌^◌, ◌⊎◌, List, All, length, map, position, slice_get, IsOk, IfOk, IfErr, Ok, Err};
ghost use Rattle.std.specs.Str.{bytes_eq};
ghost use Rattle.std.specs.Str.Lines.{lines};
ghost use Rattle.bk_code.specs.Laws.{IsRequest};
ghost use Rattle.bk_code.specs.Session.{Request};
ghost use Rattle.bk_calls.specs.Reading as reading;
ghost use Rattle.bk_calls.specs.Script.{Cause, IsScript, IsBadLine, PassesLimit, most_calls, request_of};
ghost use Rattle.bk_calls.specs.Outcome.{IsFaultOf, IsFaultOfLine, fault_of};
ghost use Rattle.bk_calls.specs.declared.script.CallsFault.TheVariants.{Memory as NoMemory};

use crate::argument::arguments_of;
use crate::line::call_parts;
use crate::table::WordTable;
use crate::value::{are_within, values};
use bk_code::{Image, OpEntry, Parameter, Sequence};
use bk_limits::MOST_CALLS;
use bk_lines::{first_line, is_skipped};
use std::alloc::{AllocError, AllocFailed, Global};
use thiserror::Error;

/// A call that a script asks for: an operation by its number in the image, from 0, and the arguments.
#[derive(Drop)]
pub struct Call {
    pub op: u32,
    pub args: Sequence<i64>,
}

/// Why there are no calls. A line is told by its number, from 1.
#[derive(Clone, Copy, Debug, PartialEq, Eq, Error)]
pub enum CallsFault {
    /// The line is written as no call.
    #[error("line {0} is no call")]
    Line(u32),
    /// The line calls an operation that the image does not have.
    #[error("line {0} calls no operation")]
    NoOperation(u32),
    /// The line's arguments are too few or too many, or not of the kinds of the operation's inputs.
    #[error("line {0} has wrong arguments")]
    Arguments(u32),
    /// An argument of the line is a number out of the range of the image.
    #[error("line {0} has a number out of range")]
    Number(u32),
    /// A call past the most that a script may ask for. A line at fault before it is told in its stead.
    #[error("too many calls")]
    Limit,
    #[error("out of memory")]
    Memory,
}

impl From<AllocError> for CallsFault {
    ghost from_gives = { λ _ e. e ≡ NoMemory };

    fn from(_: AllocError) -> Self {
        CallsFault::Memory
    }
}

impl<T: Drop> From<AllocFailed<T>> for CallsFault {
    ghost from_gives = { λ _ e. e ≡ NoMemory };

    fn from(_: AllocFailed<T>) -> Self {
        CallsFault::Memory
    }
}

/// The calls that a script asks for, in order.
///
/// A script's lines end at a line feed, with or without a carriage return before it. Empty lines and lines that start
/// with `#` are skipped. Every other line is the name of an operation of the image, and after it the arguments in
/// parentheses, divided by commas: decimal digits with an optional `-`, `TRUE`, `FALSE` or an element's name, by the kind
/// of the input. An operation without inputs may have `()`. Spaces are free around these parts. Of two operations, or of
/// two elements of a set, with one name the first is meant. The first line at fault is told: one that is written as no
/// call, then an operation that the image does not have, then wrong arguments, then a number out of range. A script asks
/// for at most `MOST_CALLS` calls; whichever comes first, a line at fault or a call past the limit, is answered.
pub fn calls(alloc: Global, text: &[u8], image: &Image) -> Result<Vec<Call>, CallsFault>
    requires few_lines { length (lines text.now) < 2 ^ 32 }
    requires few_operations { length image.now.ops < 2 ^ 32 }
    ensures ok { IfOk result (λ calls. IsScript image.now text.now (map request_of calls.items)) }
    ensures requests { IfOk result (λ calls. All (IsRequest image.now) (map request_of calls.items)) }
    ensures few { IfOk result (λ calls. length calls.items ≤ most_calls) }
    ensures script { (requests : List Request) → IsScript image.now text.now requests → length requests ≤ most_calls →
        IsOk result ⊎ (result ≡ Err CallsFault.Memory) }
    ensures line { (number : ℕ) (cause : Cause) → result ≡ Err (fault_of cause number) →
        IsBadLine image.now text.now number cause }
    ensures fault { (number : ℕ) (cause : Cause) → IsBadLine image.now text.now number cause →
        (result ≡ Err (fault_of cause number)) ⊎ (result ≡ Err CallsFault.Memory) }
    ensures limit { result ≡ Err CallsFault.Limit → PassesLimit image.now text.now }
    ensures past { PassesLimit image.now text.now → (result ≡ Err CallsFault.Limit) ⊎ (result ≡ Err CallsFault.Memory) }
{
    read_calls(alloc, text, image)
}

fn read_calls(alloc: Global, text: &[u8], image: &Image) -> Result<Vec<Call>, CallsFault>
    requires few_lines { length (lines text.now) < 2 ^ 32 }
    requires few_operations { length image.now.ops < 2 ^ 32 }
    ensures ok { IfOk result
        (λ calls. reading.read_lines image.now 0 0 (lines text.now) ≡ Ok (map request_of calls.items)) }
    ensures err { IfErr result (IsFaultOf image.now text.now) }
{
    let words = WordTable::new();
    let mut calls = Vec::new(alloc);
    let mut rest = text;
    let mut number = 0u32;
    while let Some((line, behind)) = first_line(rest) {
        number += 1;
        if !is_skipped(line) {
            let call = read_line(alloc, &words, line, number, image)?;
            if calls.len() == MOST_CALLS {
                return Err(CallsFault::Limit);
            }
            calls.push(call)?;
        }
        rest = behind;
    }
    Ok(calls)
}

// The call that the line with that number asks for.
fn read_line(
    alloc: Global,
    words: &WordTable,
    line: &[u8],
    number: u32,
    image: &Image,
) -> Result<Call, CallsFault>
    requires few_operations { length image.now.ops < 2 ^ 32 }
    ensures ok { IfOk result (λ call. reading.read_line image.now line.now ≡ Ok (request_of call)) }
    ensures err { IfErr result (IsFaultOfLine (reading.read_line image.now line.now) number) }
{
    let (name, inside) = call_parts(words, line).ok_or(CallsFault::Line(number))?;
    let arguments = arguments_of(alloc, words, inside)?.ok_or(CallsFault::Line(number))?;
    let op = named_op(image, name).ok_or(CallsFault::NoOperation(number))?;
    let inputs = inputs(image, op);
    let max = image.int_max();
    let args = values(alloc, image, inputs, &arguments)?.ok_or(CallsFault::Arguments(number))?;
    if !are_within(max, &args) {
        return Err(CallsFault::Number(number));
    }
    let args = Sequence::from_vec(args);
    Ok(Call { op, args })
}

// The place of the first operation with a name.
fn place_of(ops: &[OpEntry], name: &[u8]) -> Option<usize>
    ensures { result ≡ position (λ entry. bytes_eq entry.name name.now) ops.now }
{
    ops.iter().position(|entry| entry.name.as_slice() == name)
}

// The number of the first operation with a name.
fn named_op(image: &Image, name: &[u8]) -> Option<u32>
    requires few { length image.now.ops < 2 ^ 32 }
    ensures { result ≡ reading.named_op image.now name.now }
{
    let place = place_of(image.ops.as_slice(), name)?;
    Some(place as u32)
}

// The inputs of an operation.
fn inputs(image: &Image, op: u32) -> &[Parameter]
    ensures { result.now ≡ reading.inputs_of (slice_get image.now.ops op) }
{
    match image.ops.as_slice().get(op as usize) {
        Some(entry) => entry.inputs.as_slice(),
        None => &[],
    }
}
