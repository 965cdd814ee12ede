//! The text of a session.
ghost use Rattle.std.specs.Prelude.{◌≡◌, ◌<◌, ◌≤◌, ◌++◌, [], slice_get, slice_index_or, length, decimal, codes};
ghost use Rattle.std.specs.Fmt.{signed_decimal};
ghost use Rattle.std.specs.Option.{option_copied};
ghost use Rattle.bk_vm.specs.Ends.{end_of};
ghost use Rattle.bk_calls.specs.Transcript as texts;
ghost use Rattle.bk_calls.specs.Transcript.{AreOutputs};
ghost use Rattle.bk_calls.specs.Room.{HasRoom, longest_number, longest_value, longest_given, longest_done, IsMadeFor};

use crate::ReplyLine;
use bk_code::{CellKind, Image, OpEntry, Parameter, Trap};
use bk_vm::CallEnd;
use itoa::Buffer;

// A number, with room for the longest one.
fn write_integer(line: &mut ReplyLine, value: i64)
    requires { HasRoom line.old longest_number }
    ensures bytes { line.new.bytes ≡ line.old.bytes ++ signed_decimal value }
    ensures room { line.new.room ≡ line.old.room }
    ensures short { length (signed_decimal value) ≤ length longest_number }
{
    line.write(Buffer::new().format(value).as_bytes());
}

// A count, for which there is room.
fn write_count(line: &mut ReplyLine, count: u64)
    requires { HasRoom line.old (decimal count) }
    ensures bytes { line.new.bytes ≡ line.old.bytes ++ decimal count }
    ensures room { line.new.room ≡ line.old.room }
{
    line.write(Buffer::new().format(count).as_bytes());
}

// A number as a truth value, with room for the longest number.
fn write_truth(line: &mut ReplyLine, value: i64)
    requires { HasRoom line.old longest_number }
    ensures bytes { line.new.bytes ≡ line.old.bytes ++ texts.truth_text value }
    ensures room { line.new.room ≡ line.old.room }
    ensures short { length (texts.truth_text value) ≤ length longest_number }
{
    if value == 0 {
        line.write(b"FALSE");
    } else if value == 1 {
        line.write(b"TRUE");
    } else {
        write_integer(line, value);
    }
}

// The name of the element of a set with that index.
fn element_name(image: &Image, set: u32, value: i64) -> Option<&[u8]>
    ensures { option_copied result ≡ texts.element_name (slice_index_or image.now.sets set []) value }
{
    let names = image.sets.as_slice().get(set as usize)?;
    let index = usize::try_from(value).ok()?;
    Some(names.as_slice().get(index)?.as_slice())
}

// The text of a number in a cell of that kind, with room for the longest one.
fn write_value(line: &mut ReplyLine, image: &Image, kind: CellKind, value: i64)
    requires { HasRoom line.old (longest_value image.now kind) }
    ensures bytes { line.new.bytes ≡ line.old.bytes ++ texts.value_text image.now kind value }
    ensures room { line.new.room ≡ line.old.room }
    ensures short { length (texts.value_text image.now kind value) ≤ length (longest_value image.now kind) }
{
    match kind {
        CellKind::Integer => write_integer(line, value),
        CellKind::Bool => write_truth(line, value),
        CellKind::Set(set) => match element_name(image, set, value) {
            Some(name) => line.write(name),
            None => write_integer(line, value),
        },
    }
}

// What stands before the value of the output with that index.
pub(crate) fn separator(index: usize) -> &'static [u8]
    ensures first { index ≡ 0 → result.now ≡ codes " = " }
    ensures other { 0 < index → result.now ≡ codes ", " }
{
    if index == 0 { b" = " } else { b", " }
}

// The values of outputs, after the name of an operation, with room for the longest ones.
fn write_outputs(line: &mut ReplyLine, image: &Image, outputs: &[Parameter], values: &[i64])
    requires counted { length values.now ≡ length outputs.now }
    requires room { HasRoom line.old (longest_given image.now outputs.now) }
    ensures bytes { line.new.bytes ≡
        line.old.bytes ++ texts.given_text (texts.value_texts image.now outputs.now values.now) }
    ensures room { line.new.room ≡ line.old.room }
    ensures short { length (texts.given_text (texts.value_texts image.now outputs.now values.now)) ≤ length
        (longest_given image.now outputs.now) }
{
    for (i, output) in outputs.iter().enumerate() {
        line.write(separator(i));
        write_value(line, image, output.kind, values[i]);
    }
}

// The entry of an operation.
fn entry(image: &Image, op: u32) -> Option<&OpEntry>
    ensures { option_copied result ≡ slice_get image.now.ops op }
{
    image.ops.as_slice().get(op as usize)
}

// The name of what was called, or `initialisation`.
fn write_name(line: &mut ReplyLine, image: &Image, op: Option<u32>)
    requires { HasRoom line.old (texts.called_text image.now op) }
    ensures bytes { line.new.bytes ≡ line.old.bytes ++ texts.called_text image.now op }
    ensures room { line.new.room ≡ line.old.room }
{
    let Some(op) = op else {
        line.write(b"initialisation");
        return;
    };
    if let Some(entry) = entry(image, op) {
        line.write(entry.name.as_slice());
    }
}

// The line of a call that is done, with room for the longest one.
fn write_done(line: &mut ReplyLine, image: &Image, entry: &OpEntry, outs: &[i64])
    requires counted { length outs.now ≡ length entry.now.outputs }
    requires room { HasRoom line.old (longest_done image.now entry.now) }
    ensures bytes { line.new.bytes ≡ line.old.bytes ++
        (entry.now.name ++ texts.given_text (texts.value_texts image.now entry.now.outputs outs.now) ++ codes "\n") }
    ensures room { line.new.room ≡ line.old.room }
{
    line.write(entry.name.as_slice());
    write_outputs(line, image, entry.outputs.as_slice(), outs);
    line.write(b"\n");
}

fn trap_name(kind: Trap) -> &'static [u8]
    ensures { result.now ≡ texts.trap_text kind }
{
    match kind {
        Trap::Overflow => b"Overflow",
        Trap::DivZero => b"DivZero",
        Trap::ModRange => b"ModRange",
        Trap::Index => b"Index",
    }
}

// What stands after a name where the call traps.
fn write_trap(line: &mut ReplyLine, kind: Trap, at: u32)
    requires { HasRoom line.old (codes " trapped " ++ texts.trap_text kind ++ codes " at " ++ decimal at
        ++ codes "\n") }
    ensures bytes { line.new.bytes ≡
        line.old.bytes ++ (codes " trapped " ++ texts.trap_text kind ++ codes " at " ++ decimal at ++ codes "\n") }
    ensures room { line.new.room ≡ line.old.room }
{
    line.write(b" trapped ");
    line.write(trap_name(kind));
    line.write(b" at ");
    write_count(line, u64::from(at));
    line.write(b"\n");
}

/// Leaves the line that answers a call in `line`: of the operation with that number, or of the initialisation, which leaves
/// no bytes where it is done. The outputs matter where the call is done. It takes no memory.
pub fn reply(op: Option<u32>, end: &CallEnd, outs: &[i64], image: &Image, line: &mut ReplyLine)
    requires outputs { AreOutputs image.now op outs.now }
    requires made { IsMadeFor image.now line.old }
    ensures bytes { line.new.bytes ≡ texts.reply_text image.now op (end_of end.now) outs.now }
    ensures room { line.new.room ≡ line.old.room }
    ensures made { IsMadeFor image.now line.new }
{
    line.clear();
    match *end {
        CallEnd::Done { .. } => {
            if let Some(op) = op {
                let entry = &image.ops.as_slice()[op as usize];
                write_done(line, image, entry, outs);
            }
        }
        CallEnd::Trap { kind, at, .. } => {
            write_name(line, image, op);
            write_trap(line, kind, at);
        }
        CallEnd::OutOfFuel => {
            write_name(line, image, op);
            line.write(b" out of fuel\n");
        }
    }
}

// The last line, after the present bytes.
fn write_closing(line: &mut ReplyLine, calls: u32, steps: u64)
    requires { HasRoom line.old (texts.closing_text calls steps) }
    ensures bytes { line.new.bytes ≡ line.old.bytes ++ texts.closing_text calls steps }
    ensures room { line.new.room ≡ line.old.room }
{
    line.write(b"end ");
    write_count(line, u64::from(calls));
    line.write(b" calls, ");
    write_count(line, steps);
    line.write(b" steps\n");
}

/// Leaves the last line of a session in `line`: the number of calls that are done, and that of all steps, those of the
/// initialisation among them. It takes no memory.
pub fn closing(calls: u32, steps: u64, line: &mut ReplyLine)
    ensures bytes { line.new.bytes ≡ texts.closing_text calls steps }
    ensures room { line.new.room ≡ line.old.room }
{
    line.clear();
    write_closing(line, calls, steps);
}

/// The steps of a call with that fuel: all of the fuel where it is out of it.
pub fn steps(end: &CallEnd, fuel: u64) -> u64
    ensures { result ≡ texts.steps_of fuel (end_of end.now) }
{
    match *end {
        CallEnd::Done { steps } | CallEnd::Trap { steps, .. } => steps,
        CallEnd::OutOfFuel => fuel,
    }
}
