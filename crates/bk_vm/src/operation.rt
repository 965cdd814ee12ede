//! The call of one operation.
ghost use Rattle.std.specs.Prelude.{◌≡◌, ◌<◌, All, length};
ghost use Rattle.bk_code.specs.Checks.{IsChecked};
ghost use Rattle.bk_code.specs.Laws.{AreCells};
ghost use Rattle.bk_code.specs.Session.{placed, outputs_of};
ghost use Rattle.bk_vm.specs.Ends.{CallEndsWith};
ghost use Rattle.bk_vm.specs.State.{TakesCall};

use crate::CallEnd;
use crate::execute::run;
use bk_code::{Image, Parameter};
use bk_limits::STACK_ROOM;

/// Runs an operation with these arguments, and writes its outputs where it is done.
pub fn run_operation(
    image: &Image,
    op: u32,
    args: &[i64],
    outs: &mut [i64],
    stack: &mut [i64],
    cells: &mut [i64],
    fuel: u64,
) -> CallEnd
    requires checked { IsChecked image.now }
    requires takes { TakesCall image.now op args.now (length outs.old) }
    requires cells { AreCells image.now cells.old }
    requires room { length stack.old ≡ STACK_ROOM }
    ensures ends { CallEndsWith image.now op args.now fuel cells.old outs.old result cells.new outs.new }
    ensures kept { AreCells image.now cells.new }
    ensures room { length stack.new ≡ STACK_ROOM }
{
    let entry = &image.ops.as_slice()[op as usize];
    place_arguments(entry.inputs.as_slice(), args, cells);
    let end = run(image, entry.start as usize, stack, cells, fuel);
    if let CallEnd::Done { .. } = end {
        give_outputs(entry.outputs.as_slice(), cells, outs);
    }
    end
}

// Puts the arguments into the input slots in order.
fn place_arguments(inputs: &[Parameter], args: &[i64], cells: &mut [i64])
    requires counted { length args.now ≡ length inputs.now }
    requires slots { All (λ input. input.slot < length cells.old) inputs.now }
    ensures { cells.new ≡ placed inputs.now args.now cells.old }
{
    for (i, input) in inputs.iter().enumerate() {
        cells[input.slot as usize] = args[i];
    }
}

// Writes the numbers of the output slots in order.
fn give_outputs(outputs: &[Parameter], cells: &[i64], outs: &mut [i64])
    requires counted { length outs.old ≡ length outputs.now }
    requires slots { All (λ output. output.slot < length cells.now) outputs.now }
    ensures { outs.new ≡ outputs_of outputs.now cells.now }
{
    for (i, output) in outputs.iter().enumerate() {
        outs[i] = cells[output.slot as usize];
    }
}
