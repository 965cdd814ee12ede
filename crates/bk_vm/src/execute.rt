//! The execution of code, one instruction after another.
//!
//! The loop of `run` is the machine's speed. The stack is a slice and a depth that is passed by value, so that with all
//! functions of this file inlined the place, the depth and what was calculated stay in registers. There are two loops of this text:
//! one for the default MAXINT, which is a constant there, and one for each other.
ghost use Rattle.std.specs.Prelude.{◌≡◌, ◌≤◌, ◌<◌, ◌^◌, ◌+◌, ℕ, ℤ, pos, ◌+ℤ◌, ◌≤ℤ◌, length, List, [], ◌∷◌, All, Result, Ok, Some, None, IfSome, if◌then◌else◌};
ghost use Rattle.bk_code.specs.Checks.{IsTarget, IsArray, pops};
ghost use Rattle.bk_code.specs.Laws.{AreCells};
ghost use Rattle.bk_code.specs.Numbers.{int_max};
ghost use Rattle.bk_code.specs.Step as table;
ghost use Rattle.bk_vm.specs.Depth.{tops};
ghost use Rattle.bk_vm.specs.Ends.{EndsWith};
ghost use Rattle.bk_vm.specs.Flows.{IsSmall, HasRange, IsComputation, IsExecutable, KeepsAtEnd, outcome_of, standing, IsReady, IsReadyAfter};

use crate::CallEnd;
use crate::arithmetic::{difference, negation, product, quotient, remainder, sum};
use bk_code::{DEFAULT_MAX, Image, Inst, Trap};
use bk_limits::STACK_ROOM;

/// Where control goes after an instruction, and the depth of the stack there.
#[derive(Clone, Copy)]
pub enum Flow {
    Next { place: usize, depth: usize },
    Return,
    Trapped(Trap),
}

// The topmost number, and the depth below it.
#[inline]
fn take_one(stack: &[i64], depth: usize) -> (i64, usize)
    requires enough { 1 ≤ depth }
    requires long { depth ≤ length stack.now }
    requires range { All IsSmall (tops depth stack.now) }
    ensures taken { tops depth stack.now ≡ result.0 ∷ tops result.1 stack.now }
    ensures depth { result.1 + 1 ≡ depth }
    ensures range { IsSmall result.0 }
    ensures rest { All IsSmall (tops result.1 stack.now) }
{
    (stack[depth - 1], depth - 1)
}

// The two topmost numbers, the one below the top first, and the depth below them.
#[inline]
fn take_two(stack: &[i64], depth: usize) -> (i64, i64, usize)
    requires enough { 2 ≤ depth }
    requires long { depth ≤ length stack.now }
    requires range { All IsSmall (tops depth stack.now) }
    ensures taken { tops depth stack.now ≡ result.1 ∷ result.0 ∷ tops result.2 stack.now }
    ensures depth { result.2 + 2 ≡ depth }
    ensures first { IsSmall result.0 }
    ensures second { IsSmall result.1 }
{
    let (b, below) = take_one(stack, depth);
    let (a, rest) = take_one(stack, below);
    (a, b, rest)
}

// Puts what was calculated on a stack of this depth and goes on after a place, or traps.
#[inline]
fn settle(place: usize, stack: &mut [i64], depth: usize, answer: Result<i64, Trap>) -> Flow
    requires place { place < 2 ^ 32 }
    requires room { depth < STACK_ROOM }
    requires long { length stack.old ≡ STACK_ROOM }
    ensures outcome { (cells : List ℤ) →
        outcome_of result stack.new cells ≡ table.calculated (place + 1) (tops depth stack.old) cells answer }
    ensures long { length stack.new ≡ STACK_ROOM }
{
    match answer {
        Ok(number) => {
            stack[depth] = number;
            Flow::Next {
                place: place + 1,
                depth: depth + 1,
            }
        }
        Err(trap) => Flow::Trapped(trap),
    }
}

// Executes an instruction that takes one or two numbers and pushes one.
#[inline]
fn compute<const DEFAULT: bool>(
    image: &Image,
    inst: Inst,
    place: usize,
    stack: &mut [i64],
    depth: usize,
) -> Flow
    requires greatest { HasRange image.now DEFAULT }
    requires computes { IsComputation inst }
    requires place { place < 2 ^ 32 }
    requires enough { pops inst ≤ depth }
    requires room { depth ≤ STACK_ROOM }
    requires long { length stack.old ≡ STACK_ROOM }
    requires range { All IsSmall (tops depth stack.old) }
    ensures outcome { (cells : List ℤ) →
        outcome_of result stack.new cells ≡ table.row (int_max image.now) inst place (tops depth stack.old) cells }
    ensures long { length stack.new ≡ STACK_ROOM }
{
    match inst {
        Inst::Neg => {
            let (a, rest) = take_one(stack, depth);
            settle(place, stack, rest, negation::<DEFAULT>(image, a))
        }
        Inst::Not => {
            let (a, rest) = take_one(stack, depth);
            settle(place, stack, rest, Ok(i64::from(a == 0)))
        }
        Inst::Add => {
            let (a, b, rest) = take_two(stack, depth);
            settle(place, stack, rest, sum::<DEFAULT>(image, a, b))
        }
        Inst::Sub => {
            let (a, b, rest) = take_two(stack, depth);
            settle(place, stack, rest, difference::<DEFAULT>(image, a, b))
        }
        Inst::Mul => {
            let (a, b, rest) = take_two(stack, depth);
            settle(place, stack, rest, product::<DEFAULT>(image, a, b))
        }
        Inst::Div => {
            let (a, b, rest) = take_two(stack, depth);
            settle(place, stack, rest, quotient(a, b))
        }
        Inst::Mod => {
            let (a, b, rest) = take_two(stack, depth);
            settle(place, stack, rest, remainder(a, b))
        }
        Inst::Eq => {
            let (a, b, rest) = take_two(stack, depth);
            settle(place, stack, rest, Ok(i64::from(a == b)))
        }
        Inst::Lt => {
            let (a, b, rest) = take_two(stack, depth);
            settle(place, stack, rest, Ok(i64::from(a < b)))
        }
        Inst::Le => {
            let (a, b, rest) = take_two(stack, depth);
            settle(place, stack, rest, Ok(i64::from(a <= b)))
        }
        _ => unreachable!(),
    }
}

// The cell of an array's element.
#[inline]
fn element(base: u32, low: i64, count: u32, index: i64) -> Option<usize>
    requires low { IsSmall low }
    requires index { IsSmall index }
    ensures cell { result ≡
        (if table.is_index low count index then Some (table.element_cell base low index) else None) }
    ensures within { IfSome result (λ cell. cell < base + count) }
{
    let offset = index - low;
    if offset < 0 || offset >= i64::from(count) {
        None
    } else {
        Some(base as usize + offset as usize)
    }
}

// The target of a jump.
#[inline]
fn target(place: usize, distance: i32) -> usize
    requires place { place < 2 ^ 32 }
    requires target { pos 0 ≤ℤ (pos place +ℤ distance) }
    ensures { pos result ≡ pos place +ℤ distance }
{
    (place as i64 + i64::from(distance)) as usize
}

// Pushes an element of an array, whose index is on the stack.
#[inline]
fn load_element(
    place: usize,
    stack: &mut [i64],
    depth: usize,
    cells: &[i64],
    base: u32,
    low: i64,
    count: u32,
) -> Flow
    requires place { place < 2 ^ 32 }
    requires enough { 1 ≤ depth }
    requires room { depth ≤ STACK_ROOM }
    requires long { length stack.old ≡ STACK_ROOM }
    requires range { All IsSmall (tops depth stack.old) }
    requires low { IsSmall low }
    requires array { base + count ≤ length cells.now }
    ensures outcome { (max : ℤ) → outcome_of result stack.new cells.now ≡
        table.row max (Inst.ALoad base low count) place (tops depth stack.old) cells.now }
    ensures long { length stack.new ≡ STACK_ROOM }
{
    let (index, rest) = take_one(stack, depth);
    match element(base, low, count, index) {
        Some(cell) => settle(place, stack, rest, Ok(cells[cell])),
        None => Flow::Trapped(Trap::Index),
    }
}

// Writes an element of an array, whose index and number are on the stack.
#[inline]
fn store_element(
    place: usize,
    stack: &[i64],
    depth: usize,
    cells: &mut [i64],
    base: u32,
    low: i64,
    count: u32,
) -> Flow
    requires place { place < 2 ^ 32 }
    requires enough { 2 ≤ depth }
    requires long { depth ≤ length stack.now }
    requires range { All IsSmall (tops depth stack.now) }
    requires low { IsSmall low }
    requires array { base + count ≤ length cells.old }
    ensures outcome { (max : ℤ) → outcome_of result stack.now cells.new ≡
        table.row max (Inst.AStore base low count) place (tops depth stack.now) cells.old }
    ensures kept { KeepsAtEnd result cells.old cells.new }
{
    let (index, number, rest) = take_two(stack, depth);
    match element(base, low, count, index) {
        Some(cell) => {
            cells[cell] = number;
            Flow::Next {
                place: place + 1,
                depth: rest,
            }
        }
        None => Flow::Trapped(Trap::Index),
    }
}

// Executes an instruction at a place.
#[inline]
fn execute<const DEFAULT: bool>(
    image: &Image,
    inst: Inst,
    place: usize,
    stack: &mut [i64],
    depth: usize,
    cells: &mut [i64],
) -> Flow
    requires greatest { HasRange image.now DEFAULT }
    requires place { place < 2 ^ 32 }
    requires executable { IsExecutable image.now place inst depth stack.old cells.old }
    ensures outcome { outcome_of result stack.new cells.new ≡
        table.row (int_max image.now) inst place (tops depth stack.old) cells.old }
    ensures kept { KeepsAtEnd result cells.old cells.new }
    ensures long { length stack.new ≡ STACK_ROOM }
{
    match inst {
        Inst::Push(number) => settle(place, stack, depth, Ok(number)),
        Inst::Load(slot) => settle(place, stack, depth, Ok(cells[slot as usize])),
        Inst::Store(slot) => {
            let (number, rest) = take_one(stack, depth);
            cells[slot as usize] = number;
            Flow::Next {
                place: place + 1,
                depth: rest,
            }
        }
        Inst::ALoad { base, low, count } => {
            load_element(place, stack, depth, cells, base, low, count)
        }
        Inst::AStore { base, low, count } => {
            store_element(place, stack, depth, cells, base, low, count)
        }
        Inst::Jump(distance) => Flow::Next {
            place: target(place, distance),
            depth,
        },
        Inst::JumpZero(distance) => {
            let (number, rest) = take_one(stack, depth);
            let place = if number == 0 {
                target(place, distance)
            } else {
                place + 1
            };
            Flow::Next { place, depth: rest }
        }
        Inst::Ret => Flow::Return,
        _ => compute::<DEFAULT>(image, inst, place, stack, depth),
    }
}

// One step of the code from a place.
#[inline]
fn step<const DEFAULT: bool>(
    image: &Image,
    code: &[Inst],
    place: usize,
    stack: &mut [i64],
    depth: usize,
    cells: &mut [i64],
) -> Flow
    requires greatest { HasRange image.now DEFAULT }
    requires code { code.now ≡ image.now.code }
    requires long { length stack.old ≡ STACK_ROOM }
    requires ready { IsReady image.now (standing place (tops depth stack.old) cells.old) }
    ensures outcome { outcome_of result stack.new cells.new ≡
        table.step image.now (standing place (tops depth stack.old) cells.old) }
    ensures kept { KeepsAtEnd result cells.old cells.new }
    ensures long { length stack.new ≡ STACK_ROOM }
    ensures ready { IsReadyAfter image.now result stack.new cells.new }
{
    execute::<DEFAULT>(image, code[place], place, stack, depth, cells)
}

/// Runs the code from a place, with an empty stack, until it returns, traps or is out of fuel.
#[tactic(auto, using(crate::proofs::Steps::in_default_range, crate::proofs::Steps::in_other_range))]
pub fn run(image: &Image, start: usize, stack: &mut [i64], cells: &mut [i64], fuel: u64) -> CallEnd
    requires long { length stack.old ≡ STACK_ROOM }
    requires ready { IsReady image.now (standing start [] cells.old) }
    ensures ends { EndsWith image.now fuel (standing start [] cells.old) result cells.new }
    ensures kept { AreCells image.now cells.new }
    ensures long { length stack.new ≡ STACK_ROOM }
{
    if image.int_max() == DEFAULT_MAX {
        run_in::<true>(image, start, stack, cells, fuel)
    } else {
        run_in::<false>(image, start, stack, cells, fuel)
    }
}

// The same in the range that is said.
fn run_in<const DEFAULT: bool>(
    image: &Image,
    start: usize,
    stack: &mut [i64],
    cells: &mut [i64],
    fuel: u64,
) -> CallEnd
    requires greatest { HasRange image.now DEFAULT }
    requires long { length stack.old ≡ STACK_ROOM }
    requires ready { IsReady image.now (standing start [] cells.old) }
    ensures ends { EndsWith image.now fuel (standing start [] cells.old) result cells.new }
    ensures kept { AreCells image.now cells.new }
    ensures long { length stack.new ≡ STACK_ROOM }
{
    let code = image.code.as_slice();
    let mut place = start;
    let mut depth = 0;
    let mut steps = 0;
    while steps < fuel {
        match step::<DEFAULT>(image, code, place, stack, depth, cells) {
            Flow::Next {
                place: next,
                depth: deep,
            } => {
                place = next;
                depth = deep;
                steps += 1;
            }
            Flow::Return => return CallEnd::Done { steps: steps + 1 },
            Flow::Trapped(kind) => {
                return CallEnd::Trap {
                    kind,
                    at: place as u32,
                    steps,
                };
            }
        }
    }
    CallEnd::OutOfFuel
}
