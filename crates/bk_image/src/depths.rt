//! The depth of the stack at each place of the code.
ghost use Rattle.std.specs.Prelude.{◌≡◌, ◌<◌, ◌≤◌, ◌+◌, ◌*◌, ◌^◌, ℕ, ℤ, pos, ◌+ℤ◌, ◌≤ℤ◌, unsigned_abs, length, IfSome, Some, None, OnOk};
ghost use Rattle.std.specs.Prelude.{IfOk, List, [], All, IsTrue, true, false, slice_index_or, ◌⊎◌, ◌↔◌, MatchBool, MatchOption};
ghost use Rattle.bk_code.specs.Checks as checks;
ghost use Rattle.bk_image.specs.declared.depths.Depth.TheVariants.{One, Unknown};
ghost use Rattle.bk_code.specs.Numbers.{IsWithin};
ghost use Rattle.bk_image.specs.Progress as progress;
ghost use Rattle.bk_image.specs.Progress.{HasPlaceAsTarget, IsProgress, IsProgressBut, At};
ghost use Rattle.std.specs.List.{flat_map};
ghost use Rattle.bk_image.specs.Spelling as spell;
ghost use Rattle.bk_image.specs.Stack as stack;
ghost use Rattle.bk_image.specs.Judging.{IsFirstWrong};

use crate::numbers::{code_begin, inst_size};
use bk_code::{Image, Inst, Memory};
use bk_limits::STACK_ROOM;
use std::alloc::Global;

/// The deepest that the stack may be, as depths are counted here.
const DEEPEST: i64 = STACK_ROOM as i64;

/// What is known of the depth of the stack at a place: nothing, one number, or that it is more than one.
#[derive(Clone, Copy)]
pub enum Depth {
    Unknown,
    One(i64),
    Many,
}

/// What is known of each place, and the places from which control still has to be followed.
#[derive(Drop)]
pub struct Depths {
    pub known: Vec<Depth>,
    pub work: Vec<usize>,
}

fn pops(inst: Inst) -> u32
    ensures value { result ≡ checks.pops inst }
    ensures few { result ≤ 2 }
{
    match inst {
        Inst::Push(_) | Inst::Load(_) | Inst::Jump(_) | Inst::Ret => 0,
        Inst::Store(_) | Inst::ALoad { .. } | Inst::Neg | Inst::Not | Inst::JumpZero(_) => 1,
        _ => 2,
    }
}

fn pushes(inst: Inst) -> u32
    ensures value { result ≡ checks.pushes inst }
    ensures few { result ≤ 1 }
{
    match inst {
        Inst::Store(_) | Inst::AStore { .. } | Inst::Jump(_) | Inst::JumpZero(_) | Inst::Ret => 0,
        _ => 1,
    }
}

fn depth_after(inst: Inst, depth: i64) -> i64
    requires { IsWithin (pos (2 ^ 40)) depth }
    ensures { result ≡ stack.depth_after inst depth }
{
    depth - i64::from(pops(inst)) + i64::from(pushes(inst))
}

// What is known after an instruction.
fn after(inst: Inst, depth: Depth) -> Depth
    requires { (d : ℤ) → depth ≡ One d → IsWithin (pos (2 ^ 40)) d }
    ensures { result ≡ progress.after inst depth }
{
    match depth {
        Depth::Unknown => Depth::Unknown,
        Depth::One(d) => Depth::One(depth_after(inst, d)),
        Depth::Many => Depth::Many,
    }
}

// What is known once another depth came, if that is more than before.
fn raised(have: Depth, new: Depth) -> Option<Depth>
    ensures { result ≡ progress.raised have new }
{
    match have {
        Depth::Many => None,
        Depth::Unknown => match new {
            Depth::Unknown => None,
            _ => Some(new),
        },
        Depth::One(d) => match new {
            Depth::Unknown => None,
            Depth::One(e) if d == e => None,
            _ => Some(Depth::Many),
        },
    }
}

fn next_of(inst: Inst, at: usize) -> Option<usize>
    requires { at < 2 ^ 32 }
    ensures { result ≡ progress.next_of inst at }
{
    match inst {
        Inst::Jump(_) | Inst::Ret => None,
        _ => Some(at + 1),
    }
}

fn target_of(inst: Inst, at: usize) -> Option<usize>
    requires place { at < 2 ^ 32 }
    requires from_zero { HasPlaceAsTarget inst at }
    ensures { result ≡ progress.target_of inst at }
{
    match inst {
        Inst::Jump(distance) => Some(target(at, distance)),
        Inst::JumpZero(distance) => Some(target(at, distance)),
        _ => None,
    }
}

fn target(at: usize, distance: i32) -> usize
    requires place { at < 2 ^ 32 }
    requires from_zero { pos 0 ≤ℤ (pos at +ℤ distance) }
    ensures { result ≡ unsigned_abs (pos at +ℤ distance) }
{
    (at as i64 + i64::from(distance)) as usize
}

fn mark(reached: &mut [bool], place: Option<usize>)
    requires { IfSome place (λ to. to < length reached.old) }
    ensures { reached.new ≡ progress.marked reached.old place }
{
    if let Some(to) = place {
        reached[to] = true;
    }
}

// Marks where control may go from a place.
fn mark_from(reached: &mut [bool], image: &Image, at: usize)
    requires numbered { checks.IsNumbered image.now }
    requires long { length reached.old ≡ length image.now.code }
    requires place { at < length image.now.code }
    ensures before { (to : ℕ) → slice_index_or reached.old to false ≡ true →
        slice_index_or reached.new to false ≡ true }
    ensures some { (to : ℕ) → slice_index_or reached.new to false ≡ true
        → (slice_index_or reached.old to false ≡ true) ⊎ checks.Passes image.now at to }
    ensures all { (to : ℕ) → checks.Passes image.now at to → slice_index_or reached.new to false ≡ true }
{
    let inst = image.code.as_slice()[at];
    mark(reached, next_of(inst, at));
    mark(reached, target_of(inst, at));
}

// The places that control may go to.
fn reached(alloc: Global, image: &Image) -> Result<Vec<bool>, Memory>
    requires { checks.IsNumbered image.now }
    ensures { IfOk result (λ flags. progress.AreReached image.now flags.items) }
{
    let count = image.code.as_slice().len();
    let mut reached = vec![in alloc; false; count]?;
    for at in 0..count {
        mark_from(&mut reached, image, at);
    }
    Ok(reached)
}

impl Depths {
    // A depth comes to a place.
    fn flow(&mut self, new: Depth, to: usize) -> Result<(), Memory>
        requires { to < length self.old.known.items }
        ensures { OnOk result (progress.progress self.new ≡ progress.flowed (progress.progress self.old) new to) }
    {
        if let Some(depth) = raised(self.known[to], new) {
            self.known[to] = depth;
            self.work.push(to)?;
        }
        Ok(())
    }

    // Follows the instruction at a place.
    fn follow(&mut self, inst: Inst, at: usize) -> Result<(), Memory>
        requires small { length self.old.known.items < 2 ^ 32 }
        requires place { at < length self.old.known.items }
        requires near { (d : ℤ) → progress.depth_at self.old.known.items at ≡ One d → IsWithin (pos (2 ^ 40)) d }
        requires from_zero { HasPlaceAsTarget inst at }
        requires next { IfSome (progress.next_of inst at) (λ to. to < length self.old.known.items) }
        requires target { IfSome (progress.target_of inst at) (λ to. to < length self.old.known.items) }
        ensures { OnOk result (progress.progress self.new ≡ progress.followed (progress.progress self.old) inst at) }
    {
        let new = after(inst, self.known[at]);
        if let Some(to) = next_of(inst, at) {
            self.flow(new, to)?;
        }
        if let Some(to) = target_of(inst, at) {
            self.flow(new, to)?;
        }
        Ok(())
    }

    // Follows the instruction at a place of an image's code.
    fn follow_place(&mut self, image: &Image, at: usize) -> Result<(), Memory>
        requires numbered { checks.IsNumbered image.now }
        requires place { at < length image.now.code }
        requires progress { (limit : ℕ) × IsProgressBut image.now limit (progress.progress self.old) (At at) }
        ensures progress { OnOk result ((limit : ℕ) → IsProgressBut image.now limit (progress.progress self.old) (At at)
            → IsProgress image.now limit (progress.progress self.new)) }
        ensures grown { OnOk result (progress.IsGrown self.old.known.items self.new.known.items) }
        ensures left { OnOk result (progress.left (progress.progress self.new) ≤ progress.left
            (progress.progress self.old)) }
    {
        self.follow(image.code.as_slice()[at], at)
    }

    // Follows all that waits.
    fn run(&mut self, image: &Image) -> Result<(), Memory>
        requires numbered { checks.IsNumbered image.now }
        requires progress { (limit : ℕ) × IsProgress image.now limit (progress.progress self.old) }
        ensures progress { OnOk result ((limit : ℕ) → IsProgress image.now limit (progress.progress self.old)
            → IsProgress image.now limit (progress.progress self.new)) }
        ensures done { OnOk result (self.new.work.items ≡ []) }
        ensures grown { OnOk result (progress.IsGrown self.old.known.items self.new.known.items) }
    {
        while let Some(at) = self.work.pop() {
            self.follow_place(image, at)?;
        }
        Ok(())
    }

    // The place has depth 0 from the start.
    fn start(&mut self, at: usize) -> Result<(), Memory>
        requires { at < length self.old.known.items }
        ensures progress { OnOk result ((image : Image) (limit : ℕ) →
            IsProgress image limit (progress.progress self.old)
            → progress.IsKnown image limit at (One (pos 0)) → IsProgress image limit (progress.progress self.new)) }
        ensures grown { OnOk result (progress.IsGrown self.old.known.items self.new.known.items) }
        ensures covered { OnOk result (progress.Covers (progress.depth_at self.new.known.items at) (One (pos 0))) }
    {
        self.flow(Depth::One(0), at)
    }

    // The depth is 0 where nothing reaches the place.
    fn start_unreached(&mut self, image: &Image, reached: &[bool]) -> Result<(), Memory>
        requires progress { IsProgress image.now 0 (progress.progress self.old) }
        requires reached { progress.AreReached image.now reached.now }
        ensures progress { OnOk result (IsProgress image.now 0 (progress.progress self.new)) }
        ensures grown { OnOk result (progress.IsGrown self.old.known.items self.new.known.items) }
        ensures covered { OnOk result (progress.AreStartedBelow reached.now (length reached.now) self.new.known.items) }
    {
        for at in 0..reached.len() {
            if !reached[at] {
                self.start(at)?;
            }
        }
        Ok(())
    }

    // The depth is 0 where an operation starts.
    fn start_entries(&mut self, image: &Image) -> Result<(), Memory>
        requires numbered { checks.IsNumbered image.now }
        requires progress { IsProgress image.now 0 (progress.progress self.old) }
        ensures progress { OnOk result (IsProgress image.now 0 (progress.progress self.new)) }
        ensures grown { OnOk result (progress.IsGrown self.old.known.items self.new.known.items) }
        ensures covered { OnOk result (progress.EntriesStartBelow image.now
            (length image.now.ops) self.new.known.items) }
    {
        for entry in image.ops.as_slice() {
            self.start(entry.start as usize)?;
        }
        Ok(())
    }

    // Each root has depth 0.
    fn start_roots(&mut self, alloc: Global, image: &Image) -> Result<(), Memory>
        requires numbered { checks.IsNumbered image.now }
        requires progress { IsProgress image.now 0 (progress.progress self.old) }
        ensures progress { OnOk result (IsProgress image.now 0 (progress.progress self.new)) }
        ensures started { OnOk result (progress.AreRootsStarted image.now self.new.known.items) }
    {
        let reached = reached(alloc, image)?;
        self.start(0)?;
        self.start_entries(image)?;
        self.start_unreached(image, &reached)?;
        Ok(())
    }

    fn is_unknown(&self, at: usize) -> bool
        requires { at < length self.now.known.items }
        ensures { IsTrue result ↔ (progress.depth_at self.now.known.items at ≡ Unknown) }
    {
        matches!(self.known[at], Depth::Unknown)
    }

    // The smallest place whose depth follows from no other has depth 0, and so on.
    fn open(&mut self, image: &Image) -> Result<(), Memory>
        requires numbered { checks.IsNumbered image.now }
        requires settled { progress.IsSettled image.now 0 (progress.progress self.old) }
        ensures { OnOk result (progress.IsSettled image.now (length image.now.code) (progress.progress self.new)) }
    {
        for at in 0..image.code.as_slice().len() {
            if self.is_unknown(at) {
                self.start(at)?;
                self.run(image)?;
            }
        }
        Ok(())
    }
}

// The depths that the flows of control give to the places.
fn settled(alloc: Global, image: &Image) -> Result<Depths, Memory>
    requires { checks.IsNumbered image.now }
    ensures { IfOk result (λ d. progress.IsSettled image.now (length image.now.code) (progress.progress d)) }
{
    let known = vec![in alloc; Depth::Unknown; image.code.as_slice().len()]?;
    let work = Vec::new(alloc);
    let mut depths = Depths { known, work };
    depths.start_roots(alloc, image)?;
    depths.run(image)?;
    depths.open(image)?;
    Ok(depths)
}

// Whether an instruction may stand at a depth.
fn is_allowed(inst: Inst, depth: i64) -> bool
    ensures { MatchBool result (stack.IsAllowed inst depth) (stack.BreaksRules inst depth) }
{
    let popped = i64::from(pops(inst));
    if popped > 0 && depth < popped {
        return false;
    }
    if depth > DEEPEST {
        return false;
    }
    match inst {
        Inst::Ret => depth == 0,
        _ => true,
    }
}

fn is_right(inst: Inst, depth: Depth) -> bool
    ensures { MatchBool result (progress.IsRight inst depth) (progress.IsWrong inst depth) }
{
    match depth {
        Depth::One(d) => is_allowed(inst, d),
        _ => false,
    }
}

// The byte of the first instruction whose depth is not one number or breaks the rules. The code begins at the byte `at`.
fn wrong_place(depths: &Depths, image: &Image, at: usize) -> Option<usize>
    requires long { length depths.now.known.items ≡ length image.now.code }
    requires room { at + length (flat_map spell.inst image.now.code) < 2 ^ 64 }
    ensures { MatchOption result (progress.AreRight image.now.code depths.now.known.items (length image.now.code))
        (IsFirstWrong image.now depths.now.known.items at) }
{
    let mut place = at;
    for (from, inst) in image.code.as_slice().iter().enumerate() {
        if !is_right(*inst, depths.known[from]) {
            return Some(place);
        }
        place += inst_size(*inst);
    }
    None
}

/// The byte of the first instruction where the depth of the stack is not one number or breaks the rules.
pub fn stack_fault(alloc: Global, image: &Image) -> Result<Option<usize>, Memory>
    requires numbered { checks.IsNumbered image.now }
    requires room { length (spell.spelling image.now) < 2 ^ 64 }
    ensures { IfOk result (λ place. MatchOption place (checks.IsLoadable image.now)
        (stack.IsFirstStackFault image.now)) }
{
    let depths = settled(alloc, image)?;
    Ok(wrong_place(&depths, image, code_begin(image)))
}
