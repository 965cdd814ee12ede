//! A machine with its cells.
ghost use Rattle.std.specs.Prelude.{◌≡◌, ◌↔◌, IfOk, IsTrue, length, true, false};
ghost use Rattle.bk_code.specs.Checks.{IsChecked};
ghost use Rattle.bk_code.specs.Laws.{AreCells};
ghost use Rattle.bk_code.specs.Session.{first_start};
ghost use Rattle.bk_vm.specs.Ends.{EndsWith, CallEndsWith, is_stop};
ghost use Rattle.bk_vm.specs.State.{fresh, IsMachine, TakesCall};

use crate::CallEnd;
use crate::execute::run;
use crate::operation::run_operation;
use bk_code::{Image, Memory};
use bk_limits::STACK_ROOM;
use std::alloc::Global;
use std::marker::Model;

/// A machine that runs the code of one image. Its cells stay as they are between calls. Only `new` takes memory.
#[derive(Drop)]
pub struct Machine {
    image: Image,
    cells: Vec<i64>,
    stack: Vec<i64>,
    started: bool,
    stopped: bool,
}

impl Model for Machine {
    ghost use Rattle.std.specs.Prelude.{◌≡◌, length};
    ghost use Rattle.bk_limits.specs.declared.TheConstants.{STACK_ROOM};
    ghost use Rattle.bk_vm.specs.State.{State, IsMachine};

    ghost Value = { State };

    ghost view = { λ m. record { image = m.image; cells = m.cells.items; started = m.started; stopped = m.stopped } };

    ghost invariant = { λ m. IsMachine m.image m.cells.items m.started × (length m.stack.items ≡ STACK_ROOM) };
}

impl Machine {
    /// A machine for this image before its initialisation.
    pub fn new(alloc: Global, image: Image) -> Result<Machine, Memory>
        requires { IsChecked image }
        ensures { IfOk result (λ m. m ≡ fresh image) }
    {
        let cells = vec![in alloc; 0i64; image.cells as usize]?;
        let stack = vec![in alloc; 0i64; STACK_ROOM]?;
        Ok(Machine {
            image,
            cells,
            stack,
            started: false,
            stopped: false,
        })
    }

    /// Runs the initialisation, with so many steps at most.
    pub fn start(&mut self, fuel: u64) -> CallEnd
        requires { self.old.started ≡ false }
        ensures ends { EndsWith self.old.image fuel (first_start self.old.image) result self.new.cells }
        ensures image { self.new.image ≡ self.old.image }
        ensures started { self.new.started ≡ true }
        ensures stopped { self.new.stopped ≡ is_stop result }
        ensures cells { AreCells self.new.image self.new.cells }
    {
        let end = run(&self.image, 0, &mut self.stack, &mut self.cells, fuel);
        self.started = true;
        self.stopped = end.is_stop();
        end
    }

    /// Calls an operation by its number from 0 in the image, with so many steps at most. The outputs are written where
    /// the call is done, and else left alone.
    pub fn call(&mut self, op: u32, args: &[i64], outs: &mut [i64], fuel: u64) -> CallEnd
        requires started { self.old.started ≡ true }
        requires runs { self.old.stopped ≡ false }
        requires takes { TakesCall self.old.image op args.now (length outs.old) }
        ensures ends { CallEndsWith self.old.image op args.now fuel self.old.cells outs.old result self.new.cells outs.new }
        ensures image { self.new.image ≡ self.old.image }
        ensures started { self.new.started ≡ true }
        ensures stopped { self.new.stopped ≡ is_stop result }
        ensures cells { AreCells self.new.image self.new.cells }
    {
        let end = run_operation(
            &self.image,
            op,
            args,
            outs,
            &mut self.stack,
            &mut self.cells,
            fuel,
        );
        self.stopped = end.is_stop();
        end
    }

    /// Whether the initialisation has run.
    pub fn is_started(&self) -> bool
        ensures { IsTrue result ↔ (self.now.started ≡ true) }
    {
        self.started
    }

    /// Whether a trap or want of fuel has stopped the machine.
    pub fn is_stopped(&self) -> bool
        ensures { IsTrue result ↔ (self.now.stopped ≡ true) }
    {
        self.stopped
    }

    /// The image that was given to `new`.
    pub fn image(&self) -> &Image
        ensures image { result.now ≡ self.now.image }
        ensures whole { IsMachine self.now.image self.now.cells self.now.started }
    {
        &self.image
    }
}
