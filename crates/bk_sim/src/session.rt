//! A session over the translation of a development.

ghost use Rattle.std.specs.Prelude.{◌≡◌, IfOk, length, true, false};
ghost use Rattle.bk_b0.specs.Translation.{translation};
ghost use Rattle.bk_code.specs.Checks.{IsChecked};
ghost use Rattle.bk_code.specs.Laws.{AreCells};
ghost use Rattle.bk_code.specs.Session.{first_start};
ghost use Rattle.bk_vm.specs.Ends.{EndsWith, CallEndsWith, is_stop};
ghost use Rattle.bk_vm.specs.State.{fresh, IsMachine, TakesCall};

use bk_code::{Image, Memory};
use bk_dev::Development;
use bk_vm::{CallEnd, Machine};
use std::alloc::Global;
use std::marker::Model;

/// A machine that runs the translation of a development. Only `new` takes memory.
#[derive(Drop)]
pub struct Session {
    machine: Machine,
}

impl Model for Session {
    ghost use Rattle.bk_vm.specs.State.{State};

    ghost Value = { State };

    ghost view = { λ s. s.machine };
}

impl Session {
    /// A session before its initialisation.
    pub fn new(alloc: Global, image: Image, dev: &Development) -> Result<Session, Memory>
        requires translated { image ≡ translation dev.now }
        requires checked { IsChecked image }
        ensures { IfOk result (λ s. s ≡ fresh image) }
    {
        let _ = dev;
        Ok(Session {
            machine: Machine::new(alloc, image)?,
        })
    }

    /// Runs the initialisation, with so many steps at most.
    pub fn start(&mut self, fuel: u64) -> CallEnd
        requires { self.old.started ≡ false }
        ensures ends { EndsWith self.old.image fuel (first_start self.old.image) result self.new.cells }
        ensures image { self.new.image ≡ self.old.image }
        ensures started { self.new.started ≡ true }
        ensures stopped { self.new.stopped ≡ is_stop result }
        ensures cells { AreCells self.new.image self.new.cells }
    {
        self.machine.start(fuel)
    }

    /// Calls an operation by its number from 0 in the image, with so many steps at most. The outputs are written where
    /// the call is done, and else left alone.
    pub fn call(&mut self, op: u32, args: &[i64], outs: &mut [i64], fuel: u64) -> CallEnd
        requires started { self.old.started ≡ true }
        requires runs { self.old.stopped ≡ false }
        requires takes { TakesCall self.old.image op args.now (length outs.old) }
        ensures ends { CallEndsWith self.old.image op args.now fuel self.old.cells outs.old result self.new.cells outs.new }
        ensures image { self.new.image ≡ self.old.image }
        ensures started { self.new.started ≡ true }
        ensures stopped { self.new.stopped ≡ is_stop result }
        ensures cells { AreCells self.new.image self.new.cells }
    {
        self.machine.call(op, args, outs, fuel)
    }

    /// The image that was given to `new`.
    pub fn image(&self) -> &Image
        ensures image { result.now ≡ self.now.image }
        ensures whole { IsMachine self.now.image self.now.cells self.now.started }
    {
        self.machine.image()
    }
}
