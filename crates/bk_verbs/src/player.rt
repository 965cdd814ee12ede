//! What runs the calls of a session.

ghost use Rattle.std.specs.Prelude.{◌≡◌, IfOk, length, true, false};
ghost use Rattle.bk_b0.specs.Translation.{translation};
ghost use Rattle.bk_code.specs.Checks.{IsChecked};
ghost use Rattle.bk_code.specs.Laws.{AreCells};
ghost use Rattle.bk_code.specs.Session.{first_start};
ghost use Rattle.bk_vm.specs.Ends.{EndsWith, CallEndsWith, is_stop};
ghost use Rattle.bk_vm.specs.State.{fresh, TakesCall};

use bk_code::{Image, Memory};
use bk_dev::Development;
use bk_sim::Session;
use bk_vm::{CallEnd, Machine};
use std::alloc::Global;
use std::marker::Model;

/// What runs the initialisation and the calls of a session: the code of a project, or that of an image. Only what makes one takes memory.
#[derive(Drop)]
pub struct Player {
    runner: Runner,
}

#[derive(Drop)]
enum Runner {
    Project(Session),
    Image(Machine),
}

impl Model for Player {
    ghost use Rattle.bk_vm.specs.State.{State};
    ghost use Rattle.bk_verbs.specs.Player.{running};

    ghost Value = { State };

    ghost view = { λ p. running p.runner };
}

impl Player {
    /// A session over the translation of a project, before its initialisation.
    pub(crate) fn of_project(
        alloc: Global,
        image: Image,
        dev: &Development,
    ) -> Result<Player, Memory>
        requires translated { image ≡ translation dev.now }
        requires checked { IsChecked image }
        ensures { IfOk result (λ p. p ≡ fresh image) }
    {
        Ok(Player {
            runner: Runner::Project(Session::new(alloc, image, dev)?),
        })
    }

    /// A machine over an image, before its initialisation.
    pub(crate) fn of_image(alloc: Global, image: Image) -> Result<Player, Memory>
        requires { IsChecked image }
        ensures { IfOk result (λ p. p ≡ fresh image) }
    {
        Ok(Player {
            runner: Runner::Image(Machine::new(alloc, image)?),
        })
    }

    /// Runs the initialisation, with so many steps at most.
    pub(crate) fn start(&mut self, fuel: u64) -> CallEnd
        requires { self.old.started ≡ false }
        ensures ends { EndsWith self.old.image fuel (first_start self.old.image) result self.new.cells }
        ensures image { self.new.image ≡ self.old.image }
        ensures started { self.new.started ≡ true }
        ensures stopped { self.new.stopped ≡ is_stop result }
        ensures cells { AreCells self.new.image self.new.cells }
    {
        match &mut self.runner {
            Runner::Project(session) => session.start(fuel),
            Runner::Image(machine) => machine.start(fuel),
        }
    }

    /// Calls an operation by its number from 0 in the image, with so many steps at most. The outputs are written where
    /// the call is done, and else left alone.
    pub(crate) fn call(&mut self, op: u32, args: &[i64], outs: &mut [i64], fuel: u64) -> CallEnd
        requires started { self.old.started ≡ true }
        requires runs { self.old.stopped ≡ false }
        requires takes { TakesCall self.old.image op args.now (length outs.old) }
        ensures ends { CallEndsWith self.old.image op args.now fuel self.old.cells outs.old result self.new.cells outs.new }
        ensures image { self.new.image ≡ self.old.image }
        ensures started { self.new.started ≡ true }
        ensures stopped { self.new.stopped ≡ is_stop result }
        ensures cells { AreCells self.new.image self.new.cells }
    {
        match &mut self.runner {
            Runner::Project(session) => session.call(op, args, outs, fuel),
            Runner::Image(machine) => machine.call(op, args, outs, fuel),
        }
    }

    /// The image whose code it runs.
    pub(crate) fn image(&self) -> &Image
        ensures { result.now ≡ self.now.image }
    {
        match &self.runner {
            Runner::Project(session) => session.image(),
            Runner::Image(machine) => machine.image(),
        }
    }
}
