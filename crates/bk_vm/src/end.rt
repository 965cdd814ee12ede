//! How a call ends.

use bk_code::Trap;

/// How a call ends.
#[derive(Clone, Copy, PartialEq, Eq, Debug)]
pub enum CallEnd {
    /// The step with this number was a Ret, the first one.
    Done { steps: u64 },
    /// After so many steps the instruction at the place `at` trapped. It is no step.
    Trap { kind: Trap, at: u32, steps: u64 },
    /// As many steps as there was fuel, and the call goes on.
    OutOfFuel,
}

impl CallEnd {
    ghost use Rattle.std.specs.Prelude.{◌≡◌};
    ghost use Rattle.bk_vm.specs.Ends.{is_stop};

    /// Whether the machine is stopped after it.
    pub fn is_stop(self) -> bool
        ensures { result ≡ is_stop self }
    {
        !matches!(self, CallEnd::Done { .. })
    }
}
