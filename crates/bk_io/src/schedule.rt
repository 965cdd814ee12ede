// Which calls of a device are to fail: a list of their numbers, from 1.
ghost use Rattle.std.specs.Prelude.{◌≡◌, ◌↔◌, ◌+◌, ◌-◌, ◌^◌, ◌<◌, ◌≤◌, All, Contains, IsTrue, if◌then◌else◌};
ghost use Rattle.bk_io.specs.Counts.{counted};

#[derive(Drop)]
pub(crate) struct Schedule {
    failing: Vec<u64>,
    calls: u64,
    faults: u64,
    ghost numbers: { All (λ n. n < 2 ^ 64 - 1) failing.items },
    ghost some_failed: { faults ≤ calls },
    // So a count of faults that does not rise is told from one that does.
    ghost never_full: { faults < 2 ^ 64 - 1 },
}

impl Schedule {
    pub(crate) fn new(failing: Vec<u64>) -> Schedule
        requires { All (λ n. n < 2 ^ 64 - 1) failing.items }
        ensures failing { result.failing.items ≡ failing.items }
        ensures calls { result.calls ≡ 0 }
        ensures faults { result.faults ≡ 0 }
    {
        Schedule {
            failing,
            calls: 0,
            faults: 0,
        }
    }

    // Counts one more call, and answers whether it is to fail.
    pub(crate) fn fails(&mut self) -> bool
        ensures fails { IsTrue result ↔ Contains self.old.failing.items (self.old.calls + 1) }
        ensures failing { self.new.failing.items ≡ self.old.failing.items }
        ensures calls { self.new.calls ≡ counted self.old.calls }
        ensures faults { self.new.faults ≡ (if result then self.old.faults + 1 else self.old.faults) }
    {
        let number = self.calls.saturating_add(1);
        let fails = self.failing.contains(&number);
        self.calls = number;
        if fails {
            self.faults = self.faults.saturating_add(1);
        }
        fails
    }
}
