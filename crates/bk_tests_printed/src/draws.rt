// Numbers drawn from a seed.

ghost use Rattle.std.specs.Prelude.{◌<◌};

/// Numbers that look random and depend on the seed alone: the states of a xorshift generator of 64 bits.
#[derive(Drop)]
pub(crate) struct Draws {
    state: u64,
}

impl Draws {
    /// The numbers of a seed.
    pub(crate) fn new(seed: u64) -> Draws {
        Draws {
            state: seed ^ 0x9E37_79B9_7F4A_7C15,
        }
    }

    /// The next number below `count`.
    pub(crate) fn below(&mut self, count: u64) -> u64
        requires { 0 < count }
        ensures { result < count }
    {
        self.state ^= self.state << 13;
        self.state ^= self.state >> 7;
        self.state ^= self.state << 17;
        (self.state >> 11) % count
    }
}
