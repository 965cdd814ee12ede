// What a component is, and where a variable is at home.

/// What a level is: the machine at the top, a refinement below it, or the implementation at the bottom.
#[derive(Clone, Copy, PartialEq, Eq, Debug)]
pub enum Kind {
    Machine,
    Refinement,
    Implementation,
}

/// Where a variable is at home. Levels count from 0, the machine's.
#[derive(Clone, Copy, PartialEq, Eq, Debug)]
pub enum Home {
    /// A constant of the development.
    Constant,
    /// An input of an operation, the same at every level.
    Input,
    /// An abstract variable of this level.
    Abstract(u32),
    /// A concrete variable of this level; a level below has it again, under a number of its own.
    Concrete(u32),
    /// An output, a local or a bound variable of this level.
    Inner(u32),
}
