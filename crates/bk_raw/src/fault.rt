// What is wrong with what is written.

ghost use Rattle.std.specs.Prelude.{◌≡◌};
ghost use Rattle.bk_raw.specs.Errors.Faults.{number_of_fault};

/// What is wrong with a file, and with a component, a substitution or a term whose tokens have a tree.
#[derive(Clone, Copy, PartialEq, Eq, Debug)]
pub enum FaultKind {
    /// Bytes are no UTF-8.
    NotUtf8,
    /// No token can begin, or one begins that does not end or is too great a number.
    NoToken,
    /// No tree has these tokens.
    NoTree,
    /// A line of a project file is not one that may stand there.
    WrongLine,
    /// A component is not of its line's kind, or does not refine the one above it.
    WrongChain,
    /// A name stands twice.
    TwiceNamed,
    /// A name is not in scope.
    UnknownName,
    /// A formula or a name has no type.
    NoType,
    /// An expression stands where a predicate has to, or the reverse, or a `<<:` within a side of another one.
    NotPredicate,
    /// A header differs, the initialisation is missing, or a substitution stands where it may not.
    WrongOperation,
    /// An implementation has something that is not B0.
    NotB0,
    /// Something is written that may not be, or twice at once.
    WrongWrite,
    /// A constant has no value, two, or not one that it may have, what is given one is no constant, or a set has no size.
    WrongValue,
}

impl FaultKind {
    /// The number under which it is told.
    pub fn number(self) -> u8
        ensures { result ≡ number_of_fault self }
    {
        match self {
            FaultKind::NotUtf8 => 1,
            FaultKind::NoToken => 2,
            FaultKind::NoTree => 3,
            FaultKind::WrongLine => 4,
            FaultKind::WrongChain => 5,
            FaultKind::TwiceNamed => 6,
            FaultKind::UnknownName => 7,
            FaultKind::NoType => 8,
            FaultKind::NotPredicate => 9,
            FaultKind::WrongOperation => 10,
            FaultKind::NotB0 => 11,
            FaultKind::WrongWrite => 12,
            FaultKind::WrongValue => 14,
        }
    }
}
