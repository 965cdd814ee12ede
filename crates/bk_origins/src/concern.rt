//! Kinds of obligations.

ghost use Rattle.std.specs.Prelude.{◌≡◌};
ghost use Rattle.bk_origins.specs.Concerns.{concern_of, concern_by, dots, behind_dot};

/// What kind of obligation it is, by its clause.
#[derive(Clone, Copy, PartialEq, Eq, Debug)]
pub enum Concern {
    Initialisation,
    /// That an operation preserves the invariant, and refines the one above.
    Operation,
    Assertion,
    /// That the values of constants meet the properties.
    Values,
    /// That what is stated is defined, and that what is executed fits the machine.
    Definedness,
    /// Of no clause that is known.
    Other,
}

/// The kind of the obligation with this name.
pub fn concern_of(name: &[u8]) -> Concern
    ensures { result ≡ concern_of name.now }
{
    match dots(name) {
        2 => concern_by(behind_dot(name)),
        3 => Concern::Definedness,
        _ => Concern::Other,
    }
}

// How many dots a name has.
fn dots(name: &[u8]) -> usize
    ensures { result ≡ dots name.now }
{
    name.iter().filter(|byte| **byte == b'.').count()
}

// What stands after the first one.
fn behind_dot(name: &[u8]) -> &[u8]
    ensures { result.now ≡ behind_dot name.now }
{
    for index in 0..name.len() {
        if name[index] == b'.' {
            return &name[index + 1..];
        }
    }
    &[]
}

// The kind of what is named by a clause, CLAUSE.number.
fn concern_by(clause: &[u8]) -> Concern
    ensures { result ≡ concern_by clause.now }
{
    if clause.starts_with(b"INITIALISATION.") {
        return Concern::Initialisation;
    }
    if clause.starts_with(b"ASSERTIONS.") {
        return Concern::Assertion;
    }
    if clause.starts_with(b"VALUES.") {
        return Concern::Values;
    }
    Concern::Operation
}
