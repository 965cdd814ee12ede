//! How far obligations are proved.

/// How far an obligation is proved. Rules number from 1.
#[derive(Clone, Copy, PartialEq, Eq, Debug)]
pub enum State {
    /// It needs no proof.
    Obvious,
    /// Its script proves it.
    Proved,
    /// It needs a proof, and no script has its name.
    NoScript,
    /// That rule of its script is no step.
    BadStep(u32),
    /// Its script leaves so many sequents.
    Open(u32),
    /// Nothing is left to prove before that rule of its script.
    Extra(u32),
}
