// Of several faults, the one that is told.

ghost use Rattle.std.specs.Prelude.{◌≡◌};
ghost use Rattle.bk_raw.specs.Errors.Blame as blamed;
ghost use Rattle.bk_elab_terms.specs.Shown.{fault_of, told};

use bk_raw::FaultKind;

/// A fault, and the byte where it stands.
#[derive(Clone, Copy, PartialEq, Eq, Debug)]
pub struct Fault {
    pub kind: FaultKind,
    pub place: usize,
}

/// The earlier of two faults, if there is one.
pub fn earlier(one: Option<Fault>, other: Option<Fault>) -> Option<Fault>
    ensures { told result ≡ blamed.earlier (told one) (told other) }
{
    match (one, other) {
        (Some(first), Some(second)) if is_before(second, first) => other,
        (Some(_), _) => one,
        (None, _) => other,
    }
}

// Whether one is told before the other: an earlier number, or the same and an earlier place.
fn is_before(one: Fault, other: Fault) -> bool
    ensures { result ≡ blamed.is_before (fault_of one) (fault_of other) }
{
    let (first, second) = (rank(one.kind), rank(other.kind));
    first < second || first == second && one.place < other.place
}

// When faults of this kind are asked.
fn rank(kind: FaultKind) -> u8
    ensures { result ≡ blamed.rank kind }
{
    match kind {
        FaultKind::NotUtf8 => 0,
        FaultKind::NoToken => 1,
        FaultKind::NoTree => 2,
        FaultKind::WrongLine => 3,
        FaultKind::WrongChain => 4,
        FaultKind::TwiceNamed => 5,
        FaultKind::UnknownName => 6,
        FaultKind::NotPredicate => 7,
        FaultKind::NoType => 8,
        FaultKind::WrongOperation => 9,
        FaultKind::WrongWrite => 10,
        FaultKind::WrongValue => 11,
        FaultKind::NotB0 => 12,
    }
}
