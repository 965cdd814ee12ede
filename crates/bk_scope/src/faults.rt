// The fault of one place, where a test tells whether it is there.

ghost use Rattle.std.specs.Prelude.{◌≡◌, ◌∷◌, [], cond};
ghost use Rattle.bk_raw.specs.Meaning.Outcome.{no_type};
ghost use Rattle.bk_raw.specs.Errors.Blame.{blame};
ghost use Rattle.bk_raw.specs.Errors.Faults.{twice_named, unknown_name, wrong_write, wrong_value};
ghost use Rattle.bk_elab_terms.specs.Shown.{told};

use bk_elab_terms::{Fault, no_type};
use bk_raw::FaultKind;

// The fault of this kind at a byte.
fn fault_at(kind: FaultKind, place: usize) -> Option<Fault>
    ensures { told result ≡ blame ((kind, place) ∷ []) }
{
    Some(Fault { kind, place })
}

// The fault of a name that stands twice, where it does.
pub fn second_if(holds: bool, at: usize) -> Option<Fault>
    ensures { told result ≡ blame (cond holds (twice_named at ∷ []) []) }
{
    if holds {
        fault_at(FaultKind::TwiceNamed, at)
    } else {
        None
    }
}

// The fault of a wrong write.
pub fn wrong_write(at: usize) -> Option<Fault>
    ensures { told result ≡ blame (wrong_write at ∷ []) }
{
    fault_at(FaultKind::WrongWrite, at)
}

// The fault of a wrong write, where it is one.
pub fn wrong_write_if(holds: bool, at: usize) -> Option<Fault>
    ensures { told result ≡ blame (cond holds (wrong_write at ∷ []) []) }
{
    if holds { wrong_write(at) } else { None }
}

// The fault of a name that is not in scope.
pub fn unknown_name(at: usize) -> Option<Fault>
    ensures { told result ≡ blame (unknown_name at ∷ []) }
{
    fault_at(FaultKind::UnknownName, at)
}

// The fault of a wrong value, where it is one.
pub fn wrong_value_if(holds: bool, at: usize) -> Option<Fault>
    ensures { told result ≡ blame (cond holds (wrong_value at ∷ []) []) }
{
    if holds {
        fault_at(FaultKind::WrongValue, at)
    } else {
        None
    }
}

// The fault of a wrong value, unless it is right.
pub fn wrong_value_unless(holds: bool, at: usize) -> Option<Fault>
    ensures { told result ≡ blame (cond holds [] (wrong_value at ∷ [])) }
{
    if holds {
        None
    } else {
        fault_at(FaultKind::WrongValue, at)
    }
}

// The fault of what has no type, unless it has one.
pub fn no_type_unless(holds: bool, at: usize) -> Option<Fault>
    ensures { told result ≡ blame (cond holds [] (no_type at)) }
{
    if holds { None } else { no_type(at) }
}
