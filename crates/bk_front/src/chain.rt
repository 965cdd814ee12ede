//! Whether components stand one below the other.

ghost use Rattle.std.specs.Option.{option_copied};
ghost use Rattle.std.specs.Prelude.{◌≡◌};
ghost use Rattle.bk_front.specs.Chain as meant;

use crate::project_file::LineKind;
use bk_raw::{ComponentKind, RawComponent, RawName};

/// Whether the component may stand below this one, in the file of a line of this kind.
pub(crate) fn may_stand_below(
    above: Option<&RawComponent>,
    kind: LineKind,
    component: &RawComponent,
) -> bool
    ensures { result ≡ meant.may_stand_below (record { above = option_copied above.entry; kind = kind; component = component.now }) }
{
    is_for(kind, &component.kind) && names_above(above, &component.refines)
}

// Whether such a line is for components of this kind.
fn is_for(line: LineKind, kind: &ComponentKind) -> bool
    ensures { result ≡ meant.is_for line kind.now }
{
    match line {
        LineKind::Machine => matches!(kind, ComponentKind::Machine),
        LineKind::Refinement => matches!(kind, ComponentKind::Refinement),
        LineKind::Implementation => matches!(kind, ComponentKind::Implementation),
        LineKind::Range | LineKind::Proofs => false,
    }
}

// Whether the component above is the one that is named; with none above none is.
fn names_above(above: Option<&RawComponent>, refines: &Option<RawName>) -> bool
    ensures { result ≡ meant.names_above (option_copied above.entry) refines.now }
{
    match (above, refines) {
        (None, None) => true,
        (Some(above), Some(name)) => name.text.as_bytes() == above.name.text.as_bytes(),
        _ => false,
    }
}
