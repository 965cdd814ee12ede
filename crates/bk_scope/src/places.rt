// Where names are declared.

ghost use Rattle.std.specs.Prelude.{◌≡◌};
ghost use Rattle.bk_statics.specs.ClauseFaults as meant;
ghost use Rattle.bk_scope.specs.Shown.{variables_shown};

use crate::component::Component;
use crate::plan::Declared;

// Where a variable is declared, or else the place of the component's name.
pub fn place_of(component: &Component<'_>, variable: Declared<'_>) -> usize
    ensures { result ≡ meant.place_or component.now.name.now.at
        (meant.declared_at (variables_shown component.now.variables.items) variable.entry.text.now) }
{
    for written in &component.variables {
        if written.name.text.as_bytes() == variable.text {
            return written.name.at;
        }
    }
    component.name.at
}
