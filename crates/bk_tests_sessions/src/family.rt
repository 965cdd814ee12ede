// The developments of the family.

ghost use Rattle.std.specs.Prelude.{◌≡◌, IfOk, [], ◌∷◌};
ghost use Rattle.bk_dev.specs.B0.{IsB0Development};
ghost use Rattle.bk_tests_sessions.specs.Drawn.{family_machine, family_code, family, IsDrawn, IsFamily};

use crate::components::{implementation, machine};
use crate::parts::{development, header};
use crate::table::{extents, homes, table};
use bk_dev::{Development, Level};
use bk_gsl::Sub;
use bk_io::Memory;
use std::alloc::Global;

fn levels(alloc: Global, sub: Sub) -> Result<Vec<Level>, Memory>
    ensures { IfOk result (λ levels. levels.items ≡ family_machine ∷ family_code sub ∷ []) }
{
    let implementation = implementation(alloc, sub)?;
    let machine = machine(alloc)?;
    Ok(vec![in alloc; machine, implementation]?)
}

/// The development whose operation does a statement that is drawn.
#[tactic(auto, using(crate::proofs::Members::family_facts, crate::proofs::Members::family_in_b0, crate::proofs::Members::is_member))]
pub(crate) fn family(alloc: Global, sub: Sub) -> Result<Development, Memory>
    requires { IsDrawn [] 17 25 sub }
    ensures value { IfOk result (λ d. d ≡ family sub) }
    ensures b0 { IfOk result IsB0Development }
    ensures member { IfOk result IsFamily }
{
    let levels = levels(alloc, sub)?;
    let inputs = vec![in alloc; 4]?;
    let heads = header(alloc, b"step", inputs, 6)?;
    let homes = homes(alloc)?;
    let table = table(alloc)?;
    let extents = extents(alloc)?;
    Ok(development(alloc, table, homes, heads, levels, extents))
}
