//! The code of a project's implementation, within its limits.

ghost use Rattle.std.specs.Prelude.{◌≡◌, ◌⊎◌, ◌<◌, ◌≤◌, length, Err, IfOk, IfErr};
ghost use Rattle.bk_code.specs.Checks.{IsLoadable};
ghost use Rattle.bk_image.specs.Spelling.{HasSpelling};
ghost use Rattle.bk_b0.specs.Translation.{translation};
ghost use Rattle.bk_dev.specs.B0.{IsB0Development};
ghost use Rattle.bk_gen.specs.declared.error.GenFault.TheVariants.{CodeTooLong, TooManyCells};
ghost use Rattle.bk_verbs.specs.declared.stop.Stop.TheVariants.{Memory};
ghost use Rattle.bk_verbs.specs.Causes.{IsOfChecks};
ghost use Rattle.bk_verbs.specs.Project.{IsWithinCodeLimits};
ghost use Rattle.bk_verbs.specs.Stops.{HasTooManyCells, IsOutside, StopsPastCode, stop_of_code};

use crate::files::owned;
use crate::stop::Stop;
use bk_b0::b0;
use bk_code::Image;
use bk_dev::Development;
use bk_gen::{GenFault, translate};
use bk_limits::{MOST_CELLS, MOST_INSTRUCTIONS};
use std::alloc::Global;

/// The number of the limit of instructions.
const LIMIT_OF_CODE: u8 = 9;

/// The number of the limit of memory cells, past which also an image without a spelling counts.
const LIMIT_OF_CELLS: u8 = 10;

/// The image of a development's implementation, which has a spelling. The name is that of the project's file.
pub(crate) fn image_of(alloc: Global, name: &str, dev: &Development) -> Result<Image, Stop>
    requires { IsB0Development dev.now }
    ensures cause { IfErr result (λ stop. IsOutside stop ⊎ StopsPastCode name.now (translation dev.now) stop) }
    ensures checks { IfErr result IsOfChecks }
    ensures ok { IfOk result (λ image. image ≡ translation dev.now) }
    ensures loadable { IfOk result IsLoadable }
    ensures within { IfOk result IsWithinCodeLimits }
{
    match translated(alloc, dev) {
        Ok(image) => Ok(image),
        Err(fault) => Err(past_limit(alloc, fault, name)?),
    }
}

// The image of a development's implementation, unless it passes a limit.
fn translated(alloc: Global, dev: &Development) -> Result<Image, GenFault>
    requires { IsB0Development dev.now }
    ensures ok { IfOk result (λ image. image ≡ translation dev.now) }
    ensures loadable { IfOk result IsLoadable }
    ensures spelled { IfOk result HasSpelling }
    ensures within { IfOk result (λ image. (length image.code ≤ MOST_INSTRUCTIONS) × (image.cells ≤ MOST_CELLS)) }
    ensures too_long { result ≡ Err CodeTooLong → MOST_INSTRUCTIONS < length (translation dev.now).code }
    ensures too_many { result ≡ Err TooManyCells →
        (length (translation dev.now).code ≤ MOST_INSTRUCTIONS) × HasTooManyCells (translation dev.now) }
{
    let unit = b0(alloc, dev)?;
    translate(alloc, &unit)
}

// The limit of the code, or of its cells, that the project passes.
fn past_limit(alloc: Global, fault: GenFault, project: &str) -> Result<Stop, Stop>
    ensures memory { IfErr result (λ stop. stop ≡ Memory) }
    ensures checks { IfOk result IsOfChecks }
    ensures told { IfOk result (λ stop. stop ≡ stop_of_code fault project.now) }
{
    Ok(match fault {
        GenFault::CodeTooLong => Stop::Limit(LIMIT_OF_CODE, owned(alloc, project)?),
        GenFault::TooManyCells => Stop::Limit(LIMIT_OF_CELLS, owned(alloc, project)?),
        GenFault::Memory => Stop::Memory,
    })
}
