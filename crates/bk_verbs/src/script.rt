//! The calls that a call script asks for.

ghost use Rattle.std.specs.Prelude.{◌≡◌, ◌⊎◌, ◌≤◌, ◌<◌, ◌^◌, All, length, map, IfOk, IfErr};
ghost use Rattle.bk_code.specs.Laws.{IsRequest};
ghost use Rattle.bk_calls.specs.Script.{IsScript, request_of, most_calls};
ghost use Rattle.bk_verbs.specs.declared.stop.Stop.TheVariants.{Memory};
ghost use Rattle.bk_verbs.specs.Causes.{IsOfChecks};
ghost use Rattle.bk_verbs.specs.Stops.{IsOutside, StopsAtScript, stop_of_calls};

use crate::files::owned;
use crate::stop::Stop;
use bk_calls::{Call, CallsFault, calls};
use bk_code::Image;
use bk_limits::MOST_BYTES;
use std::alloc::Global;

/// The number of the limit of calls.
const LIMIT_OF_CALLS: u8 = 11;

/// The calls of an image that the script with this name and this text asks for.
pub(crate) fn calls_of(
    alloc: Global,
    name: &str,
    text: &[u8],
    image: &Image,
) -> Result<Vec<Call>, Stop>
    requires short { length text.now ≤ MOST_BYTES }
    requires few_operations { length image.now.ops < 2 ^ 32 }
    ensures cause { IfErr result (λ stop. IsOutside stop ⊎ StopsAtScript name.now text.now image.now stop) }
    ensures checks { IfErr result IsOfChecks }
    ensures ok { IfOk result (λ calls. IsScript image.now text.now (map request_of calls.items)) }
    ensures requests { IfOk result (λ calls. All (IsRequest image.now) (map request_of calls.items)) }
    ensures few { IfOk result (λ calls. length calls.items ≤ most_calls) }
{
    match calls(alloc, text, image) {
        Ok(calls) => Ok(calls),
        Err(fault) => Err(bad_calls(alloc, fault, name)?),
    }
}

// The stop at the call script.
fn bad_calls(alloc: Global, fault: CallsFault, script: &str) -> Result<Stop, Stop>
    ensures memory { IfErr result (λ stop. stop ≡ Memory) }
    ensures checks { IfOk result IsOfChecks }
    ensures told { IfOk result (λ stop. stop ≡ stop_of_calls fault script.now) }
{
    Ok(match fault {
        CallsFault::Line(number)
        | CallsFault::NoOperation(number)
        | CallsFault::Arguments(number)
        | CallsFault::Number(number) => Stop::BadCalls(number),
        CallsFault::Limit => Stop::Limit(LIMIT_OF_CALLS, owned(alloc, script)?),
        CallsFault::Memory => Stop::Memory,
    })
}
