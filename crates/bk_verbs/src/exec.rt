//! `exec`: calls on an image.

ghost use Rattle.std.specs.Prelude.{◌≡◌, ◌⊎◌, ◌≤◌, Some, IfOk, IfErr};
ghost use Rattle.bk_io.specs.Files.{Files};
ghost use Rattle.bk_io.specs.Counts.{HasCause};
ghost use Rattle.bk_image.specs.Encoding.{Encodes};
ghost use Rattle.bk_verbs.specs.declared.stop.Stop.TheVariants.{ReadFault};
ghost use Rattle.bk_cli.specs.Tasks.{exec_task, most_fuel};
ghost use Rattle.bk_verbs.specs.Causes.{IsOfReading, IsOfChecks, CountsAbsence};
ghost use Rattle.bk_verbs.specs.Stops.{IsOutside, StopsAtLoading, StopsTask};
ghost use Rattle.bk_verbs.specs.Prepared.{IsPrepared, Suits, CanBePlayed};

use crate::files::fetch;
use crate::player::Player;
use crate::script::calls_of;
use crate::stop::Stop;
use crate::work::Work;
use bk_code::Image;
use bk_image::{LoadFault, load};
use bk_io::{Shelf, Text};
use std::alloc::Global;

/// The session of an image's code over the calls that a script asks for.
pub(crate) fn session_of_image<H: Shelf>(
    alloc: Global,
    image: &str,
    script: &str,
    fuel: u64,
    shelf: &mut H,
) -> Result<Work, Stop>
    requires small { fuel ≤ most_fuel }
    ensures cause { IfErr result (λ stop. (files : Files) → H.files shelf.old ≡ Some files →
        IsOutside stop ⊎ StopsTask files (exec_task image.now script.now fuel) stop) }
    ensures reading { IfErr result IsOfReading }
    ensures failed { HasCause ReadFault (H.faults shelf.old) (H.faults shelf.new) result }
    ensures missing { CountsAbsence (H.absences shelf.old) (H.absences shelf.new) result }
    ensures files { H.files shelf.new ≡ H.files shelf.old }
    ensures told { IfOk result (λ work. (files : Files) → H.files shelf.old ≡ Some files →
        IsPrepared files (exec_task image.now script.now fuel) work) }
    ensures suits { IfOk result (λ work. (files : Files) → H.files shelf.old ≡ Some files →
        Suits files (exec_task image.now script.now fuel) work) }
    ensures playable { IfOk result CanBePlayed }
{
    let bytes = Text::from_bytes(fetch(alloc, image, shelf)?);
    let loaded = loaded_image(alloc, bytes.as_bytes())?;
    let text = fetch(alloc, script, shelf)?;
    let calls = calls_of(alloc, script, &text, &loaded)?;
    let player = Player::of_image(alloc, loaded)?;
    Ok(Work::Play {
        player,
        calls,
        fuel,
    })
}

// The image that the bytes encode.
fn loaded_image(alloc: Global, bytes: &[u8]) -> Result<Image, Stop>
    ensures cause { IfErr result (λ stop. IsOutside stop ⊎ StopsAtLoading bytes.now stop) }
    ensures checks { IfErr result IsOfChecks }
    ensures ok { IfOk result (Encodes bytes.now) }
{
    match load(alloc, bytes) {
        Ok(image) => Ok(image),
        Err(LoadFault::Memory) => Err(Stop::Memory),
        Err(fault) => Err(Stop::BadImage(fault)),
    }
}
