//! The line that says what a project is read as.

ghost use Rattle.std.specs.Prelude.{◌≡◌, ◌<◌, length, IfOk};
ghost use Rattle.bk_dev.specs.Development.{level_at};
ghost use Rattle.bk_report.specs.Check as texts;

use bk_dev::Development;
use bk_io::Text;
use itoa::Buffer;
use std::alloc::{AllocError, Global};

/// `ok NAME N components`: the machine's name, and how many components there are.
pub fn check_line(alloc: Global, dev: &Development) -> Result<Vec<u8>, AllocError>
    ensures { IfOk result (λ line. line.items ≡ texts.check_text dev.now) }
{
    dev.facts();
    let mut line = Vec::new(alloc);
    line.extend_from_slice(b"ok ")?;
    line.extend_from_slice(machine_name(dev).as_bytes())?;
    line.extend_from_slice(b" ")?;
    line.extend_from_slice(Buffer::new().format(dev.levels.len()).as_bytes())?;
    line.extend_from_slice(b" components\n")?;
    Ok(line)
}

// The name of the first component.
fn machine_name(dev: &Development) -> &Text
    requires { 0 < length dev.now.levels }
    ensures { result.now ≡ (level_at dev.now 0).name }
{
    let levels = &dev.levels;
    &levels[0].name
}
