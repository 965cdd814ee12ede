// Numbers of variables.

ghost use Rattle.std.specs.Prelude.{◌≡◌, ◌+◌, IfOk};

use bk_io::Memory;

// The number that stands so far after the first.
pub fn ahead(first: u32, count: usize) -> Result<u32, Memory>
    ensures { IfOk result (λ number. number ≡ first + count) }
{
    let Ok(count) = u32::try_from(count) else {
        return Err(Memory);
    };
    match first.checked_add(count) {
        Some(number) => Ok(number),
        None => Err(Memory),
    }
}
