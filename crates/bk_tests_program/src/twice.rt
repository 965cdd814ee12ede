//! Two calls of the program on the same devices.

ghost use Rattle.std.specs.Prelude.{◌≡◌, ℕ, List, Option, Some, map, string_bytes};
ghost use Rattle.bk_io.specs.Files.{Files};
ghost use Rattle.bk_program.specs.Answer.{IsAnswered, WritesAnswer};

use bk_io::{Shelf, Sink};
use bk_program::bkit;
use bk_verbs::Status;
use std::alloc::Global;

/// Calls the program with the first words and then with the second ones. Both calls find the same files, and each writes its answer after
/// what had been written.
pub fn call_twice<H: Shelf, K: Sink>(
    alloc: Global,
    first: &[String],
    second: &[String],
    shelf: &mut H,
    out: &mut K,
) -> (Status, Status)
    ensures { IsAnswered result.0 → IsAnswered result.1 → (files : Files) → H.files shelf.old ≡ Some files →
        (between : Option (List ℕ)) × WritesAnswer files (map string_bytes first.now) (K.written out.old) between result.0
        × WritesAnswer files (map string_bytes second.now) between (K.written out.new) result.1 }
{
    let first_status = bkit(alloc, first, shelf, out);
    let second_status = bkit(alloc, second, shelf, out);
    (first_status, second_status)
}
