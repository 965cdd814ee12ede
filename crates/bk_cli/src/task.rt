//! The command that the words of the command line ask for.

ghost use Rattle.std.specs.Prelude.{◌≡◌, map, IfOk, IfErr, string_bytes};
ghost use Rattle.bk_cli.specs.Tasks.{Asks, AskForNothing};
ghost use Rattle.bk_cli.specs.Asked.{task_of, HasSmallNumbers};
ghost use Rattle.bk_cli.specs.declared.words.WordsFault.TheVariants.{Refused};

use crate::command::{Command, command_of};
use crate::words::{WordsFault, read_words};
use std::alloc::Global;

/// The command that the words ask for. They are those of the command line without the program's name.
pub fn asked<'a>(alloc: Global, given: &'a [String]) -> Result<Command<'a>, WordsFault>
    ensures asked { IfOk result (λ command. Asks (map string_bytes given.now) (task_of command)) }
    ensures small { IfOk result HasSmallNumbers }
    ensures nothing { IfErr result (λ fault. fault ≡ Refused → AskForNothing (map string_bytes given.now)) }
{
    let words = read_words(alloc, given)?;
    match command_of(&words) {
        Some(command) => Ok(command),
        None => Err(WordsFault::Refused),
    }
}
