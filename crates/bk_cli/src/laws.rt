//! Laws of the definitions, as contracts of functions that do nothing.

ghost use Rattle.bk_cli.specs.Laws.{AskForOne, FuelIsWritten};

/// Words ask for one task at most.
pub fn words_ask_for_one_task()
    ensures { AskForOne }
{}

/// The fuel has one number, as a text and as a number.
pub fn fuel_has_one_number()
    ensures { FuelIsWritten }
{}
