//! Images.

use crate::say::{say, say_number};
use bk_image::LoadFault;
use bk_io::Memory;
use bk_limits::STACK_ROOM;

/// Why bytes are no image.
pub(crate) fn say_image(words: &mut Vec<u8>, fault: LoadFault) -> Result<(), Memory> {
    match fault {
        LoadFault::Short(_) => say(words, "the bytes end too early: the file is cut off\n"),
        LoadFault::Magic => say(
            words,
            "the first four bytes are not those of an image: this is another file\n",
        ),
        LoadFault::Version(_) => say(words, "the image is of another version\n"),
        LoadFault::BadInst(_) => say(words, "no instruction begins with this byte\n"),
        LoadFault::Extra(_) => say(words, "there are more bytes after the end of the image\n"),
        LoadFault::BadSlot(_) => say(words, "a number is out of its range\n"),
        LoadFault::BadJump(_) => say(
            words,
            "a jump goes nowhere, or the code ends without a jump or a return\n",
        ),
        LoadFault::Stack(_) => say_stack(words),
        LoadFault::Memory => Err(Memory),
    }
}

// The depth of the stack.
fn say_stack(words: &mut Vec<u8>) -> Result<(), Memory> {
    say(
        words,
        "the depth of the stack is not one number at this instruction, or it is too small, above ",
    )?;
    say_number(words, STACK_ROOM)?;
    say(words, ", or not 0 at a return\n")
}
