// The text of numbers and places.

ghost use Rattle.std.specs.Prelude.{◌≡◌, ◌++◌, ◌∷◌, OnOk};
ghost use Rattle.bk_show.specs.Items.{blank, text_of};
ghost use Rattle.bk_print.specs.Text.{number_items, numbers_behind, place_items};

use bk_io::Memory;
use bk_kernel::Place;
use itoa::Buffer;

/// Writes a number after a blank.
#[tactic(auto, using(crate::proofs::Pieces::numbers))]
pub(crate) fn write_number(out: &mut Vec<u8>, number: u32) -> Result<(), Memory>
    ensures { OnOk result (out.new.items ≡ out.old.items ++ text_of (blank ∷ number_items number)) }
{
    out.extend_from_slice(b" ")?;
    write_digits(out, number)
}

/// Writes a number.
#[tactic(auto, using(crate::proofs::Pieces::numbers))]
pub(crate) fn write_digits(out: &mut Vec<u8>, number: u32) -> Result<(), Memory>
    ensures { OnOk result (out.new.items ≡ out.old.items ++ text_of (number_items number)) }
{
    out.extend_from_slice(Buffer::new().format(number).as_bytes())?;
    Ok(())
}

/// Writes a place after a blank: `goal` or `hyp i`, and the numbers of the children on the way down.
#[tactic(auto, using(crate::proofs::Pieces::numbers))]
pub(crate) fn write_place(out: &mut Vec<u8>, place: &Place) -> Result<(), Memory>
    ensures { OnOk result (out.new.items ≡ out.old.items ++ text_of (blank ∷ place_items place.now)) }
{
    match place {
        Place::Goal(path) => {
            out.extend_from_slice(b" goal")?;
            write_path(out, path)
        }
        Place::Hyp(number, path) => {
            out.extend_from_slice(b" hyp")?;
            write_number(out, *number)?;
            write_path(out, path)
        }
    }
}

// Writes numbers, each after a blank.
fn write_path(out: &mut Vec<u8>, path: &[u32]) -> Result<(), Memory>
    ensures { OnOk result (out.new.items ≡ out.old.items ++ text_of (numbers_behind path.now)) }
{
    for number in path {
        out.extend_from_slice(b" ")?;
        write_digits(out, *number)?;
    }
    Ok(())
}
