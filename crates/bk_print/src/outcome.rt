//! What is found for obligations, and its text.

ghost use Rattle.std.specs.Prelude.{◌≡◌, ◌++◌, count_by, IfOk, OnOk};
ghost use Rattle.std.specs.List.{flat_map};
ghost use Rattle.bk_print.specs.Found as meant;
ghost use Rattle.bk_print.specs.Found.{script_of, sums_text};

use itoa::Buffer;
use std::alloc::{AllocError, Global};

/// What is found for an obligation.
#[derive(Drop)]
pub enum Outcome {
    /// Nothing is asked for: it is obvious or proved.
    Settled,
    /// It is open, and no script is written for it.
    Left,
    /// It is open, and this script is written for it.
    Script(Vec<u8>),
}

impl Outcome {
    // Whether a script is written.
    fn is_script(&self) -> bool
        ensures { result ≡ meant.is_script self.now }
    {
        matches!(self, Outcome::Script(_))
    }

    // Whether the obligation is left.
    fn is_left(&self) -> bool
        ensures { result ≡ meant.is_left self.now }
    {
        matches!(self, Outcome::Left)
    }
}

/// The text of what is found: the scripts in order, and how many obligations have one and how many are left, as a comment.
pub fn found_text(alloc: Global, outcomes: &[Outcome]) -> Result<Vec<u8>, AllocError>
    ensures { IfOk result (λ text. text.items ≡ meant.found_text outcomes.now) }
{
    let mut text = Vec::new(alloc);
    for outcome in outcomes {
        write_script(&mut text, outcome)?;
    }
    write_sums(&mut text, outcomes)?;
    Ok(text)
}

fn write_script(text: &mut Vec<u8>, outcome: &Outcome) -> Result<(), AllocError>
    ensures { OnOk result (text.new.items ≡ text.old.items ++ script_of outcome.now) }
{
    match outcome {
        Outcome::Script(script) => text.extend_from_slice(script),
        _ => Ok(()),
    }
}

// How many scripts are written, and how many obligations are left.
fn write_sums(text: &mut Vec<u8>, outcomes: &[Outcome]) -> Result<(), AllocError>
    ensures { OnOk result (text.new.items ≡ text.old.items ++ sums_text outcomes.now) }
{
    text.extend_from_slice(b"// ")?;
    text.extend_from_slice(Buffer::new().format(script_count(outcomes)).as_bytes())?;
    text.extend_from_slice(b" found, ")?;
    text.extend_from_slice(Buffer::new().format(left_count(outcomes)).as_bytes())?;
    text.extend_from_slice(b" left\n")?;
    Ok(())
}

fn script_count(outcomes: &[Outcome]) -> usize
    ensures { result ≡ count_by meant.is_script outcomes.now }
{
    outcomes
        .iter()
        .filter(|outcome| outcome.is_script())
        .count()
}

fn left_count(outcomes: &[Outcome]) -> usize
    ensures { result ≡ count_by meant.is_left outcomes.now }
{
    outcomes.iter().filter(|outcome| outcome.is_left()).count()
}
