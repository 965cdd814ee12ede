// The text of certificates of linear arithmetic.

ghost use Rattle.std.specs.Prelude.{◌≡◌, ◌++◌, ◌∷◌, ℤ, ℕ, map, OnOk};
ghost use Rattle.bk_ops.specs.declared.sign.TheConstants.{PLUS, BAR};
ghost use Rattle.bk_show.specs.Items.{blank, text_of};
ghost use Rattle.bk_show.specs.Shown.{literal_items};
ghost use Rattle.bk_print.specs.Text.{behind_each, comma, divided, spaced, number_items};
ghost use Rattle.bk_print.specs.Text.{multiple_items, line_items, facts_items, certificate_items};

use crate::place::write_digits;
use bk_io::Memory;
use bk_lin::Line;
use itoa::Buffer;

/// Writes a certificate after a blank: the numbers of the hypotheses, a colon, and the lines.
#[tactic(auto, using(crate::proofs::Pieces::certificates))]
pub(crate) fn write_certificate(
    out: &mut Vec<u8>,
    facts: &[u32],
    lines: &[Line],
) -> Result<(), Memory>
    ensures { OnOk result (out.new.items ≡ out.old.items ++ text_of (blank ∷ certificate_items facts.now lines.now)) }
{
    out.extend_from_slice(b" ")?;
    write_facts(out, facts)?;
    out.extend_from_slice(b": ")?;
    write_lines(out, lines)
}

// Writes the numbers of the hypotheses with commas between, and a blank after them where there are some.
#[tactic(auto, using(crate::proofs::Pieces::certificates))]
fn write_facts(out: &mut Vec<u8>, facts: &[u32]) -> Result<(), Memory>
    ensures { OnOk result (out.new.items ≡ out.old.items ++ text_of (facts_items facts.now)) }
{
    match facts {
        [] => Ok(()),
        [first, rest @ ..] => {
            write_digits(out, *first)?;
            write_more_facts(out, rest)?;
            out.extend_from_slice(b" ")?;
            Ok(())
        }
    }
}

// Writes numbers, each after a comma.
fn write_more_facts(out: &mut Vec<u8>, facts: &[u32]) -> Result<(), Memory>
    ensures { OnOk result (out.new.items ≡ out.old.items ++ text_of (behind_each comma (map number_items facts.now))) }
{
    for fact in facts {
        out.extend_from_slice(b", ")?;
        write_digits(out, *fact)?;
    }
    Ok(())
}

// Writes a number, with a sign where it is negative.
#[tactic(auto, using(crate::proofs::Pieces::certificates))]
fn write_literal(out: &mut Vec<u8>, number: i128) -> Result<(), Memory>
    ensures { OnOk result (out.new.items ≡ out.old.items ++ text_of (literal_items number)) }
{
    out.extend_from_slice(Buffer::new().format(number).as_bytes())?;
    Ok(())
}

// Writes lines with bars between.
#[tactic(auto, using(crate::proofs::Pieces::certificates))]
fn write_lines(out: &mut Vec<u8>, lines: &[Line]) -> Result<(), Memory>
    ensures { OnOk result (out.new.items ≡ out.old.items ++ text_of (divided (spaced BAR) (map line_items lines.now))) }
{
    match lines {
        [] => Ok(()),
        [first, rest @ ..] => {
            write_line(out, first)?;
            write_more_lines(out, rest)
        }
    }
}

// Writes lines, each after a bar.
fn write_more_lines(out: &mut Vec<u8>, lines: &[Line]) -> Result<(), Memory>
    ensures { OnOk result (out.new.items ≡ out.old.items ++ text_of (behind_each (spaced BAR) (map line_items lines.now))) }
{
    for line in lines {
        out.extend_from_slice(b" | ")?;
        write_line(out, line)?;
    }
    Ok(())
}

// Writes a line: multiples of facts, or a fact and what it is divided by.
#[tactic(auto, using(crate::proofs::Pieces::certificates))]
fn write_line(out: &mut Vec<u8>, line: &Line) -> Result<(), Memory>
    ensures { OnOk result (out.new.items ≡ out.old.items ++ text_of (line_items line.now)) }
{
    match line {
        Line::Sum(multiples) => write_multiples(out, multiples),
        Line::Div { fact, by } => {
            write_digits(out, *fact)?;
            out.extend_from_slice(b" / ")?;
            write_literal(out, *by)
        }
    }
}

// Writes multiples with `+` between.
#[tactic(auto, using(crate::proofs::Pieces::certificates))]
fn write_multiples(out: &mut Vec<u8>, multiples: &[(i128, u32)]) -> Result<(), Memory>
    ensures { OnOk result (out.new.items ≡ out.old.items ++ text_of (divided (spaced PLUS) (map multiple_items multiples.now))) }
{
    match multiples {
        [] => Ok(()),
        [first, rest @ ..] => {
            write_multiple(out, *first)?;
            write_more_multiples(out, rest)
        }
    }
}

// Writes multiples, each after `+`.
fn write_more_multiples(out: &mut Vec<u8>, multiples: &[(i128, u32)]) -> Result<(), Memory>
    ensures { OnOk result (out.new.items ≡ out.old.items ++ text_of (behind_each (spaced PLUS) (map multiple_items multiples.now))) }
{
    for multiple in multiples {
        out.extend_from_slice(b" + ")?;
        write_multiple(out, *multiple)?;
    }
    Ok(())
}

// Writes a multiplier and the number of a fact.
#[tactic(auto, using(crate::proofs::Pieces::certificates))]
fn write_multiple(out: &mut Vec<u8>, multiple: (i128, u32)) -> Result<(), Memory>
    ensures { OnOk result (out.new.items ≡ out.old.items ++ text_of (multiple_items multiple)) }
{
    write_literal(out, multiple.0)?;
    out.extend_from_slice(b" * ")?;
    write_digits(out, multiple.1)
}
