//! A text of tokens in lines.

ghost use Rattle.std.specs.Prelude.{◌≡◌, ◌+◌, ◌≤◌, length, IfOk};
ghost use Rattle.bk_lex.specs.Lexis.{AreTokens};
ghost use Rattle.bk_layout.specs.Laid.{IsLaidOut};

use crate::bracket::{closing_tokens, opens};
use crate::group::Group;
use crate::same::{is_gap, is_laid_out};
use bk_form::Token;
use bk_io::Memory;
use bk_lex::{LexFault, tokens};
use bk_raw::InfixOp;
use std::alloc::Global;

/// A printed formula in lines of some `width` bytes, of which all but the first begin with at least `indent` blanks: blanks and line
/// ends between its tokens are all that differs. A text that fits into a line stays as it is, and so does one that has no tokens.
pub fn laid_out(alloc: Global, text: &[u8], width: usize, indent: usize) -> Result<Vec<u8>, Memory>
    ensures laid { IfOk result (λ laid. IsLaidOut text.now laid.items) }
    ensures short { indent + length text.now ≤ width → IfOk result (λ laid. laid.items ≡ text.now) }
{
    if indent.saturating_add(text.len()) <= width {
        return as_it_is(alloc, text);
    }
    broken(alloc, text, width, indent)
}

// A printed formula in lines.
fn broken(alloc: Global, text: &[u8], width: usize, indent: usize) -> Result<Vec<u8>, Memory>
    ensures { IfOk result (λ laid. IsLaidOut text.now laid.items) }
{
    match tokens(alloc, text) {
        Ok(found) => laid_or_not(alloc, text, &found, width, indent),
        Err(LexFault::Memory) => Err(Memory),
        Err(_) => as_it_is(alloc, text),
    }
}

// The text of these tokens in lines, where it is such a text; else the text itself.
fn laid_or_not(
    alloc: Global,
    text: &[u8],
    tokens: &[Token],
    width: usize,
    indent: usize,
) -> Result<Vec<u8>, Memory>
    requires { AreTokens text.now tokens.now }
    ensures { IfOk result (λ laid. IsLaidOut text.now laid.items) }
{
    let laid = laid_tokens(alloc, text, tokens, width, indent)?;
    if is_laid_out(alloc, text, tokens, &laid)? {
        return Ok(laid);
    }
    as_it_is(alloc, text)
}

fn as_it_is(alloc: Global, text: &[u8]) -> Result<Vec<u8>, Memory>
    ensures laid { IfOk result (λ laid. IsLaidOut text.now laid.items) }
    ensures same { IfOk result (λ laid. laid.items ≡ text.now) }
{
    Ok(Vec::from_slice(alloc, text)?)
}

// The text of these tokens.
fn laid_tokens(
    alloc: Global,
    text: &[u8],
    tokens: &[Token],
    width: usize,
    indent: usize,
) -> Result<Vec<u8>, Memory> {
    let whole = Group {
        end: tokens.len(),
        is_broken: indent.saturating_add(text.len()) > width,
        indent,
    };
    let closing = closing_tokens(alloc, tokens)?;
    let mut writer = Writer {
        text,
        width,
        out: Vec::new(alloc),
        groups: Vec::new(alloc),
        last: whole,
        end: 0,
    };
    for (index, token) in tokens.iter().enumerate() {
        let closed_by = closing.get(index).copied().unwrap_or(tokens.len());
        let end = end_of(tokens, closed_by, text.len());
        writer.write(index, token, closed_by, end)?;
    }
    writer.put_rest()?;
    Ok(writer.out)
}

// The byte after the token with this number; that one where there is no such token.
fn end_of(tokens: &[Token], number: usize, end: usize) -> usize {
    match tokens.get(number) {
        Some(token) => token.end,
        None => end,
    }
}

// What is written, and the groups that are open around the next token.
#[derive(Drop)]
struct Writer<'a> {
    text: &'a [u8],
    width: usize,
    out: Vec<u8>,
    // Those around the last one.
    groups: Vec<Group>,
    last: Group,
    // The byte after the token before.
    end: usize,
}

impl Writer<'_> {
    // Writes a token after a gap or a line end; the token with the number `closing` closes the bracket that it opens, at the byte
    // `end`.
    fn write(
        &mut self,
        index: usize,
        token: &Token,
        closing: usize,
        end: usize,
    ) -> Result<(), Memory> {
        self.close(index);
        if self.last.is_broken && breaks(token) && index > 0 {
            self.put_trimmed(token.start)?;
            self.break_line()?;
        } else {
            let end = self.end;
            self.put(end, token.start)?;
        }
        self.put(token.start, token.end)?;
        self.end = token.end;
        if opens(token) {
            self.open(token, closing, end)?;
        }
        Ok(())
    }

    // Closes the last group, if the token with this number ends it.
    fn close(&mut self, index: usize) {
        if self.last.end != index {
            return;
        }
        if let Some(around) = self.groups.pop() {
            self.last = around;
        }
    }

    // Opens the group of the bracket that a token is, which ends at this byte.
    fn open(&mut self, token: &Token, closing: usize, end: usize) -> Result<(), Memory> {
        let length = end.saturating_sub(token.start);
        let group = self.last.within(closing, length, self.width);
        self.groups.push(self.last)?;
        self.last = group;
        Ok(())
    }

    fn break_line(&mut self) -> Result<(), Memory> {
        self.out.push(b'\n')?;
        for _ in 0..self.last.indent {
            self.out.push(b' ')?;
        }
        Ok(())
    }

    // Puts what stands between the last token and this byte, without the blanks and line ends at its end.
    fn put_trimmed(&mut self, start: usize) -> Result<(), Memory> {
        let from = self.end;
        let end = trimmed_end(self.text, from, start);
        self.put(from, end)
    }

    // Puts what stands after the last token.
    fn put_rest(&mut self) -> Result<(), Memory> {
        let (start, end) = (self.end, self.text.len());
        self.put(start, end)
    }

    // Puts the bytes from one place up to another.
    fn put(&mut self, start: usize, end: usize) -> Result<(), Memory> {
        if start <= end && end <= self.text.len() {
            self.out.extend_from_slice(&self.text[start..end])?;
        }
        Ok(())
    }
}

// The byte after the last one between these places that is no blank and no line end.
fn trimmed_end(text: &[u8], start: usize, behind: usize) -> usize {
    let mut end = start;
    for index in start..behind {
        if let Some(byte) = text.get(index) {
            if !is_gap(*byte) {
                end = index.saturating_add(1);
            }
        }
    }
    end
}

// Whether a line may begin with the token.
fn breaks(token: &Token) -> bool {
    InfixOp::of(&token.kind).is_some()
}
