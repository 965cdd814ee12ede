//! The text of a line.

ghost use Rattle.std.specs.Prelude.{◌≡◌, [], slice_index_or};
ghost use Rattle.std.specs.Str.Lines.{lines};
ghost use Rattle.bk_places.specs.Places as meant;

use bk_lines::first_line;

/// The text of the line with this number, from 1, without its end; empty where there is none.
pub fn line_text(text: &[u8], line: usize) -> &[u8]
    ensures { result.now ≡ meant.line_text text.now line }
{
    if line == 0 {
        return &[];
    }
    line_behind(text, line - 1)
}

// The text of the line after so many others; empty where there is none.
fn line_behind(text: &[u8], others: usize) -> &[u8]
    ensures { result.now ≡ slice_index_or (lines text.now) others [] }
{
    let mut rest = text;
    for number in 0..others {
        let Some((_, behind)) = first_line(rest) else {
            return &[];
        };
        rest = behind;
    }
    match first_line(rest) {
        Some((first, _)) => first,
        None => &[],
    }
}
