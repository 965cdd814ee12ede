// Blanks and comments.

ghost use Rattle.std.specs.Prelude.{◌≡◌, ◌≢◌, ◌++◌, ◌≤◌, ℕ, List, length, take_while, MatchOption, MatchResult, codes};
ghost use Rattle.bk_lex.specs.Lexis.{Gap, gap_text, IsGap, is_blank, stays_in_line, NoComment};
ghost use Rattle.bk_lex.specs.Faults.{IsOpenComment};
ghost use Rattle.bk_lex.specs.Parts.{IsRun, IsBehindGaps, IsGapFault};

use crate::fault::LexFault;

/// The text without the blanks and comments in front, which is the end of a text of `total` bytes.
pub(crate) fn after_gaps(text: &str, total: usize) -> Result<&str, LexFault>
    requires { length text.now ≤ total }
    ensures { MatchResult result (λ rest. IsBehindGaps text.now rest.now) (IsGapFault total text.now) }
{
    let mut rest = after_blanks(text);
    while let Some(after) = after_comment(rest, total)? {
        rest = after_blanks(after);
    }
    Ok(rest)
}

fn after_blanks(text: &str) -> &str
    ensures { (blanks : List ℕ) × IsRun is_blank text.now blanks result.now }
{
    let (_, rest) = text.split_at(blanks_in_front(text.as_bytes()));
    rest
}

fn blanks_in_front(text: &[u8]) -> usize
    ensures { result ≡ length (take_while is_blank text.now) }
{
    text.iter().take_while(|c| is_blank(**c)).count()
}

fn is_blank(c: u8) -> bool
    ensures { result ≡ is_blank c }
{
    matches!(c, b' ' | b'\t' | b'\n' | b'\r')
}

/// What stands after the comment that the text begins with, if it begins with one.
fn after_comment(text: &str, total: usize) -> Result<Option<&str>, LexFault>
    requires { length text.now ≤ total }
    ensures { MatchResult result
        (λ found. MatchOption found (NoComment text.now)
        (λ rest. (gap : Gap) × (text.now ≡ gap_text gap ++ rest.now) ×
        IsGap gap rest.now)) (IsGapFault total text.now) }
{
    if let Some(body) = text.strip_prefix("/*") {
        let Some((_, rest)) = body.split_once("*/") else {
            return Err(LexFault::OpenComment(total - text.len()));
        };
        return Ok(Some(rest));
    }
    if let Some(body) = text.strip_prefix("//") {
        return Ok(Some(from_line_end(body)));
    }
    Ok(None)
}

/// The text from its first line feed on.
fn from_line_end(text: &str) -> &str
    ensures { (run : List ℕ) × IsRun stays_in_line text.now run result.now }
{
    let (_, rest) = text.split_at(line_length(text.as_bytes()));
    rest
}

fn line_length(text: &[u8]) -> usize
    ensures { result ≡ length (take_while stays_in_line text.now) }
{
    text.iter().take_while(|c| stays_in_line(**c)).count()
}

fn stays_in_line(c: u8) -> bool
    ensures { result ≡ stays_in_line c }
{
    c != b'\n'
}
