//! Where a rule ends.

ghost use Rattle.std.specs.Prelude.{◌≡◌, ◌-◌, ◌<◌, ◌≤◌, ℕ, [], take, drop, length};

use bk_form::Token;

/// The numbers of the tokens of the rule whose first token starts at this byte: of the first, and of the one after the last, which is
/// the semicolon after the rule or the `end` of its script.
pub fn rule_tokens(text: &[u8], tokens: &[Token], at: usize) -> (usize, usize) {
    let mut first = tokens.len();
    let mut depth = 0usize;
    for (index, token) in tokens.iter().enumerate() {
        if token.start < at {
            continue;
        }
        first = first.min(index);
        let written = part(text, token.start, token.end);
        if depth == 0 && ends_rule(text, tokens, index, written) {
            return (first, index);
        }
        depth = depth_behind(depth, written);
    }
    (first, tokens.len())
}

/// The text of that rule, which begins at the byte.
pub fn rule_text<'a>(text: &'a [u8], tokens: &[Token], at: usize) -> &'a [u8]
    ensures { (n : ℕ) × (result.now ≡ take n (drop at text.now)) }
{
    let (_, behind) = rule_tokens(text, tokens, at);
    let end = end_before(tokens, behind);
    front(behind_byte(text, at), end.saturating_sub(at))
}

// The byte after the token before the one with this number; 0 where there is none.
fn end_before(tokens: &[Token], number: usize) -> usize {
    let Some(last) = number.checked_sub(1) else {
        return 0;
    };
    match tokens.get(last) {
        Some(token) => token.end,
        None => 0,
    }
}

// What stands from a byte on.
fn behind_byte(text: &[u8], at: usize) -> &[u8]
    ensures { result.now ≡ drop at text.now }
{
    if at < text.len() { &text[at..] } else { &[] }
}

// The first so many bytes.
fn front(text: &[u8], count: usize) -> &[u8]
    ensures { result.now ≡ take count text.now }
{
    if count < text.len() {
        &text[..count]
    } else {
        text
    }
}

// How many brackets are open after a token.
fn depth_behind(depth: usize, written: &[u8]) -> usize {
    match written {
        b"(" | b"[" | b"{" => depth.saturating_add(1),
        b")" | b"]" | b"}" => depth.saturating_sub(1),
        _ => depth,
    }
}

// Whether a token ends a rule: a semicolon, or the last token of a script.
fn ends_rule(text: &[u8], tokens: &[Token], index: usize, written: &[u8]) -> bool {
    match written {
        b";" => true,
        b"end" => match tokens.get(index.saturating_add(1)) {
            Some(next) => part(text, next.start, next.end) == b"proof".as_slice(),
            None => true,
        },
        _ => false,
    }
}

/// The bytes from one place up to another; none where these are no places of the text in order.
pub fn part(text: &[u8], start: usize, end: usize) -> &[u8]
    ensures there { start ≤ end → end ≤ length text.now → result.now ≡ take (end - start) (drop start text.now) }
    ensures backward { end < start → result.now ≡ [] }
    ensures past { length text.now < end → result.now ≡ [] }
{
    if start <= end && end <= text.len() {
        return &text[start..end];
    }
    &[]
}
