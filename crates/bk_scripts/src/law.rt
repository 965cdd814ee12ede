// The names of laws.

ghost use Rattle.std.specs.Prelude.{◌≡◌, ◌+◌, ◌≤◌, IfSome};
ghost use Rattle.bk_scripts.specs.LawNames.{law_number, law_in, series_of, spelled_from};

use itoa::Buffer;

// The number of the law with this name.
pub(crate) fn law_number(name: &[u8]) -> Option<u16>
    ensures { result ≡ law_number name.now }
{
    let (letter, digits) = name.split_first()?;
    let (worth, count) = series_of(*letter)?;
    law_in(worth, count, digits)
}

// The number of the law with these digits, in a series of so many whose letter stands for so much.
fn law_in(worth: u16, count: u16, digits: &[u8]) -> Option<u16>
    requires { worth + count ≤ 1000 }
    ensures { result ≡ law_in digits.now (worth, count) }
{
    let number = spelled(digits, count)?;
    Some(worth + number)
}

// What a letter stands for, and how many laws have it.
fn series_of(letter: u8) -> Option<(u16, u16)>
    ensures series { result ≡ series_of letter }
    ensures few { IfSome result (λ s. s.0 + s.1 ≤ 1000) }
{
    if letter == b'G' {
        return Some((0, 28));
    }
    if letter == b'O' {
        return Some((100, 30));
    }
    if letter == b'S' {
        return Some((200, 40));
    }
    if letter == b'M' {
        return Some((300, 65));
    }
    None
}

// The number that the digits spell, of those from 1 to this one.
fn spelled(digits: &[u8], most: u16) -> Option<u16>
    requires { most ≤ 1000 }
    ensures value { result ≡ spelled_from 1 most digits.now }
    ensures few { IfSome result (λ n. n ≤ most) }
{
    for before in 0..most {
        let number = before + 1;
        if digits == Buffer::new().format(number).as_bytes() {
            return Some(number);
        }
    }
    None
}
