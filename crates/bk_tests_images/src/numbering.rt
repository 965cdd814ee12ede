// Names and their numbers.

use bk_names::Names;
use std::process::Abort;
use std::test::Fail;

// The number of a text, where there was memory.
fn numbered(names: &mut Names, text: &str) -> Result<u32, Fail> {
    if names.len() == 1 << 32 {
        return Err("full".into());
    }
    Ok(names.number(text.as_bytes()).ok().ok_or("memory")?)
}

// The name with the number, where there is one.
fn text_at(names: &Names, n: u32) -> Option<&[u8]> {
    if n as usize >= names.len() {
        return None;
    }
    Some(names.text(n))
}

// Whether the text gets this number, and is found under it, and there are so many names then.
fn gets(names: &mut Names, text: &str, wanted: u32, len: usize) -> Result<bool, Fail> {
    let number = numbered(names, text)?;
    Ok(
        number == wanted
            && names.len() == len
            && names.find(text.as_bytes()) == Some(wanted)
            && text_at(names, wanted) == Some(text.as_bytes()),
    )
}

// A text, its number, and how many names there are then.
const NUMBERED: [(&str, u32, usize); 6] = [
    ("xx", 0, 1),
    ("yy", 1, 2),
    ("xx", 0, 2),
    ("x", 2, 3),
    ("", 3, 4),
    ("yy", 1, 4),
];

fn compare(rt: &impl Abort, names: &mut Names, rows: &[(&str, u32, usize)]) -> Result<(), Fail> {
    assert!(rt; names.find(b"xx").is_none());
    for (text, number, len) in rows {
        assert!(rt; gets(names, text, *number, *len)?, "{text}");
    }
    assert!(rt; names.find(b"xxx").is_none());
    Ok(())
}

#[test]
fn numbers_in_first_seen_order(rt: HostRuntime) -> Result<(), Fail> {
    let mut names = Names::new(rt.alloc());
    compare(&rt, &mut names, &NUMBERED)
}
