// A development that is built and whose image is executed, and one that is run twice.

use crate::call_twice;
use bk_io::{MemShelf, MemSink, have_distinct_names};
use std::alloc::Global;
use std::process::Abort;
use std::test::Fail;

const PROJECT: &[u8] = b"machine Counter.mch\nimplementation Counter_i.imp\n";

const MACHINE: &[u8] = b"MACHINE Counter
VARIABLES n
INVARIANT n : 0..10
INITIALISATION n := 0
OPERATIONS
  setmax = n := 10 ;
  r <-- get = r := n
END
";

const IMPLEMENTATION: &[u8] = b"IMPLEMENTATION Counter_i REFINES Counter
CONCRETE_VARIABLES n
INVARIANT n : 0..10
INITIALISATION n := 0
OPERATIONS
  setmax = n := 10 ;
  r <-- get = r := n
END
";

const CALLS: &[u8] = b"setmax\nget\n";

// The header and the two operations, the number of instructions, and the code of the initialisation and of the operations.
const IMAGE: &[u8] = b"BKIM\x00\x01\x00\x00\x00\x02\x00\x00\x00\x02\
\x00\x06setmax\x00\x00\x00\x03\x00\x00\x00\x00\
\x00\x03get\x00\x00\x00\x06\x00\x00\x00\x01\x00\x00\x00\x00\x00\x01\
\x00\x00\x00\x09\
\x01\x00\x00\x00\x00\x00\x00\x00\x00\x03\x00\x00\x00\x00\x12\
\x01\x00\x00\x00\x00\x00\x00\x00\x0a\x03\x00\x00\x00\x00\x12\
\x02\x00\x00\x00\x00\x03\x00\x00\x00\x01\x12";

const REPLIES: &[u8] = b"setmax\nget = 10\nend 2 calls, 9 steps\n";

const FILES: [(&str, &[u8]); 5] = [
    ("c.prj", PROJECT),
    ("Counter.mch", MACHINE),
    ("Counter_i.imp", IMPLEMENTATION),
    ("c.img", IMAGE),
    ("c.calls", CALLS),
];

fn files(alloc: Global) -> Result<Vec<(String, Vec<u8>)>, Fail> {
    let mut files = Vec::new(alloc);
    for (name, bytes) in &FILES {
        files.push((String::from_str(alloc, name)?, bytes.to_vec(alloc)?))?;
    }
    Ok(files)
}

fn words(alloc: Global, line: &str) -> Result<Vec<String>, Fail> {
    let mut words = Vec::new(alloc);
    for word in line.split(' ') {
        words.push(String::from_str(alloc, word)?)?;
    }
    Ok(words)
}

// Both calls end with status 0, and write these two texts, in so many whole pieces.
fn compare(
    rt: &impl Abort,
    alloc: Global,
    lines: (&str, &str),
    texts: (&[u8], &[u8]),
    pieces: usize,
) -> Result<(), Fail> {
    let files = files(alloc)?;
    assert!(rt; have_distinct_names(&files));
    let mut shelf = MemShelf::new(files, Vec::new(alloc));
    let mut sink = MemSink::new(alloc, 0, usize::MAX, Vec::new(alloc))?;
    let first = words(alloc, lines.0)?;
    let second = words(alloc, lines.1)?;
    let ended = call_twice(alloc, &first, &second, &mut shelf, &mut sink);
    let mut wanted = texts.0.to_vec(alloc)?;
    wanted.extend_from_slice(texts.1)?;
    assert!(rt; ended.0.code() == 0 && ended.1.code() == 0);
    assert!(rt; sink.written() == wanted.as_slice());
    let parts = sink.parts();
    assert!(rt; parts.len() == pieces && parts.iter().all(|part| part.is_whole));
    Ok(())
}

#[test]
fn what_is_built_is_executed(rt: HostRuntime) -> Result<(), Fail> {
    let lines = ("build c.prj", "exec c.img c.calls");
    compare(&rt, rt.alloc(), lines, (IMAGE, REPLIES), 4)
}

#[test]
fn a_development_is_run_twice(rt: HostRuntime) -> Result<(), Fail> {
    let lines = ("run c.prj c.calls", "run c.prj c.calls");
    compare(&rt, rt.alloc(), lines, (REPLIES, REPLIES), 6)
}
