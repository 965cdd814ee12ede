// Why a script is no list of calls. The program tells the line alone.

use crate::images::{TAKERS, TALLY, image, without_its_set};
use bk_calls::{CallsFault, calls};
use bk_code::Image;
use std::alloc::Global;
use std::process::Abort;
use std::test::Fail;

// A text and its fault.
type Row<'a> = (&'a [u8], CallsFault);

const OF_A_TALLY: [Row<'static>; 44] = [
    (b"inc(4)\ninc\nget\n", CallsFault::Arguments(2)),
    (b"inc(4)\ninc(TRUE)\nget\n", CallsFault::Arguments(2)),
    (b"inc(4)\ndec\nget\n", CallsFault::NoOperation(2)),
    (b"inc(4)\ninc(4\nget\n", CallsFault::Line(2)),
    (b"inc(4)\ninc(2147483648)\nget\n", CallsFault::Number(2)),
    (b"inc(-2147483648)", CallsFault::Number(1)),
    (b"inc(99999999999999999999999999)", CallsFault::Number(1)),
    (b"inc()", CallsFault::Arguments(1)),
    (b"inc(1, 2)", CallsFault::Arguments(1)),
    (b"inc(red)", CallsFault::Arguments(1)),
    (b"get(5)", CallsFault::Arguments(1)),
    (b"dec(2147483648)", CallsFault::NoOperation(1)),
    (b"get(2147483648)", CallsFault::Arguments(1)),
    (b"dec(4, )", CallsFault::Line(1)),
    (b"inc(4)\n# \xFF\ndec\ninc(4\n", CallsFault::NoOperation(3)),
    (b"inc(2147483648)\ninc(4\n", CallsFault::Number(1)),
    (b"get\nnope\n", CallsFault::NoOperation(2)),
    (b"get\nnope\nneither", CallsFault::NoOperation(2)),
    (b"Get", CallsFault::NoOperation(1)),
    (b"g\xC3\xA9t", CallsFault::NoOperation(1)),
    (b"get(", CallsFault::Line(1)),
    (b"get x", CallsFault::Line(1)),
    (b"get)", CallsFault::Line(1)),
    (b"get()()", CallsFault::Line(1)),
    (b"()", CallsFault::Line(1)),
    (b" \n", CallsFault::Line(1)),
    (b"# x\n\n\xFF\n", CallsFault::Line(3)),
    (b"\xFF", CallsFault::Line(1)),
    (b"\n #x", CallsFault::Line(2)),
    (b"get\t", CallsFault::Line(1)),
    (b"get\r", CallsFault::Line(1)),
    (b"get(- 3)", CallsFault::Line(1)),
    (b"get(+3)", CallsFault::Line(1)),
    (b"get(-)", CallsFault::Line(1)),
    (b"get(3 4)", CallsFault::Line(1)),
    (b"get(3,)", CallsFault::Line(1)),
    (b"get(,)", CallsFault::Line(1)),
    (b"get(3))", CallsFault::Line(1)),
    (b"get((3))", CallsFault::Line(1)),
    (b"get(3x)", CallsFault::Line(1)),
    (b"get(\xFF)", CallsFault::Line(1)),
    (b"get, set", CallsFault::Line(1)),
    (b"BEGIN", CallsFault::Line(1)),
    (b"1get", CallsFault::Line(1)),
];

const OF_OTHER_KINDS: [Row<'static>; 8] = [
    (b"all(1, 1, red, green)", CallsFault::Arguments(1)),
    (b"all(1, TRUE, TRUE, green)", CallsFault::Arguments(1)),
    (b"all(1, TRUE, blue, green)", CallsFault::Arguments(1)),
    (b"all(1, TRUE, 0, green)", CallsFault::Arguments(1)),
    (b"all(red, TRUE, red, green)", CallsFault::Arguments(1)),
    (
        b"all(2147483648, TRUE, red, blue)",
        CallsFault::Arguments(1),
    ),
    (b"all(2147483648, TRUE, red, green)", CallsFault::Number(1)),
    (b"lamp(MAXINT)", CallsFault::Line(1)),
];

const OF_NO_SET: [Row<'static>; 1] = [(b"lost(red)", CallsFault::Arguments(1))];

#[tactic(auto, using(bk_calls::proofs::Lines::lines_within))]
fn fault(alloc: Global, text: &[u8], image: &Image) -> Result<Option<CallsFault>, Fail> {
    if text.len() > 1000 || image.ops.as_slice().len() > 1000 {
        return Err(Fail::from("the script or the image"));
    }
    Ok(calls(alloc, text, image).err())
}

fn compare(rt: &impl Abort, alloc: Global, image: &Image, rows: &[Row<'_>]) -> Result<(), Fail> {
    for (text, wanted) in rows {
        let found = fault(alloc, text, image)?;
        assert!(rt; found == Some(*wanted));
    }
    Ok(())
}

#[test]
fn tells_why_a_line_is_no_call(rt: HostRuntime) -> Result<(), Fail> {
    let alloc = rt.alloc();
    compare(&rt, alloc, &image(alloc, TALLY)?, &OF_A_TALLY)?;
    compare(&rt, alloc, &image(alloc, TAKERS)?, &OF_OTHER_KINDS)?;
    compare(&rt, alloc, &without_its_set(alloc)?, &OF_NO_SET)
}
