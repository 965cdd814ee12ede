// Lists of numbers of ranges by their own numbers.

ghost use Rattle.std.specs.Prelude.{◌≡◌, ◌<◌, List, Some, length, map, slice_get, IfOk};
ghost use Rattle.bk_form.specs.PoolKeys.{Differ, Grows};

use bk_io::Memory;
use indexmap::IndexSet;

// The number of the list, which is put last where it is not there yet.
pub(crate) fn range_number(
    ranges: &mut IndexSet<Vec<usize>>,
    list: &[usize],
) -> Result<usize, Memory>
    requires { Differ (map (λ ns. ns.items) ranges.old.keys) }
    ensures differ { Differ (map (λ ns. ns.items) ranges.new.keys) }
    ensures grows { Grows (map (λ ns. ns.items) ranges.old.keys) (map (λ ns. ns.items) ranges.new.keys) }
    ensures number { IfOk result (λ n. slice_get (map (λ ns. ns.items) ranges.new.keys) n ≡ Some list.now) }
{
    let copy = Vec::from_slice(*ranges.allocator(), list)?;
    let (n, _) = ranges.insert_full(copy)?;
    Ok(n)
}

// The list of this number.
pub(crate) fn ranges_at(ranges: &IndexSet<Vec<usize>>, r: usize) -> &[usize]
    requires { r < length (map (λ ns. ns.items) ranges.now.keys) }
    ensures { slice_get (map (λ ns. ns.items) ranges.now.keys) r ≡ Some result.now }
{
    &ranges[r]
}
