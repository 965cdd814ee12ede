// Lists of types by their numbers.

ghost use Rattle.std.specs.Prelude.{◌≡◌, ◌<◌, List, Some, length, map, slice_get, IfOk};
ghost use Rattle.bk_val.specs.ValueType.{ValueType};
ghost use Rattle.bk_form.specs.PoolKeys.{Differ, Grows};

use crate::ty::Ty;
use bk_io::Memory;

// The number of the list of types, which is put last where it is not there yet.
pub(crate) fn type_number(types: &mut Vec<Vec<Ty>>, list: &[Ty]) -> Result<usize, Memory>
    requires { Differ (map (λ ts. ts.items) types.old.items) }
    ensures differ { Differ (map (λ ts. ts.items) types.new.items) }
    ensures grows { Grows (map (λ ts. ts.items) types.old.items) (map (λ ts. ts.items) types.new.items) }
    ensures number { IfOk result (λ n. slice_get (map (λ ts. ts.items) types.new.items) n ≡ Some list.now) }
{
    for i in 0..types.len() {
        if Ty::equal_all(&types[i], list) {
            return Ok(i);
        }
    }
    let n = types.len();
    let copy = Ty::copy_all(list, *types.allocator())?;
    types.push(copy)?;
    Ok(n)
}

// The list of this number.
pub(crate) fn types_at(types: &Vec<Vec<Ty>>, t: usize) -> &[Ty]
    requires { t < length (map (λ ts. ts.items) types.now.items) }
    ensures { slice_get (map (λ ts. ts.items) types.now.items) t ≡ Some result.now }
{
    &types[t]
}
