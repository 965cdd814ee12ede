// What a formula is, its parts given by their numbers.

use crate::operator::{BinOp, Domain, UnOp};

// What a formula is: the variants are those of `Part`, with the numbers of its parts in their order. Instead of its types a binder
// has the number of their list first, and instead of its ranges that of the list of their numbers.
#[derive(Clone, Copy, PartialEq, Eq, Hash)]
pub(crate) enum Key {
    Var(u32),
    Bound(u32),
    Int(i128),
    Bool(bool),
    Elem(u32, u32),
    Empty(usize),
    Name(Domain),
    True,
    False,
    Un(UnOp, usize),
    Bin(BinOp, usize, usize),
    All(usize, usize),
    Some(usize, usize),
    Compr(usize, usize),
    Lam(usize, usize, usize),
}
