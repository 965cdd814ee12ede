//! Values, their order, and the finite sets of them.

ghost use Rattle.std.specs.Prelude.{◌≡◌, ◌↔◌, true, IsTrue, IfOk, [], length};
ghost use Rattle.std.specs.Prelude.{refl};
ghost use Rattle.std.specs.Ordering.{eq_by_cmp, as_partial_cmp};
ghost use Rattle.std.specs.Cmp.{partial_equiv_from_equiv};
ghost use Rattle.bk_val.specs.CmpLaws.{value_cmp-total, value_eq-equivalence, value_cmp-partial};
ghost use Rattle.bk_val.specs.Value.{MathValue, int, bool, elem, pair, set, value_cmp, values_cmp};
ghost use Rattle.bk_val.specs.Value.{values_of, IsStrictlySorted, is_storable, are_storable, IsStoredSet};
ghost use Rattle.bk_val.specs.Sets.{has, set_of};

use crate::error::Memory;
use std::alloc::Global;
use std::cmp::Ordering;
use std::marker::Model;

/// A value of set theory: its numbers lie in `i128`, and each set in it is sorted, at every depth. Clauses
/// see the mathematical value. Match on `&value.node`; the constructors make one of its parts.
#[cycle(val)]
#[derive(Drop)]
pub struct Val {
    pub node: Node,
}

/// What a value is, with its parts.
#[cycle(val)]
#[derive(Drop)]
pub enum Node {
    /// A whole number.
    Int(i128),
    /// TRUE or FALSE.
    Bool(bool),
    /// The element at a place, from 0, of the enumerated set with that number.
    Elem { set: u32, index: u32 },
    /// A pair, as `x |-> y`.
    Pair(Box<Val>, Box<Val>),
    /// A finite set.
    Set(ValSet),
}

/// A finite set of values. Clauses see the list of its elements in rising order.
#[cycle(val)]
#[derive(Drop)]
pub struct ValSet {
    pub(crate) items: Vec<Val>,
}

impl Model for Val {
    ghost use Rattle.std.specs.Prelude.{◌≡◌, true};
    ghost use Rattle.bk_val.specs.Value.{MathValue, value_code, weight, is_storable};

    ghost Value = { MathValue };

    ghost coded = { value_code };

    ghost use Rattle.bk_val.specs.ValueOf.{value_of};

    ghost view = { λ v. value_of v.node };

    ghost invariant = { λ v. is_storable (value_of v.node) ≡ true };

    ghost size = { weight };

    ghost use Rattle.bk_val.specs.Codes.ValueFalls.{depth_le-weight};

    ghost size_decreases = { λ v h. depth_le-weight v.node };
}

impl Model for ValSet {
    ghost use Rattle.std.specs.Prelude.{List};
    ghost use Rattle.std.specs.Coded.{coded_list};
    ghost use Rattle.bk_val.specs.Value.{MathValue, value_code, list_weight, IsStoredSet};

    ghost Value = { List MathValue };

    ghost coded = { coded_list value_code };

    ghost view = { λ s. s.items.items };

    ghost invariant = { λ s. IsStoredSet s.items.items };

    ghost size = { list_weight };

    ghost use Rattle.std.proofs.Common.{arith};
    ghost use Rattle.bk_val.specs.Weights.{most_le-list_weight};

    ghost size_decreases = { λ s h. omega (arith, most_le-list_weight s.items.items) };
}

impl Val {
    /// A whole number.
    pub fn int(number: i128) -> Val
        ensures { result ≡ int number }
    {
        Val {
            node: Node::Int(number),
        }
    }

    /// TRUE or FALSE.
    pub fn boolean(truth: bool) -> Val
        ensures { result ≡ bool truth }
    {
        Val {
            node: Node::Bool(truth),
        }
    }

    /// The element at place `index`, from 0, of the enumerated set with the number `set`.
    pub fn element(set: u32, index: u32) -> Val
        ensures { result ≡ elem set index }
    {
        Val {
            node: Node::Elem { set, index },
        }
    }

    /// The pair `first |-> second`.
    pub fn pair(alloc: Global, first: Val, second: Val) -> Result<Val, Memory>
        ensures { IfOk result (λ p. p ≡ pair first second) }
    {
        value_is_well_formed(&first);
        value_is_well_formed(&second);
        let first = Box::new(alloc, first)?;
        let second = Box::new(alloc, second)?;
        Ok(Val {
            node: Node::Pair(first, second),
        })
    }

    /// A finite set, as a value.
    pub fn set(elements: ValSet) -> Val
        ensures { result ≡ set (values_of elements) }
    {
        let _ = &elements.items;
        Val {
            node: Node::Set(elements),
        }
    }
}

impl ValSet {
    /// The empty set.
    pub fn new(alloc: Global) -> ValSet
        ensures { result ≡ [] }
    {
        ValSet {
            items: Vec::new(alloc),
        }
    }

    /// The set of the values of a list, in which a value may stand more than once. Takes no memory.
    pub fn from_items(mut items: Vec<Val>) -> ValSet
        ensures exact { result ≡ set_of items.items }
        ensures members { (q : MathValue) → has result q ≡ has items.items q }
    {
        values_are_well_formed(&items);
        items.sort_unstable();
        items.dedup();
        ValSet { items }
    }

    /// How many elements it has.
    pub fn len(&self) -> usize
        ensures { result ≡ length self.now }
    {
        self.items.len()
    }

    /// Whether it is the empty set.
    pub fn is_empty(&self) -> bool
        ensures { IsTrue result ↔ (self.now ≡ []) }
    {
        self.items.is_empty()
    }

    /// Its elements, in rising order.
    pub fn as_slice(&self) -> &[Val]
        ensures items { result.now ≡ self.now }
        ensures sorted { IsStrictlySorted self.now }
        ensures well_formed { IsStoredSet self.now }
    {
        self.items.as_slice()
    }
}

/// A law: every value is well formed. Its numbers are in range, and its sets are sorted at every depth.
pub fn value_is_well_formed(value: &Val)
    ensures { is_storable value.now ≡ true }
{
    let _ = &value.node;
}

/// A law: every value of a list is well formed.
pub fn values_are_well_formed(values: &[Val])
    ensures { are_storable (values_of values.now) ≡ true }
{
    for value in values {
        value_is_well_formed(value);
    }
}

/// The order of values: numbers come first, then truth values, elements, pairs and sets. Takes no memory.
#[cycle(order)]
pub fn compare(a: &Val, b: &Val) -> Ordering
    ensures { result ≡ value_cmp a.now b.now }
{
    match (&a.node, &b.node) {
        (Node::Int(x), Node::Int(y)) => x.cmp(y),
        (Node::Int(_), _) => Ordering::Less,
        (Node::Bool(_), Node::Int(_)) => Ordering::Greater,
        (Node::Bool(x), Node::Bool(y)) => x.cmp(y),
        (Node::Bool(_), _) => Ordering::Less,
        (Node::Elem { .. }, Node::Int(_) | Node::Bool(_)) => Ordering::Greater,
        (Node::Elem { set: s, index: i }, Node::Elem { set: t, index: j }) => s
            .cmp(t)
            .then(i.cmp(j)),
        (Node::Elem { .. }, _) => Ordering::Less,
        (Node::Pair(x, y), Node::Pair(z, w)) => match compare(x, z) {
            Ordering::Equal => compare(y, w),
            unequal => unequal,
        },
        (Node::Pair(..), Node::Set(_)) => Ordering::Less,
        (Node::Pair(..), _) => Ordering::Greater,
        (Node::Set(s), Node::Set(t)) => compare_items(&s.items, &t.items),
        (Node::Set(_), _) => Ordering::Greater,
    }
}

/// The first difference decides, and else the length.
#[cycle(order)]
fn compare_items(a: &[Val], b: &[Val]) -> Ordering
    ensures { result ≡ values_cmp (values_of a.now) (values_of b.now) }
{
    let shared = a.len().min(b.len());
    for i in 0..shared {
        match compare(&a[i], &b[i]) {
            Ordering::Equal => {}
            unequal => return unequal,
        }
    }
    a.len().cmp(&b.len())
}

impl PartialEq for Val {
    ghost eq = { eq_by_cmp value_cmp };

    ghost laws = { partial_equiv_from_equiv value_eq-equivalence };

    fn eq(&self, other: &Val) -> bool {
        compare(self, other).is_eq()
    }
}

impl Eq for Val {
    ghost laws = { value_eq-equivalence };
}

impl PartialOrd for Val {
    ghost partial_cmp = { as_partial_cmp value_cmp };

    ghost laws = { value_cmp-partial };

    fn partial_cmp(&self, other: &Val) -> Option<Ordering> {
        Some(compare(self, other))
    }
}

impl Ord for Val {
    ghost cmp = { value_cmp };

    ghost total = { value_cmp-total };

    ghost matches_partial_cmp = { λ x y. refl };

    ghost matches_eq = { λ x y. refl };

    fn cmp(&self, other: &Val) -> Ordering {
        compare(self, other)
    }
}

impl Val {
    /// An equal value, of its own.
    #[cycle(copy)]
    pub fn copy(&self, alloc: Global) -> Result<Val, Memory>
        ensures same { IfOk result (λ v. v ≡ self.now) }
        ensures well_formed { is_storable self.now ≡ true }
    {
        let node = match &self.node {
            Node::Int(z) => Node::Int(*z),
            Node::Bool(b) => Node::Bool(*b),
            Node::Elem { set, index } => Node::Elem {
                set: *set,
                index: *index,
            },
            Node::Pair(first, second) => {
                let first = Box::new(alloc, first.copy(alloc)?)?;
                let second = Box::new(alloc, second.copy(alloc)?)?;
                Node::Pair(first, second)
            }
            Node::Set(s) => Node::Set(s.copy(alloc)?),
        };
        Ok(Val { node })
    }
}

impl ValSet {
    /// An equal set, of its own.
    #[cycle(copy)]
    pub fn copy(&self, alloc: Global) -> Result<ValSet, Memory>
        ensures same { IfOk result (λ s. s ≡ self.now) }
        ensures well_formed { IsStoredSet self.now }
    {
        let mut items = Vec::new(alloc);
        for x in &self.items {
            items.push(x.copy(alloc)?)?;
        }
        Ok(ValSet { items })
    }
}
