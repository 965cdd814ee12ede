// The types of values.

ghost use Rattle.std.specs.Prelude.{◌≡◌, IfOk, IsTrue, ◌↔◌};
ghost use Rattle.bk_val.specs.ValueType.{int_type, bool_type, enum_type, pair_type, set_type};
ghost use Rattle.bk_form.specs.Storable.{is_storable_type, are_storable_types};
ghost use Rattle.bk_form.specs.TypeShown.{shown_type};

use bk_io::Memory;
use std::alloc::Global;
use std::marker::Model;
use std::rc::Rc;

/// A type of values. Its parts are shared, so a copy takes no memory of their size.
#[cycle(ty)]
#[derive(Drop)]
pub struct Ty {
    node: TyNode,
}

#[cycle(ty)]
#[derive(Drop)]
enum TyNode {
    Int,
    Bool,
    Enum(u32),
    Pair(Rc<Ty>, Rc<Ty>),
    Set(Rc<Ty>),
}

impl Model for Ty {
    ghost use Rattle.std.specs.Prelude.{IsTrue};
    ghost use Rattle.bk_form.specs.Storable.{is_storable_type};
    ghost use Rattle.bk_val.specs.ValueType.{ValueType, coded_type, type_size};

    ghost Value = { ValueType };

    ghost coded = { coded_type };

    ghost use Rattle.bk_form.specs.Codes.TypeView.{type_view};

    ghost view = { λ t. type_view t.node };

    ghost invariant = { λ t. IsTrue (is_storable_type (type_view t.node)) };

    ghost size = { type_size };

    ghost use Rattle.bk_form.specs.Codes.TypeFalls.{type_falls};

    ghost size_decreases = { λ a h. type_falls a.node };
}

/// What a type is, with its parts.
#[derive(Clone, Copy)]
pub enum TyView<'a> {
    /// Whole numbers.
    Int,
    /// `TRUE` and `FALSE`.
    Bool,
    /// The elements of the enumerated set of this number.
    Enum(u32),
    /// Pairs of a value of the one and a value of the other.
    Pair(&'a Ty, &'a Ty),
    /// Finite sets of its values.
    Set(&'a Ty),
}

impl Ty {
    /// The type of whole numbers.
    pub fn int() -> Ty
        ensures { result ≡ int_type }
    {
        Ty { node: TyNode::Int }
    }

    /// The type of `TRUE` and `FALSE`.
    pub fn boolean() -> Ty
        ensures { result ≡ bool_type }
    {
        Ty { node: TyNode::Bool }
    }

    /// The type of the elements of the enumerated set of this number.
    pub fn enumerated(set: u32) -> Ty
        ensures { result ≡ enum_type set }
    {
        Ty {
            node: TyNode::Enum(set),
        }
    }

    /// The type of pairs.
    pub fn pair(alloc: Global, left: Ty, right: Ty) -> Result<Ty, Memory>
        ensures { IfOk result (λ t. t ≡ pair_type left right) }
    {
        left.numbers_fit();
        right.numbers_fit();
        Ok(Ty {
            node: TyNode::Pair(Rc::new(alloc, left)?, Rc::new(alloc, right)?),
        })
    }

    /// The type of sets whose elements have this type.
    pub fn set(alloc: Global, elements: Ty) -> Result<Ty, Memory>
        ensures { IfOk result (λ t. t ≡ set_type elements) }
    {
        elements.numbers_fit();
        Ok(Ty {
            node: TyNode::Set(Rc::new(alloc, elements)?),
        })
    }

    /// Its enumerated sets have numbers of 32 bits. It does nothing: callers learn this of the mathematical type.
    pub fn numbers_fit(&self)
        ensures { IsTrue (is_storable_type self.now) }
    {
        let _ = &self.node;
    }

    #[tactic(auto, using(crate::proofs::StorableLists::one_more_storable))]
    /// The enumerated sets of each type have numbers of 32 bits.
    pub fn all_numbers_fit(types: &[Ty])
        ensures { IsTrue (are_storable_types types.now) }
    {
        for ty in types {
            ty.numbers_fit();
        }
    }

    /// What it is, and its parts. It takes no memory.
    pub fn view(&self) -> TyView<'_>
        ensures { shown_type result ≡ self.now }
    {
        match &self.node {
            TyNode::Int => TyView::Int,
            TyNode::Bool => TyView::Bool,
            TyNode::Enum(set) => TyView::Enum(*set),
            TyNode::Pair(left, right) => TyView::Pair(left, right),
            TyNode::Set(elements) => TyView::Set(elements),
        }
    }

    /// The same type again.
    pub fn copy(&self, _alloc: Global) -> Result<Ty, Memory>
        ensures { IfOk result (λ t. t ≡ self.now) }
    {
        let node = match &self.node {
            TyNode::Int => TyNode::Int,
            TyNode::Bool => TyNode::Bool,
            TyNode::Enum(set) => TyNode::Enum(*set),
            TyNode::Pair(left, right) => TyNode::Pair(left.clone()?, right.clone()?),
            TyNode::Set(elements) => TyNode::Set(elements.clone()?),
        };
        Ok(Ty { node })
    }

    /// The same types again.
    pub fn copy_all(types: &[Ty], alloc: Global) -> Result<Vec<Ty>, Memory>
        ensures { IfOk result (λ ts. ts.items ≡ types.now) }
    {
        let mut copies = Vec::new(alloc);
        for ty in types {
            copies.push(ty.copy(alloc)?)?;
        }
        Ok(copies)
    }

    /// Whether the two are the same type.
    pub fn equal(&self, other: &Ty) -> bool
        ensures { IsTrue result ↔ (self.now ≡ other.now) }
    {
        match (&self.node, &other.node) {
            (TyNode::Int, TyNode::Int) => true,
            (TyNode::Bool, TyNode::Bool) => true,
            (TyNode::Enum(a), TyNode::Enum(b)) => a == b,
            (TyNode::Pair(a, b), TyNode::Pair(c, d)) => a.equal(c) && b.equal(d),
            (TyNode::Set(a), TyNode::Set(b)) => a.equal(b),
            _ => false,
        }
    }

    /// Whether the two are the same types in the same order.
    pub fn equal_all(types: &[Ty], others: &[Ty]) -> bool
        ensures { IsTrue result ↔ (types.now ≡ others.now) }
    {
        if types.len() != others.len() {
            return false;
        }
        for i in 0..types.len() {
            if !types[i].equal(&others[i]) {
                return false;
            }
        }
        true
    }
}
