// Formulas.

ghost use Rattle.std.specs.Prelude.{◌≡◌, ◌<◌, ◌≤◌, ◌^◌, IfOk, IsTrue, ◌↔◌};
ghost use Rattle.bk_form.specs.Formula.{formula_size, formula_height, formulas_size, formulas_height, formulas_of};
ghost use Rattle.bk_form.specs.Storable.{is_storable, are_storable, has_storable_parts};
ghost use Rattle.bk_form.specs.Codes.FormView.{made};
ghost use Rattle.bk_form.specs.FormShown.{shown};

use crate::operator::{BinOp, Domain, UnOp};
use crate::ty::Ty;
use bk_io::Memory;
use std::alloc::Global;
use std::marker::Model;
use std::rc::Rc;

/// A formula: an expression or a predicate, with fewer than 2^32 nodes. Its parts are shared, so a copy takes no
/// memory of their size.
#[cycle(form)]
#[derive(Drop)]
pub struct Form {
    shared: Rc<Counted>,
}

#[cycle(form)]
#[derive(Drop)]
struct Counted {
    nodes: u32,
    height: u32,
    part: Part,
}

/// The parts that a formula is made of.
#[cycle(form)]
#[derive(Drop)]
pub enum Part {
    /// The variable of this number.
    Var(u32),
    /// A bound variable, counted outward from the innermost one, which is 0. Of a list of bound variables the last
    /// is innermost.
    Bound(u32),
    /// A whole number.
    Int(i128),
    /// `TRUE` or `FALSE`.
    Bool(bool),
    /// An element of an enumerated set.
    Elem { set: u32, index: u32 },
    /// The empty set of this type, which is the type of the whole set.
    Empty(Ty),
    /// A set that has a name.
    Name(Domain),
    /// The predicate that always holds.
    True,
    /// The predicate that never holds.
    False,
    /// An operator on one formula.
    Un(UnOp, Form),
    /// An operator on two formulas: the left one, then the right one.
    Bin(BinOp, Form, Form),
    /// The body holds for all values of these types.
    All(Vec<Ty>, Form),
    /// The body holds for some values of these types.
    Some(Vec<Ty>, Form),
    /// The elements of the ranges for which the body holds.
    Compr(Vec<Form>, Form),
    /// The function from the elements of the ranges for which the body holds to the value, which stands last.
    Lam(Vec<Form>, Form, Form),
}

impl Model for Form {
    ghost use Rattle.bk_form.specs.Formula.{Formula, formula_size};
    ghost use Rattle.bk_form.specs.Codes.FormulaCodes.{coded_formula};

    ghost Value = { Formula };

    ghost coded = { coded_formula };

    ghost use Rattle.bk_form.specs.Codes.FormView.{made, IsStored};

    ghost view = { λ f. made f.shared.value.part };

    ghost invariant = { IsStored };

    ghost size = { formula_size };

    ghost use Rattle.bk_form.specs.Codes.FormFalls.{part_falls};

    ghost size_decreases = { λ a h. part_falls a.shared.value.part };
}

/// What a formula is, with its parts: the variants are those of `Part`.
#[derive(Clone, Copy)]
pub enum View<'a> {
    Var(u32),
    Bound(u32),
    Int(i128),
    Bool(bool),
    Elem { set: u32, index: u32 },
    Empty(&'a Ty),
    Name(Domain),
    True,
    False,
    Un(UnOp, &'a Form),
    Bin(BinOp, &'a Form, &'a Form),
    All(&'a [Ty], &'a Form),
    Some(&'a [Ty], &'a Form),
    Compr(&'a [Form], &'a Form),
    Lam(&'a [Form], &'a Form, &'a Form),
}

impl Form {
    /// The formula of these parts.
    #[tactic(auto, using(crate::proofs::Heights::heights))]
    pub fn make(alloc: Global, part: Part) -> Result<Form, Memory>
        requires { formula_size (made part) < 2 ^ 32 }
        ensures { IfOk result (λ f. f ≡ made part) }
    {
        let nodes = part.nodes();
        let height = part.height();
        part.numbers_of_parts_fit();
        let counted = Counted {
            nodes,
            height,
            part,
        };
        Ok(Form {
            shared: Rc::new(alloc, counted)?,
        })
    }

    /// How many nodes it has: itself and those of its parts.
    pub fn size(&self) -> u64
        ensures value { result ≡ formula_size self.now }
        ensures fits { formula_size self.now < 2 ^ 32 }
    {
        u64::from(self.shared.nodes)
    }

    /// How many nodes lie on its longest way down.
    pub fn depth(&self) -> u32
        ensures { result ≡ formula_height self.now }
    {
        self.shared.height
    }

    /// Its numbers fit those of the program. It does nothing: callers learn this of the mathematical formula.
    pub fn numbers_fit(&self)
        ensures { IsTrue (is_storable self.now) }
    {
        let _ = &self.shared;
    }

    /// The numbers of each formula fit those of the program.
    #[tactic(auto, using(crate::proofs::StorableLists::one_more_storable))]
    pub fn all_numbers_fit(forms: &[Form])
        ensures { IsTrue (are_storable (formulas_of forms.now)) }
    {
        for form in forms {
            form.numbers_fit();
        }
    }

    /// What it is, and its parts.
    pub fn view(&self) -> View<'_>
        ensures { shown result ≡ self.now }
    {
        match &self.shared.part {
            Part::Var(n) => View::Var(*n),
            Part::Bound(n) => View::Bound(*n),
            Part::Int(z) => View::Int(*z),
            Part::Bool(b) => View::Bool(*b),
            Part::Elem { set, index } => View::Elem {
                set: *set,
                index: *index,
            },
            Part::Empty(ty) => View::Empty(ty),
            Part::Name(domain) => View::Name(*domain),
            Part::True => View::True,
            Part::False => View::False,
            Part::Un(op, operand) => View::Un(*op, operand),
            Part::Bin(op, left, right) => View::Bin(*op, left, right),
            Part::All(types, body) => View::All(types, body),
            Part::Some(types, body) => View::Some(types, body),
            Part::Compr(ranges, body) => View::Compr(ranges, body),
            Part::Lam(ranges, body, value) => View::Lam(ranges, body, value),
        }
    }

    /// The same formula again.
    pub fn copy(&self, _alloc: Global) -> Result<Form, Memory>
        ensures { IfOk result (λ f. f ≡ self.now) }
    {
        Ok(Form {
            shared: self.shared.clone()?,
        })
    }

    /// The same formulas again.
    pub fn copy_all(forms: &[Form], alloc: Global) -> Result<Vec<Form>, Memory>
        ensures { IfOk result (λ fs. fs.items ≡ forms.now) }
    {
        let mut copies = Vec::new(alloc);
        for form in forms {
            copies.push(form.copy(alloc)?)?;
        }
        Ok(copies)
    }

    /// Whether the two are the same formula. Those of different sizes or heights are told apart without a walk through them.
    #[tactic(auto, using(crate::proofs::Sizes::parts_are_equal))]
    #[cycle(equal)]
    pub fn equal(&self, other: &Form) -> bool
        ensures { IsTrue result ↔ (self.now ≡ other.now) }
    {
        if self.nodes() != other.nodes() || self.depth() != other.depth() {
            return false;
        }
        match (&self.shared.part, &other.shared.part) {
            (Part::Var(m), Part::Var(n)) => m == n,
            (Part::Bound(m), Part::Bound(n)) => m == n,
            (Part::Int(m), Part::Int(n)) => m == n,
            (Part::Bool(m), Part::Bool(n)) => m == n,
            (Part::Elem { set: s, index: m }, Part::Elem { set: t, index: n }) => {
                s == t && m == n
            }
            (Part::Empty(t), Part::Empty(u)) => t.equal(u),
            (Part::Name(d), Part::Name(e)) => d == e,
            (Part::True, Part::True) => true,
            (Part::False, Part::False) => true,
            (Part::Un(o, a), Part::Un(p, b)) => o == p && a.equal(b),
            (Part::Bin(o, a, b), Part::Bin(p, c, d)) => o == p && a.equal(c) && b.equal(d),
            (Part::All(t, b), Part::All(u, c)) => Ty::equal_all(t, u) && b.equal(c),
            (Part::Some(t, b), Part::Some(u, c)) => Ty::equal_all(t, u) && b.equal(c),
            (Part::Compr(r, b), Part::Compr(s, c)) => Form::equal_all(r, s) && b.equal(c),
            (Part::Lam(r, b, v), Part::Lam(s, c, w)) => {
                Form::equal_all(r, s) && b.equal(c) && v.equal(w)
            }
            _ => false,
        }
    }

    /// Whether the two are the same formulas in the same order.
    #[tactic(auto, using(crate::proofs::Sizes::parts_are_equal))]
    #[cycle(equal)]
    pub fn equal_all(forms: &[Form], others: &[Form]) -> bool
        ensures { IsTrue result ↔ (forms.now ≡ others.now) }
    {
        if forms.len() != others.len() {
            return false;
        }
        for i in 0..forms.len() {
            if !forms[i].equal(&others[i]) {
                return false;
            }
        }
        true
    }

    fn nodes(&self) -> u32
        ensures { result ≡ formula_size self.now }
    {
        self.shared.nodes
    }
}

impl Part {
    // How many nodes the formula of these parts has.
    fn nodes(&self) -> u32
        requires { formula_size (made self.now) < 2 ^ 32 }
        ensures { result ≡ formula_size (made self.now) }
    {
        match self {
            Part::Un(_, operand) => operand.nodes() + 1,
            Part::Bin(_, left, right) => left.nodes() + right.nodes() + 1,
            Part::All(_, body) => body.nodes() + 1,
            Part::Some(_, body) => body.nodes() + 1,
            Part::Compr(ranges, body) => sum_of_nodes(ranges) + body.nodes() + 1,
            Part::Lam(ranges, body, value) => {
                sum_of_nodes(ranges) + body.nodes() + value.nodes() + 1
            }
            _ => 1,
        }
    }

    // How many nodes lie on the longest way down the formula of these parts.
    #[tactic(auto, using(crate::proofs::Heights::heights))]
    fn height(&self) -> u32
        requires { formula_size (made self.now) < 2 ^ 32 }
        ensures { result ≡ formula_height (made self.now) }
    {
        match self {
            Part::Un(_, operand) => operand.depth() + 1,
            Part::Bin(_, left, right) => left.depth().max(right.depth()) + 1,
            Part::All(_, body) => body.depth() + 1,
            Part::Some(_, body) => body.depth() + 1,
            Part::Compr(ranges, body) => largest_depth(ranges).max(body.depth()) + 1,
            Part::Lam(ranges, body, value) => {
                largest_depth(ranges).max(body.depth().max(value.depth())) + 1
            }
            _ => 1,
        }
    }

    // The numbers of its parts fit those of the program. It does nothing.
    fn numbers_of_parts_fit(&self)
        ensures { IsTrue (has_storable_parts (made self.now)) }
    {
        match self {
            Part::Empty(ty) => ty.numbers_fit(),
            Part::Un(_, operand) => operand.numbers_fit(),
            Part::Bin(_, left, right) => {
                left.numbers_fit();
                right.numbers_fit();
            }
            Part::All(types, body) => {
                Ty::all_numbers_fit(types);
                body.numbers_fit();
            }
            Part::Some(types, body) => {
                Ty::all_numbers_fit(types);
                body.numbers_fit();
            }
            Part::Compr(ranges, body) => {
                Form::all_numbers_fit(ranges);
                body.numbers_fit();
            }
            Part::Lam(ranges, body, value) => {
                Form::all_numbers_fit(ranges);
                body.numbers_fit();
                value.numbers_fit();
            }
            _ => {}
        }
    }
}

// How many nodes they have together.
#[tactic(auto, using(crate::proofs::Sizes::sums))]
fn sum_of_nodes(forms: &[Form]) -> u32
    requires { formulas_size (formulas_of forms.now) < 2 ^ 32 }
    ensures { result ≡ formulas_size (formulas_of forms.now) }
{
    let mut total = 0;
    for form in forms {
        total += form.nodes();
    }
    total
}

// The depth of the deepest, or 0.
#[tactic(auto, using(crate::proofs::Sizes::sums))]
fn largest_depth(forms: &[Form]) -> u32
    ensures { result ≡ formulas_height (formulas_of forms.now) }
{
    let mut largest = 0;
    for form in forms {
        largest = form.depth().max(largest);
    }
    largest
}
