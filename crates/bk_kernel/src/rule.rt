//! The rules of proof.

use bk_form::Form;
use bk_lin::Line;

/// A place in a sequent: a path of child numbers into the goal, or into the hypothesis of a number, from 1.
#[derive(Drop)]
pub enum Place {
    Goal(Vec<u32>),
    Hyp(u32, Vec<u32>),
}

/// A rule, which makes a list of sequents of a sequent. The sequent is valid where each of the list is. Hypotheses are named by
/// their numbers, from 1, and new ones come last. A rule that rewrites changes the goal, or adds the changed hypothesis; what it
/// puts stands for the same kind of thing as what stood there. Names are numbers of variables: the table gives their types.
#[derive(Drop)]
pub enum Rule {
    /// The goal is that hypothesis: nothing is left.
    Hyp(u32),
    /// The goal is `btrue`: nothing is left.
    True,
    /// The goal is `E = E`: nothing is left.
    Same,
    /// Without a place: the goal is a true comparison or membership of closed sums, and nothing is left. At a place: `btrue` or
    /// `bfalse` for such a comparison or membership, or for an equality of two elements or of two truth values.
    Eval(Option<Place>),
    /// That hypothesis is `bfalse`: nothing is left.
    False(u32),
    /// The second hypothesis is `not` of the first: nothing is left.
    Absurd(u32, u32),
    /// The goal `P & Q`: one sequent for `P`, then one for `Q`.
    And,
    /// The goal `P <=> Q`: one sequent for `P => Q`, then one for `Q => P`.
    Iff,
    /// The goal `P => Q`: `P` is a new hypothesis, and `Q` the goal.
    Imp,
    /// The goal `not(P)`: `P` is a new hypothesis, and `bfalse` the goal.
    Not,
    /// The goal `P or Q`: the goal `P`.
    Left,
    /// The goal `P or Q`: the goal `Q`.
    Right,
    /// The goal `P or Q`: `not(P)` is a new hypothesis, and `Q` the goal.
    Or,
    /// Any goal: its denial is a new hypothesis, and `bfalse` the goal.
    Contra,
    /// The goal is a `!`: its body for these names, which have the types of its variables and stand in no formula of the
    /// sequent.
    Fix(Vec<u32>),
    /// The goal is a `#`: its body for these terms, one of its type for each of its variables.
    UseTerms(Vec<Form>),
    /// That hypothesis is `P & Q`: both are new hypotheses.
    Split(u32),
    /// That hypothesis is `P or Q`: one sequent with each as a new hypothesis.
    Cases(u32),
    /// That hypothesis is `P => Q`: the goal `P`, then the goal that there was with `Q` as a new hypothesis.
    Apply(u32),
    /// That hypothesis is a `!`: its body for these terms is a new hypothesis.
    Inst(u32, Vec<Form>),
    /// That hypothesis is a `#`: its body for these names is a new hypothesis; the names are as for `Fix`.
    OpenSome(u32, Vec<u32>),
    /// The goal `P`, then the goal that there was with `P` as a new hypothesis.
    Cut(Form),
    /// The goal that there was with `P` as a new hypothesis, then with `not(P)`.
    Case(Form),
    /// The sequent without that hypothesis.
    Drop(u32),
    /// That hypothesis is `E = F`: at the place `F` comes for `E`.
    Eq(u32, Place),
    /// That hypothesis is `E = F`: at the place `E` comes for `F`.
    Qe(u32, Place),
    /// At the place the right formula of the law comes for its left one: first one sequent for each side, then the rewritten
    /// one. The law is given by its number and the formulas that it takes.
    Law {
        law: u16,
        picks: Vec<Form>,
        place: Place,
    },
    /// The same with the left formula of the law for its right one.
    Wal {
        law: u16,
        picks: Vec<Form>,
        place: Place,
    },
    /// `btrue` for `E : N`, where `N` is `BOOL`, `INTEGER` or an enumerated set.
    TypeOf(Place),
    /// The other quantifier of `not(P)` for `not` of a quantifier over `P`.
    Neg(Place),
    /// For `E : {..}`, or `E |-> F : %..`, what its terms meet: the memberships in the ranges and the body, and for a lambda that
    /// `F` is the value.
    Mem(Place),
    /// For a lambda applied its value: first one sequent for what the terms meet, then the rewritten one.
    Val(Place),
    /// `!x.(x : S <=> x : T)` for the equality `S = T` of sets.
    Ext(Place),
    /// `!x.(x : S => x : A)` for `S : POW(A)`.
    Sub(Place),
    /// For a member of a domain, a range or an image, or a pair in a composition: that there is what makes it one.
    Ex(Place),
    /// The term is of a pair type: that it is some pair is a new hypothesis.
    Pair(Form),
    /// The term is of `BOOL` or of an enumerated set: one sequent for each element, with the equality as a new hypothesis.
    Elems(Form),
    /// That hypothesis is `E : a .. b` of literals, with at most 64 numbers: one sequent for each number, with the equality as a
    /// new hypothesis.
    Interval(u32),
    /// The goal `!x.(x : NATURAL => P)`: the goal `P` at 0, then the goal that `P` goes on from each natural number to the next.
    Induct,
    /// The goal is `a = b` with equal polynomials: nothing is left.
    Poly,
    /// The goal follows from the listed hypotheses by linear arithmetic, as the certificate shows: nothing is left. Its facts
    /// are those of the hypotheses in the order listed, then that of the negated goal.
    Lin {
        facts: Vec<u32>,
        lines: Vec<Line>,
    },
    /// A rule whose terms are not read, or do not type where they stand: an instance of nothing.
    Unread,
}
