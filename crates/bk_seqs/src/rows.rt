//! The laws at some formulas, one function a row.

ghost use Rattle.std.specs.Prelude.{◌≡◌, IfOk};
ghost use Rattle.bk_laws.specs.Rows.{IsSmall};
ghost use Rattle.bk_seqs.specs.Rows.{law_1, law_2, law_3, law_4, law_5, law_6, law_7, law_8};
ghost use Rattle.bk_seqs.specs.Rows.{law_9, law_10, law_11, law_12, law_13, law_14, law_15, law_16};
ghost use Rattle.bk_seqs.specs.RowNames.{instance_of};

use crate::making::{card_of, number, one_less, one_more, sequence};
use crate::sides::{
    alone, always, apply, both, index_of, member, sequence_over, some_members, sum,
};
use crate::words::{append, concat, front, prepend, rev, tail};
use bk_bind::LawInstance;
use bk_form::Form;
use bk_io::Memory;
use std::alloc::Global;

// Q1: `card(s <- x)` is `card(s) + 1` if `s : seq(B)`
#[tactic(auto, using(crate::proofs::Measures::measures))]
pub(crate) fn law_1(alloc: Global, s: &Form, x: &Form, b: &Form) -> Result<LawInstance, Memory>
    requires small_s { IsSmall s.now }
    requires small_x { IsSmall x.now }
    requires small_b { IsSmall b.now }
    ensures { IfOk result (λ i. instance_of i ≡ law_1 s.now x.now b.now) }
{
    let left = card_of(alloc, &append(alloc, s, x)?)?;
    let right = one_more(alloc, s)?;
    let sides = alone(alloc, sequence_over(alloc, s, b)?)?;
    Ok(LawInstance { sides, left, right })
}

// Q2: `s <- x : (1 .. (card(s) + 1)) --> B` is `btrue` if `s : seq(B)`, `x : B`
#[tactic(auto, using(crate::proofs::Measures::measures))]
pub(crate) fn law_2(alloc: Global, s: &Form, x: &Form, b: &Form) -> Result<LawInstance, Memory>
    requires small_s { IsSmall s.now }
    requires small_x { IsSmall x.now }
    requires small_b { IsSmall b.now }
    ensures { IfOk result (λ i. instance_of i ≡ law_2 s.now x.now b.now) }
{
    let left = sequence(
        alloc,
        append(alloc, s, x)?,
        one_more(alloc, s)?,
        b.copy(alloc)?,
    )?;
    let right = always(alloc)?;
    let sides = both(alloc, sequence_over(alloc, s, b)?, member(alloc, x, b)?)?;
    Ok(LawInstance { sides, left, right })
}

// Q3: `(s <- x)(card(s) + 1)` is `x` if `s : seq(B)`
#[tactic(auto, using(crate::proofs::Measures::measures))]
pub(crate) fn law_3(alloc: Global, s: &Form, x: &Form, b: &Form) -> Result<LawInstance, Memory>
    requires small_s { IsSmall s.now }
    requires small_x { IsSmall x.now }
    requires small_b { IsSmall b.now }
    ensures { IfOk result (λ i. instance_of i ≡ law_3 s.now x.now b.now) }
{
    let left = apply(alloc, append(alloc, s, x)?, one_more(alloc, s)?)?;
    let right = x.copy(alloc)?;
    let sides = alone(alloc, sequence_over(alloc, s, b)?)?;
    Ok(LawInstance { sides, left, right })
}

// Q4: `(s <- x)(a)` is `s(a)` if `s : seq(B)`, `a : 1 .. card(s)`
#[tactic(auto, using(crate::proofs::Measures::measures))]
pub(crate) fn law_4(
    alloc: Global,
    s: &Form,
    x: &Form,
    a: &Form,
    b: &Form,
) -> Result<LawInstance, Memory>
    requires small_s { IsSmall s.now }
    requires small_x { IsSmall x.now }
    requires small_a { IsSmall a.now }
    requires small_b { IsSmall b.now }
    ensures { IfOk result (λ i. instance_of i ≡ law_4 s.now x.now a.now b.now) }
{
    let left = apply(alloc, append(alloc, s, x)?, a.copy(alloc)?)?;
    let right = apply(alloc, s.copy(alloc)?, a.copy(alloc)?)?;
    let sides = both(alloc, sequence_over(alloc, s, b)?, index_of(alloc, a, s)?)?;
    Ok(LawInstance { sides, left, right })
}

// Q5: `front(s) : (1 .. (card(s) - 1)) --> B` is `btrue` if `s : seq(B)`
#[tactic(auto, using(crate::proofs::Measures::measures))]
pub(crate) fn law_5(alloc: Global, s: &Form, b: &Form) -> Result<LawInstance, Memory>
    requires small_s { IsSmall s.now }
    requires small_b { IsSmall b.now }
    ensures { IfOk result (λ i. instance_of i ≡ law_5 s.now b.now) }
{
    let left = sequence(alloc, front(alloc, s)?, one_less(alloc, s)?, b.copy(alloc)?)?;
    let right = always(alloc)?;
    let sides = alone(alloc, sequence_over(alloc, s, b)?)?;
    Ok(LawInstance { sides, left, right })
}

// Q6: `card(front(s))` is `card(s) - 1` if `s : seq(B)`, `1 <= card(s)`
#[tactic(auto, using(crate::proofs::Measures::measures))]
pub(crate) fn law_6(alloc: Global, s: &Form, b: &Form) -> Result<LawInstance, Memory>
    requires small_s { IsSmall s.now }
    requires small_b { IsSmall b.now }
    ensures { IfOk result (λ i. instance_of i ≡ law_6 s.now b.now) }
{
    let left = card_of(alloc, &front(alloc, s)?)?;
    let right = one_less(alloc, s)?;
    let sides = some_members(alloc, s, b)?;
    Ok(LawInstance { sides, left, right })
}

// Q7: `tail(s) : (1 .. (card(s) - 1)) --> B` is `btrue` if `s : seq(B)`
#[tactic(auto, using(crate::proofs::Measures::measures))]
pub(crate) fn law_7(alloc: Global, s: &Form, b: &Form) -> Result<LawInstance, Memory>
    requires small_s { IsSmall s.now }
    requires small_b { IsSmall b.now }
    ensures { IfOk result (λ i. instance_of i ≡ law_7 s.now b.now) }
{
    let left = sequence(alloc, tail(alloc, s)?, one_less(alloc, s)?, b.copy(alloc)?)?;
    let right = always(alloc)?;
    let sides = alone(alloc, sequence_over(alloc, s, b)?)?;
    Ok(LawInstance { sides, left, right })
}

// Q8: `card(tail(s))` is `card(s) - 1` if `s : seq(B)`, `1 <= card(s)`
#[tactic(auto, using(crate::proofs::Measures::measures))]
pub(crate) fn law_8(alloc: Global, s: &Form, b: &Form) -> Result<LawInstance, Memory>
    requires small_s { IsSmall s.now }
    requires small_b { IsSmall b.now }
    ensures { IfOk result (λ i. instance_of i ≡ law_8 s.now b.now) }
{
    let left = card_of(alloc, &tail(alloc, s)?)?;
    let right = one_less(alloc, s)?;
    let sides = some_members(alloc, s, b)?;
    Ok(LawInstance { sides, left, right })
}

// Q9: `rev(s) : (1 .. card(s)) --> B` is `btrue` if `s : seq(B)`
#[tactic(auto, using(crate::proofs::Measures::measures))]
pub(crate) fn law_9(alloc: Global, s: &Form, b: &Form) -> Result<LawInstance, Memory>
    requires small_s { IsSmall s.now }
    requires small_b { IsSmall b.now }
    ensures { IfOk result (λ i. instance_of i ≡ law_9 s.now b.now) }
{
    let left = sequence(alloc, rev(alloc, s)?, card_of(alloc, s)?, b.copy(alloc)?)?;
    let right = always(alloc)?;
    let sides = alone(alloc, sequence_over(alloc, s, b)?)?;
    Ok(LawInstance { sides, left, right })
}

// Q10: `card(rev(s))` is `card(s)` if `s : seq(B)`
#[tactic(auto, using(crate::proofs::Measures::measures))]
pub(crate) fn law_10(alloc: Global, s: &Form, b: &Form) -> Result<LawInstance, Memory>
    requires small_s { IsSmall s.now }
    requires small_b { IsSmall b.now }
    ensures { IfOk result (λ i. instance_of i ≡ law_10 s.now b.now) }
{
    let left = card_of(alloc, &rev(alloc, s)?)?;
    let right = card_of(alloc, s)?;
    let sides = alone(alloc, sequence_over(alloc, s, b)?)?;
    Ok(LawInstance { sides, left, right })
}

// Q11: `rev(rev(s))` is `s` if `s : seq(B)`
#[tactic(auto, using(crate::proofs::Measures::measures))]
pub(crate) fn law_11(alloc: Global, s: &Form, b: &Form) -> Result<LawInstance, Memory>
    requires small_s { IsSmall s.now }
    requires small_b { IsSmall b.now }
    ensures { IfOk result (λ i. instance_of i ≡ law_11 s.now b.now) }
{
    let left = rev(alloc, &rev(alloc, s)?)?;
    let right = s.copy(alloc)?;
    let sides = alone(alloc, sequence_over(alloc, s, b)?)?;
    Ok(LawInstance { sides, left, right })
}

// Q12: `card(s ^ t)` is `card(s) + card(t)` if `s : seq(B)`, `t : seq(B)`
#[tactic(auto, using(crate::proofs::Measures::measures))]
pub(crate) fn law_12(alloc: Global, s: &Form, t: &Form, b: &Form) -> Result<LawInstance, Memory>
    requires small_s { IsSmall s.now }
    requires small_t { IsSmall t.now }
    requires small_b { IsSmall b.now }
    ensures { IfOk result (λ i. instance_of i ≡ law_12 s.now t.now b.now) }
{
    let left = card_of(alloc, &concat(alloc, s, t)?)?;
    let right = sum(alloc, s, t)?;
    let sides = both(
        alloc,
        sequence_over(alloc, s, b)?,
        sequence_over(alloc, t, b)?,
    )?;
    Ok(LawInstance { sides, left, right })
}

// Q13: `s ^ t : (1 .. (card(s) + card(t))) --> B` is `btrue` if `s : seq(B)`, `t : seq(B)`
#[tactic(auto, using(crate::proofs::Measures::measures))]
pub(crate) fn law_13(alloc: Global, s: &Form, t: &Form, b: &Form) -> Result<LawInstance, Memory>
    requires small_s { IsSmall s.now }
    requires small_t { IsSmall t.now }
    requires small_b { IsSmall b.now }
    ensures { IfOk result (λ i. instance_of i ≡ law_13 s.now t.now b.now) }
{
    let left = sequence(
        alloc,
        concat(alloc, s, t)?,
        sum(alloc, s, t)?,
        b.copy(alloc)?,
    )?;
    let right = always(alloc)?;
    let sides = both(
        alloc,
        sequence_over(alloc, s, b)?,
        sequence_over(alloc, t, b)?,
    )?;
    Ok(LawInstance { sides, left, right })
}

// Q14: `card(x -> s)` is `card(s) + 1` if `s : seq(B)`
#[tactic(auto, using(crate::proofs::Measures::measures))]
pub(crate) fn law_14(alloc: Global, x: &Form, s: &Form, b: &Form) -> Result<LawInstance, Memory>
    requires small_x { IsSmall x.now }
    requires small_s { IsSmall s.now }
    requires small_b { IsSmall b.now }
    ensures { IfOk result (λ i. instance_of i ≡ law_14 x.now s.now b.now) }
{
    let left = card_of(alloc, &prepend(alloc, x, s)?)?;
    let right = one_more(alloc, s)?;
    let sides = alone(alloc, sequence_over(alloc, s, b)?)?;
    Ok(LawInstance { sides, left, right })
}

// Q15: `x -> s : (1 .. (card(s) + 1)) --> B` is `btrue` if `s : seq(B)`, `x : B`
#[tactic(auto, using(crate::proofs::Measures::measures))]
pub(crate) fn law_15(alloc: Global, x: &Form, s: &Form, b: &Form) -> Result<LawInstance, Memory>
    requires small_x { IsSmall x.now }
    requires small_s { IsSmall s.now }
    requires small_b { IsSmall b.now }
    ensures { IfOk result (λ i. instance_of i ≡ law_15 x.now s.now b.now) }
{
    let left = sequence(
        alloc,
        prepend(alloc, x, s)?,
        one_more(alloc, s)?,
        b.copy(alloc)?,
    )?;
    let right = always(alloc)?;
    let sides = both(alloc, sequence_over(alloc, s, b)?, member(alloc, x, b)?)?;
    Ok(LawInstance { sides, left, right })
}

// Q16: `(x -> s)(1)` is `x`
#[tactic(auto, using(crate::proofs::Measures::measures))]
pub(crate) fn law_16(alloc: Global, x: &Form, s: &Form) -> Result<LawInstance, Memory>
    requires small_x { IsSmall x.now }
    requires small_s { IsSmall s.now }
    ensures { IfOk result (λ i. instance_of i ≡ law_16 x.now s.now) }
{
    let left = apply(alloc, prepend(alloc, x, s)?, number(alloc, 1)?)?;
    let right = x.copy(alloc)?;
    let sides = Vec::new(alloc);
    Ok(LawInstance { sides, left, right })
}
