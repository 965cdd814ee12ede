//! Laws of the definitions, as contracts of functions that do nothing.

ghost use Rattle.std.specs.Prelude.{◌≡◌, ◌≢◌, ◌↔◌, ◌<◌, ◌+◌, ◌/◌, ℕ, ℤ, pos, nat_abs, ◌+ℤ◌, ◌*ℤ◌, ◌<ℤ◌, ◌≤ℤ◌, List, true, false};
ghost use Rattle.std.specs.Cmp.{IsTotalOrder};
ghost use Rattle.std.specs.declared.cmp.Ordering.TheVariants.{Equal};
ghost use Rattle.bk_val.specs.Value.{MathValue, int, bool, elem, pair, set, none, value_cmp, values_of, is_rising, IsStrictlySorted};
ghost use Rattle.bk_val.specs.Sets.{has, in_domain};
ghost use Rattle.bk_val.specs.Number.{quotient_of, remainder_of, power_of};
ghost use Rattle.bk_val.specs.ValueType.{ValueType, int_type, bool_type, enum_type, pair_type, set_type, base_of, is_value_of};

/// The order of values is one total order, in which equal means the same value.
pub fn order_is_total()
    ensures total { IsTotalOrder value_cmp }
    ensures equal { (x y : MathValue) → (value_cmp x y ≡ Equal) ↔ (x ≡ y) }
{}

/// The elements of a set rise where the list of them is strictly sorted.
pub fn rising_is_sorted()
    ensures { (xs : List MathValue) → (is_rising (values_of xs) ≡ true) ↔ IsStrictlySorted xs }
{}

/// Sets with the same elements are equal.
pub fn sets_are_their_members()
    ensures { (xs ys : List MathValue) → IsStrictlySorted xs → IsStrictlySorted ys →
        ((q : MathValue) → has xs q ≡ has ys q) → xs ≡ ys }
{}

/// The domain of a relation holds the first parts of its pairs.
pub fn domain_holds_first_parts()
    ensures { (r : List MathValue) (x : MathValue) →
        (in_domain r x ≡ true) ↔ ((y : MathValue) × (has r (pair x y) ≡ true)) }
{}

/// What stands for an undefined value of each type.
pub fn base_values()
    ensures whole_number { base_of int_type ≡ int (pos 0) }
    ensures truth_value { base_of bool_type ≡ bool false }
    ensures element { (n : ℕ) → base_of (enum_type n) ≡ elem n 0 }
    ensures pairs { (s t : ValueType) → base_of (pair_type s t) ≡ pair (base_of s) (base_of t) }
    ensures sets { (t : ValueType) → base_of (set_type t) ≡ set none }
{}

/// The base of each type is a value of the type, where every enumerated set has an element.
pub fn base_is_value()
    ensures { (sizes : ℕ → ℕ) → ((n : ℕ) → 0 < sizes n) →
        (t : ValueType) → is_value_of sizes t (base_of t) ≡ true }
{}

/// Division rounds toward zero.
pub fn division_rounds_toward_zero()
    ensures rest { (a b : ℤ) → b ≢ pos 0 →
        (r : ℤ) × ((quotient_of a b *ℤ b +ℤ r ≡ a) × (nat_abs r < nat_abs b)) }
    ensures magnitude { (a b : ℤ) → b ≢ pos 0 → nat_abs (quotient_of a b) ≡ nat_abs a / nat_abs b }
{}

/// A power is the product of as many factors as the exponent says.
pub fn power_multiplies()
    ensures no_factor { (a : ℤ) → power_of a (pos 0) ≡ pos 1 }
    ensures one_more { (a : ℤ) (n : ℕ) → power_of a (pos (n + 1)) ≡ power_of a (pos n) *ℤ a }
{}

/// Outside its domain each operator gives 0.
pub fn numbers_outside_domains()
    ensures division { (a : ℤ) → quotient_of a (pos 0) ≡ pos 0 }
    ensures negative_dividend { (a b : ℤ) → a <ℤ pos 0 → remainder_of a b ≡ pos 0 }
    ensures no_modulus { (a b : ℤ) → b ≤ℤ pos 0 → remainder_of a b ≡ pos 0 }
    ensures negative_exponent { (a b : ℤ) → b <ℤ pos 0 → power_of a b ≡ pos 0 }
{}
