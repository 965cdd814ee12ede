//! The instances of a table of laws.

ghost use Rattle.std.specs.Prelude.{◌≡◌, ◌↔◌, ◌≤◌, ℕ, All, Some, None, Ok, IfOk, map, take, length};
ghost use Rattle.std.specs.List.{list_any};
ghost use Rattle.bk_laws.specs.Patterns.{formula_of, asks_empty};
ghost use Rattle.bk_laws.specs.Rows.{Row, Instance, IsSmall, built, pick_at, wants_empty, row_named, instance_at, IsFault};
ghost use Rattle.bk_laws.specs.declared.instances.Found.TheVariants.{NoLaw, WrongPicks};
ghost use Rattle.bk_laws.specs.Found.{found_instance};
ghost use Rattle.bk_laws.specs.Tables.{pattern_at, row_of, rows_of, law_named, wrong_from, fault_of};

use crate::build::{asks_empty, is_empty_set, pattern};
use bk_form::Form;
use bk_io::Memory;
use bk_ops::{Law, Pat};
use std::alloc::Global;

/// What is found of a law at some picks.
#[derive(Drop)]
pub enum Found {
    /// There is no law of this number.
    NoLaw,
    /// How many picks there are, where the law has another number of letters; else the first one, counted from 1, that has to
    /// be an empty set and is none.
    WrongPicks(u32),
    /// The law at the picks: where left and right stand for the same kind of thing and the sides are true, they mean the same.
    Made {
        sides: Vec<Form>,
        left: Form,
        right: Form,
    },
}

// No pattern of a law has more nodes on a way down.
const MAX_DEPTH: u32 = 8;

/// The instance of the law of this number at these picks, in a table of patterns and rows. The picks stand in the order in
/// which the law's letters first occur in its left, its right, then its sides.
pub fn instance<const N: usize, const M: usize>(
    alloc: Global,
    pats: &[Pat; N],
    laws: &[Law; M],
    name: u16,
    picks: &[Form],
) -> Result<Found, Memory>
    requires { All IsSmall picks.now }
    ensures value { IfOk result
        (λ f. (i : Instance) → found_instance f ≡ Some i →
        instance_at (rows_of pats.now laws.now) name picks.now ≡ Some i) }
    ensures unknown { (result ≡ Ok NoLaw) ↔ (row_named (rows_of pats.now laws.now) name ≡ None) }
    ensures picks { (k : ℕ) → (result ≡ Ok (WrongPicks k)) ↔
        ((row : Row) × (row_named (rows_of pats.now laws.now) name ≡ Some row) × IsFault row picks.now k) }
{
    let Some(law) = law_named(laws, name) else {
        return Ok(Found::NoLaw);
    };
    if let Some(k) = fault_of(pats, &law, picks) {
        return Ok(Found::WrongPicks(k));
    }
    built(alloc, pats, &law, picks)
}

// The first law of this number.
fn law_named(laws: &[Law], name: u16) -> Option<Law>
    ensures { result ≡ law_named laws.now name }
{
    for law in laws {
        if law.name == name {
            return Some(*law);
        }
    }
    None
}

// The numbers of the sides that are meant.
fn sides_of(law: &Law) -> &[u16]
    ensures { result.now ≡ take law.now.count law.now.sides }
{
    let count = usize::from(law.count);
    if count < 3 {
        &law.sides[..count]
    } else {
        &law.sides
    }
}

// The formulas of some patterns.
fn patterns(
    alloc: Global,
    pats: &[Pat],
    picks: &[Form],
    numbers: &[u16],
) -> Result<Vec<Form>, Memory>
    requires { All IsSmall picks.now }
    ensures { IfOk result
        (λ fs. fs.items ≡ map (λ n. formula_of (pick_at picks.now) (pattern_at pats.now 8 n)) numbers.now) }
{
    let mut forms = Vec::new(alloc);
    for number in numbers {
        forms.push(pattern(alloc, pats, picks, MAX_DEPTH, *number)?)?;
    }
    Ok(forms)
}

// The row at the picks.
#[tactic(auto, using(crate::proofs::Built::map_steps))]
fn built(alloc: Global, pats: &[Pat], law: &Law, picks: &[Form]) -> Result<Found, Memory>
    requires { All IsSmall picks.now }
    ensures { IfOk result (λ f. found_instance f ≡ Some (built (row_of pats.now law.now) (pick_at picks.now))) }
{
    let sides = patterns(alloc, pats, picks, sides_of(law))?;
    let left = pattern(alloc, pats, picks, MAX_DEPTH, law.left)?;
    let right = pattern(alloc, pats, picks, MAX_DEPTH, law.right)?;
    Ok(Found::Made { sides, left, right })
}

// Whether letter `k` stands for an empty set in one of the patterns.
fn any_asks(pats: &[Pat], k: u16, numbers: &[u16]) -> bool
    ensures { result ≡ list_any (asks_empty k) (map (pattern_at pats.now 8) numbers.now) }
{
    for number in numbers {
        if asks_empty(pats, k, MAX_DEPTH, *number) {
            return true;
        }
    }
    false
}

// Whether letter `k` stands for an empty set in the row.
fn wants_empty(pats: &[Pat], law: &Law, k: u16) -> bool
    ensures { result ≡ wants_empty (row_of pats.now law.now) k }
{
    asks_empty(pats, k, MAX_DEPTH, law.left)
        || asks_empty(pats, k, MAX_DEPTH, law.right)
        || any_asks(pats, k, sides_of(law))
}

// The first pick, counted from 1, that is no empty set where the row wants one.
fn first_wrong(pats: &[Pat], law: &Law, picks: &[Form]) -> Option<u32>
    requires { length picks.now ≤ 255 }
    ensures { result ≡ wrong_from (row_of pats.now law.now) 0 picks.now }
{
    let mut k: u16 = 0;
    for form in picks {
        if wants_empty(pats, law, k) && !is_empty_set(form) {
            return Some(u32::from(k) + 1);
        }
        k += 1;
    }
    None
}

// What is wrong with the picks: their number, or the first that is no empty set where the row wants one.
fn fault_of(pats: &[Pat], law: &Law, picks: &[Form]) -> Option<u32>
    ensures { result ≡ fault_of (row_of pats.now law.now) picks.now }
{
    if picks.len() != usize::from(law.picks) {
        return Some(u32::try_from(picks.len()).unwrap_or(u32::MAX));
    }
    first_wrong(pats, law, picks)
}
