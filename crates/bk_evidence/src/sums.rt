//! Sums over obligations.

ghost use Rattle.std.specs.Prelude.{◌≡◌, ◌&&◌, not, count_by};
ghost use Rattle.bk_status.specs.Rows as rows;
ghost use Rattle.bk_report.specs.Table as texts;
ghost use Rattle.bk_evidence.specs.Items as meant;
ghost use Rattle.bk_evidence.specs.Items.{count_items, count_of, sums_over};

use crate::item::{Item, is_settled};
use bk_origins::{Concern, concern_of};
use bk_status::State;

/// How many obligations there are, and how many are obvious, proved and neither.
#[derive(Clone, Copy, PartialEq, Eq, Debug)]
pub struct Sums {
    pub obligations: usize,
    pub obvious: usize,
    pub proved: usize,
    pub left: usize,
}

/// The sums over all items.
pub fn sums_of(items: &[Item]) -> Sums
    ensures { result ≡ sums_over items.now }
{
    Sums {
        obligations: items.len(),
        obvious: obvious_count(items),
        proved: proved_count(items),
        left: left_count(items),
    }
}

fn obvious_count(items: &[Item]) -> usize
    ensures { result ≡ count_items texts.is_obvious_state items.now }
{
    items.iter().filter(|item| is_obvious(item.state)).count()
}

fn proved_count(items: &[Item]) -> usize
    ensures { result ≡ count_items texts.is_proved_state items.now }
{
    items.iter().filter(|item| is_proved(item.state)).count()
}

fn left_count(items: &[Item]) -> usize
    ensures { result ≡ count_items (λ state. not (rows.is_settled state)) items.now }
{
    items.iter().filter(|item| is_left(item.state)).count()
}

/// The sums over the items of one kind.
pub fn sums_with(items: &[Item], concern: Concern) -> Sums
    ensures { result ≡ meant.sums_with concern items.now }
{
    Sums {
        obligations: count_with(items, concern),
        obvious: obvious_with(items, concern),
        proved: proved_with(items, concern),
        left: left_with(items, concern),
    }
}

fn count_with(items: &[Item], concern: Concern) -> usize
    ensures { result ≡ count_by (meant.is_of concern) items.now }
{
    items.iter().filter(|item| is_of(concern, item)).count()
}

fn obvious_with(items: &[Item], concern: Concern) -> usize
    ensures { result ≡ count_of concern texts.is_obvious_state items.now }
{
    items
        .iter()
        .filter(|item| is_of(concern, item) && is_obvious(item.state))
        .count()
}

fn proved_with(items: &[Item], concern: Concern) -> usize
    ensures { result ≡ count_of concern texts.is_proved_state items.now }
{
    items
        .iter()
        .filter(|item| is_of(concern, item) && is_proved(item.state))
        .count()
}

fn left_with(items: &[Item], concern: Concern) -> usize
    ensures { result ≡ count_of concern (λ state. not (rows.is_settled state)) items.now }
{
    items
        .iter()
        .filter(|item| is_of(concern, item) && is_left(item.state))
        .count()
}

// Whether an obligation is of the kind, by its name.
fn is_of(concern: Concern, item: &Item) -> bool
    ensures { result ≡ meant.is_of concern item.now }
{
    is_same(concern, concern_of(item.name.as_bytes()))
}

fn is_same(one: Concern, other: Concern) -> bool
    ensures { result ≡ meant.is_same one other }
{
    match one {
        Concern::Initialisation => matches!(other, Concern::Initialisation),
        Concern::Operation => matches!(other, Concern::Operation),
        Concern::Assertion => matches!(other, Concern::Assertion),
        Concern::Values => matches!(other, Concern::Values),
        Concern::Definedness => matches!(other, Concern::Definedness),
        Concern::Other => matches!(other, Concern::Other),
    }
}

fn is_left(state: State) -> bool
    ensures { result ≡ not (rows.is_settled state) }
{
    !is_settled(state)
}

fn is_obvious(state: State) -> bool
    ensures { result ≡ texts.is_obvious_state state }
{
    matches!(state, State::Obvious)
}

fn is_proved(state: State) -> bool
    ensures { result ≡ texts.is_proved_state state }
{
    matches!(state, State::Proved)
}
