// What is answered of texts that stand below each other.

ghost use Rattle.std.specs.Option.{option_map};
ghost use Rattle.std.specs.Prelude.{◌≡◌, IfOk, IfSome, IsTrue, None};
ghost use Rattle.bk_dev.specs.Facts.{IsDevelopment};
ghost use Rattle.bk_statics.specs.VerdictLaws.{IsRangeBelow, MayStandAbove};

use crate::notation::notation;
use bk_dev::{DEFAULT_MAX, Development};
use bk_elab::level;
use bk_elab_terms::ElabFault;
use bk_io::Memory;
use bk_lex::tokens;
use bk_p_comp::component;
use bk_raw::{ComponentKind, RawComponent};
use std::alloc::Global;

/// What is told of a text.
#[derive(Clone, Copy, PartialEq)]
pub(crate) enum Told {
    Nothing,
    /// The number of the fault and its byte.
    Fault(u8, usize),
    /// The number of the limit.
    Limit(u8),
    /// It is no component, or one that may not stand here.
    Unread,
}

/// Why there is no development.
#[derive(Clone, Copy, PartialEq, Eq, Debug)]
pub(crate) enum Untold {
    Refused,
    Memory,
}

impl From<Memory> for Untold {
    fn from(_: Memory) -> Self {
        Untold::Memory
    }
}

/// What is answered of a text: the development, where it is accepted, and what is told.
#[derive(Drop)]
pub(crate) struct Answer {
    pub development: Option<Box<Development>>,
    pub told: Told,
}

// Nothing but this is told.
fn refused(told: Told) -> Answer
    ensures { result.development ≡ None }
{
    Answer {
        development: None,
        told,
    }
}

// Whether the component may stand below this.
fn may_stand(raw: &RawComponent, above: &Option<Box<Development>>) -> bool
    ensures { IfSome above.now (λ d. IsDevelopment d.value) → IsTrue result →
        MayStandAbove raw.now.kind (option_map (λ d. d.value) above.now) }
{
    match raw.kind {
        ComponentKind::Machine => above.is_none(),
        ComponentKind::Refinement | ComponentKind::Implementation => match above {
            Some(development) => !development.is_complete(),
            None => false,
        },
    }
}

// The component that the text is, where it is one.
fn read(alloc: Global, text: &[u8]) -> Result<Option<Box<RawComponent>>, Memory> {
    let Ok(tokens) = tokens(alloc, text) else {
        return Ok(None);
    };
    match component(alloc, tokens.as_slice()) {
        Ok(component) => Ok(Some(Box::new(alloc, component)?)),
        Err(_) => Ok(None),
    }
}

// The development outside of its box.
fn unboxed(development: Option<Box<Development>>) -> Option<Development>
    ensures { result ≡ option_map (λ d. d.value) development }
{
    match development {
        Some(development) => Some(Box::into_inner(development)),
        None => None,
    }
}

// MAXINT of the levels above, or where there are none the one where no range is said.
#[tactic(auto, using(bk_dev::proofs::DefaultRange::default_range))]
fn max_of(above: &Option<Development>) -> i64
    ensures { IsRangeBelow result above.now }
{
    match above {
        Some(development) => development.int_max(),
        None => DEFAULT_MAX,
    }
}

// The answer to a component below this.
fn answer_to(
    alloc: Global,
    raw: &RawComponent,
    above: Option<Box<Development>>,
) -> Result<Answer, Memory>
    requires { MayStandAbove raw.now.kind (option_map (λ d. d.value) above) }
    ensures { IfOk result (λ a. IfSome a.development (λ dev. IsDevelopment dev.value)) }
{
    let above = unboxed(above);
    let max = max_of(&above);
    match level(alloc, max, raw, above) {
        Ok(development) => Ok(Answer {
            development: Some(Box::new(alloc, development)?),
            told: Told::Nothing,
        }),
        Err(ElabFault::Fault { number, place }) => Ok(refused(Told::Fault(number, place))),
        Err(ElabFault::Limit(number)) => Ok(refused(Told::Limit(number))),
        Err(ElabFault::Memory) => Err(Memory),
    }
}

// The answer to a text below this.
fn answer_below(
    alloc: Global,
    text: &[u8],
    above: Option<Box<Development>>,
) -> Result<Answer, Memory>
    requires { IfSome above (λ dev. IsDevelopment dev.value) }
    ensures { IfOk result (λ a. IfSome a.development (λ dev. IsDevelopment dev.value)) }
{
    let Some(raw) = read(alloc, text)? else {
        return Ok(refused(Told::Unread));
    };
    if !may_stand(&raw, &above) {
        return Ok(refused(Told::Unread));
    }
    answer_to(alloc, &raw, above)
}

// The levels of these texts, where they are a development's.
fn levels(alloc: Global, texts: &[&str]) -> Result<Option<Box<Development>>, Memory>
    ensures { IfOk result (λ d. IfSome d (λ dev. IsDevelopment dev.value)) }
{
    let mut development: Option<Box<Development>> = None;
    for text in texts {
        let next = answer_below(alloc, text.as_bytes(), development)?;
        if next.development.is_none() {
            return Ok(None);
        }
        development = next.development;
    }
    Ok(development)
}

/// The answer to the text below the others.
pub(crate) fn answer_of(alloc: Global, above: &[&str], text: &str) -> Result<Answer, Memory>
    ensures { IfOk result (λ a. IfSome a.development (λ dev. IsDevelopment dev.value)) }
{
    let development = levels(alloc, above)?;
    if development.is_none() && !above.is_empty() {
        return Ok(refused(Told::Unread));
    }
    answer_below(alloc, text.as_bytes(), development)
}

// The substitutions of the operations, as they are noted.
fn meaning(alloc: Global, front: &str, body: &str) -> Result<Option<Vec<u8>>, Memory> {
    let text = format!(in alloc; "{front}{body} END")?;
    match answer_of(alloc, &[], text.as_str())?.development {
        Some(development) => Ok(Some(notation(alloc, &development)?)),
        None => Ok(None),
    }
}

/// Whether both bodies are accepted after the front, and are one substitution.
pub(crate) fn are_one(
    alloc: Global,
    front: &str,
    first: &str,
    second: &str,
) -> Result<bool, Memory> {
    let first = meaning(alloc, front, first)?;
    let second = meaning(alloc, front, second)?;
    Ok(first.is_some() && first == second)
}
