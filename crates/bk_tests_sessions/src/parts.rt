// What both kinds of developments are built from.

ghost use Rattle.std.specs.Prelude.{◌≡◌, IfOk, [], ◌∷◌, false};
ghost use Rattle.bk_dev.specs.Development.{default_max};
ghost use Rattle.bk_dev.specs.Facts.{IsDevelopment};
ghost use Rattle.bk_form.specs.Formula.{variable, literal, binary, btrue, named};
ghost use Rattle.bk_form.specs.declared.operator.BinOp.TheVariants.{In, TotalFunctions};
ghost use Rattle.bk_form.specs.declared.operator.Domain.TheVariants.{Integer};
ghost use Rattle.bk_gsl.specs.Substitution.{seq};
ghost use Rattle.bk_tests_sessions.specs.Drawn.{set_to, zero_to_two, all_zero};

use bk_dev::{Body, DEFAULT_MAX, Development, Home, Kind, Level, OpHead};
use bk_form::{BinOp, Domain, Form, Part, UnOp, VarTable};
use bk_gsl::Sub;
use bk_io::{Memory, Text};
use bk_tests_fixtures::{always, becomes, binary, interval, leaf, literal, text, unary, variable};
use std::alloc::Global;

// ---- statements

/// x := a number
pub(crate) fn set_to_number(alloc: Global, x: u32, value: i128) -> Result<Sub, Memory>
    ensures { IfOk result (λ s. s ≡ set_to x (literal value)) }
{
    let term = literal(alloc, value)?;
    becomes(alloc, x, term)
}

/// x := y
pub(crate) fn set_to_variable(alloc: Global, x: u32, y: u32) -> Result<Sub, Memory>
    ensures { IfOk result (λ s. s ≡ set_to x (variable y)) }
{
    let term = variable(alloc, y)?;
    becomes(alloc, x, term)
}

/// x := a number ; rest
pub(crate) fn number_first(alloc: Global, x: u32, value: i128, rest: Sub) -> Result<Sub, Memory>
    ensures { IfOk result (λ s. s ≡ seq (set_to x (literal value)) rest) }
{
    let first = set_to_number(alloc, x, value)?;
    Sub::seq(alloc, first, rest)
}

/// x := y ; rest
pub(crate) fn variable_first(alloc: Global, x: u32, y: u32, rest: Sub) -> Result<Sub, Memory>
    ensures { IfOk result (λ s. s ≡ seq (set_to x (variable y)) rest) }
{
    let first = set_to_variable(alloc, x, y)?;
    Sub::seq(alloc, first, rest)
}

/// f := 0..2 * {0}
pub(crate) fn filling(alloc: Global, f: u32) -> Result<Sub, Memory>
    ensures { IfOk result (λ s. s ≡ set_to f all_zero) }
{
    let domain = interval(alloc, 0, 2)?;
    let zero = literal(alloc, 0)?;
    let set = unary(alloc, UnOp::Single, zero)?;
    let fill = binary(alloc, BinOp::Times, domain, set)?;
    becomes(alloc, f, fill)
}

/// f : 0..2 --> INTEGER
pub(crate) fn is_array(alloc: Global, f: u32) -> Result<Form, Memory>
    ensures { IfOk result (λ p. p ≡ binary In (variable f) (binary TotalFunctions zero_to_two (named Integer))) }
{
    let domain = interval(alloc, 0, 2)?;
    let numbers = leaf(alloc, Part::Name(Domain::Integer))?;
    let functions = binary(alloc, BinOp::TotalFunctions, domain, numbers)?;
    let array = variable(alloc, f)?;
    binary(alloc, BinOp::In, array, functions)
}

// ---- components

/// One operation that may always be called.
pub(crate) fn operation(alloc: Global, sub: Sub, outputs: Vec<u32>) -> Result<Vec<Body>, Memory>
    ensures { IfOk result (λ bodies. bodies.items ≡ record { condition = btrue; sub = sub; outputs = outputs.items } ∷ []) }
{
    let pre = always(alloc)?;
    let body = Body { pre, sub, outputs };
    Ok(vec![in alloc; body]?)
}

/// One header.
pub(crate) fn header(
    alloc: Global,
    name: &[u8],
    inputs: Vec<u32>,
    outputs: u32,
) -> Result<Vec<OpHead>, Memory>
    ensures { IfOk result (λ heads. heads.items ≡ record { name = name.now; inputs = inputs.items; outputs = outputs } ∷ []) }
{
    let name = text(alloc, name)?;
    let head = OpHead {
        name,
        inputs,
        outputs,
    };
    Ok(vec![in alloc; head]?)
}

/// A component without properties, links and assertions.
pub(crate) fn level(
    alloc: Global,
    name: Text,
    kind: Kind,
    vars: Vec<u32>,
    invariant: Form,
    init: Sub,
    bodies: Vec<Body>,
) -> Result<Level, Memory>
    ensures { IfOk result (λ l. l ≡ record {
      name = name;
      kind = kind;
      vars = vars.items;
      properties = btrue;
      invariant = invariant;
      links = [];
      assertions = [];
      init = init;
      bodies = bodies.items;
    }) }
{
    let properties = always(alloc)?;
    Ok(Level {
        name,
        kind,
        vars,
        properties,
        invariant,
        links: Vec::new(alloc),
        assertions: Vec::new(alloc),
        init,
        bodies,
    })
}

/// The same component with links.
pub(crate) fn with_links(level: Level, links: Vec<(u32, u32)>) -> Level
    ensures { result ≡ record {
      name = level.name;
      kind = level.kind;
      vars = level.vars;
      properties = level.properties;
      invariant = level.invariant;
      links = links.items;
      assertions = level.assertions;
      init = level.init;
      bodies = level.bodies;
    } }
{
    Level { links, ..level }
}

/// A development without sets and values, in the range where none is said.
pub(crate) fn development(
    alloc: Global,
    table: VarTable,
    homes: Vec<Home>,
    heads: Vec<OpHead>,
    levels: Vec<Level>,
    extents: Vec<(usize, usize)>,
) -> Development
    requires { IsDevelopment (record {
      max = default_max;
      table = table;
      homes = homes.items;
      sets = [];
      heads = heads.items;
      levels = levels.items;
      values = [];
      extents = extents.items;
    }) }
    ensures { result ≡ record {
      max = default_max;
      table = table;
      homes = homes.items;
      sets = [];
      heads = heads.items;
      levels = levels.items;
      values = [];
      extents = extents.items;
    } }
{
    Development {
        max: DEFAULT_MAX,
        table,
        homes,
        sets: Vec::new(alloc),
        heads,
        levels,
        values: Vec::new(alloc),
        extents,
    }
}
