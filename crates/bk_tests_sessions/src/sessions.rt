// The unit, the code and a session of an implementation with an array, a local and a loop.

ghost use Rattle.std.specs.Prelude.{◌≡◌, false, IfOk};
ghost use Rattle.bk_b0.specs.Translation.{translation};
ghost use Rattle.bk_dev.specs.B0.{IsB0Development};

use crate::exchange::exchange;
use bk_b0::{B0Unit, Slot, b0};
use bk_code::{Image, Inst};
use bk_dev::Development;
use bk_form::{ArrayDomain, ArrayRow};
use bk_gen::translate;
use bk_sim::Session;
use bk_vm::CallEnd;
use std::alloc::Global;
use std::test::Fail;

#[tactic(auto, using(bk_sim::proofs::ExchangeFacts::exchange_in_b0))]
fn exchange_unit(alloc: Global) -> Result<B0Unit, Fail> {
    let exchange = exchange(alloc)?;
    Ok(b0(alloc, &exchange)?)
}

fn slot(variable: u32, cells: u128) -> Slot {
    Slot { variable, cells }
}

#[test]
fn an_array_has_a_cell_for_each_index(rt: HostRuntime) -> Result<(), Fail> {
    let unit = exchange_unit(rt.alloc())?;
    let slots = [slot(2, 1), slot(3, 1), slot(4, 3), slot(5, 1)];
    let rows = [ArrayRow {
        var: 4,
        domain: ArrayDomain::Interval { low: 0, high: 2 },
    }];
    assert!(rt; unit.slots() == slots.as_slice());
    assert!(rt; unit.arrays().rows() == rows.as_slice());
    Ok(())
}

fn exchange_image(alloc: Global) -> Result<Image, Fail> {
    let unit = exchange_unit(alloc)?;
    Ok(translate(alloc, &unit)?)
}

// The code from one place up to another.
fn part(image: &Image, start: usize, end: usize) -> &[Inst] {
    image.code.as_slice().get(start..end).unwrap_or(&[])
}

#[test]
fn a_fill_stores_each_element(rt: HostRuntime) -> Result<(), Fail> {
    let image = exchange_image(rt.alloc())?;
    let wanted = [
        Inst::Push(0),
        Inst::Store(2),
        Inst::Push(0),
        Inst::Store(3),
        Inst::Push(0),
        Inst::Store(4),
        Inst::Ret,
    ];
    assert_eq!(rt; image.cells, 6);
    assert!(rt; part(&image, 4, 11) == wanted.as_slice());
    Ok(())
}

#[test]
fn an_element_is_read_into_a_local(rt: HostRuntime) -> Result<(), Fail> {
    let image = exchange_image(rt.alloc())?;
    let wanted = [
        Inst::Load(5),
        Inst::Store(1),
        Inst::Push(1),
        Inst::ALoad {
            base: 2,
            low: 0,
            count: 3,
        },
        Inst::Store(5),
    ];
    assert!(rt; part(&image, 15, 20) == wanted.as_slice());
    Ok(())
}

#[test]
fn a_loop_jumps_back(rt: HostRuntime) -> Result<(), Fail> {
    let image = exchange_image(rt.alloc())?;
    let wanted = [
        Inst::Push(0),
        Inst::Load(5),
        Inst::Lt,
        Inst::JumpZero(6),
        Inst::Load(5),
        Inst::Push(1),
        Inst::Sub,
        Inst::Store(5),
        Inst::Jump(-8),
        Inst::Ret,
    ];
    assert!(rt; part(&image, 22, 32) == wanted.as_slice());
    Ok(())
}

/// A session over the translation of an implementation in B0.
#[tactic(auto, using(bk_b0::proofs::Units::units_are_translated))]
pub(crate) fn session_of(alloc: Global, dev: &Development) -> Result<Session, Fail>
    requires { IsB0Development dev.now }
    ensures started { IfOk result (λ s. s.started ≡ false) }
    ensures image { IfOk result (λ s. s.image ≡ translation dev.now) }
{
    let unit = b0(alloc, dev)?;
    let image = translate(alloc, &unit)?;
    Ok(Session::new(alloc, image, dev)?)
}

#[tactic(auto, using(bk_sim::proofs::ExchangeFacts::exchange_in_b0))]
fn exchange_session(alloc: Global) -> Result<Session, Fail>
    ensures { IfOk result (λ s. s.started ≡ false) }
{
    let exchange = exchange(alloc)?;
    session_of(alloc, &exchange)
}

#[test]
fn a_session_runs_the_translation(rt: HostRuntime) -> Result<(), Fail> {
    let mut session = exchange_session(rt.alloc())?;
    assert_eq!(rt; session.image().code.as_slice().len(), 32);
    assert_eq!(rt; session.start(1000), CallEnd::Done { steps: 11 });
    Ok(())
}
